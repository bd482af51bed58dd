//! What a call of the program answers: its status with the cause, the bytes that it writes, and what is kept of it.
//!
//! `specs/Answers.antt` defines the answers once for all commands. A `service::Service` says which commands a call serves, and what each
//! command answers to an input. `call::call` reads the words and the input, and writes the answer: read it first.
#![tactic(auto)]

pub mod call;
pub mod service;
pub mod status;
