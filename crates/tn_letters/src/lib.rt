//! What a machine means: threads that send and receive letters, and one bag of the letters in flight. There are definitions and
//! laws of runs here, and no code of the machine.
//!
//! `specs/Machine.antt` has the bag machine. Read `specs/State.antt` before it, then `specs/Law.antt`.
#![tactic(auto)]

pub mod laws;
pub mod place;
pub mod steps;
