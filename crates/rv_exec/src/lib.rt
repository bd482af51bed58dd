//! What an instruction does to the registers, and what it asks of its thread.
//!
//! What each instruction does stands in `specs/Rows.antt`, one line each, and what the call gives for it in
//! `specs/Exec.antt`. Read `exec::exec` first.
#![tactic(auto)]

mod arithmetic;
pub mod exec;
