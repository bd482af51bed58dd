//! Runs as texts: the lines of events, both ways, and the lines of what the host took.
//!
//! The lines of events are `specs/Events.antt`, the readings `specs/Reading.antt`. Read `print::print_events` and
//! `read::read_events` first.
#![tactic(auto)]

pub mod host;
mod keyword;
pub mod laws;
mod line;
pub mod parting;
pub mod print;
pub mod read;
