//! From the parts of a machine and their journals to one run of the machine.
//!
//! `specs/Settles.antt` says what the run is. Read `settle::settle` first.
#![tactic(auto)]

pub mod settle;
