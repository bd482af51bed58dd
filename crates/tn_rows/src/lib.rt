//! Definitions of what events make of a machine, of runs, and of how they end. There is no code here: `tn_part` and `tn_world`
//! have it, and the laws of runs cite these definitions alone.
//!
//! Read `specs/Events.antt` first, then `specs/Runs.antt` and `specs/Ends.antt`.
#![tactic(auto)]
