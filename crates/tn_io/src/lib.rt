//! Sources, sinks and the gate: how bytes come in and go out, and how a test looks at the workers.
//!
//! What a call of a source or a sink does is defined in `specs/Took.antt` and `specs/Wrote.antt`, when a count of
//! faults rose in `specs/Rose.antt`. Read `whole::read_all` and `whole::write_all` first.
#![tactic(auto)]

pub mod clean;
pub mod gate;
pub mod memory;
pub mod sink;
pub mod source;
pub mod standard;
pub mod whole;
