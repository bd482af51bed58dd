//! What tiles, routers, the host and the detector do, and what the events of a machine do, as the laws of rest see it.
//!
//! There are laws here, and no other code. Read `specs/Shows.antt` first, then `specs/Machine.antt`.
#![tactic(auto)]

pub mod laws;
