//! The ways out of tiles and routers, the sides of routers, and the links that lead by them.
//!
//! There is one law here, and no other code. Read `specs/Ways.antt` first.
#![tactic(auto)]

pub mod laws;
