//! The places of a graph's vertices: for each the thread that runs it, and its device there.
//!
//! The order of the vertices stands in `specs/Order.antt`, their seats in `specs/Seats.antt`, the
//! vertices of each thread in `specs/Roster.antt`. Read `placement` first.
#![tactic(auto)]

pub mod laws;
mod order;
mod outs;
pub mod placement;
pub mod roster;
