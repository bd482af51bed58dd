//! The message slots of one tile: each message is stored once, and its slot is used again when all receivers freed it.
//!
//! What each call makes of a pool stands in `specs/Pool.antt`, and what holds of every pool in `specs/WellKept.antt`.
//! Read `Pool::put` first.
#![tactic(auto)]

mod bits;
mod free;
pub mod laws;
pub mod pool;
mod queues;
mod ring;
pub mod slot;
