//! Machines in memory: one event, the first event that is enabled, and runs on one thread.
//!
//! What an event makes of a machine stands in `tn_rows`. Read `events::step` and `play::play` first.
#![tactic(auto)]

mod detector;
pub mod events;
mod host;
mod links;
pub mod play;
pub mod world;
