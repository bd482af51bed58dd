//! The workers of a run in threads: how a worker takes the turns of parts, makes events on them, and gives the parts back. A worker
//! has at most two turns at a time, and soon gives them back. Notes by which workers tell each other which stops may have something to do
//! are advice: a lost note costs time, and no event is lost. A stop is a part that is no link.
//!
//! Read `making` first, then `work`, `worker` and `team`, then `crew` and `run`.
#![tactic(auto)]

pub mod crew;
pub mod making;
#[cfg(test)]
mod note_tests;
pub mod notes;
pub mod run;
pub mod signals;
pub mod team;
pub mod work;
pub mod worker;
