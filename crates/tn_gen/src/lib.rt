//! Graph jobs that are drawn.
//!
//! The words are `specs/Drawn.antt`, the job is `specs/Job.antt`. Read `job::generate` first.
#![tactic(auto)]

pub mod draw;
pub mod job;
pub mod laws;
