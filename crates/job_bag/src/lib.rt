//! What the runs of jobs mean.
#![tactic(auto)]

pub mod laws;
