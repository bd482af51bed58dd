//! The packets of graph jobs are on their way in every run.
#![tactic(auto)]

pub mod laws;
