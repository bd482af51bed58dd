//! What the runs of graph jobs mean, edge by edge.
#![tactic(auto)]

pub mod laws;
