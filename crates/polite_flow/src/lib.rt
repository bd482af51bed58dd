//! Packets of a graph's job flow: the ranks of the places at which they stand, and laws of these ranks.
#![tactic(auto)]

pub mod laws;
pub mod moving;
