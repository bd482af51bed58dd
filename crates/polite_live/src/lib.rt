//! Tiles of a graph's machine along its runs: a tile without a free slot has a thread that can make a step.
#![tactic(auto)]

pub mod laws;
