//! Each edge of a graph brings each message of its vertex once, and each handler is called when it is due: definitions and laws of
//! runs.
#![tactic(auto)]

pub mod deed;
pub mod laws;
