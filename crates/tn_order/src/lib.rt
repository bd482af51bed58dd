//! Letters that one sender sends without a key reach a receiver in their order.
#![tactic(auto)]

pub mod laws;
