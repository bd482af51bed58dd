//! The check of routing tables.
//!
//! What accepted tables are stands in the crate `tn_keys`, in `specs/Accepted.antt`. Read `check_tables` first. Chains and
//! weights are found by rounds over all beats: the marks of one round give those of the next.
#![tactic(auto)]

pub mod check;
mod kinds;
pub mod laws;
mod measure;
mod rounds;
mod running;
