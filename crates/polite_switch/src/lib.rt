//! The softswitch: what a thread of a graph job does at the firmware's address.
//!
//! One dispatch is `dispatched` of `specs/Table.antt`: it takes what a handler returned, and then does the first row of the
//! table that holds. Read `Switch::next` first.
#![tactic(auto)]

pub mod action;
pub mod course;
pub mod device;
pub mod laws;
pub mod ready;
pub mod row;
pub mod switch;
