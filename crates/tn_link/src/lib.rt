//! Links: what carries packets from one part of the machine to the next, each a list with a capacity.
//!
//! What each call makes of a link stands in `specs/LinkRows.antt`. Read the trait `Link` first, then `PlainLink`.
#![tactic(auto)]

pub mod link;
pub mod plain;
