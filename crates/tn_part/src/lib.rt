//! The parts of a machine, and what an event makes of its own part, or of its two parts.
//!
//! What an event makes of a part stands in `tn_rows`. Read `part` first, then `links`, then `enabled`.
#![tactic(auto)]

pub mod can;
pub mod detector;
pub mod enabled;
mod fits;
pub mod has_parts;
mod host;
mod links;
mod meet;
pub mod part;
pub mod place;
pub mod site;
pub mod visit;
