//! Parts with their journals: stamped parts, events on them, and stamped parts at their places.
//!
//! Read `stamped` first, then `doing`, then `placed`.
#![tactic(auto)]

pub mod doing;
pub mod laws;
pub mod placed;
pub mod placing;
pub mod present;
pub mod stamped;
