//! Where the letters of one send are, event by event.
//!
//! The definition is `sightings` in `specs/Follow.antt`. Read `follow::follow` first. `law_apart` says why only the parts of an event have to
//! be looked at.
#![tactic(auto)]

pub mod ends;
pub mod follow;
pub mod laws;
pub mod print;
pub mod sighting;
pub mod spots;
