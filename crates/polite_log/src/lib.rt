//! The deeds of a history, read at the tiles (`specs/TileDeeds.antt`), the vertex log of a run, and the figures of a run of a graph job
//! (`specs/Summary.antt`).
//!
//! Read `laws::law_tiles` first, then `deeds::deeds_of`.
#![tactic(auto)]

pub mod deeds;
pub mod laws;
pub mod log;
pub mod reading;
pub mod received;
pub mod summary;
