//! What a run tries next, on one thread or on several: each worker has a range of stops, and an agenda of its range. A stop is a
//! part that is no link. Agendas are advice: what an agenda misses costs time, and no event is lost.
#![tactic(auto)]

pub mod agenda;
pub mod laws;
mod links;
mod marks;
pub mod share;
