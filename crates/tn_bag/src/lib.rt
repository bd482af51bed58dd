//! Of a machine in memory: the letters in their places, the steps of the bag machine that a run is, and the test of the
//! detector's invariant. `tn_letters` and `tn_rest` define them.
#![tactic(auto)]

pub mod audit;
mod keyed;
pub mod laws;
mod letters;
pub mod places;
mod router;
pub mod spell;
mod turns;
