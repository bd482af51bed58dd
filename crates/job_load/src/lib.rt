//! The machine of a job at its start.
//!
//! The start is `specs/Start.antt`, the memory of its threads `specs/Images.antt`. What refuses a job stands in job_faults.
//! Read `load::load` first.
#![tactic(auto)]

mod graph;
mod groups;
mod image;
pub mod laws;
pub mod load;
mod origin;
mod script;
mod start;
mod threads;
