//! What is known of a job that has no fault, or its first fault.
//!
//! The faults in their order are `load_fault` of `specs/Order.antt`, which `check::check` and `map::map_graph` cite, and with
//! them whoever makes a machine. Those of sections are in `specs/Faults.antt`, those of tables in `specs/Tables.antt`, what
//! sections of assembly give in `specs/Assembly.antt`, a graph's places and routes in `specs/Mapping.antt`. Read
//! `check::check` first.
#![tactic(auto)]

mod assembly;
pub mod check;
pub mod code;
pub mod fault;
pub mod handlers;
pub mod laws;
pub mod map;
mod mapping;
mod mixed;
pub mod numbers;
mod room;
mod routed;
mod sections;
pub mod tables;
pub mod text;
