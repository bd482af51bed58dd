//! The machine's names: shapes, threads, tiles and parts, events, traps, registers and effects.
//!
//! A `Shape` is the numbers of a machine, each within its limits; its definitions, which the contracts of all
//! crates cite, stand in `specs/Shape.antt`. Read `Shape::of` first.
#![tactic(auto)]

pub mod address;
pub mod bytes;
pub mod effect;
pub mod event;
pub mod ids;
pub mod laws;
mod links;
pub mod mask;
pub mod message;
pub mod name;
pub mod op;
pub mod part;
pub mod port;
pub mod regs;
pub mod shape;
