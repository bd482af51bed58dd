//! Keys, beats and tables of the board routers, and what a key leads to.
//!
//! A beat is 32 bytes with up to five records. The bits of each record stand in `specs/Record.antt`. Read `RouteRec` and
//! `Beat` first.
#![tactic(auto)]

pub mod beat;
pub mod fault;
pub mod key;
pub mod laws;
pub mod local;
pub mod onward;
mod read;
pub mod record;
pub mod tables;
mod write;

pub use read::read_beat;
pub use write::write_beat;
