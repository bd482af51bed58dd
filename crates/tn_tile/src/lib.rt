//! A tile: threads over one code, the pool of their message slots, and the packets that they sent.
//!
//! A tile is a plan, which no event changes, and a state. A thread's step is `next_step` of `specs/Step.antt`: its
//! instruction, and what it asks of the tile. What each event makes of a tile's state stands in `specs/Rows.antt`. Read
//! `Tile::turn` and `Tile::deliver` first, then `TileState`.
#![tactic(auto)]

mod advance;
mod alone;
mod bits;
mod code;
pub mod deliver;
pub mod laws;
mod pass;
pub mod pending;
mod plan;
mod ready;
mod receivers;
mod rest;
pub mod sender;
mod sight;
pub mod state;
pub mod step;
pub mod threads;
pub mod tile;
