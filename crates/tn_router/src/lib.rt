//! The router of a board: packets without a key on their way to other parts, and packets with a key, of which it makes
//! copies by the records of its table, one record at a time.
//!
//! A router is a plan, which no event changes, and a state. `specs/Moves.antt` says what one Route makes of a packet,
//! `specs/Rest.antt` which records are still to come, and `specs/Rows.antt` what each event makes of a state. Read `Router`
//! first, then `RouterState`.
#![tactic(auto)]

pub mod laws;
pub mod moves;
mod places;
pub mod plan;
pub mod router;
pub mod state;
mod ways;
pub mod work;
