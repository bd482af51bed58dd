//! The routes of a graph: for each pin a tree of records through the boards, and the pin's key.
//!
//! `specs/Tree.antt` defines the tree of a pin, `specs/Routes.antt` all trees and the in-edges of each thread, and
//! `specs/Once.antt` says that a key reaches each edge of its pin once. `specs/Pins.antt` has the pins of a graph, and
//! `specs/Answer.antt` what `routes` answers. Read `routes::routes` first, then `laws::law_served`.
#![tactic(auto)]

mod counting;
mod draft;
pub mod in_edges;
pub mod laws;
mod pins;
pub mod planting;
pub mod routes;
mod spots;
pub mod target;
mod tree;
