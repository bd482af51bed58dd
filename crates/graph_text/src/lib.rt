//! Graphs as texts: `read_graph`.
//!
//! `specs/Line.antt` says what a line says, `specs/Text.antt` what a text says, `specs/Rows.antt` which row each line
//! gives, and `specs/Graph.antt` what holds of each graph that is read. Read `Graph` first.
#![tactic(auto)]

mod draft;
pub mod graph;
mod line;
mod names;
pub mod read;
