//! What the command `map` writes for a graph that was placed and routed: where each vertex runs, and the boards' tables as
//! sections of a job's text.
//!
//! `specs/Text.antt` defines the text, a line or a section at a time. Read `print::print_map` first, then `laws::law_section`.
#![tactic(auto)]

pub mod laws;
pub mod print;
