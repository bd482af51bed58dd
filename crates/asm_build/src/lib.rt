//! Assembly and words: `assemble` and `show`.
//!
//! `specs/Spelling.antt` has the name of each instruction and the form of its arguments, one line each. What a line is
//! in words is in `specs/Code.antt`, by the words of `rv_isa`; what lines are is in `specs/Image.antt`, and what a text
//! is in `specs/Text.antt`. `specs/Shown.antt` has the line of a word. Read `assemble` first, then `laws`.
#![tactic(auto)]

pub mod assemble;
mod code;
mod control;
mod fields;
pub mod image;
pub mod labels;
pub mod laws;
pub mod show;
mod spelling;
