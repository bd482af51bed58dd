//! Assembly as texts, line by line: `read_lines`.
//!
//! `specs/Text.antt` says what a text is by whole lines, `specs/Statement.antt` what a line says, and
//! `specs/Arguments.antt` what its arguments are. Lists, faults and lines are `tn_text`'s. Read `read_lines` first.
#![tactic(auto)]

mod arguments;
pub mod fault;
pub mod line;
pub mod places;
pub mod read;
pub mod registers;
mod statement;
