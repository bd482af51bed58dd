//! The words of the command line: which command they name, and with what.
//!
//! The forms are `form_of` of `specs/Forms.antt`. Read `read::read_words` first. `clap` reads the words; that it takes the forms and nothing
//! else is proved of it. The product tests the word `--`, which `clap` takes and no form has, and the numbers.
#![tactic(auto)]

pub mod command;
mod forms;
pub mod laws;
mod numbers;
mod parsers;
pub mod read;
