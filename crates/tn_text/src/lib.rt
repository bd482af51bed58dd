//! The rules that all texts share: lines, comments, spaces, words, numbers, names and digits.
//!
//! Its definitions are on lists of bytes: `lines_of`, `content_of`, `words_of`, `number_of`, `hex_bytes_of`. A text by its
//! lines is `read_from` or `built_from` (`specs/Reading.antt`); what a reader's answer means is `Gives` (`specs/Gives.antt`).
//! Read `first_line` first, then `content` and `first_word`.
#![tactic(auto)]

pub mod content;
pub mod cut;
pub mod hex;
pub mod items;
pub mod lines;
pub mod names;
pub mod number_lists;
pub mod numbers;
pub mod print;
pub mod stop;
pub mod words;
