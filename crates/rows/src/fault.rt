//! Why the cases cannot be answered.

use std::alloc::AllocError;
use thiserror::Error;

/// Why the cases cannot be answered.
#[derive(Clone, Copy, Debug, PartialEq, Eq, Error)]
pub(crate) enum Fault {
    /// The first line of a case has no bar between its name and its words.
    #[error("a case has a name, a bar and the words of a command")]
    NoWords,
    /// The word behind the second bar names no form.
    #[error("a case is plain, escaped, sorted or fronts")]
    NoForm,
    /// The words are no text.
    #[error("the words of a command are a text")]
    NoText,
    #[error("out of memory")]
    Memory,
}

impl From<AllocError> for Fault {
    fn from(_: AllocError) -> Fault {
        Fault::Memory
    }
}
