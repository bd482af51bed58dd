//! Journals: the events of each part, with stamps, and the merge of all journals into one history. `Merging` says what the
//! merge is. Begin with `Journal`, then read `merge`.
#![tactic(auto)]

pub mod entry;
pub mod item;
pub mod journal;
pub mod laws;
pub mod merge;
mod short;
