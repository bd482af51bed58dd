//! The threads of a graph at the start: the states of a thread's vertices in its memory, and its softswitch.
//!
//! What they are stands in `specs/Start.antt`. Read `thread::start_thread` first.
#![tactic(auto)]

mod device;
mod state;
pub mod thread;
