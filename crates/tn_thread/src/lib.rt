//! A thread: its registers and private memory, and one step of it, seen from its tile through a `View`.
//!
//! One step is `turned` of `specs/Step.antt`: from the effect of an instruction, what the thread sees and the
//! thread, the new thread and what it asks of its tile. Read `Thread::apply` first.
#![tactic(auto)]

pub mod alone;
pub mod ask;
pub mod command;
pub mod dispatch;
pub mod place;
pub mod register;
pub mod send_slot;
pub mod state;
pub mod step;
pub mod thread;
pub mod view;
