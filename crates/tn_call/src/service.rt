//! The commands that a call serves.
ghost use Rattle.std.specs.Prelude.{◌≡◌, ℕ, Bool, List};
ghost use Rattle.std.specs.declared.option.Option.{Option};
ghost use Rattle.tn_call.specs.declared.status.Status.{Status};
ghost use Rattle.tn_words.specs.declared.command.Command.{Command};

use crate::status::Status;
use std::alloc::Global;
use tn_words::command::Command;

/// What a command answers: the status, the text that is to be written, and what is to be kept.
#[derive(Drop)]
pub struct Answer<K> {
    pub status: Status,
    pub text: Vec<u8>,
    pub kept: K,
}

/// What serves some of the commands.
pub trait Service {
    /// A command that is served.
    type Served: Copy;
    /// What is kept of a call.
    type Kept: Drop;

    // The served command that a command of the words is.
    ghost served: { Command → Option Self.Served };

    // Whether the command reads the source.
    ghost reads: { Self.Served → Bool };

    // What the command answers to an input, with what is kept then.
    ghost answer: { Self.Served → List ℕ → Self.Kept → Status → List ℕ → Type 0 };

    // Nothing is kept.
    ghost fresh: { Self.Kept → Type 0 };

    /// The served command that a command of the words is. None for a command that another call serves or that is not built.
    fn served(command: Command) -> Option<Self::Served>
        ensures { result ≡ served command };

    /// Whether the command reads the source.
    fn reads(command: Self::Served) -> bool
        ensures { result ≡ reads command };

    /// What is kept of a call that answers no input.
    fn nothing(alloc: Global) -> Self::Kept
        ensures { fresh result };
}
