//! How a call of the program ends.
ghost use Rattle.std.specs.Prelude.{◌≡◌, true};
ghost use Rattle.tn_call.specs.Number.{number_of, read_status, status_of, tells, words_status};

use tn_base::event::Outcome;
use tn_io::whole::ReadStop;
use tn_words::command::WordsStop;

/// How a call ended. `number` gives the program's exit status.
#[derive(Clone, Copy, PartialEq, Eq, Debug)]
pub enum Status {
    /// All threads have ended. Of a command that runs no machine: all was written.
    Done,
    /// The words are none of the forms.
    Usage,
    /// The job, or another text, is refused.
    Refused,
    /// A thread trapped.
    Trapped,
    /// A packet's key has no beats.
    BadKey,
    /// A thread used its fuel.
    Spent,
    /// Nothing more can happen, and some thread has not ended.
    Jammed,
    /// The input could not be read.
    ReadFault,
    /// The output could not be written.
    WriteFault,
    /// There was not enough memory.
    Memory,
    /// The input has more than 16,777,216 bytes.
    TooLong,
}

impl Status {
    /// The exit status of the program. Number 10 is not used.
    pub fn number(self) -> u8
        ensures { result ≡ number_of self }
    {
        match self {
            Status::Done => 0,
            Status::Usage => 1,
            Status::Refused => 2,
            Status::Trapped => 3,
            Status::BadKey => 4,
            Status::Spent => 5,
            Status::Jammed => 6,
            Status::ReadFault => 7,
            Status::WriteFault => 8,
            Status::Memory => 9,
            Status::TooLong => 11,
        }
    }

    /// The status of an outcome.
    pub fn of(outcome: Outcome) -> Status
        ensures status { result ≡ status_of outcome }
        ensures tells { tells result ≡ true }
    {
        match outcome {
            Outcome::Done => Status::Done,
            Outcome::Trapped(_, _) => Status::Trapped,
            Outcome::BadKey(_) => Status::BadKey,
            Outcome::Spent(_) => Status::Spent,
            Outcome::Jammed => Status::Jammed,
        }
    }

    /// The status of words that name no command of the call.
    pub(crate) fn of_words(stop: WordsStop) -> Status
        ensures { result ≡ words_status stop }
    {
        match stop {
            WordsStop::Usage => Status::Usage,
            WordsStop::Memory => Status::Memory,
        }
    }

    /// The status of a source whose input was not read to its end.
    pub(crate) fn of_read(stop: ReadStop) -> Status
        ensures { result ≡ read_status stop }
    {
        match stop {
            ReadStop::Fault => Status::ReadFault,
            ReadStop::TooLong => Status::TooLong,
            ReadStop::Memory => Status::Memory,
        }
    }
}
