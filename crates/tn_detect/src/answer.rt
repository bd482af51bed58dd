//! What the detector announces.

ghost use Rattle.std.specs.Prelude.{◌≡◌};
ghost use Rattle.tn_detect.specs.Notes.{answer_of, value_of};

use crate::facts::Noted;

/// What the detector announces of a machine at rest.
#[derive(Clone, Copy, PartialEq, Eq, Debug)]
pub enum Answer {
    /// A thread has not ended, or the host's script is not at its end. All threads that have not ended vote for the end, or not.
    Live(bool),
    /// Every thread has ended, and the host's script is at its end.
    AllDead,
}

impl Answer {
    /// The answer to what was noted of all parts.
    pub fn of(noted: Noted) -> Answer
        ensures { result ≡ answer_of noted }
    {
        if !noted.live && noted.at_end {
            Answer::AllDead
        } else {
            Answer::Live(noted.votes)
        }
    }
}

/// The number by which a thread learns the answer: 2 if all votes are for the end, 1 if not, and 0 before the first answer.
pub fn value_of(answer: Option<Answer>) -> u32
    ensures { result ≡ value_of answer }
{
    match answer {
        Some(Answer::Live(true)) | Some(Answer::AllDead) => 2,
        Some(Answer::Live(false)) => 1,
        None => 0,
    }
}
