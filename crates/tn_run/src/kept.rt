//! What is kept of a call.
ghost use Rattle.std.specs.Prelude.{◌≡◌, Some, option_copied};
ghost use Rattle.tn_run.specs.Kept.{IsFresh};

use crate::history::History;
use std::alloc::Global;
use std::marker::Model;
use tn_link::plain::PlainLink;
use tn_world::world::World;

/// The machine at its start, if a job was accepted, and the events of its run. Each call of `run_top` sets it anew.
#[derive(Drop)]
pub struct Kept {
    start: Option<World<PlainLink>>,
    history: History,
}

impl Model for Kept {
    ghost use Rattle.tn_run.specs.Kept.{KeptView};

    ghost Value = { KeptView };

    ghost view = { λ k. record { start = k.start; history = k.history } };
}

impl Kept {
    /// Nothing is kept yet.
    pub fn new(alloc: Global) -> Kept
        ensures { IsFresh result }
    {
        Kept {
            start: None,
            history: History::new(alloc),
        }
    }

    /// A machine at its start, and the events of its run.
    pub(crate) fn of(start: World<PlainLink>, history: History) -> Kept
        ensures start { result.start ≡ Some start }
        ensures history { result.history ≡ history }
    {
        Kept {
            start: Some(start),
            history,
        }
    }

    /// The machine at its start, if a job was accepted.
    pub fn start(&self) -> Option<&World<PlainLink>>
        ensures { option_copied result ≡ self.now.start }
    {
        self.start.as_ref()
    }

    /// The events of the run.
    pub fn history(&self) -> &History
        ensures { result.now ≡ self.now.history }
    {
        &self.history
    }
}
