//! The detector.

ghost use Rattle.std.specs.Prelude.{◌≡◌, ◌<◌, ◌^◌, ◌↔◌, IfOk, IsSome, IsTrue, Some, is_some};
ghost use Rattle.tn_detect.specs.DetectorView.{IsDetector, fresh_detector, now_by};
ghost use Rattle.tn_detect.specs.Notes.{answer_of};
ghost use Rattle.tn_detect.specs.Reports.{report_at};
ghost use Rattle.tn_detect.specs.Rows.{announce_row, begin_row, confirm_row, go_row, judged, release_row, report_row};

use crate::answer::Answer;
use crate::facts::{Confirmed, PartView};
use crate::phase::Phase;
use crate::state::DetectorState;
use std::alloc::{AllocError, Global};
use std::marker::Model;

/// The detector of a machine: how many parts it visits, which no event changes, and its state.
#[derive(Drop)]
pub struct Detector {
    visited: u32,
    state: DetectorState,
}

impl Model for Detector {
    ghost use Rattle.tn_detect.specs.DetectorView.{DetectorView, IsDetector};

    ghost Value = { DetectorView };

    ghost view = { λ d. record { visited = d.visited; now = d.state } };

    ghost invariant = { λ d. IsDetector (record { visited = d.visited; now = d.state }) };
}

impl Detector {
    /// The detector of a machine of so many parts at its start.
    pub fn of(alloc: Global, visited: u32) -> Result<Detector, AllocError>
        requires { 0 < visited }
        ensures { IfOk result (λ d. d ≡ fresh_detector visited) }
    {
        let state = DetectorState::new(alloc, visited)?;
        Ok(Detector { visited, state })
    }

    /// How many parts the detector visits.
    pub fn visited(&self) -> u32
        ensures { result ≡ self.now.visited }
    {
        self.visited
    }

    /// Tells what holds of every detector.
    pub fn kept(&self)
        ensures { IsDetector self.now }
    {
        let _visited = &self.visited;
    }

    /// What the detector does next.
    pub fn phase(&self) -> Phase
        ensures { result ≡ self.now.now.phase }
    {
        self.state.phase
    }

    /// The report of a part.
    pub fn reported(&self, i: u32) -> Option<i64>
        requires { i < self.now.visited }
        ensures { result ≡ report_at self.now.now.reports i }
    {
        self.state.reports.get(i)
    }

    /// What was noted since the last Begin: whether a confirmed part has a thread that has not ended, whether all confirmed
    /// parts vote for the end, and whether the host was confirmed with its script at its end.
    pub fn noted(&self) -> (bool, bool, bool)
        ensures { result ≡ (self.now.now.noted.live, self.now.now.noted.votes, self.now.now.noted.at_end) }
    {
        let noted = self.state.noted;
        (noted.live, noted.votes, noted.at_end)
    }

    /// The answer of the last Announce.
    pub fn answer(&self) -> Option<Answer>
        ensures { result ≡ self.now.now.answer }
    {
        self.state.answer
    }

    /// Whether a part can report.
    pub fn can_report(&self, i: u32, v: &PartView) -> bool
        requires { i < self.now.visited }
        ensures { result ≡ is_some (report_row i v.now self.now.now) }
    {
        self.state.can_report(i, v)
    }

    /// A part reports its counter.
    pub fn report(&mut self, i: u32, v: &PartView)
        requires part { i < self.old.visited }
        requires can { IsSome (report_row i v.now self.old.now) }
        ensures { now_by self.old (report_row i v.now self.old.now) ≡ Some self.new }
    {
        self.state.report(i, v);
    }

    /// Whether the detector can begin to confirm.
    pub fn can_begin(&self) -> bool
        ensures { result ≡ is_some (begin_row self.now.now) }
    {
        self.state.can_begin()
    }

    /// The detector begins to confirm, and forgets what it noted.
    pub fn begin(&mut self)
        requires { IsSome (begin_row self.old.now) }
        ensures { now_by self.old (begin_row self.old.now) ≡ Some self.new }
    {
        self.state.begin();
    }

    /// The next part is looked at a second time.
    pub fn confirm(&mut self, v: &PartView) -> Confirmed
        requires { IsSome (confirm_row self.old.visited v.now self.old.now) }
        ensures row { now_by self.old (confirm_row self.old.visited v.now self.old.now) ≡ Some self.new }
        ensures answer { result ≡ judged v.now }
    {
        self.state.confirm(self.visited, v)
    }

    /// The detector announces that the machine is at rest.
    pub fn announce(&mut self) -> Answer
        requires { IsSome (announce_row self.old.visited self.old.now) }
        ensures row { now_by self.old (announce_row self.old.visited self.old.now) ≡ Some self.new }
        ensures answer { result ≡ answer_of self.old.now.noted }
    {
        self.state.announce(self.visited)
    }

    /// The next part is released.
    pub fn release(&mut self)
        requires { IsSome (release_row self.old.visited self.old.now) }
        ensures { now_by self.old (release_row self.old.visited self.old.now) ≡ Some self.new }
    {
        self.state.release(self.visited);
    }

    /// The next part goes on.
    pub fn go(&mut self)
        requires { IsSome (go_row self.old.visited self.old.now) }
        ensures { now_by self.old (go_row self.old.visited self.old.now) ≡ Some self.new }
    {
        self.state.go(self.visited);
    }

    /// The same detector.
    pub fn copy(&self) -> Result<Detector, AllocError>
        ensures { IfOk result (λ d. d ≡ self.now) }
    {
        let state = self.state.copy()?;
        Ok(Detector {
            visited: self.visited,
            state,
        })
    }

    /// Whether the detectors are equal.
    pub fn same(&self, other: &Detector) -> bool
        ensures { IsTrue result ↔ (self.now ≡ other.now) }
    {
        self.visited == other.visited && self.state.same(&other.state)
    }
}
