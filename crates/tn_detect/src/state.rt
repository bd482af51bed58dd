//! What events change of a detector.

ghost use Rattle.std.specs.Prelude.{◌≡◌, ◌<◌, ◌^◌, ◌↔◌, IfOk, IsSome, IsTrue, Some, is_some, length};
ghost use Rattle.tn_detect.specs.DetectorView.{fresh_state};
ghost use Rattle.tn_detect.specs.Notes.{answer_of};
ghost use Rattle.tn_detect.specs.Rows.{announce_row, begin_row, confirm_row, go_row, judged, release_row, report_row};

use crate::answer::Answer;
use crate::facts::{Confirmed, Noted, PartView};
use crate::phase::Phase;
use crate::reports::Reports;
use std::alloc::{AllocError, Global};

/// What the detector does next, and what it learned of the parts.
#[derive(Drop)]
pub struct DetectorState {
    pub phase: Phase,
    /// The reports of the parts.
    pub reports: Reports,
    /// What was noted of the parts that are confirmed since the last Begin.
    pub noted: Noted,
    /// The answer of the last Announce.
    pub answer: Option<Answer>,
}

impl DetectorState {
    /// A detector of so many parts at its start.
    pub(crate) fn new(alloc: Global, visited: u32) -> Result<DetectorState, AllocError>
        ensures { IfOk result (λ s. s ≡ fresh_state visited) }
    {
        let reports = Reports::none(alloc, visited)?;
        Ok(DetectorState {
            phase: Phase::Collect,
            reports,
            noted: Noted::nothing(),
            answer: None,
        })
    }

    /// Whether a part can report.
    pub(crate) fn can_report(&self, i: u32, v: &PartView) -> bool
        requires { i < length self.now.reports }
        ensures { result ≡ is_some (report_row i v.now self.now) }
    {
        self.phase == Phase::Collect && v.still && (v.black || self.reports.get(i).is_none())
    }

    /// A part reports.
    pub(crate) fn report(&mut self, i: u32, v: &PartView)
        requires part { i < length self.old.reports }
        requires can { IsSome (report_row i v.now self.old) }
        ensures { report_row i v.now self.old ≡ Some self.new }
    {
        self.reports.set(i, Some(v.counter));
    }

    /// Whether the detector can begin to confirm.
    pub(crate) fn can_begin(&self) -> bool
        ensures { result ≡ is_some (begin_row self.now) }
    {
        self.phase == Phase::Collect && self.reports.are_balanced()
    }

    /// The detector begins to confirm.
    pub(crate) fn begin(&mut self)
        requires { IsSome (begin_row self.old) }
        ensures { begin_row self.old ≡ Some self.new }
    {
        self.phase = Phase::Confirm(0);
        self.noted = Noted::nothing();
    }

    /// The next part is looked at a second time.
    pub(crate) fn confirm(&mut self, visited: u32, v: &PartView) -> Confirmed
        requires places { length self.old.reports ≡ visited }
        requires can { IsSome (confirm_row visited v.now self.old) }
        ensures row { confirm_row visited v.now self.old ≡ Some self.new }
        ensures answer { result ≡ judged v.now }
    {
        let Phase::Confirm(i) = self.phase else {
            return Confirmed::Failed;
        };
        let confirmed = v.judge();
        match confirmed {
            Confirmed::Passed => {
                self.noted = self.noted.with(v);
                self.phase = Phase::Confirm(i + 1);
            }
            Confirmed::Failed => {
                self.reports.set(i, None);
                self.phase = Phase::Collect;
            }
        }
        confirmed
    }

    /// The detector announces that the machine is at rest.
    pub(crate) fn announce(&mut self, visited: u32) -> Answer
        requires { IsSome (announce_row visited self.old) }
        ensures row { announce_row visited self.old ≡ Some self.new }
        ensures answer { result ≡ answer_of self.old.noted }
    {
        let answer = Answer::of(self.noted);
        self.reports.clear();
        self.answer = Some(answer);
        self.phase = Phase::Release(0);
        answer
    }

    /// The next part is released.
    pub(crate) fn release(&mut self, visited: u32)
        requires { IsSome (release_row visited self.old) }
        ensures { release_row visited self.old ≡ Some self.new }
    {
        let Phase::Release(i) = self.phase else {
            return;
        };
        self.phase = if i + 1 == visited {
            Phase::Go(0)
        } else {
            Phase::Release(i + 1)
        };
    }

    /// The next part goes on.
    pub(crate) fn go(&mut self, visited: u32)
        requires { IsSome (go_row visited self.old) }
        ensures { go_row visited self.old ≡ Some self.new }
    {
        let Phase::Go(i) = self.phase else {
            return;
        };
        self.phase = if i + 1 == visited {
            Phase::Collect
        } else {
            Phase::Go(i + 1)
        };
    }

    /// The same state.
    pub(crate) fn copy(&self) -> Result<DetectorState, AllocError>
        ensures { IfOk result (λ s. s ≡ self.now) }
    {
        let reports = self.reports.copy()?;
        Ok(DetectorState {
            phase: self.phase,
            reports,
            noted: self.noted,
            answer: self.answer,
        })
    }

    /// Whether the states are equal.
    pub(crate) fn same(&self, other: &DetectorState) -> bool
        ensures { IsTrue result ↔ (self.now ≡ other.now) }
    {
        self.same_notes(other) && self.reports.same(&other.reports)
    }

    /// Whether the states are equal but for the reports.
    fn same_notes(&self, other: &DetectorState) -> bool
        ensures { IsTrue result ↔ ((self.now.phase ≡ other.now.phase) × (self.now.noted ≡ other.now.noted) × (self.now.answer ≡ other.now.answer)) }
    {
        self.phase == other.phase && self.noted == other.noted && self.answer == other.answer
    }
}
