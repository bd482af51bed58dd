//! The reports of the parts.

ghost use Rattle.std.specs.Prelude.{◌≡◌, ◌<◌, ◌+◌, ◌^◌, ◌↔◌, ℕ, ℤ, Option, None, IfOk, IsTrue, length, replicate, slice_set};
ghost use Rattle.tn_detect.specs.Reports.{are_balanced, number_of, report_at};
ghost use Rattle.tn_detect.specs.Told.{missing_in, shown, told_in, IsToldUntil};

use std::alloc::{AllocError, Global};
use std::marker::Model;

/// The counter that a part told, and in which round. The counter is a report in that round alone.
#[derive(Clone, Copy)]
struct Told {
    round: u64,
    counter: i64,
}

/// For each part its report, or none. A contract sees the list.
///
/// How many reports are missing is kept, and what the reports sum to. So a test of all reports costs what a test of a single
/// report costs. To forget all reports is to begin another round.
#[derive(Drop)]
pub struct Reports {
    told: Vec<Told>,
    round: u64,
    missing: usize,
    sum: i128,
}

impl Model for Reports {
    ghost use Rattle.std.specs.Prelude.{ℤ, List, Option};

    ghost Value = { List (Option ℤ) };

    ghost use Rattle.tn_detect.specs.Told.{IsSummed, shown_in};

    ghost view = { λ r. shown_in r.round r.told.items };

    ghost invariant = { λ r. IsSummed r.told.items r.round r.missing r.sum };
}

impl Told {
    /// What no part told.
    const NOTHING: Told = Told {
        round: 0,
        counter: 0,
    };

    /// What a part told that has this report in a round, or none.
    fn of(round: u64, report: Option<i64>) -> Told
        ensures { result ≡ told_in round report }
    {
        match report {
            Some(counter) => Told { round, counter },
            None => Told::NOTHING,
        }
    }

    /// The report in a round.
    fn shown(self, round: u64) -> Option<i64>
        ensures { result ≡ shown round self }
    {
        if self.round == round {
            Some(self.counter)
        } else {
            None
        }
    }
}

impl Reports {
    /// No report of any of so many parts.
    pub(crate) fn none(alloc: Global, parts: u32) -> Result<Reports, AllocError>
        ensures { IfOk result (λ r. r ≡ replicate parts None) }
    {
        let count = parts as usize;
        let told = vec![in alloc; Told::NOTHING; count]?;
        Ok(Reports {
            told,
            round: 1,
            missing: count,
            sum: 0,
        })
    }

    /// For how many parts there is a place.
    fn count(&self) -> u32
        ensures { result ≡ length self.now }
    {
        self.told.len() as u32
    }

    /// The report of a part.
    pub(crate) fn get(&self, i: u32) -> Option<i64>
        requires { i < length self.now }
        ensures { result ≡ report_at self.now i }
    {
        self.told[i as usize].shown(self.round)
    }

    /// Whether all parts have reports, and these sum to 0.
    pub(crate) fn are_balanced(&self) -> bool
        ensures { result ≡ are_balanced self.now }
    {
        self.missing == 0 && self.sum == 0
    }

    /// Gives a part another report, or none.
    pub(crate) fn set(&mut self, i: u32, report: Option<i64>)
        requires { i < length self.old }
        ensures { self.new ≡ slice_set self.old i report }
    {
        let told = Told::of(self.round, report);
        let place = &mut self.told[i as usize];
        let old = place.shown(self.round);
        self.missing = self.missing + missing_in(report) - missing_in(old);
        self.sum = self.sum + i128::from(number_of(report)) - i128::from(number_of(old));
        *place = told;
    }

    /// Forgets all reports.
    pub(crate) fn clear(&mut self)
        ensures { self.new ≡ replicate (length self.old) None }
    {
        self.round = retire(&mut self.told, self.round) + 1;
        self.missing = self.told.len();
        self.sum = 0;
    }

    /// The same reports.
    pub(crate) fn copy(&self) -> Result<Reports, AllocError>
        ensures { IfOk result (λ r. r ≡ self.now) }
    {
        let told = self.told.clone()?;
        Ok(Reports {
            told,
            round: self.round,
            missing: self.missing,
            sum: self.sum,
        })
    }

    /// Whether each part has equal reports.
    pub(crate) fn same(&self, other: &Reports) -> bool
        ensures { IsTrue result ↔ (self.now ≡ other.now) }
    {
        let count = self.count();
        if count != other.count() {
            return false;
        }
        for i in 0..count {
            if self.get(i) != other.get(i) {
                return false;
            }
        }
        true
    }
}

/// The number that a part reported; a part without a report counts 0.
fn number_of(report: Option<i64>) -> i64
    ensures { result ≡ number_of report }
{
    report.unwrap_or(0)
}

/// How many reports are missing: one, if there is none.
fn missing_in(report: Option<i64>) -> usize
    ensures { result ≡ missing_in report }
{
    usize::from(report.is_none())
}

/// The last round in which something was told. If no round can follow, what was told is forgotten.
fn retire(told: &mut [Told], round: u64) -> u64
    requires { IsToldUntil round told.old }
    ensures until { IsToldUntil result told.new }
    ensures another { result + 1 < 2 ^ 64 }
{
    if round < u64::MAX {
        return round;
    }
    told.fill(Told::NOTHING);
    0
}
