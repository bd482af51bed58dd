//! The test of the detector's invariant.

ghost use Rattle.std.specs.Prelude.{◌≡◌, ◌≤◌, ◌<◌, ◌↔◌, ℕ, false, IsTrue};
ghost use Rattle.tn_detect.specs.Reports.{number_of};
ghost use Rattle.tn_rest.specs.Quiet.{HasBlack, IsCalm, IsQuiet, IsSound, IsVerified, report_of};
ghost use Rattle.tn_rest.specs.Tests.{Fits, HasReason, HoldsIn};

use crate::facts::Facts;
use crate::machine::Machine;
use crate::sums::{are_balanced, mixed, packets};
use tn_detect::facts::Noted;
use tn_detect::phase::Phase;

/// Whether the detector's invariant holds of a machine.
pub fn audit<M: Machine>(machine: &M) -> bool
    ensures { IsTrue result ↔ IsQuiet (M.visited machine.now) (M.links machine.now) (M.seen machine.now) }
{
    if machine.places() != machine.visited() {
        return false;
    }
    if !are_balanced(machine) {
        return false;
    }
    if !all_fit(machine) {
        return false;
    }
    holds_in_phase(machine)
}

/// Whether a part is black, or still with its counter as its report. Of a part without a report nothing is asked.
fn is_sound(part: &Facts, report: Option<i64>) -> bool
    ensures { IsTrue result ↔ IsSound part.now report }
{
    match report {
        None => true,
        Some(number) => part.view.black || (part.view.still && part.view.counter == number),
    }
}

/// Whether part k with this report is as the invariant wants it in a phase.
fn fits(phase: Phase, k: u32, part: &Facts, report: Option<i64>) -> bool
    ensures { IsTrue result ↔ Fits phase k part.now report }
{
    match phase {
        Phase::Collect => !part.held && is_sound(part, report),
        Phase::Confirm(_) => !part.held && report.is_some() && is_sound(part, report),
        Phase::Release(i) => {
            part.held == (k < i) && report.is_none() && (k < i || part.view.still)
        }
        Phase::Go(i) => part.held == (i <= k) && report.is_none(),
    }
}

/// Whether each visited part is so.
fn all_fit<M: Machine>(machine: &M) -> bool
    ensures { IsTrue result ↔ ((k : ℕ) → k < M.visited machine.now → Fits (M.seen machine.now).detector.phase k ((M.seen machine.now).part k) (report_of (M.seen machine.now) k)) }
{
    let phase = machine.phase();
    for k in 0..machine.visited() {
        if !fits(phase, k, &machine.part(k), machine.report(k)) {
            return false;
        }
    }
    true
}

/// Whether what the invariant says of all parts together in the detector's phase holds.
fn holds_in_phase<M: Machine>(machine: &M) -> bool
    ensures { IsTrue result ↔ HoldsIn (M.seen machine.now).detector.phase (M.visited machine.now) (M.links machine.now) (M.seen machine.now) }
{
    let visited = machine.visited();
    match machine.phase() {
        Phase::Collect => true,
        Phase::Confirm(i) => i <= visited && mixed(machine, visited) == 0 && has_reason(machine, i),
        Phase::Release(i) => i < visited && packets(machine) == 0,
        Phase::Go(i) => i < visited,
    }
}

/// Whether it is known why the counters are as reported, or why the detector will not announce, with part i next to be confirmed.
fn has_reason<M: Machine>(machine: &M, i: u32) -> bool
    requires { i ≤ M.visited machine.now }
    ensures { IsTrue result ↔ HasReason i (M.visited machine.now) (M.seen machine.now) }
{
    is_verified(machine, i) || mixed(machine, i) > 0 || has_black(machine, i)
}

/// Whether each part below `below` is white and did nothing since it reported, and what these parts show is noted.
fn is_verified<M: Machine>(machine: &M, below: u32) -> bool
    requires { below ≤ M.visited machine.now }
    ensures { IsTrue result ↔ IsVerified below (M.seen machine.now) }
{
    let mut noted = Noted::nothing();
    for k in 0..below {
        let part = machine.part(k);
        if !is_verified_part(&part, machine.report(k)) {
            return false;
        }
        noted = noted.with(&part.view);
    }
    noted == machine.noted()
}

/// Whether a part with this report is white and did nothing since it reported.
fn is_verified_part(part: &Facts, report: Option<i64>) -> bool
    ensures { IsTrue result ↔ (IsCalm part.now (number_of report) × (part.now.view.black ≡ false)) }
{
    !part.view.black && part.view.still && part.view.counter == report.unwrap_or(0)
}

/// Whether a part from `from` on is black.
fn has_black<M: Machine>(machine: &M, from: u32) -> bool
    ensures { IsTrue result ↔ HasBlack from (M.visited machine.now) (M.seen machine.now) }
{
    for k in from..machine.visited() {
        if machine.part(k).view.black {
            return true;
        }
    }
    false
}
