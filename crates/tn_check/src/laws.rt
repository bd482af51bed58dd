//! A law of verdicts.

ghost use Rattle.tn_check.specs.Checks.{OneVerdict};

/// Events have at most one verdict: a run is not refused, and only one event is the first at fault.
pub fn law_one_verdict()
    ensures { OneVerdict }
{}
