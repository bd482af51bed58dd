//! What is counted of the records that follow one another.

ghost use Rattle.std.specs.Prelude.{◌≡◌, ◌≤◌};
ghost use Rattle.tn_keys.specs.Accepted.{leads, own_weight};
ghost use Rattle.tn_reach.specs.Marks.{last_of, own_of};

use tn_keys::record::RouteRec;

/// What is counted.
#[derive(Clone, Copy)]
pub(crate) enum Measure {
    /// Chains: each ends with a record that leads on.
    Chains,
    /// Weights: each record counts.
    Weights,
}

/// What a record weighs by itself.
fn own_weight(route: RouteRec) -> u64
    ensures value { result ≡ own_weight route }
    ensures small { result ≤ 64 }
{
    match route {
        RouteRec::Mrm { mask, .. } => u64::from(mask.count_ones()),
        _ => 1,
    }
}

/// 1 for a record that leads on.
fn leads(route: RouteRec) -> u64
    ensures value { result ≡ leads route }
    ensures small { result ≤ 64 }
{
    match route {
        RouteRec::Rr { .. } | RouteRec::Ind { .. } => 1,
        _ => 0,
    }
}

impl Measure {
    /// What the last record counts.
    pub(crate) fn last(self, route: RouteRec) -> u64
        ensures value { result ≡ last_of self route }
        ensures small { result ≤ 64 }
    {
        match self {
            Measure::Chains => leads(route),
            Measure::Weights => own_weight(route),
        }
    }

    /// What a record counts that is followed by others.
    pub(crate) fn own(self, route: RouteRec) -> u64
        ensures value { result ≡ own_of self route }
        ensures small { result ≤ 64 }
    {
        match self {
            Measure::Chains => 0,
            Measure::Weights => own_weight(route),
        }
    }
}
