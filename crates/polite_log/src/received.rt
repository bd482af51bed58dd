//! How often recv handlers were called in a run.

ghost use Rattle.std.specs.Prelude.{◌≡◌, IfOk, count_by};
ghost use Rattle.tn_letters.specs.Law.{IsStart};
ghost use Rattle.tn_rows.specs.Runs.{Run};
ghost use Rattle.tn_rows.specs.WorldView.{WorldView};
ghost use Rattle.polite_log.specs.Summary.{is_receive, received_in};

use crate::deeds::deeds_of;
use polite_edges::deed::Deed;
use std::alloc::{AllocError, Global};
use tn_base::event::Event;
use tn_link::link::Link;
use tn_world::world::World;

/// How often a recv handler was called with a letter in a run. The run is made again on a copy of the start.
pub fn received<L: Link>(
    alloc: Global,
    start: &World<L>,
    history: &[Event],
) -> Result<usize, AllocError>
    requires start { IsStart start.now }
    requires run { (end : WorldView) × Run start.now history.now end }
    ensures { IfOk result (λ n. n ≡ received_in start.now history.now) }
{
    let deeds = deeds_of(alloc, start, history)?;
    Ok(receives(&deeds))
}

/// How many of some deeds are calls of a recv handler with a letter.
fn receives(deeds: &[Deed]) -> usize
    ensures { result ≡ count_by is_receive deeds.now }
{
    deeds.iter().filter(|deed| is_receive(deed)).count()
}

/// Whether a deed is the call of a recv handler with a letter.
fn is_receive(deed: &Deed) -> bool
    ensures { result ≡ is_receive deed.now }
{
    match deed {
        Deed::Received { .. } => true,
        Deed::Inited { .. }
        | Deed::Sent(_)
        | Deed::Missed { .. }
        | Deed::Stepped { .. }
        | Deed::Finished { .. }
        | Deed::Announced(_) => false,
    }
}
