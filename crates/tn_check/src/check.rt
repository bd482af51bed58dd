//! Whether events are a run of a machine.

ghost use Rattle.std.specs.Prelude.{IfOk};
ghost use Rattle.tn_check.specs.Checks.{Checks};

use std::alloc::{AllocError, Global};
use tn_base::event::Event;
use tn_link::link::Link;
use tn_pages::stock::PageStock;
use tn_tile::deliver::Did;
use tn_world::events::{final_of, redo};
use tn_world::world::World;

/// What a check finds.
#[derive(Clone, Copy, PartialEq, Eq, Debug)]
pub enum Verdict {
    /// The events are a run.
    Run,
    /// The first event that is not enabled or follows a final event: so many events come before it.
    Refused { at: u64 },
}

/// Whether these events are a run of the machine: each is enabled in turn, and none but the last is final.
pub fn check<L: Link>(
    alloc: Global,
    start: World<L>,
    events: &[Event],
) -> Result<Verdict, AllocError>
    ensures { IfOk result (λ verdict. Checks verdict start events.now) }
{
    let mut world = start;
    let mut stock = PageStock::of(alloc);
    let mut ended = false;
    let mut at: u64 = 0;
    for event in events {
        if ended {
            return Ok(Verdict::Refused { at });
        }
        match redo(&mut world, event, &mut stock)? {
            Did::Moved => ended = final_of(&world, event).is_some(),
            Did::Nothing => return Ok(Verdict::Refused { at }),
        }
        at += 1;
    }
    Ok(Verdict::Run)
}
