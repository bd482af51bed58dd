//! Events of a machine on one or two of its stamped parts.

ghost use Rattle.std.specs.Prelude.{◌≡◌, ◌≤◌, ◌&&◌, is_some};
ghost use Rattle.tn_base.specs.declared.event.Event.TheVariants as event;
ghost use Rattle.tn_stamped.specs.Doing.{DoesOneAt, DoesTurnAt, DoesTwoAt, IsReady};
ghost use Rattle.tn_part.specs.Meeting.{FitTwo, IsNoTurn, one_place, port_of};
ghost use Rattle.tn_part.specs.Turning.{did_turn};
ghost use Rattle.tn_rows.specs.Ends.{ended_on};
ghost use Rattle.tn_rows.specs.Places.{places};
ghost use Rattle.tn_tile.specs.Turns.{StockLasts};

use crate::stamped::Stamped;
use std::alloc::AllocError;
use tn_base::event::Event;
use tn_base::ids::ThreadId;
use tn_base::laws::law_links;
use tn_link::link::Link;
use tn_pages::stock::PageStock;
use tn_part::part::LastTurn;
use tn_part::site::Sites;
use tn_tile::deliver::Did;

/// The longest turn of a thread on its part with pages of a full stock, and whether the turn ends a run, if the machine has the
/// thread and the thread can make a step.
pub fn do_turn<L: Link>(
    sites: &Sites,
    t: ThreadId,
    part: &mut Stamped<L>,
    stock: &mut PageStock,
) -> LastTurn
    requires ready { IsReady part.old }
    requires pages { 64 ≤ stock.old }
    ensures turn { DoesTurnAt (one_place (places sites.now (event.Turn t 1))) result.turned t part.old part.new }
    ensures ends { result.ends ≡ (did_turn result.turned && is_some (ended_on t part.new.present)) }
    ensures stock { StockLasts result.turned stock.old stock.new }
{
    match sites.place_of(&Event::Turn(t, 1)) {
        Some(_place) => part.turn(t, stock),
        None => LastTurn::NOTHING,
    }
}

/// An event that is no turn of a machine on one of its parts, if the machine has the part and the event is enabled.
pub fn do_one<L: Link>(sites: &Sites, e: &Event, part: &mut Stamped<L>) -> Did
    requires event { IsNoTurn e.now }
    requires ready { IsReady part.old }
    ensures { DoesOneAt (one_place (places sites.now e.now)) result e.now part.old part.new }
{
    match sites.place_of(e) {
        Some(_place) => part.one(*e),
        None => Did::Nothing,
    }
}

/// An event of a machine on two of its parts, where the machine has two such parts and the event is enabled. A letter for the host
/// may want memory.
pub fn do_two<L: Link>(
    sites: &Sites,
    e: &Event,
    low: &mut Stamped<L>,
    high: &mut Stamped<L>,
) -> Result<Did, AllocError>
    requires fits { FitTwo sites.now (places sites.now e.now) low.old.present high.old.present }
    requires low { IsReady low.old }
    requires high { IsReady high.old }
    ensures { DoesTwoAt (port_of sites.now e.now) result e.now low.old high.old low.new high.new }
{
    law_links(sites.shape());
    let Some(at) = sites.port_of(e) else {
        return Ok(Did::Nothing);
    };
    low.two(high, *e, at)
}
