//! The deeds of a history.

ghost use Rattle.std.specs.Prelude.{◌≡◌, IfOk, IsSome, OnOk, Some, reverse};
ghost use Rattle.tn_base.specs.declared.event.Event.TheVariants as event;
ghost use Rattle.tn_letters.specs.AtRest.{told_value};
ghost use Rattle.tn_letters.specs.Law.{IsStart};
ghost use Rattle.tn_rows.specs.Events.{happened};
ghost use Rattle.tn_rows.specs.Places.{part_of};
ghost use Rattle.tn_rows.specs.Runs.{Run};
ghost use Rattle.tn_rows.specs.WorldView.{WorldView};
ghost use Rattle.polite_edges.specs.Histories.{history_deeds};
ghost use Rattle.polite_log.specs.Reading.{TellsAnswer};
ghost use Rattle.polite_log.specs.TileDeeds.{deeds_on, event_deeds};

use crate::laws::law_tiles;
use crate::reading::push_step;
use polite_edges::deed::Deed;
use std::alloc::{AllocError, Global};
use tn_base::event::Event;
use tn_base::ids::ThreadId;
use tn_detect::answer::value_of;
use tn_link::link::Link;
use tn_pages::stock::PageStock;
use tn_world::events::redo;
use tn_world::world::World;

/// The deeds of a run, the oldest first. The run is made again on a copy of the start, one step of a thread at a time.
pub fn deeds_of<L: Link>(
    alloc: Global,
    start: &World<L>,
    history: &[Event],
) -> Result<Vec<Deed>, AllocError>
    requires start { IsStart start.now }
    requires run { (end : WorldView) × Run start.now history.now end }
    ensures { IfOk result (λ deeds. reverse deeds.items ≡ history_deeds start.now history.now) }
{
    law_tiles();
    let mut deeds = Vec::new(alloc);
    let mut stock = PageStock::of(alloc);
    let mut world = start.copy()?;
    for event in history {
        push_event(&mut deeds, &mut world, event, &mut stock)?;
    }
    Ok(deeds)
}

/// Makes an event, and adds its deeds: those of a turn, or an announcement.
fn push_event<L: Link>(
    deeds: &mut Vec<Deed>,
    world: &mut World<L>,
    event: &Event,
    stock: &mut PageStock,
) -> Result<(), AllocError>
    requires some { IsSome (happened event.now world.old) }
    requires tells { TellsAnswer world.old }
    ensures made { OnOk result (happened event.now world.old ≡ Some world.new) }
    ensures deeds { OnOk result (reverse deeds.new.items ≡ event_deeds (reverse deeds.old.items) event.now world.old) }
{
    match *event {
        Event::Turn(t, n) => push_turn(deeds, world, t, n, stock),
        Event::Announce => push_announcement(deeds, world, stock),
        Event::Deliver(_) => make(world, event, stock),
        Event::Depart(_, _) => make(world, event, stock),
        Event::Arrive(_, _) => make(world, event, stock),
        Event::Route(_) => make(world, event, stock),
        Event::HostPut => make(world, event, stock),
        Event::HostTake => make(world, event, stock),
        Event::Report(_) => make(world, event, stock),
        Event::Begin => make(world, event, stock),
        Event::Confirm(_) => make(world, event, stock),
        Event::Release(_) => make(world, event, stock),
        Event::Go(_) => make(world, event, stock),
    }
}

/// Makes an event that is enabled.
pub(crate) fn make<L: Link>(
    world: &mut World<L>,
    event: &Event,
    stock: &mut PageStock,
) -> Result<(), AllocError>
    requires { IsSome (happened event.now world.old) }
    ensures { OnOk result (happened event.now world.old ≡ Some world.new) }
{
    let _did = redo(world, event, stock)?;
    Ok(())
}

/// Makes a turn of a thread, and adds the deeds of its steps.
fn push_turn<L: Link>(
    deeds: &mut Vec<Deed>,
    world: &mut World<L>,
    t: ThreadId,
    n: u32,
    stock: &mut PageStock,
) -> Result<(), AllocError>
    requires { IsSome (happened (event.Turn t n) world.old) }
    ensures made { OnOk result (happened (event.Turn t n) world.old ≡ Some world.new) }
    ensures deeds { OnOk result (reverse deeds.new.items ≡ deeds_on (reverse deeds.old.items) t n world.old (part_of world.old.shape t)) }
{
    for _made in 0..n {
        push_step(deeds, world, t, stock)?;
    }
    Ok(())
}

/// Announces the machine's rest, and adds the announcement.
fn push_announcement<L: Link>(
    deeds: &mut Vec<Deed>,
    world: &mut World<L>,
    stock: &mut PageStock,
) -> Result<(), AllocError>
    requires some { IsSome (happened event.Announce world.old) }
    requires tells { TellsAnswer world.old }
    ensures made { OnOk result (happened event.Announce world.old ≡ Some world.new) }
    ensures deeds { OnOk result (reverse deeds.new.items ≡ event_deeds (reverse deeds.old.items) event.Announce world.old) }
{
    make(world, &Event::Announce, stock)?;
    deeds.push(Deed::Announced(told_value(world)))?;
    Ok(())
}

/// The value that the detector of a machine announced last.
fn told_value<L: Link>(world: &World<L>) -> u32
    ensures { result ≡ told_value world.now }
{
    let at = world.shape().part_count() as usize - 1;
    match world.parts().get(at) {
        Some(part) => match part.as_detector() {
            Some(detector) => value_of(detector.answer()),
            None => 0,
        },
        None => 0,
    }
}
