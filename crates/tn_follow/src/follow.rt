//! What is told of a send over a run.

ghost use Rattle.std.specs.Prelude.{◌≡◌, ◌<◌, ◌++◌, IfOk, IsSome, OnOk, Some, map};
ghost use Rattle.tn_base.specs.Parts.{part_count};
ghost use Rattle.tn_rows.specs.Events.{IsWorld, happened};
ghost use Rattle.tn_rows.specs.Runs.{Run};
ghost use Rattle.tn_rows.specs.WorldView.{WorldView};
ghost use Rattle.tn_letters.specs.Steps.{event_steps};
ghost use Rattle.tn_follow.specs.Follow.{new_spots, sighted_in, sightings};
ghost use Rattle.tn_follow.specs.Parts.{AreInOrder, ends_in, greater_spots, lesser_spots, places_of, spots_on};
ghost use Rattle.tn_follow.specs.declared.sighting.Sighting.TheVariants as sighting;

use crate::ends::{receivers_dropped, receivers_handed};
use crate::sighting::Sighting;
use crate::spots::{Spot, new_spots, spots_in};
use std::alloc::{AllocError, Global};
use tn_bag::places::push_part;
use tn_bag::spell::push_event;
use tn_base::event::Event;
use tn_base::ids::PartId;
use tn_letters::steps::BagStep;
use tn_link::link::Link;
use tn_pages::stock::PageStock;
use tn_part::has_parts::HasParts;
use tn_stamped::placing::{EventParts, parts_of};
use tn_world::events::redo;
use tn_world::world::World;

/// A send by its sender and the sender's number of it.
#[derive(Clone, Copy)]
struct Sent {
    origin: u32,
    number: u32,
}

/// What each event of a run does with the letters of a send, in order.
pub fn follow<L: Link>(
    alloc: Global,
    start: World<L>,
    events: &[Event],
    origin: u32,
    number: u32,
) -> Result<Vec<Sighting>, AllocError>
    requires { (end : WorldView) × Run start events.now end }
    ensures { IfOk result (λ all. all.items ≡ sightings start events.now origin number) }
{
    let sent = Sent { origin, number };
    let mut world = made_again(start)?;
    let mut stock = PageStock::of(alloc);
    let mut all = Vec::new(alloc);
    let mut at: u64 = 0;
    for event in events {
        at += 1;
        follow_event(&mut all, alloc, &mut world, &mut stock, sent, at, event)?;
    }
    Ok(all)
}

/// The same machine, made of its parts: they are what its shape names.
fn made_again<L: Link>(start: World<L>) -> Result<World<L>, AllocError>
    ensures same { IfOk result (λ world. world ≡ start) }
    ensures world { IfOk result (λ world. IsWorld start) }
{
    let shape = *start.shape();
    World::of(shape, start.into_parts())
}

/// Makes an event, which has this number, and appends what it does with the letters of a send.
fn follow_event<L: Link>(
    all: &mut Vec<Sighting>,
    alloc: Global,
    world: &mut World<L>,
    stock: &mut PageStock,
    sent: Sent,
    at: u64,
    event: &Event,
) -> Result<(), AllocError>
    requires machine { IsWorld world.old }
    requires enabled { IsSome (happened event.now world.old) }
    ensures made { OnOk result (happened event.now world.old ≡ Some world.new) }
    ensures told { OnOk result (all.new.items ≡ all.old.items ++ sighted_in sent.origin sent.number at event.now world.old world.new) }
{
    let _numbers = world.shape().numbers();
    let parts = parts_of(world.sites(), event);
    let low = lesser_spots(alloc, world, parts, sent)?;
    let high = greater_spots(alloc, world, parts, sent)?;
    let steps = steps_of(alloc, world, event)?;
    make(world, event, stock)?;
    let new_low = lesser_spots(alloc, world, parts, sent)?;
    let new_high = greater_spots(alloc, world, parts, sent)?;
    push_places(all, alloc, at, &new_low, low)?;
    push_places(all, alloc, at, &new_high, high)?;
    push_ends(all, alloc, sent, at, &steps)
}

/// Makes an event that is enabled.
fn make<L: Link>(
    world: &mut World<L>,
    event: &Event,
    stock: &mut PageStock,
) -> Result<(), AllocError>
    requires { IsSome (happened event.now world.old) }
    ensures { OnOk result (happened event.now world.old ≡ Some world.new) }
{
    let _did = redo(world, event, stock)?;
    Ok(())
}

/// The steps that an event is.
fn steps_of<L: Link>(
    alloc: Global,
    world: &World<L>,
    event: &Event,
) -> Result<Vec<BagStep>, AllocError>
    requires { IsSome (happened event.now world.now) }
    ensures { IfOk result (λ steps. steps.items ≡ event_steps event.now world.now) }
{
    let mut steps = Vec::new(alloc);
    push_event(&mut steps, alloc, world, event)?;
    Ok(steps)
}

/// Where the letters of a send are on the only part of an event, or on the lesser of its two parts.
fn lesser_spots<L: Link>(
    alloc: Global,
    world: &World<L>,
    parts: EventParts,
    sent: Sent,
) -> Result<Vec<Spot>, AllocError>
    requires { AreInOrder world.now.shape (places_of parts) }
    ensures { IfOk result (λ spots. spots.items ≡ lesser_spots sent.origin sent.number world.now (places_of parts)) }
{
    match parts {
        EventParts::Nowhere => Ok(Vec::new(alloc)),
        EventParts::One(p) => spots_on(alloc, world, p, sent),
        EventParts::Two(p, _, _) => spots_on(alloc, world, p, sent),
    }
}

/// Where the letters of a send are on the greater of the two parts of an event.
fn greater_spots<L: Link>(
    alloc: Global,
    world: &World<L>,
    parts: EventParts,
    sent: Sent,
) -> Result<Vec<Spot>, AllocError>
    requires { AreInOrder world.now.shape (places_of parts) }
    ensures { IfOk result (λ spots. spots.items ≡ greater_spots sent.origin sent.number world.now (places_of parts)) }
{
    match parts {
        EventParts::Nowhere => Ok(Vec::new(alloc)),
        EventParts::One(_) => Ok(Vec::new(alloc)),
        EventParts::Two(_, q, _) => spots_on(alloc, world, q, sent),
    }
}

/// Where the letters of a send are on a part.
fn spots_on<L: Link>(
    alloc: Global,
    world: &World<L>,
    p: PartId,
    sent: Sent,
) -> Result<Vec<Spot>, AllocError>
    requires { p.0 < part_count world.now.shape }
    ensures { IfOk result (λ spots. spots.items ≡ spots_on sent.origin sent.number world.now p.0) }
{
    let mut all = Vec::new(alloc);
    push_part(&mut all, alloc, world, p.0, world.part(p))?;
    spots_in(alloc, sent.origin, sent.number, &all)
}

/// Appends the places of spots that are new.
fn push_places(
    all: &mut Vec<Sighting>,
    alloc: Global,
    event: u64,
    spots: &[Spot],
    old: Vec<Spot>,
) -> Result<(), AllocError>
    ensures { OnOk result (all.new.items ≡ all.old.items ++ map (λ s. sighting.At event s.place s.receiver) (new_spots spots.now old.items)) }
{
    let fresh = new_spots(alloc, spots, old)?;
    push_spots(all, event, &fresh)
}

/// Appends the places of these spots.
fn push_spots(all: &mut Vec<Sighting>, event: u64, spots: &[Spot]) -> Result<(), AllocError>
    ensures { OnOk result (all.new.items ≡ all.old.items ++ map (λ s. sighting.At event s.place s.receiver) spots.now) }
{
    for spot in spots {
        all.push(Sighting::At {
            event,
            place: spot.place,
            receiver: spot.receiver,
        })?;
    }
    Ok(())
}

/// Appends the ends of the send's letters that these steps hand, then of those that they drop.
fn push_ends(
    all: &mut Vec<Sighting>,
    alloc: Global,
    sent: Sent,
    event: u64,
    steps: &[BagStep],
) -> Result<(), AllocError>
    ensures { OnOk result (all.new.items ≡ all.old.items ++ ends_in sent.origin sent.number event steps.now) }
{
    let handed = receivers_handed(alloc, sent.origin, sent.number, steps)?;
    push_handed(all, event, &handed)?;
    let dropped = receivers_dropped(alloc, sent.origin, sent.number, steps)?;
    push_dropped(all, event, &dropped)
}

fn push_handed(all: &mut Vec<Sighting>, event: u64, receivers: &[u32]) -> Result<(), AllocError>
    ensures { OnOk result (all.new.items ≡ all.old.items ++ map (λ r. sighting.Handed event r) receivers.now) }
{
    for receiver in receivers {
        all.push(Sighting::Handed {
            event,
            receiver: *receiver,
        })?;
    }
    Ok(())
}

fn push_dropped(all: &mut Vec<Sighting>, event: u64, receivers: &[u32]) -> Result<(), AllocError>
    ensures { OnOk result (all.new.items ≡ all.old.items ++ map (λ r. sighting.Dropped event r) receivers.now) }
{
    for receiver in receivers {
        all.push(Sighting::Dropped {
            event,
            receiver: *receiver,
        })?;
    }
    Ok(())
}
