//! The steps of the bag machine that a history spells.

ghost use Rattle.std.specs.Prelude.{◌≡◌, ◌-◌, ◌++◌, IfOk, IsSome, IsTrue, MatchOption, OnOk, map, option_and_then, option_copied, option_map, slice_get};
ghost use Rattle.std.specs.List.{filter};
ghost use Rattle.tn_base.specs.Address.{place_in_tile};
ghost use Rattle.tn_tile.specs.Rows.{is_here};
ghost use Rattle.tn_tile.specs.Step.{pending_at};
ghost use Rattle.tn_letters.specs.declared.steps.BagStep.TheVariants as bag;
ghost use Rattle.tn_base.specs.declared.event.Event.TheVariants as event;
ghost use Rattle.tn_base.specs.Message.{has_packet};
ghost use Rattle.tn_base.specs.Parts.{part_count};
ghost use Rattle.tn_host.specs.Script.{first_item};
ghost use Rattle.tn_rows.specs.Events.{carried, happened};
ghost use Rattle.tn_rows.specs.PartView.{host_of, tile_of};
ghost use Rattle.tn_rows.specs.Places.{part_of};
ghost use Rattle.tn_rows.specs.Runs.{Run};
ghost use Rattle.tn_rows.specs.WorldView.{WorldView};
ghost use Rattle.tn_keys.specs.Copies.{only_if};
ghost use Rattle.tn_letters.specs.Steps.{bag_of, delivery_steps, event_steps, is_for_dead, send_steps, take_steps};
ghost use Rattle.tn_keys.specs.Reach.{Reach};

use crate::letters::{letter_for, plain_letters};
use crate::turns::push_turn;
use std::alloc::{AllocError, Global};
use tn_base::event::Event;
use tn_base::ids::{PartId, ThreadId};
use tn_base::message::{HOST, Letter, Packet};
use tn_base::port::Port;
use tn_base::shape::Shape;
use tn_host::host::Host;
use tn_host::script::ScriptItem;
use tn_letters::steps::BagStep;
use tn_link::link::Link;
use tn_thread::state::ThreadState;
use tn_tile::tile::Tile;
use tn_world::events::step;
use tn_world::world::World;

/// The steps of the bag machine that a run spells, one after another.
pub fn bag_of<L: Link>(
    alloc: Global,
    start: &World<L>,
    history: &[Event],
) -> Result<Vec<BagStep>, AllocError>
    requires { (end : WorldView) × Run start.now history.now end }
    ensures { IfOk result (λ all. all.items ≡ bag_of start.now history.now) }
{
    let mut all = Vec::new(alloc);
    let mut world = start.copy()?;
    for event in history {
        push_event(&mut all, alloc, &world, event)?;
        let _did = step(&mut world, event)?;
    }
    Ok(all)
}

/// The steps that an event is.
pub fn push_event<L: Link>(
    all: &mut Vec<BagStep>,
    alloc: Global,
    world: &World<L>,
    event: &Event,
) -> Result<(), AllocError>
    requires { IsSome (happened event.now world.now) }
    ensures { OnOk result (all.new.items ≡ all.old.items ++ event_steps event.now world.now) }
{
    match *event {
        Event::Turn(t, n) => match tile_with(world, t) {
            Some(tile) => push_turn(all, tile, t, n),
            None => Ok(()),
        },
        Event::Deliver(t) => match tile_with(world, t) {
            Some(tile) => push_sent(all, alloc, tile, t),
            None => Ok(()),
        },
        Event::Arrive(l, p) => match tile_at(world, p) {
            Some(tile) => push_delivery(all, alloc, tile, front_at(world, l)),
            None => Ok(()),
        },
        Event::HostPut => match host_of(world) {
            Some(host) => push_message(all, host),
            None => Ok(()),
        },
        Event::HostTake => push_taken(all, front_at(world, link_to_host(world.shape()))),
        Event::Announce => {
            all.push(BagStep::Announce)?;
            Ok(())
        }
        _ => Ok(()),
    }
}

/// The tile that a thread is on.
fn tile_with<L: Link>(world: &World<L>, t: ThreadId) -> Option<&Tile>
    ensures { option_copied result ≡ option_and_then tile_of (option_and_then (slice_get world.now.parts) (part_of world.now.shape t)) }
{
    if world.shape().has_thread(t) {
        tile_at(world, world.shape().tile_part(t.tile()))
    } else {
        None
    }
}

/// The tile that a part is.
fn tile_at<L: Link>(world: &World<L>, p: PartId) -> Option<&Tile>
    ensures { option_copied result ≡ option_and_then tile_of (slice_get world.now.parts p.0) }
{
    world.parts().get(p.0 as usize)?.as_tile()
}

/// The host, which is the first part.
fn host_of<L: Link>(world: &World<L>) -> Option<&Host>
    ensures { option_map (λ h. h.now.now) result ≡ option_and_then host_of (slice_get world.now.parts 0) }
{
    world.parts().first()?.as_host()
}

/// The link that leads to the host.
fn link_to_host(shape: &Shape) -> PartId
    ensures { result.0 ≡ part_count shape.now - 3 }
{
    PartId(shape.part_count() - 3)
}

/// The first packet of the link that a part is.
fn front_at<L: Link>(world: &World<L>, l: PartId) -> Option<&Packet>
    ensures { option_copied result ≡ option_and_then carried (slice_get world.now.parts l.0) }
{
    world.parts().get(l.0 as usize)?.as_link()?.front()
}

/// The host sends the letter that its next item is, if that item is a message.
fn push_message(all: &mut Vec<BagStep>, host: &Host) -> Result<(), AllocError>
    ensures { OnOk result (all.new.items ≡ all.old.items ++ send_steps host.now.now.sends (first_item host.now.now.script)) }
{
    if let Some(ScriptItem::Send(t, bytes)) = host.rest().first() {
        let letter = Letter {
            origin: HOST,
            number: host.sends(),
            receiver: t.0,
            bytes: bytes.copy(),
        };
        all.push(BagStep::HostSend { letter })?;
    }
    Ok(())
}

/// The host takes the letter of a packet.
fn push_taken(all: &mut Vec<BagStep>, packet: Option<&Packet>) -> Result<(), AllocError>
    ensures { OnOk result (all.new.items ≡ all.old.items ++ take_steps (option_copied packet.entry)) }
{
    if let Some(packet) = packet {
        all.push(BagStep::HostHand {
            letter: letter_for(packet, HOST),
        })?;
    }
    Ok(())
}

/// The letters that are dropped where a thread's packet is delivered.
fn push_sent(
    all: &mut Vec<BagStep>,
    alloc: Global,
    tile: &Tile,
    t: ThreadId,
) -> Result<(), AllocError>
    requires { IsTrue (is_here tile.now.plan t.0) }
    ensures { OnOk result ((reach : Reach) → all.new.items ≡ all.old.items ++ delivery_steps reach (pending_at tile.now.now (place_in_tile tile.now.plan.shape t.0)) tile.now) }
{
    tile.kept();
    push_delivery(all, alloc, tile, tile.pending(t))
}

/// The letters that are dropped where a packet comes to a tile. Its receivers are there, so it has no key.
fn push_delivery(
    all: &mut Vec<BagStep>,
    alloc: Global,
    tile: &Tile,
    packet: Option<&Packet>,
) -> Result<(), AllocError>
    requires { MatchOption packet (Unit {0}) (λ p. IsTrue (has_packet tile.now.plan.shape p.now)) }
    ensures { OnOk result ((reach : Reach) → all.new.items ≡ all.old.items ++ delivery_steps reach (option_copied packet.entry) tile.now) }
{
    let Some(packet) = packet else {
        return Ok(());
    };
    if tile.name().port(&packet.dest) != Port::Here {
        return Ok(());
    }
    let letters = plain_letters(alloc, &tile.shape(), packet)?;
    push_dead(all, tile, &letters)
}

/// Those of some letters whose receivers have ended.
fn push_dead(all: &mut Vec<BagStep>, tile: &Tile, letters: &[Letter]) -> Result<(), AllocError>
    ensures { OnOk result (all.new.items ≡ all.old.items ++ map bag.Discard (filter (is_for_dead tile.now) letters.now)) }
{
    for letter in letters {
        push_if_dead(all, tile, letter)?;
    }
    Ok(())
}

/// A letter, if its receiver has ended.
fn push_if_dead(all: &mut Vec<BagStep>, tile: &Tile, letter: &Letter) -> Result<(), AllocError>
    ensures { OnOk result (all.new.items ≡ all.old.items ++ map bag.Discard (only_if (is_for_dead tile.now letter.now) letter.now)) }
{
    if is_for_dead(tile, letter) {
        all.push(BagStep::Discard {
            letter: letter.copy(),
        })?;
    }
    Ok(())
}

/// Whether the thread that a letter is for has ended.
fn is_for_dead(tile: &Tile, letter: &Letter) -> bool
    ensures { result ≡ is_for_dead tile.now letter.now }
{
    let place = tile.shape().place_in_tile(ThreadId(letter.receiver));
    match tile.threads().get(place as usize) {
        Some(thread) => matches!(thread.state(), ThreadState::Dead(_)),
        None => true,
    }
}
