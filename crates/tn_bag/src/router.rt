//! The letters in a router.

ghost use Rattle.std.specs.List.{flat_map};
ghost use Rattle.std.specs.Prelude.{◌≡◌, ◌++◌, ◌<◌, false, IfOk, IfSome, IsTrue, OnOk, map, option_map};
ghost use Rattle.tn_base.specs.Message.{has_packet};
ghost use Rattle.tn_keys.specs.Copies.{Copy};
ghost use Rattle.tn_router.specs.Kept.{FitsWork, WellShaped, is_keyed};
ghost use Rattle.tn_router.specs.Left.{board_on, copies_left, copies_out, copies_to};
ghost use Rattle.tn_router.specs.Rest.{rest_by};
ghost use Rattle.tn_letters.specs.Letters.{letter_for};
ghost use Rattle.tn_letters.specs.Standing.{out_by, router_standing, work_by};
ghost use Rattle.tn_letters.specs.Tiles.{reach_of};
ghost use Rattle.std.specs.Prelude.{ℕ, List};

use crate::keyed::{joined_beats, push_key, push_masked, push_records};
use crate::letters::letter_for;
use crate::places::{PORTS, push_letters};
use std::alloc::{AllocError, Global};
use tn_base::ids::{Board, PartId};
use tn_base::message::{Dest, HOST, Letter, Packet};
use tn_base::port::Port;
use tn_base::shape::Shape;
use tn_keys::key::Key;
use tn_keys::onward::neighbour;
use tn_keys::record::RouteRec;
use tn_letters::place::Place;
use tn_link::link::Link;
use tn_router::router::Router;
use tn_world::world::World;

/// The letters in a router: of the packets that wait for a way out, then of those in process.
pub(crate) fn push_router<L: Link>(
    all: &mut Vec<(Place, Letter)>,
    alloc: Global,
    world: &World<L>,
    p: u32,
    router: &Router,
) -> Result<(), AllocError>
    ensures { OnOk result (all.new.items ≡ all.old.items ++ router_standing (reach_of world.now) p router.now) }
{
    push_out(all, alloc, world, p, router, &PORTS)?;
    push_process(all, alloc, world, p, router, &PORTS)
}

/// The letters of the packets that wait for these ways out.
fn push_out<L: Link>(
    all: &mut Vec<(Place, Letter)>,
    alloc: Global,
    world: &World<L>,
    p: u32,
    router: &Router,
    ways: &[Port],
) -> Result<(), AllocError>
    ensures { OnOk result (all.new.items ≡ all.old.items ++ flat_map (out_by (reach_of world.now) p router.now) ways.now) }
{
    for way in ways {
        push_leaving(all, alloc, world, p, router, *way)?;
    }
    Ok(())
}

/// The letters of the packets in process that came from these sides.
fn push_process<L: Link>(
    all: &mut Vec<(Place, Letter)>,
    alloc: Global,
    world: &World<L>,
    p: u32,
    router: &Router,
    sides: &[Port],
) -> Result<(), AllocError>
    ensures { OnOk result (all.new.items ≡ all.old.items ++ flat_map (work_by (reach_of world.now) p router.now) sides.now) }
{
    for side in sides {
        push_work(all, alloc, world, p, router, *side)?;
    }
    Ok(())
}

/// The letters of the packet that waits for a way out.
fn push_leaving<L: Link>(
    all: &mut Vec<(Place, Letter)>,
    alloc: Global,
    world: &World<L>,
    p: u32,
    router: &Router,
    way: Port,
) -> Result<(), AllocError>
    ensures { OnOk result (all.new.items ≡ all.old.items ++ out_by (reach_of world.now) p router.now way) }
{
    router.kept();
    let Some(packet) = router.buffer(way) else {
        return Ok(());
    };
    let letters = letters_out(alloc, world, router, way, packet)?;
    push_letters(all, Place::Transit(PartId(p), way), &letters)
}

/// The letters of the packet in process that came from a side.
fn push_work<L: Link>(
    all: &mut Vec<(Place, Letter)>,
    alloc: Global,
    world: &World<L>,
    p: u32,
    router: &Router,
    side: Port,
) -> Result<(), AllocError>
    ensures { OnOk result (all.new.items ≡ all.old.items ++ work_by (reach_of world.now) p router.now side) }
{
    router.kept();
    let Some((packet, beat, at)) = router.in_process(side) else {
        return Ok(());
    };
    let letters = letters_left(alloc, world, router, packet, beat, at)?;
    push_letters(all, Place::InProcess(PartId(p), side), &letters)
}

/// The letters of a packet that waits for a way out. Its key is looked up at the router to which it goes.
fn letters_out<L: Link>(
    alloc: Global,
    world: &World<L>,
    router: &Router,
    way: Port,
    packet: &Packet,
) -> Result<Vec<Letter>, AllocError>
    requires { IsTrue (has_packet router.now.plan.shape packet.now) }
    ensures { IfOk result (λ all. all.items ≡ map (letter_for packet.now.origin packet.now.number) (copies_out (reach_of world.now) router.now.plan.shape router.now.plan.board way packet.now)) }
{
    let mut all = Vec::new(alloc);
    match packet.dest {
        Dest::Key(key) => {
            if let Some(next) = board_on(router, way) {
                push_key(&mut all, alloc, world, packet, next, Key(key), 65)?;
            }
        }
        Dest::Thread(_) | Dest::Host | Dest::Mask(_, _) => {
            push_whole(&mut all, &router.shape(), packet)?
        }
    }
    Ok(all)
}

/// The letters still to come of a packet in process.
fn letters_left<L: Link>(
    alloc: Global,
    world: &World<L>,
    router: &Router,
    packet: &Packet,
    beat: u32,
    at: u32,
) -> Result<Vec<Letter>, AllocError>
    requires { IsTrue (has_packet router.now.plan.shape packet.now) }
    ensures { IfOk result (λ all. all.items ≡ map (letter_for packet.now.origin packet.now.number)
        (copies_left (reach_of world.now) router.now.plan.shape router.now.plan.board router.now.plan.beats (record { packet = packet.now; beat = beat; at = at }))) }
{
    router.kept();
    let shape = router.shape();
    let _numbers = shape.numbers();
    let mut all = Vec::new(alloc);
    match packet.dest {
        Dest::Key(key) => {
            let rest = rest_records(alloc, router, Key(key), packet, beat, at)?;
            let board = router.board();
            push_records(&mut all, alloc, world, &shape, packet, board, &rest, 65)?;
        }
        Dest::Thread(_) | Dest::Host | Dest::Mask(_, _) => { push_whole(&mut all, &shape, packet)? }
    }
    Ok(all)
}

/// The records of a key from the one at a place on; a bad key has none.
fn rest_records(
    alloc: Global,
    router: &Router,
    key: Key,
    packet: &Packet,
    beat: u32,
    at: u32,
) -> Result<Vec<RouteRec>, AllocError>
    ensures { IfOk result (λ all. all.items ≡ rest_by router.now.plan.beats (record { packet = packet.now; beat = beat; at = at }) key.0) }
{
    let mut all = Vec::new(alloc);
    let first = key.first();
    let count = key.count();
    if count == 0 || beat < first || router.beat(first + count - 1).is_none() {
        return Ok(all);
    }
    let joined = joined_beats(alloc, router, beat, first + count)?;
    let skipped = (at as usize).min(joined.len());
    all.extend_from_slice(&joined[skipped..])?;
    Ok(all)
}

/// The board whose router a way out leads to.
fn board_on(router: &Router, way: Port) -> Option<Board>
    ensures value { result ≡ board_on router.now.plan.shape router.now.plan.board way }
    ensures x { IfSome result (λ b. b.x < 4) }
    ensures y { IfSome result (λ b. b.y < 4) }
{
    router.kept();
    let shape = router.shape();
    let _numbers = shape.numbers();
    match way {
        Port::East => neighbour(&shape, 0, router.board()),
        Port::West => neighbour(&shape, 1, router.board()),
        Port::South => neighbour(&shape, 2, router.board()),
        Port::North => neighbour(&shape, 3, router.board()),
        Port::Up | Port::Down | Port::HostPort | Port::Here => None,
    }
}

/// The letters of a packet without a key.
fn push_whole(all: &mut Vec<Letter>, shape: &Shape, packet: &Packet) -> Result<(), AllocError>
    requires { IsTrue (has_packet shape.now packet.now) }
    ensures { OnOk result ((by_key : ℕ → List Copy) → is_keyed packet.now.dest ≡ false → all.new.items ≡ all.old.items ++ map (letter_for packet.now.origin packet.now.number) (copies_to by_key packet.now.bytes packet.now.dest)) }
{
    match packet.dest {
        Dest::Thread(t) => all.push(letter_for(packet, t.0))?,
        Dest::Host => all.push(letter_for(packet, HOST))?,
        Dest::Mask(tile, mask) => push_masked(all, packet, tile.0, mask, &[])?,
        Dest::Key(_) => {}
    }
    Ok(())
}
