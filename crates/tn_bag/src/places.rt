//! The named places in which the letters of a machine stand.

ghost use Rattle.std.specs.List.{flat_map};
ghost use Rattle.std.specs.Prelude.{◌≡◌, ◌<◌, ◌++◌, IfOk, IsTrue, OnOk, MatchOption, length, map, option_copied};
ghost use Rattle.tn_base.specs.Address.{tile_threads};
ghost use Rattle.tn_base.specs.Message.{has_packet};
ghost use Rattle.tn_letters.specs.Standing.{crossing_at, link_standing, owed_standing, part_standing, pending_standing, slots_standing, standing, tile_standing, transit_by, waiting};
ghost use Rattle.tn_letters.specs.Tiles.{reach_of};

use crate::keyed::{board_of, letters_at, link_board};
use crate::router::push_router;
use std::alloc::{AllocError, Global};
use tn_base::ids::PartId;
use tn_base::message::{Letter, Packet};
use tn_base::port::Port;
use tn_letters::place::Place;
use tn_link::link::Link;
use tn_part::part::Part;
use tn_tile::tile::Tile;
use tn_world::world::World;

/// The ports in the order in which the letters of a part are listed.
pub(crate) const PORTS: [Port; 8] = [
    Port::East,
    Port::West,
    Port::South,
    Port::North,
    Port::Up,
    Port::Down,
    Port::HostPort,
    Port::Here,
];

/// All letters that were sent and are neither handed nor dropped, each with its place: by part, then by the kind of
/// place, then by what names it.
pub fn standing<L: Link>(
    alloc: Global,
    world: &World<L>,
) -> Result<Vec<(Place, Letter)>, AllocError>
    ensures { IfOk result (λ all. all.items ≡ standing world.now) }
{
    let mut all = Vec::new(alloc);
    for p in 0..world.shape().part_count() {
        push_part(&mut all, alloc, world, p, world.part(PartId(p)))?;
    }
    Ok(all)
}

/// The letters on a part.
pub fn push_part<L: Link>(
    all: &mut Vec<(Place, Letter)>,
    alloc: Global,
    world: &World<L>,
    p: u32,
    part: &Part<L>,
) -> Result<(), AllocError>
    ensures { OnOk result (all.new.items ≡ all.old.items ++ part_standing world.now.shape (reach_of world.now) p part.now) }
{
    if let Some(tile) = part.as_tile() {
        return push_tile(all, alloc, world, p, tile);
    }
    if let Some(router) = part.as_router() {
        return push_router(all, alloc, world, p, router);
    }
    if let Some(link) = part.as_link() {
        return push_link(all, alloc, world, p, link);
    }
    Ok(())
}

/// The letters on a tile.
fn push_tile<L: Link>(
    all: &mut Vec<(Place, Letter)>,
    alloc: Global,
    world: &World<L>,
    p: u32,
    tile: &Tile,
) -> Result<(), AllocError>
    ensures { OnOk result (all.new.items ≡ all.old.items ++ tile_standing (reach_of world.now) p tile.now) }
{
    push_pending(all, alloc, world, tile)?;
    push_transit(all, alloc, world, p, tile, &PORTS)?;
    push_slots(all, tile)
}

/// The letters on a link.
fn push_link<L: Link>(
    all: &mut Vec<(Place, Letter)>,
    alloc: Global,
    world: &World<L>,
    p: u32,
    link: &L,
) -> Result<(), AllocError>
    ensures { OnOk result (all.new.items ≡ all.old.items ++ link_standing world.now.shape (reach_of world.now) p (L.content link.now)) }
{
    for i in 0..link.len() {
        push_crossing(all, alloc, world, p, i, link.get(i))?;
    }
    Ok(())
}

/// The letters of the packet at a place of a link. One that is none of the machine's has no receivers.
fn push_crossing<L: Link>(
    all: &mut Vec<(Place, Letter)>,
    alloc: Global,
    world: &World<L>,
    p: u32,
    i: u32,
    packet: Option<&Packet>,
) -> Result<(), AllocError>
    ensures { OnOk result (all.new.items ≡ all.old.items ++ crossing_at world.now.shape (reach_of world.now) p i (option_copied packet.entry)) }
{
    let Some(packet) = packet else {
        return Ok(());
    };
    let shape = world.shape();
    if !shape.has_packet(packet) {
        return Ok(());
    }
    let letters = letters_at(alloc, world, shape, link_board(shape, p), packet)?;
    push_letters(all, Place::OnLink(PartId(p), i), &letters)
}

/// The letters of the packets that the threads of a tile sent.
fn push_pending<L: Link>(
    all: &mut Vec<(Place, Letter)>,
    alloc: Global,
    world: &World<L>,
    tile: &Tile,
) -> Result<(), AllocError>
    ensures { OnOk result (all.new.items ≡ all.old.items ++ pending_standing (reach_of world.now) tile.now) }
{
    tile.kept();
    let _numbers = tile.shape().numbers();
    for place in 0..tile.shape().tile_threads() {
        let thread = tile.shape().thread_in_tile(tile.name(), place);
        push_packet(
            all,
            alloc,
            world,
            tile,
            Place::Pending(thread),
            tile.pending(thread),
        )?;
    }
    Ok(())
}

/// The letters of the packets that go on from a tile by these ports.
fn push_transit<L: Link>(
    all: &mut Vec<(Place, Letter)>,
    alloc: Global,
    world: &World<L>,
    p: u32,
    tile: &Tile,
    ways: &[Port],
) -> Result<(), AllocError>
    ensures { OnOk result (all.new.items ≡ all.old.items ++ flat_map (transit_by (reach_of world.now) p tile.now) ways.now) }
{
    for way in ways {
        push_buffer(all, alloc, world, p, tile, *way)?;
    }
    Ok(())
}

/// The letters of the packet that goes on from a tile by a port.
fn push_buffer<L: Link>(
    all: &mut Vec<(Place, Letter)>,
    alloc: Global,
    world: &World<L>,
    p: u32,
    tile: &Tile,
    way: Port,
) -> Result<(), AllocError>
    ensures { OnOk result (all.new.items ≡ all.old.items ++ transit_by (reach_of world.now) p tile.now way) }
{
    tile.kept();
    let place = Place::Transit(PartId(p), way);
    push_packet(all, alloc, world, tile, place, tile.buffer(way))
}

/// The letters of a packet that waits at a place.
fn push_packet<L: Link>(
    all: &mut Vec<(Place, Letter)>,
    alloc: Global,
    world: &World<L>,
    tile: &Tile,
    place: Place,
    packet: Option<&Packet>,
) -> Result<(), AllocError>
    requires { MatchOption packet (Unit {0}) (λ p. IsTrue (has_packet tile.now.plan.shape p.now)) }
    ensures { OnOk result (all.new.items ≡ all.old.items ++ waiting tile.now.plan.shape (reach_of world.now) place (option_copied packet.entry)) }
{
    let Some(packet) = packet else {
        return Ok(());
    };
    let board = board_of(packet.origin);
    let letters = letters_at(alloc, world, &tile.shape(), board, packet)?;
    push_letters(all, place, &letters)
}

/// Letters at one place.
pub(crate) fn push_letters(
    all: &mut Vec<(Place, Letter)>,
    place: Place,
    letters: &[Letter],
) -> Result<(), AllocError>
    ensures { OnOk result (all.new.items ≡ all.old.items ++ map (λ l. (place, l)) letters.now) }
{
    for letter in letters {
        all.push((place, letter.copy()))?;
    }
    Ok(())
}

/// The letters in the slots of a tile.
fn push_slots(all: &mut Vec<(Place, Letter)>, tile: &Tile) -> Result<(), AllocError>
    ensures { OnOk result (all.new.items ≡ all.old.items ++ slots_standing tile.now) }
{
    tile.kept();
    let count = tile.shape().numbers().slots;
    for slot in 0..count {
        push_owed(all, tile, slot as u16)?;
    }
    Ok(())
}

/// The letters in one slot, for the threads that are owed it.
fn push_owed(all: &mut Vec<(Place, Letter)>, tile: &Tile, slot: u16) -> Result<(), AllocError>
    requires { slot < length tile.now.now.pool.slots }
    ensures { OnOk result (all.new.items ≡ all.old.items ++ owed_standing tile.now slot) }
{
    tile.kept();
    let Some((origin, number)) = tile.sender(slot) else {
        return Ok(());
    };
    let found = &tile.pool().slots()[slot as usize];
    for place in 0..tile.shape().tile_threads() {
        if found.owed.has(place) {
            let thread = tile.shape().thread_in_tile(tile.name(), place);
            let letter = Letter {
                origin,
                number,
                receiver: thread.0,
                bytes: found.bytes.copy(),
            };
            all.push((Place::Slot(tile.name(), slot, thread), letter))?;
        }
    }
    Ok(())
}
