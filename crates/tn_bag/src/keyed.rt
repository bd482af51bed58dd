//! The letters of packets with keys.

ghost use Rattle.std.specs.Prelude.{◌≡◌, ◌≤◌, ◌<◌, ◌+◌, ◌++◌, [], IfOk, IsTrue, MatchOption, OnOk, drop, length, map, option_and_then, option_copied, slice_get, take};
ghost use Rattle.tn_base.specs.Bytes.{fronted};
ghost use Rattle.tn_keys.specs.Copies.{masked_copies};
ghost use Rattle.tn_keys.specs.Reach.{reach_by, walk};
ghost use Rattle.tn_keys.specs.Tables.{joined, records_of, table_of};
ghost use Rattle.tn_rows.specs.PartView.{router_of};
ghost use Rattle.tn_letters.specs.Letters.{board_of, letter, letter_for, letters_from, link_board};
ghost use Rattle.tn_base.specs.Parts.{kind_of};
ghost use Rattle.tn_letters.specs.Tiles.{reach_of, tables_of};
ghost use Rattle.tn_base.specs.Message.{has_packet};

use crate::letters::plain_letters;
use std::alloc::{AllocError, Global};
use tn_base::ids::{Board, PartId};
use tn_base::mask::Mask;
use tn_base::message::{Dest, HOST, Letter, Packet};
use tn_base::part::Kind;
use tn_base::shape::Shape;
use tn_keys::key::Key;
use tn_keys::local::{bytes_2, bytes_4, bytes_8, tile_address};
use tn_keys::onward::neighbour;
use tn_keys::record::RouteRec;
use tn_link::link::Link;
use tn_router::router::Router;
use tn_world::world::World;

/// The router that a part is.
fn router_of<L: Link>(world: &World<L>, p: u32) -> Option<&Router>
    ensures { option_copied result ≡ option_and_then router_of (slice_get world.now.parts p) }
{
    world.parts().get(p as usize)?.as_router()
}

/// The router of a board, if one is there.
fn router_at<L: Link>(world: &World<L>, board: Board) -> Option<&Router>
    requires x { board.x < 4 }
    requires y { board.y < 4 }
    ensures { MatchOption result (table_of world.now.shape (tables_of world.now) board ≡ []) (λ r. r.now.plan.beats ≡ table_of world.now.shape (tables_of world.now) board) }
{
    let shape = world.shape();
    let numbers = shape.numbers();
    let place = board.y * numbers.boards_x + board.x;
    if place >= shape.board_count() {
        return None;
    }
    router_of(world, shape.visited() - shape.board_count() + place)
}

/// The records of beats, in order.
pub(crate) fn joined_beats(
    alloc: Global,
    router: &Router,
    from: u32,
    end: u32,
) -> Result<Vec<RouteRec>, AllocError>
    requires { end ≤ length router.now.plan.beats }
    ensures { IfOk result (λ all. all.items ≡ joined (drop from (take end router.now.plan.beats))) }
{
    let mut all = Vec::new(alloc);
    for i in from..end {
        if let Some(beat) = router.beat(i) {
            all.extend_from_slice(beat.records())?;
        }
    }
    Ok(all)
}

/// The records of a key at a board; a bad key has none.
fn key_records<L: Link>(
    alloc: Global,
    world: &World<L>,
    board: Board,
    key: Key,
) -> Result<Vec<RouteRec>, AllocError>
    requires x { board.x < 4 }
    requires y { board.y < 4 }
    ensures { IfOk result (λ all. all.items ≡ records_of world.now.shape (tables_of world.now) board key.0) }
{
    let Some(router) = router_at(world, board) else {
        return Ok(Vec::new(alloc));
    };
    let first = key.first();
    let count = key.count();
    if count == 0 || router.beat(first + count - 1).is_none() {
        return Ok(Vec::new(alloc));
    }
    joined_beats(alloc, router, first, first + count)
}

/// What a packet is for one receiver, its first bytes replaced by a local key.
fn copy_for(packet: &Packet, receiver: u32, front: &[u8]) -> Letter
    requires { length front.now ≤ 8 }
    ensures { result ≡ letter packet.now.origin packet.now.number receiver (fronted front.now packet.now.bytes) }
{
    Letter {
        origin: packet.origin,
        number: packet.number,
        receiver,
        bytes: packet.bytes.with_front(front),
    }
}

/// A copy for each thread of a tile whose bit is set.
pub(crate) fn push_masked(
    all: &mut Vec<Letter>,
    packet: &Packet,
    tile: u32,
    mask: Mask,
    front: &[u8],
) -> Result<(), AllocError>
    requires short { length front.now ≤ 8 }
    requires small { tile < 65536 }
    ensures { OnOk result (all.new.items ≡ all.old.items ++ map (letter_for packet.now.origin packet.now.number) (masked_copies tile mask (fronted front.now packet.now.bytes))) }
{
    for bit in 0..64 {
        if mask.has(bit) {
            all.push(copy_for(packet, tile + bit, front))?;
        }
    }
    Ok(())
}

/// The letters that records make of a packet at a board, over at most so many keys one after the other.
#[cycle(reach)]
pub(crate) fn push_records<L: Link>(
    all: &mut Vec<Letter>,
    alloc: Global,
    world: &World<L>,
    shape: &Shape,
    packet: &Packet,
    board: Board,
    records: &[RouteRec],
    keys: u32,
) -> Result<(), AllocError>
    requires x { board.x < 4 }
    requires y { board.y < 4 }
    ensures { OnOk result (all.new.items ≡ all.old.items ++ map (letter_for packet.now.origin packet.now.number)
        (walk (reach_by keys world.now.shape (tables_of world.now) packet.now.bytes) shape.now board packet.now.bytes records.now)) }
{
    for record in records {
        match *record {
            RouteRec::Urm1 { tile, thread, key } => {
                let receiver = tile_address(board, tile) + u32::from(thread);
                all.push(copy_for(packet, receiver, &bytes_4(key)))?;
            }
            RouteRec::Urm2 { tile, thread, key } => {
                let receiver = tile_address(board, tile) + u32::from(thread);
                all.push(copy_for(packet, receiver, &bytes_8(key)))?;
            }
            RouteRec::Mrm { tile, key, mask } => push_masked(
                all,
                packet,
                tile_address(board, tile),
                Mask::of(mask),
                &bytes_2(key),
            )?,
            RouteRec::Rr { dir, key } => {
                if let Some(next) = neighbour(shape, dir, board) {
                    push_key(all, alloc, world, packet, next, Key(key), keys)?;
                }
            }
            RouteRec::Ind { key } => {
                return push_key(all, alloc, world, packet, board, Key(key), keys);
            }
        }
    }
    Ok(())
}

/// The letters of a packet by a key at a board, over at most so many keys.
#[cycle(reach)]
pub(crate) fn push_key<L: Link>(
    all: &mut Vec<Letter>,
    alloc: Global,
    world: &World<L>,
    packet: &Packet,
    board: Board,
    key: Key,
    keys: u32,
) -> Result<(), AllocError>
    requires x { board.x < 4 }
    requires y { board.y < 4 }
    ensures { OnOk result (all.new.items ≡ all.old.items ++ map (letter_for packet.now.origin packet.now.number)
        (reach_by keys world.now.shape (tables_of world.now) packet.now.bytes board key.0)) }
{
    if keys == 0 {
        return Ok(());
    }
    let records = key_records(alloc, world, board, key)?;
    push_records(
        all,
        alloc,
        world,
        world.shape(),
        packet,
        board,
        &records,
        keys - 1,
    )
}

/// The board of an address; the host's is the first one.
pub(crate) fn board_of(a: u32) -> Board
    ensures value { result ≡ board_of a }
    ensures x { result.x < 4 }
    ensures y { result.y < 4 }
{
    Board {
        x: a / 1024 % 4,
        y: a / 4096 % 4,
    }
}

/// The letters of a packet whose key, if it has one, is looked up at a board.
pub(crate) fn letters_at<L: Link>(
    alloc: Global,
    world: &World<L>,
    shape: &Shape,
    board: Board,
    packet: &Packet,
) -> Result<Vec<Letter>, AllocError>
    requires x { board.x < 4 }
    requires y { board.y < 4 }
    requires fits { IsTrue (has_packet shape.now packet.now) }
    ensures { IfOk result (λ all. all.items ≡ letters_from board shape.now (reach_of world.now) packet.now.origin packet.now.number packet.now.dest packet.now.bytes) }
{
    match packet.dest {
        Dest::Key(key) => {
            let mut all = Vec::new(alloc);
            push_key(&mut all, alloc, world, packet, board, Key(key), 65)?;
            Ok(all)
        }
        Dest::Thread(_) | Dest::Host | Dest::Mask(_, _) => plain_letters(alloc, shape, packet),
    }
}

/// What a part of this number is; past the last one, as the detector.
fn kind_at(shape: &Shape, p: u32) -> Kind
    ensures { result ≡ kind_of shape.now p }
{
    if p < shape.part_count() {
        shape.kind(PartId(p))
    } else {
        Kind::Detector
    }
}

/// The board at which the keys of the packets on a link are looked up: that of the part to which it leads.
pub(crate) fn link_board(shape: &Shape, p: u32) -> Board
    ensures value { result ≡ link_board shape.now p }
    ensures x { result.x < 4 }
    ensures y { result.y < 4 }
{
    let _numbers = shape.numbers();
    match kind_at(shape, p) {
        Kind::Link { from: _, to } => match kind_at(shape, to.0) {
            Kind::Tile(tile) => board_of(tile.0),
            Kind::Router(board) => board,
            Kind::Host | Kind::Link { .. } | Kind::Detector => board_of(HOST),
        },
        Kind::Host | Kind::Tile(_) | Kind::Router(_) | Kind::Detector => board_of(HOST),
    }
}
