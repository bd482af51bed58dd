//! What one Route makes of a packet in process.

ghost use Rattle.std.specs.Prelude.{◌≡◌, ◌+◌, ◌≤◌, ◌<◌, false, IsTrue, length};
ghost use Rattle.tn_base.specs.Bytes.{fronted};
ghost use Rattle.tn_base.specs.declared.message.Dest.TheVariants as dest;
ghost use Rattle.tn_keys.specs.Copies.{tile_address};
ghost use Rattle.tn_keys.specs.Tables.{HasBoard};
ghost use Rattle.tn_router.specs.Kept.{is_placed, is_record_of};
ghost use Rattle.tn_router.specs.Moves.{behind, copy_by, key_move, move_of, sent_if, way_of, whole_move};
ghost use Rattle.tn_router.specs.Places.{has_side};
ghost use Rattle.tn_router.specs.Rows.{told};

use crate::places::{entered, is_bad, next_record, next_work, with_key};
use crate::work::Work;
use tn_base::ids::{Board, ThreadId, TileId};
use tn_base::mask::Mask;
use tn_base::message::{Dest, Packet};
use tn_base::port::Port;
use tn_base::shape::Shape;
use tn_keys::beat::Beat;
use tn_keys::key::Key;
use tn_keys::local::{bytes_2, bytes_4, bytes_8, tile_address};
use tn_keys::onward::neighbour;
use tn_keys::record::RouteRec;

/// What one Route did.
#[derive(Clone, Copy, PartialEq, Eq, Debug)]
pub enum Routed {
    /// One record was done, or a packet without a key went on.
    Moved,
    /// No packet in process could move, and nothing changed.
    Nothing,
    /// The first packet that could move has this key, which names no beats or beats past the table. Nothing moved.
    BadKey(u32),
}

/// A packet for a way out.
#[derive(Drop)]
pub struct Sent {
    pub way: Port,
    pub packet: Packet,
}

/// What one Route makes of the packet in process that came from a side.
#[derive(Drop)]
pub struct Move {
    pub side: Port,
    /// The packet that is sent on, if no packet waits for that way out yet.
    pub sent: Option<Sent>,
    /// What stays in process.
    pub work: Option<Work>,
    /// The packet's key, if it is bad.
    pub bad: Option<u32>,
}

impl Move {
    /// What the Route answers.
    pub(crate) fn answer(&self) -> Routed
        ensures { result ≡ told self.now.bad }
    {
        match self.bad {
            Some(key) => Routed::BadKey(key),
            None => Routed::Moved,
        }
    }
}

/// Whether a link leads to the router of a board from this side.
pub(crate) fn has_side(shape: &Shape, board: Board, side: Port) -> bool
    requires { HasBoard shape.now board }
    ensures { result ≡ has_side shape.now board side }
{
    let _numbers = shape.numbers();
    match side {
        Port::East => neighbour(shape, 0, board).is_some(),
        Port::West => neighbour(shape, 1, board).is_some(),
        Port::South => neighbour(shape, 2, board).is_some(),
        Port::North => neighbour(shape, 3, board).is_some(),
        Port::Up => true,
        Port::HostPort => board.x == 0 && board.y == 0,
        Port::Down | Port::Here => false,
    }
}

/// The way of an RR's direction.
pub(crate) fn way_of(dir: u8) -> Port
    ensures { result ≡ way_of dir }
{
    match dir {
        0 => Port::East,
        1 => Port::West,
        2 => Port::South,
        _ => Port::North,
    }
}

/// A thread of a tile of a board.
pub(crate) fn thread_at(board: Board, tile: u8, thread: u8) -> Dest
    requires x { board.x < 4 }
    requires y { board.y < 4 }
    ensures { result ≡ dest.Thread (record { 0 = tile_address board tile + thread }) }
{
    Dest::Thread(ThreadId(tile_address(board, tile) + u32::from(thread)))
}

/// The packet with another destination, its first bytes replaced.
fn fronted(p: &Packet, to: Dest, front: &[u8]) -> Packet
    requires { length front.now ≤ 8 }
    ensures { result ≡ record p.now { dest = to; bytes = fronted front.now p.now.bytes } }
{
    Packet {
        origin: p.origin,
        number: p.number,
        dest: to,
        bytes: p.bytes.with_front(front),
    }
}

/// A copy for a way out, if it is a packet of the machine.
fn sent_if(shape: &Shape, way: Port, packet: Packet) -> Option<Sent>
    ensures { result ≡ sent_if shape.now way packet }
{
    if shape.has_packet(&packet) {
        Some(Sent { way, packet })
    } else {
        None
    }
}

/// The copy that a record makes of a packet, if it makes one.
fn copy_by(shape: &Shape, board: Board, p: &Packet, route: RouteRec) -> Option<Sent>
    requires { HasBoard shape.now board }
    ensures { result ≡ copy_by shape.now board p.now route }
{
    let _numbers = shape.numbers();
    match route {
        RouteRec::Urm1 { tile, thread, key } => {
            let to = thread_at(board, tile, thread);
            sent_if(shape, Port::Down, fronted(p, to, &bytes_4(key)))
        }
        RouteRec::Urm2 { tile, thread, key } => {
            let to = thread_at(board, tile, thread);
            sent_if(shape, Port::Down, fronted(p, to, &bytes_8(key)))
        }
        RouteRec::Mrm { tile, key, mask } => {
            let to = Dest::Mask(TileId(tile_address(board, tile)), Mask::of(mask));
            sent_if(shape, Port::Down, fronted(p, to, &bytes_2(key)))
        }
        RouteRec::Rr { dir, key } => {
            if neighbour(shape, dir, board).is_none() {
                return None;
            }
            sent_if(shape, way_of(dir), with_key(p.copy(), Key(key)))
        }
        RouteRec::Ind { .. } => None,
    }
}

/// The packet behind a record, if another one comes.
fn behind(beats: &[Beat], key: Key, work: Work, route: RouteRec) -> Option<Work>
    requires { IsTrue (is_record_of beats.now key.0 work.beat work.at) }
    ensures { result ≡ behind beats.now key.0 work route }
{
    match route {
        RouteRec::Ind { key: onward } => entered(beats, work.packet, Key(onward)),
        RouteRec::Urm1 { .. }
        | RouteRec::Urm2 { .. }
        | RouteRec::Rr { .. }
        | RouteRec::Mrm { .. } => { next_work(beats, key, work) }
    }
}

/// A packet without a key goes whole.
fn whole_move(board: Board, side: Port, packet: Packet) -> Move
    ensures { result ≡ whole_move board side packet }
{
    let sent = Sent {
        way: board.port(&packet.dest),
        packet,
    };
    Move {
        side,
        sent: Some(sent),
        work: None,
        bad: None,
    }
}

/// One record is done. If no record comes, the packet is taken away. If the key is bad, nothing moves.
fn key_move(shape: &Shape, board: Board, beats: &[Beat], side: Port, key: Key, work: Work) -> Move
    requires board { HasBoard shape.now board }
    requires key { work.packet.dest ≡ dest.Key key.0 }
    requires placed { IsTrue (is_placed beats.now work) }
    ensures { result ≡ key_move shape.now board beats.now side key.0 work }
{
    if is_bad(beats, key) {
        return Move {
            side,
            sent: None,
            work: Some(work),
            bad: Some(key.0),
        };
    }
    let Some(route) = next_record(beats, key, &work) else {
        return Move {
            side,
            sent: None,
            work: None,
            bad: None,
        };
    };
    let sent = copy_by(shape, board, &work.packet, route);
    Move {
        side,
        sent,
        work: behind(beats, key, work, route),
        bad: None,
    }
}

/// What one Route makes of a packet in process of a side, if the way out that it needs is free.
pub(crate) fn move_of(shape: &Shape, board: Board, beats: &[Beat], side: Port, work: Work) -> Move
    requires board { HasBoard shape.now board }
    requires placed { IsTrue (is_placed beats.now work) }
    ensures { result ≡ move_of shape.now board beats.now side work }
{
    match work.packet.dest {
        Dest::Key(key) => key_move(shape, board, beats, side, Key(key), work),
        Dest::Thread(_) | Dest::Host | Dest::Mask(_, _) => whole_move(board, side, work.packet),
    }
}
