//! The way out that the next move of a packet in process needs.

ghost use Rattle.std.specs.Prelude.{◌≡◌, IsTrue, None, Some, if◌then◌else◌};
ghost use Rattle.tn_base.specs.Message.{has_dest, has_packet};
ghost use Rattle.tn_base.specs.declared.message.Dest.TheVariants as dest;
ghost use Rattle.tn_base.specs.declared.port.Port.{Port};
ghost use Rattle.tn_base.specs.declared.port.Port.TheVariants as port;
ghost use Rattle.tn_keys.specs.Tables.{HasBoard};
ghost use Rattle.tn_router.specs.Kept.{FitsWork};
ghost use Rattle.tn_router.specs.Moves.{copy_by, key_move, move_of, sent_way};

use crate::moves::{thread_at, way_of};
use crate::places::{is_bad, next_record};
use crate::work::Work;
use tn_base::ids::{Board, TileId};
use tn_base::mask::Mask;
use tn_base::message::{Dest, Packet};
use tn_base::port::Port;
use tn_base::shape::Shape;
use tn_keys::beat::Beat;
use tn_keys::key::Key;
use tn_keys::local::tile_address;
use tn_keys::onward::neighbour;
use tn_keys::record::RouteRec;

/// The way down, if a destination is there.
fn down_to(shape: &Shape, to: Dest) -> Option<Port>
    ensures { result ≡ (if has_dest shape.now to then Some port.Down else None) }
{
    if shape.has_dest(&to) {
        Some(Port::Down)
    } else {
        None
    }
}

/// The way of the copy that a record makes of a packet, if it makes a copy.
fn copy_way(shape: &Shape, board: Board, p: &Packet, route: RouteRec) -> Option<Port>
    requires board { HasBoard shape.now board }
    requires packet { IsTrue (has_packet shape.now p.now) }
    ensures { result ≡ sent_way (copy_by shape.now board p.now route) }
{
    let _numbers = shape.numbers();
    match route {
        RouteRec::Urm1 { tile, thread, .. } => down_to(shape, thread_at(board, tile, thread)),
        RouteRec::Urm2 { tile, thread, .. } => down_to(shape, thread_at(board, tile, thread)),
        RouteRec::Mrm { tile, mask, .. } => {
            let tile = TileId(tile_address(board, tile));
            down_to(shape, Dest::Mask(tile, Mask::of(mask)))
        }
        RouteRec::Rr { dir, .. } => {
            if neighbour(shape, dir, board).is_none() {
                return None;
            }
            Some(way_of(dir))
        }
        RouteRec::Ind { .. } => None,
    }
}

/// The way of what the next record of a packet sends.
fn key_way(shape: &Shape, board: Board, beats: &[Beat], key: Key, work: &Work) -> Option<Port>
    requires board { HasBoard shape.now board }
    requires key { work.now.packet.dest ≡ dest.Key key.0 }
    requires fits { FitsWork shape.now beats.now work.now }
    ensures { (side : Port) → result ≡ sent_way (key_move shape.now board beats.now side key.0 work.now).sent }
{
    if is_bad(beats, key) {
        return None;
    }
    let Some(route) = next_record(beats, key, work) else {
        return None;
    };
    copy_way(shape, board, &work.packet, route)
}

/// The way of what one Route sends of a packet in process, if it sends something.
pub(crate) fn next_way(shape: &Shape, board: Board, beats: &[Beat], work: &Work) -> Option<Port>
    requires board { HasBoard shape.now board }
    requires fits { FitsWork shape.now beats.now work.now }
    ensures { (side : Port) → result ≡ sent_way (move_of shape.now board beats.now side work.now).sent }
{
    match work.packet.dest {
        Dest::Key(key) => key_way(shape, board, beats, Key(key), work),
        Dest::Thread(_) | Dest::Host | Dest::Mask(_, _) => Some(board.port(&work.packet.dest)),
    }
}
