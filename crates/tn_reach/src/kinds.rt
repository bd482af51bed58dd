//! The faults of one board.

ghost use Rattle.std.specs.Prelude.{◌≡◌, length, map};
ghost use Rattle.std.specs.List.{list_any};
ghost use Rattle.tn_base.specs.Parts.{board_count};
ghost use Rattle.tn_keys.specs.Accepted.{bad_range, bad_thread, board_fault, empty_mask, has_bit, has_place, off_machine};
ghost use Rattle.tn_keys.specs.Tables.{HasBoard, is_bad_key, joined, table_of};
ghost use Rattle.tn_reach.specs.Kinds.{shows};
ghost use Rattle.tn_reach.specs.Marks.{mark};
ghost use Rattle.tn_reach.specs.declared.measure.Measure.TheVariants.{Chains, Weights};

use crate::rounds::place_of;
use crate::running::Running;
use tn_base::ids::Board;
use tn_base::mask::Mask;
use tn_base::shape::Shape;
use tn_keys::beat::Beat;
use tn_keys::fault::TableFault;
use tn_keys::key::Key;
use tn_keys::onward::neighbour;
use tn_keys::record::RouteRec;
use tn_keys::tables::Tables;

/// The faults that one record shows.
#[derive(Clone, Copy)]
enum Kind {
    OffMachine,
    BadThread,
    EmptyMask,
    KeyRange,
}

/// Whether each board has the tile of this place.
fn has_place(shape: &Shape, tile: u8) -> bool
    ensures { result ≡ has_place shape.now tile }
{
    let n = shape.numbers();
    u32::from(tile) % 4 < n.tiles_x && u32::from(tile) / 4 < n.tiles_y
}

/// Whether each tile has the thread core * 16 + thread.
fn has_bit(shape: &Shape, thread: u8) -> bool
    ensures { result ≡ has_bit shape.now thread }
{
    let n = shape.numbers();
    u32::from(thread) % 16 < n.threads && u32::from(thread) / 16 < n.cores
}

/// Whether an RR leads off the machine, or a tile is not there.
fn is_off_machine(shape: &Shape, board: Board, route: RouteRec) -> bool
    requires { HasBoard shape.now board }
    ensures { result ≡ off_machine shape.now board route }
{
    let _numbers = shape.numbers();
    match route {
        RouteRec::Urm1 { tile, .. } => !has_place(shape, tile),
        RouteRec::Urm2 { tile, .. } => !has_place(shape, tile),
        RouteRec::Rr { dir, .. } => neighbour(shape, dir, board).is_none(),
        RouteRec::Mrm { tile, .. } => !has_place(shape, tile),
        RouteRec::Ind { .. } => false,
    }
}

/// Whether a thread is not there, or one that a mask names.
fn is_bad_thread(shape: &Shape, route: RouteRec) -> bool
    ensures { result ≡ bad_thread shape.now route }
{
    match route {
        RouteRec::Urm1 { thread, .. } => !has_bit(shape, thread),
        RouteRec::Urm2 { thread, .. } => !has_bit(shape, thread),
        RouteRec::Mrm { mask, .. } => !shape.names_threads(Mask::of(mask)),
        RouteRec::Rr { .. } | RouteRec::Ind { .. } => false,
    }
}

/// Whether a mask names no thread.
fn is_empty_mask(route: RouteRec) -> bool
    ensures { result ≡ empty_mask route }
{
    match route {
        RouteRec::Mrm { mask, .. } => mask == 0,
        _ => false,
    }
}

/// Whether a key names no beats, or beats past a table of so many.
fn is_bad_key(beats: u32, key: Key) -> bool
    ensures { result ≡ is_bad_key beats key.0 }
{
    key.count() == 0 || beats < key.first() + key.count()
}

/// Whether a record leads to a key that is bad there.
fn is_bad_range(shape: &Shape, tables: &Tables, board: Board, route: RouteRec) -> bool
    requires { HasBoard shape.now board }
    ensures { result ≡ bad_range shape.now tables.now board route }
{
    match route.onward(shape, board) {
        Some(onward) => {
            let beats = tables.len(place_of(shape, onward.board));
            is_bad_key(beats, Key(onward.key))
        }
        None => false,
    }
}

impl Kind {
    /// Whether a record shows it.
    fn is_in(self, shape: &Shape, tables: &Tables, board: Board, route: RouteRec) -> bool
        requires { HasBoard shape.now board }
        ensures { result ≡ shows self shape.now tables.now board route }
    {
        match self {
            Kind::OffMachine => is_off_machine(shape, board, route),
            Kind::BadThread => is_bad_thread(shape, route),
            Kind::EmptyMask => is_empty_mask(route),
            Kind::KeyRange => is_bad_range(shape, tables, board, route),
        }
    }

    /// Whether one of the records shows it.
    fn is_in_beat(self, shape: &Shape, tables: &Tables, board: Board, beat: &[RouteRec]) -> bool
        requires { HasBoard shape.now board }
        ensures { result ≡ list_any (shows self shape.now tables.now board) beat.now }
    {
        for route in beat {
            if self.is_in(shape, tables, board, *route) {
                return true;
            }
        }
        false
    }

    /// Whether a record of the beats shows it.
    fn is_in_beats(self, shape: &Shape, tables: &Tables, board: Board, beats: &[Beat]) -> bool
        requires { HasBoard shape.now board }
        ensures { result ≡ list_any (shows self shape.now tables.now board) (joined beats.now) }
    {
        for beat in beats {
            let beat: &Beat = beat;
            if self.is_in_beat(shape, tables, board, beat.records()) {
                return true;
            }
        }
        false
    }
}

/// The first fault of a board, whose beats gather these chains and weights.
pub(crate) fn find_fault(
    shape: &Shape,
    tables: &Tables,
    board: Board,
    beats: &[Beat],
    chains: &Running,
    weights: &Running,
) -> Option<TableFault>
    requires there { HasBoard shape.now board }
    requires beats { beats.now ≡ table_of shape.now tables.now board }
    requires chains { chains.now ≡ map (mark Chains 64 shape.now tables.now board) beats.now }
    requires weights { weights.now ≡ map (mark Weights 64 shape.now tables.now board) beats.now }
    ensures { result ≡ board_fault shape.now tables.now board }
{
    if Kind::OffMachine.is_in_beats(shape, tables, board, beats) {
        return Some(TableFault::OffMachine);
    }
    if Kind::BadThread.is_in_beats(shape, tables, board, beats) {
        return Some(TableFault::BadThread);
    }
    if Kind::EmptyMask.is_in_beats(shape, tables, board, beats) {
        return Some(TableFault::EmptyMask);
    }
    if Kind::KeyRange.is_in_beats(shape, tables, board, beats) {
        return Some(TableFault::KeyRange);
    }
    if chains.has_above(0) {
        return Some(TableFault::Loop);
    }
    if weights.has_above(65_536) {
        return Some(TableFault::TooWide);
    }
    None
}
