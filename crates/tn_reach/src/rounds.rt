//! Rounds over all beats of all tables.

ghost use Rattle.std.specs.Prelude.{◌≡◌, ◌≤◌, ◌<◌, ◌^◌, ℕ, [], IfOk, IfSome, IsTrue, length, map};
ghost use Rattle.tn_base.specs.Parts.{board_at, board_count};
ghost use Rattle.tn_base.specs.Shape.{WithinLimits};
ghost use Rattle.tn_keys.specs.Tables.{HasBoard, board_place, table_at};
ghost use Rattle.tn_reach.specs.Marks.{First, Marked, Next, first_mark, mark, marks_beyond, next_mark};

use crate::measure::Measure;
use crate::running::{GREATEST, Running};
use std::alloc::{AllocError, Global};
use tn_base::ids::Board;
use tn_base::shape::Shape;
use tn_keys::beat::Beat;
use tn_keys::key::Key;
use tn_keys::onward::Onward;
use tn_keys::record::RouteRec;
use tn_keys::tables::Tables;

/// The most records that lead on one after the other in accepted tables.
const MOST_RECORDS: u32 = 64;

/// The board at a place, by y, then x.
pub(crate) fn board_at(shape: &Shape, place: u32) -> Board
    requires { place < board_count shape.now }
    ensures value { result ≡ board_at shape.now place }
    ensures there { HasBoard shape.now result }
{
    let n = shape.numbers();
    Board {
        x: place % n.boards_x,
        y: place / n.boards_x,
    }
}

/// A board's place, by y, then x.
pub(crate) fn place_of(shape: &Shape, board: Board) -> u32
    requires { HasBoard shape.now board }
    ensures value { result ≡ board_place shape.now board }
    ensures below { result < board_count shape.now }
{
    let n = shape.numbers();
    board.y * n.boards_x + board.x
}

/// The sum of the marks where a record leads.
fn marks_beyond(shape: &Shape, marks: &[Running], onward: Option<Onward>) -> u64
    requires boards { length marks.now ≡ board_count shape.now }
    requires there { IfSome onward (λ o. HasBoard shape.now o.board) }
    ensures value { result ≡ marks_beyond shape.now marks.now onward }
    ensures small { result < 2 ^ 33 }
{
    let Some(onward) = onward else {
        return 0;
    };
    let key = Key(onward.key);
    let marks = &marks[place_of(shape, onward.board) as usize];
    marks.part(key.first() as usize, key.count() as usize)
}

/// The mark of a beat from those of all beats.
fn next_mark(
    shape: &Shape,
    measure: Measure,
    marks: &[Running],
    board: Board,
    beat: &[RouteRec],
) -> u64
    requires boards { length marks.now ≡ board_count shape.now }
    requires there { HasBoard shape.now board }
    requires short { length beat.now ≤ 5 }
    ensures value { result ≡ next_mark measure shape.now marks.now board beat.now }
    ensures small { result ≤ 65537 }
{
    let mut sum = 0;
    for route in beat {
        sum += measure.own(*route) + marks_beyond(shape, marks, route.onward(shape, board));
    }
    sum.min(GREATEST)
}

/// The mark of a beat over no record that leads on.
fn first_mark(measure: Measure, beat: &[RouteRec]) -> u64
    requires { length beat.now ≤ 5 }
    ensures value { result ≡ first_mark measure beat.now }
    ensures small { result ≤ 65537 }
{
    let mut sum = 0;
    for route in beat {
        sum += measure.last(*route);
    }
    sum.min(GREATEST)
}

/// The marks of a board's beats over no record that leads on.
fn first_of(alloc: Global, measure: Measure, beats: &[Beat]) -> Result<Running, AllocError>
    requires { length beats.now ≤ 65536 }
    ensures { IfOk result (λ r. r ≡ map (first_mark measure) beats.now) }
{
    let mut marks = Running::new(alloc, beats.len())?;
    for beat in beats {
        let beat: &Beat = beat;
        marks.push(first_mark(measure, beat.records()))?;
    }
    Ok(marks)
}

/// The marks of a board's beats from those of all beats.
fn next_of(
    alloc: Global,
    shape: &Shape,
    measure: Measure,
    marks: &[Running],
    board: Board,
    beats: &[Beat],
) -> Result<Running, AllocError>
    requires boards { length marks.now ≡ board_count shape.now }
    requires there { HasBoard shape.now board }
    requires few { length beats.now ≤ 65536 }
    ensures { IfOk result (λ r. r ≡ map (next_mark measure shape.now marks.now board) beats.now) }
{
    let mut next = Running::new(alloc, beats.len())?;
    for beat in beats {
        let beat: &Beat = beat;
        next.push(next_mark(shape, measure, marks, board, beat.records()))?;
    }
    Ok(next)
}

/// The marks of all beats over no record that leads on.
fn first_marks(alloc: Global, measure: Measure, tables: &Tables) -> Result<Vec<Running>, AllocError>
    ensures { IfOk result (λ v. First measure tables.now v.items) }
{
    let mut marks = Vec::new(alloc);
    for board in 0..tables.boards() {
        marks.push(first_of(alloc, measure, tables.table(board))?)?;
    }
    Ok(marks)
}

/// The marks of all beats from those over one record less.
fn next_marks(
    alloc: Global,
    shape: &Shape,
    measure: Measure,
    tables: &Tables,
    marks: &[Running],
) -> Result<Vec<Running>, AllocError>
    requires boards { length tables.now ≡ board_count shape.now }
    requires marks { length marks.now ≡ length tables.now }
    ensures { IfOk result (λ v. Next measure shape.now tables.now marks.now v.items) }
{
    let mut next = Vec::new(alloc);
    for board in 0..tables.boards() {
        let beats = tables.table(board);
        let board = board_at(shape, board);
        next.push(next_of(alloc, shape, measure, marks, board, beats)?)?;
    }
    Ok(next)
}

/// Whether all marks are the same; it may be false where they are.
fn same_marks(a: &[Running], b: &[Running]) -> bool
    requires { length a.now ≡ length b.now }
    ensures { IsTrue result → a.now ≡ b.now }
{
    for i in 0..a.len() {
        if !a[i].same(&b[i]) {
            return false;
        }
    }
    true
}

/// The marks of all beats over at most 64 records that lead on, one after the other. A round that changes nothing is the
/// last one.
pub(crate) fn gather(
    alloc: Global,
    shape: &Shape,
    measure: Measure,
    tables: &Tables,
) -> Result<Vec<Running>, AllocError>
    requires { length tables.now ≡ board_count shape.now }
    ensures { IfOk result (λ v. Marked measure 64 shape.now tables.now v.items) }
{
    let _numbers = shape.numbers();
    let mut marks = first_marks(alloc, measure, tables)?;
    for _round in 0..MOST_RECORDS {
        let next = next_marks(alloc, shape, measure, tables, marks.as_slice())?;
        if same_marks(next.as_slice(), marks.as_slice()) {
            return Ok(next);
        }
        marks = next;
    }
    Ok(marks)
}
