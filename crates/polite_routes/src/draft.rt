//! Tables while trees are planted.

ghost use Rattle.std.specs.Prelude.{◌≡◌, ◌≤◌, ◌<◌, ◌++◌, ◌∷◌, [], ◌*◌, ◌+◌, ℕ, IsTrue, true, false, IfOk, Err, length, map, replicate, slice_set};
ghost use Rattle.std.specs.List.{list_all, list_any};
ghost use Rattle.tn_base.specs.Parts.{board_count};
ghost use Rattle.tn_base.specs.Shape.{WithinLimits};
ghost use Rattle.tn_keys.specs.Beat.{is_beat};
ghost use Rattle.tn_keys.specs.Tables.{HasBoard, Table, board_place, table_at, table_of};
ghost use Rattle.polite_routes.specs.Full.{Gives, GivesTable, is_full};
ghost use Rattle.polite_routes.specs.Pack.{filled, is_alone, key_for, key_in, key_of, pack, with_records};

use crate::target::RouteStop;
use std::alloc::{AllocError, Global};
use std::marker::Model;
use tn_base::ids::Board;
use tn_base::shape::Shape;
use tn_keys::beat::Beat;
use tn_keys::record::RouteRec;
use tn_keys::tables::Tables;

/// The most beats of a board.
const MOST_BEATS: usize = 65_536;

/// The beats of a board. A contract sees the list.
#[derive(Drop)]
pub(crate) struct BeatList {
    beats: Vec<Beat>,
}

impl Model for BeatList {
    ghost use Rattle.tn_keys.specs.Tables.{Table};

    ghost Value = { Table };

    ghost view = { λ l. l.beats.items };
}

/// The tables of all boards, by board y, then x. A contract sees the lists.
#[derive(Drop)]
pub(crate) struct Draft {
    boards: Vec<BeatList>,
}

impl Model for Draft {
    ghost use Rattle.std.specs.Prelude.{List};
    ghost use Rattle.tn_keys.specs.Tables.{Table};

    ghost Value = { List Table };

    ghost view = { λ d. d.boards.items };
}

impl BeatList {
    /// A beat with these records.
    fn push(&mut self, records: &[RouteRec]) -> Result<(), AllocError>
        requires { IsTrue (is_beat records.now) }
        ensures { IfOk result (λ _. self.new ≡ self.old ++ records.now ∷ []) }
    {
        if let Some(beat) = Beat::of(records) {
            self.beats.push(beat)?;
        }
        Ok(())
    }

    /// Appends the beats of records.
    fn fill(&mut self, records: &[RouteRec]) -> Result<(), AllocError>
        requires { list_all is_alone records.now ≡ true }
        ensures { IfOk result (λ _. self.new ≡ self.old ++ pack records.now) }
    {
        if records.is_empty() {
            return Ok(());
        }
        let mut start = 0;
        for end in 1..records.len() {
            if !is_beat(&records[start..end + 1]) {
                self.push(&records[start..end])?;
                start = end;
            }
        }
        self.push(&records[start..])
    }

    /// Appends the beats of records, and answers their key, if there are any.
    fn give(&mut self, records: &[RouteRec]) -> Result<Option<u32>, RouteStop>
        requires few { length records.now < 256 }
        requires alone { list_all is_alone records.now ≡ true }
        requires short { length self.old ≤ 65536 }
        ensures { GivesTable result self.new (self.old ++ pack records.now) (key_in self.old records.now) }
    {
        let first = self.beats.len();
        self.fill(records)?;
        let end = self.beats.len();
        if end > MOST_BEATS {
            return Err(RouteStop::TableFull);
        }
        if records.is_empty() {
            return Ok(None);
        }
        Ok(Some((first * 256 + (end - first)) as u32))
    }
}

/// Whether the records are those of a beat.
fn is_beat(records: &[RouteRec]) -> bool
    ensures { result ≡ is_beat records.now }
{
    Beat::of(records).is_some()
}

impl Draft {
    /// Tables without beats.
    pub(crate) fn new(alloc: Global, boards: u32) -> Result<Draft, AllocError>
        ensures { IfOk result (λ d. d ≡ replicate boards []) }
    {
        let mut list = Vec::new(alloc);
        for _board in 0..boards {
            list.push(BeatList {
                beats: Vec::new(alloc),
            })?;
        }
        Ok(Draft { boards: list })
    }

    /// Gives a board the beats of records, and answers their key, if there are any.
    pub(crate) fn give(
        &mut self,
        shape: &Shape,
        board: Board,
        records: &[RouteRec],
    ) -> Result<Option<u32>, RouteStop>
        requires boards { length self.old ≡ board_count shape.now }
        requires there { HasBoard shape.now board }
        requires few { length records.now < 256 }
        requires alone { list_all is_alone records.now ≡ true }
        requires short { is_full self.old ≡ false }
        ensures gives { Gives result self.new (with_records shape.now board records.now self.old) (key_for shape.now board records.now self.old) }
        ensures count { IfOk result (λ _. length self.new ≡ length self.old) }
    {
        let place = board_place(shape, board);
        self.boards[place].give(records)
    }
}

impl Draft {
    /// The tables as those of a machine.
    pub(crate) fn into_tables(self, alloc: Global) -> Result<Tables, AllocError>
        requires boards { length self ≤ 16 }
        requires short { is_full self ≡ false }
        ensures { IfOk result (λ tables. tables ≡ self) }
    {
        let boards = self.into_boards(alloc)?;
        Ok(Tables::of(boards))
    }

    /// The beats of each board.
    fn into_boards(self, alloc: Global) -> Result<Vec<Vec<Beat>>, AllocError>
        ensures { IfOk result (λ boards. map (λ v. v.items) boards.items ≡ self) }
    {
        let mut boards = Vec::with_capacity(alloc, self.boards.len())?;
        for list in self.boards {
            boards.push(list.beats)?;
        }
        Ok(boards)
    }
}

/// The place of a board among all boards, by y, then x.
fn board_place(shape: &Shape, board: Board) -> usize
    requires { HasBoard shape.now board }
    ensures value { result ≡ board_place shape.now board }
    ensures there { result < board_count shape.now }
{
    let n = shape.numbers();
    (board.y * n.boards_x + board.x) as usize
}
