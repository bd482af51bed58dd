//! The tables of all boards.

ghost use Rattle.std.specs.Prelude.{◌≡◌, ◌≤◌, ◌<◌, ℕ, length, map, option_copied, slice_get};
ghost use Rattle.tn_keys.specs.Tables.{table_at};

use crate::beat::Beat;
use std::marker::Model;

/// One list of beats for each board, by board y, then x. A contract sees the lists.
#[derive(Drop)]
pub struct Tables {
    boards: Vec<Vec<Beat>>,
}

impl Model for Tables {
    ghost use Rattle.std.specs.Prelude.{◌≤◌, ◌<◌, ℕ, List, length, map};
    ghost use Rattle.tn_keys.specs.Tables.{Table, table_at};

    ghost Value = { List Table };

    ghost view = { λ t. map (λ v. v.items) t.boards.items };

    ghost invariant = { λ t. (length t.boards.items ≤ 16) × ((i : ℕ) → length (table_at (map (λ v. v.items) t.boards.items) i) ≤ 65536) };
}

impl Tables {
    /// The tables of these boards: at most 16, each of at most 65,536 beats.
    pub fn of(boards: Vec<Vec<Beat>>) -> Tables
        requires few { length boards.items ≤ 16 }
        requires short { (i : ℕ) → length (table_at (map (λ v. v.items) boards.items) i) ≤ 65536 }
        ensures { result ≡ map (λ v. v.items) boards.items }
    {
        Tables { boards }
    }

    /// The lists again.
    pub fn into_boards(self) -> Vec<Vec<Beat>>
        ensures { map (λ v. v.items) result.items ≡ self }
    {
        self.boards
    }

    /// The beats of a board.
    pub fn table(&self, board: u32) -> &[Beat]
        requires { board < length self.now }
        ensures value { result.now ≡ table_at self.now board }
        ensures few { length result.now ≤ 65536 }
    {
        &self.boards[board as usize]
    }

    /// How many boards there are.
    pub fn boards(&self) -> u32
        ensures value { result ≡ length self.now }
        ensures few { result ≤ 16 }
    {
        self.boards.len() as u32
    }

    /// How many beats a board has, 0 where there is no such board.
    pub fn len(&self, board: u32) -> u32
        ensures value { result ≡ length (table_at self.now board) }
        ensures few { result ≤ 65536 }
    {
        match self.boards.get(board as usize) {
            Some(beats) => beats.len() as u32,
            None => 0,
        }
    }

    /// The beat at a place of a board's table.
    pub fn beat(&self, board: u32, i: u32) -> Option<&Beat>
        ensures { option_copied result ≡ slice_get (table_at self.now board) i }
    {
        self.boards.get(board as usize)?.get(i as usize)
    }
}
