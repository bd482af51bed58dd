//! What the sections of a text have named.

ghost use Rattle.std.specs.Prelude.{◌≡◌, [], not, IfOk, if◌then◌else◌, Some, None};
ghost use Rattle.job_text.specs.Named.{has, is_named, nothing_named, owner_subject as subject_of_owner, section_named, subject_of as subject_of_section, with_number, with_subject};

use crate::job::{Owner, Section};
use std::alloc::{AllocError, Global};
use std::collections::BTreeSet;
use std::marker::Model;

/// A set of numbers. A contract sees them in ascending order.
#[derive(Drop)]
pub(crate) struct NumberSet {
    numbers: BTreeSet<u64>,
}

impl Model for NumberSet {
    ghost use Rattle.std.specs.Prelude.{ℕ, List};

    ghost Value = { List ℕ };

    ghost view = { λ s. s.numbers.keys };
}

impl NumberSet {
    pub(crate) fn new(alloc: Global) -> NumberSet
        ensures { result ≡ [] }
    {
        NumberSet {
            numbers: BTreeSet::new(alloc),
        }
    }

    /// Adds a number, and returns whether the number is new.
    pub(crate) fn add(&mut self, number: u64) -> Result<bool, AllocError>
        ensures added { IfOk result (λ added. added ≡ not (has number self.old)) }
        ensures after { IfOk result (λ _. self.new ≡ with_number number self.old) }
    {
        Ok(self.numbers.insert(number)?)
    }
}

/// What a section is about. A job has at most one section about a subject.
#[derive(Clone, Copy, PartialEq, Eq, Debug)]
pub(crate) enum Subject {
    /// The code of each tile that has none of its own.
    AllCode,
    /// The code of the tile of this address.
    TileCode(u32),
    /// The table of the board at this place.
    BoardTable(u32, u32),
    TheGraph,
}

fn owner_subject(owner: Owner) -> Subject
    ensures { result ≡ subject_of_owner owner }
{
    match owner {
        Owner::All => Subject::AllCode,
        Owner::Tile(tile) => Subject::TileCode(tile),
    }
}

fn subject_of(section: &Section) -> Option<Subject>
    ensures { result ≡ subject_of_section section.now }
{
    match section {
        Section::Code(section) => Some(owner_subject(section.owner)),
        Section::Asm(section) => Some(owner_subject(section.owner)),
        Section::Fill(_) => None,
        Section::Table(table) => Some(Subject::BoardTable(table.x, table.y)),
        Section::Script(_) => None,
        Section::Graph(_) => Some(Subject::TheGraph),
    }
}

/// What the sections so far are about.
#[derive(Drop)]
pub(crate) struct Named {
    all: bool,
    tiles: NumberSet,
    boards: NumberSet,
    graph: bool,
}

impl Named {
    pub(crate) fn new(alloc: Global) -> Named
        ensures { result ≡ nothing_named }
    {
        Named {
            all: false,
            tiles: NumberSet::new(alloc),
            boards: NumberSet::new(alloc),
            graph: false,
        }
    }

    /// Adds a subject, and returns whether the subject is new.
    fn add(&mut self, subject: Subject) -> Result<bool, AllocError>
        ensures added { IfOk result (λ added. added ≡ not (is_named subject self.old)) }
        ensures after { IfOk result (λ _. self.new ≡ with_subject subject self.old) }
    {
        match subject {
            Subject::AllCode => {
                let added = !self.all;
                self.all = true;
                Ok(added)
            }
            Subject::TileCode(tile) => self.tiles.add(u64::from(tile)),
            Subject::BoardTable(x, y) => self
                .boards
                .add(u64::from(x) * 0x1_0000_0000 + u64::from(y)),
            Subject::TheGraph => {
                let added = !self.graph;
                self.graph = true;
                Ok(added)
            }
        }
    }

    /// Adds the subject of a section, and returns whether the subject is new. A section without a subject is new too.
    pub(crate) fn add_section(&mut self, section: &Section) -> Result<bool, AllocError>
        ensures { IfOk result (λ added. section_named self.old section.now ≡ (if added then Some self.new else None)) }
    {
        match subject_of(section) {
            None => Ok(true),
            Some(subject) => self.add(subject),
        }
    }
}
