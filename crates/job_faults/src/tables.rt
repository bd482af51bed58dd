//! The tables of a job.

ghost use Rattle.std.specs.Prelude.{◌≡◌, ◌⊎◌, ◌++◌, IfOk, Some, map, option_copied};
ghost use Rattle.job_text.specs.WellFormed.{IsWellFormed};
ghost use Rattle.job_faults.specs.Faults.{beat_from, fault_of_beat};
ghost use Rattle.job_faults.specs.ReadTables.{as_read, beats_in, read_for};
ghost use Rattle.job_faults.specs.Tables.{section_for, table_fault, table_for, tables_of, told_at};

use crate::fault::{FaultName, LoadFault};
use crate::numbers::fault_at;
use crate::sections::sooner;
use job_text::job::{Job, TableSection};
use std::alloc::{AllocError, Global};
use tn_base::ids::Board;
use tn_base::shape::Shape;
use tn_keys::beat::{Beat, BeatFault};
use tn_keys::fault::TableFault;
use tn_keys::read_beat;
use tn_keys::tables::Tables;
use tn_reach::check::{TableStop, check_tables};
use tn_text::items::Items;

/// A table as it was read: the beats of its lines, and the first line that is no beat.
#[derive(Drop)]
pub struct ReadTable {
    pub line: u32,
    pub x: u32,
    pub y: u32,
    pub beats: Items<Beat>,
    pub fault: Option<LoadFault>,
}

/// The beat of 32 bytes.
fn beat_from(version: u32, bytes: &[u8; 32]) -> Result<Beat, BeatFault>
    requires { (version ≡ 1) ⊎ (version ≡ 2) }
    ensures { result ≡ beat_from version bytes.now }
{
    read_beat(version, bytes)
}

/// Why bytes of a line are no beat.
fn fault_of_beat(line: u32, read: &Result<Beat, BeatFault>) -> Option<LoadFault>
    ensures { result ≡ fault_of_beat line read.now }
{
    match read {
        Ok(_) => None,
        Err(fault) => Some(fault_at(line, FaultName::of_beat(*fault))),
    }
}

/// Appends the beat that a line is, if it is a beat.
fn push_beat(beats: &mut Items<Beat>, read: Result<Beat, BeatFault>) -> Result<(), AllocError>
    ensures { IfOk result (λ _. beats.new ≡ beats.old ++ beats_in read) }
{
    match read {
        Ok(beat) => beats.push(beat),
        Err(_fault) => Ok(()),
    }
}

/// The table of a section. Each line is decoded once.
fn read_table(alloc: Global, version: u32, table: &TableSection) -> Result<ReadTable, AllocError>
    requires { (version ≡ 1) ⊎ (version ≡ 2) }
    ensures { IfOk result (λ read. read ≡ as_read version table.now) }
{
    let lines = table.beats.as_slice();
    let mut beats = Items::new(alloc);
    let mut first = None;
    for line in lines {
        let read = beat_from(version, &line.bytes);
        first = sooner(first, fault_of_beat(line.line, &read));
        push_beat(&mut beats, read)?;
    }
    Ok(ReadTable {
        line: table.line,
        x: table.x,
        y: table.y,
        beats,
        fault: first,
    })
}

/// The tables of sections.
pub(crate) fn read_tables(
    alloc: Global,
    version: u32,
    tables: &[TableSection],
) -> Result<Items<ReadTable>, AllocError>
    requires { (version ≡ 1) ⊎ (version ≡ 2) }
    ensures { IfOk result (λ all. all ≡ map (as_read version) tables.now) }
{
    let mut all = Items::new(alloc);
    for table in tables {
        let read = read_table(alloc, version, table)?;
        all.push(read)?;
    }
    Ok(all)
}

/// The table of a board.
fn read_for(tables: &[ReadTable], board: Board) -> Option<&ReadTable>
    ensures { option_copied result ≡ read_for tables.now board }
{
    tables
        .iter()
        .find(|table| table.x == board.x && table.y == board.y)
}

/// The same beats.
pub fn copy_beats(alloc: Global, beats: &[Beat]) -> Result<Vec<Beat>, AllocError>
    ensures { IfOk result (λ copies. copies.items ≡ beats.now) }
{
    let mut copies = Vec::with_capacity(alloc, beats.len())?;
    for beat in beats {
        copies.push(beat.copy())?;
    }
    Ok(copies)
}

/// The table of a board, of a job whose tables were read.
pub fn table_for(
    alloc: Global,
    _job: &Job,
    read: &[ReadTable],
    board: Board,
) -> Result<Vec<Beat>, AllocError>
    requires { read.now ≡ map (as_read _job.now.version) _job.now.tables }
    ensures { IfOk result (λ beats. beats.items ≡ table_for _job.now board) }
{
    match read_for(read, board) {
        Some(table) => copy_beats(alloc, table.beats.as_slice()),
        None => Ok(Vec::new(alloc)),
    }
}

/// The tables of all boards.
fn tables_of(
    alloc: Global,
    shape: &Shape,
    job: &Job,
    read: &[ReadTable],
) -> Result<Tables, AllocError>
    requires numbers { shape.now ≡ job.now.numbers }
    requires formed { IsWellFormed job.now }
    requires read { read.now ≡ map (as_read job.now.version) job.now.tables }
    ensures { IfOk result (λ tables. tables ≡ tables_of job.now) }
{
    let count = shape.board_count();
    let mut boards = Vec::with_capacity(alloc, count as usize)?;
    for i in 0..count {
        boards.push(table_for(alloc, job, read, shape.board_at(i))?)?;
    }
    Ok(Tables::of(boards))
}

/// A fault of a board's table, at the line of its section.
fn told_at(_job: &Job, read: &[ReadTable], board: Board, fault: TableFault) -> Option<LoadFault>
    requires { read.now ≡ map (as_read _job.now.version) _job.now.tables }
    ensures { result ≡ told_at (section_for _job.now board) (Some fault) }
{
    match read_for(read, board) {
        Some(table) => Some(fault_at(table.line, FaultName::of_table(fault))),
        None => None,
    }
}

/// The first board whose table leads nowhere, or too far.
pub(crate) fn table_fault(
    alloc: Global,
    shape: &Shape,
    job: &Job,
    read: &[ReadTable],
) -> Result<Option<LoadFault>, AllocError>
    requires numbers { shape.now ≡ job.now.numbers }
    requires formed { IsWellFormed job.now }
    requires read { read.now ≡ map (as_read job.now.version) job.now.tables }
    ensures { IfOk result (λ found. found ≡ table_fault job.now) }
{
    let tables = tables_of(alloc, shape, job, read)?;
    match check_tables(alloc, shape, &tables) {
        Ok(()) => Ok(None),
        Err(TableStop::Memory) => Err(AllocError),
        Err(TableStop::Fault { board, fault }) => {
            Ok(told_at(job, read, shape.board_at(board), fault))
        },
    }
}
