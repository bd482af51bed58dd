//! Sections that name what the machine does not have, and beats and messages that are none.

ghost use Rattle.std.specs.Prelude.{◌≡◌, map};
ghost use Rattle.job_faults.specs.Assembly.{as_code};
ghost use Rattle.job_faults.specs.Faults.{code_fault, fill_fault, is_message, item_fault, owner_fault, place_fault, section_fault, send_fault, sooner, soonest};
ghost use Rattle.job_faults.specs.ReadTables.{as_read, read_fault};

use crate::fault::{FaultName, LoadFault};
use crate::numbers::fault_at;
use crate::tables::ReadTable;
use job_text::job::{CodeSection, FillLine, Job, Owner, ScriptLine, ScriptText, TableSection};
use tn_base::ids::{ThreadId, TileId};
use tn_base::shape::Shape;

/// The one of two faults that stands on the earlier line; of two on one line the first.
pub(crate) fn sooner(a: Option<LoadFault>, b: Option<LoadFault>) -> Option<LoadFault>
    ensures { result ≡ sooner a b }
{
    match (a, b) {
        (None, fault) => fault,
        (fault, None) => fault,
        (Some(a), Some(b)) => Some(if b.line < a.line { b } else { a }),
    }
}

/// The code of a tile that is not there.
fn code_fault(shape: &Shape, section: &CodeSection) -> Option<LoadFault>
    ensures { result ≡ code_fault shape.now section.now }
{
    match section.owner {
        Owner::Tile(tile) if !shape.has_tile(TileId(tile)) => {
            Some(fault_at(section.line, FaultName::BadTile))
        }
        _ => None,
    }
}

/// The bytes of a thread that is not there, or bytes past the end of its memory.
fn fill_fault(shape: &Shape, fill: &FillLine) -> Option<LoadFault>
    ensures { result ≡ fill_fault shape.now fill.now }
{
    if !shape.has_thread(ThreadId(fill.thread)) {
        return Some(fault_at(fill.line, FaultName::BadThread));
    }
    let end = u64::from(fill.address).saturating_add(fill.bytes.len() as u64);
    if end > u64::from(shape.numbers().mem) {
        return Some(fault_at(fill.line, FaultName::BadFill));
    }
    None
}

/// The table of a board that is not there.
fn place_fault(shape: &Shape, table: &TableSection) -> Option<LoadFault>
    ensures { result ≡ place_fault shape.now table.now }
{
    let n = shape.numbers();
    if table.x < n.boards_x && table.y < n.boards_y {
        None
    } else {
        Some(fault_at(table.line, FaultName::BadTable))
    }
}

/// Whether so many bytes are a message of the version.
fn is_message(shape: &Shape, count: usize) -> bool
    ensures { result ≡ is_message shape.now count }
{
    count >= 16 && count <= 128 && count % 16 == 0 && count <= shape.slot_bytes() as usize
}

/// A message to a thread that is not there, or bytes that are no message.
fn item_fault(shape: &Shape, line: u32, item: &ScriptText) -> Option<LoadFault>
    ensures { result ≡ item_fault shape.now line item.now }
{
    let ScriptText::Send(thread, bytes) = item else {
        return None;
    };
    if !shape.has_thread(ThreadId(*thread)) {
        return Some(fault_at(line, FaultName::BadThread));
    }
    if is_message(shape, bytes.len()) {
        return None;
    }
    Some(fault_at(line, FaultName::BadMessage))
}

fn first_send_fault(shape: &Shape, script: &[ScriptLine]) -> Option<LoadFault>
    ensures { result ≡ soonest (send_fault shape.now) script.now }
{
    let mut first = None;
    for said in script {
        first = sooner(first, item_fault(shape, said.line, &said.item));
    }
    first
}

fn first_code_fault(shape: &Shape, sections: &[CodeSection]) -> Option<LoadFault>
    ensures { result ≡ soonest (code_fault shape.now) sections.now }
{
    let mut first = None;
    for section in sections {
        first = sooner(first, code_fault(shape, section));
    }
    first
}

fn first_fill_fault(shape: &Shape, fills: &[FillLine]) -> Option<LoadFault>
    ensures { result ≡ soonest (fill_fault shape.now) fills.now }
{
    let mut first = None;
    for fill in fills {
        first = sooner(first, fill_fault(shape, fill));
    }
    first
}

fn first_place_fault(shape: &Shape, tables: &[TableSection]) -> Option<LoadFault>
    ensures { result ≡ soonest (place_fault shape.now) tables.now }
{
    let mut first = None;
    for table in tables {
        first = sooner(first, place_fault(shape, table));
    }
    first
}

fn first_beat_fault(tables: &[ReadTable]) -> Option<LoadFault>
    ensures { result ≡ soonest read_fault tables.now }
{
    let mut first = None;
    for table in tables {
        first = sooner(first, table.fault);
    }
    first
}

/// The first section, in order of lines, that names what the machine does not have, or the first beat or message that is
/// none.
pub(crate) fn section_fault(
    shape: &Shape,
    job: &Job,
    asms: &[CodeSection],
    tables: &[ReadTable],
) -> Option<LoadFault>
    requires numbers { shape.now ≡ job.now.numbers }
    requires asms { asms.now ≡ map as_code job.now.asms }
    requires tables { tables.now ≡ map (as_read job.now.version) job.now.tables }
    ensures { result ≡ section_fault job.now }
{
    let codes = first_code_fault(shape, job.codes.as_slice());
    let asms = first_code_fault(shape, asms);
    let fills = first_fill_fault(shape, job.fills.as_slice());
    let boards = first_place_fault(shape, job.tables.as_slice());
    let beats = first_beat_fault(tables);
    let sends = first_send_fault(shape, job.script.as_slice());
    let named = sooner(fills, sooner(boards, sooner(beats, sends)));
    sooner(sooner(codes, asms), named)
}
