//! The code of each tile.

ghost use Rattle.std.specs.Prelude.{◌≡◌, ◌++◌, None, Some, map, option_copied};
ghost use Rattle.job_faults.specs.Assembly.{as_code};
ghost use Rattle.job_faults.specs.Code.{code_of, is_all, is_empty, is_tile, lacks_code, or_words, words_by};
ghost use Rattle.job_faults.specs.Faults.{missing_fault};

use crate::fault::{FaultName, LoadFault};
use crate::numbers::{fault_at, shape_line};
use job_text::job::{CodeSection, Job, Owner};
use tn_base::ids::TileId;
use tn_base::shape::Shape;

pub(crate) fn is_all(owner: Owner) -> bool
    ensures { result ≡ is_all owner }
{
    matches!(owner, Owner::All)
}

fn is_tile(owner: Owner, tile: TileId) -> bool
    ensures { result ≡ is_tile tile.0 owner }
{
    match owner {
        Owner::All => false,
        Owner::Tile(other) => tile.0 == other,
    }
}

/// The words of the section of all tiles.
fn common_code(sections: &[CodeSection]) -> Option<&[u32]>
    ensures { option_copied result ≡ words_by is_all sections.now }
{
    for section in sections {
        if is_all(section.owner) {
            return Some(section.words.as_slice());
        }
    }
    None
}

/// The words of a tile's own section.
fn own_code(sections: &[CodeSection], tile: TileId) -> Option<&[u32]>
    ensures { option_copied result ≡ words_by (is_tile tile.0) sections.now }
{
    for section in sections {
        if is_tile(section.owner, tile) {
            return Some(section.words.as_slice());
        }
    }
    None
}

/// The code of a tile. Sections of assembly stand behind the others.
pub fn code_of<'a>(codes: &'a [CodeSection], asms: &'a [CodeSection], tile: TileId) -> &'a [u32]
    ensures { result.now ≡ code_of (codes.now ++ asms.now) tile.0 }
{
    if let Some(words) = own_code(codes, tile) {
        return words;
    }
    if let Some(words) = own_code(asms, tile) {
        return words;
    }
    if let Some(words) = common_code(codes) {
        return words;
    }
    match common_code(asms) {
        Some(words) => words,
        None => &[],
    }
}

/// Whether some tile has no code.
fn lacks_code(shape: &Shape, codes: &[CodeSection], asms: &[CodeSection]) -> bool
    ensures { result ≡ lacks_code shape.now (codes.now ++ asms.now) }
{
    for i in 0..shape.tile_count() {
        if code_of(codes, asms, shape.tile_at(i)).is_empty() {
            return true;
        }
    }
    false
}

/// A tile without code, at the shape's line.
pub(crate) fn missing_fault(shape: &Shape, job: &Job, asms: &[CodeSection]) -> Option<LoadFault>
    requires numbers { shape.now ≡ job.now.numbers }
    requires asms { asms.now ≡ map as_code job.now.asms }
    ensures { result ≡ missing_fault job.now }
{
    if lacks_code(shape, job.codes.as_slice(), asms) {
        Some(fault_at(shape_line(&job.number_lines), FaultName::NoCode))
    } else {
        None
    }
}
