//! Reading a text.

ghost use Rattle.std.specs.Prelude.{◌≡◌, ◌+◌, ◌<◌, ◌^◌, length};
ghost use Rattle.tn_text.specs.Gives.{Becomes, GivesItems};
ghost use Rattle.tn_text.specs.Lines.{lines_of};
ghost use Rattle.tn_text.specs.Reading.{said_onto};
ghost use Rattle.asm_text.specs.Statement.{line_of};
ghost use Rattle.asm_text.specs.Text.{IsMisread, lines_from};

use crate::fault::{AsmStop, LineStop};
use crate::line::Line;
use crate::statement::read_line;
use std::alloc::Global;
use tn_text::items::Items;
use tn_text::lines::first_line;

/// Appends what one more line says.
fn take_line(
    alloc: Global,
    lines: &mut Items<Line>,
    number: u32,
    line: &[u8],
) -> Result<(), LineStop>
    ensures { Becomes result lines.new (said_onto lines.old (line_of number line.now)) }
{
    match read_line(alloc, number, line) {
        Ok(Some(line)) => Ok(lines.push(line)?),
        Ok(None) => Ok(()),
        Err(stop) => Err(stop),
    }
}

fn read(alloc: Global, text: &[u8], first: u32) -> Result<Vec<Line>, AsmStop>
    requires { first + length (lines_of text.now) < 2 ^ 32 }
    ensures { GivesItems result (lines_from first (lines_of text.now)) }
{
    let mut lines = Items::new(alloc);
    let mut rest = text;
    let mut number = first;
    while let Some((line, after)) = first_line(rest) {
        if let Err(stop) = take_line(alloc, &mut lines, number, line) {
            return Err(stop.at(number));
        }
        number += 1;
        rest = after;
    }
    Ok(lines.into_vec())
}

/// The lines of a text that are not blank, the first line having the number `first`.
pub fn read_lines(alloc: Global, text: &[u8], first: u32) -> Result<Vec<Line>, AsmStop>
    requires { first + length (lines_of text.now) < 2 ^ 32 }
    // The lines that the text says, or the first line at fault with the first kind that applies there.
    ensures read { GivesItems result (lines_from first (lines_of text.now)) }
    // A line is refused as BadLine or BadNumber. All other kinds are faults of `assemble`.
    ensures kinds { IsMisread result }
{
    read(alloc, text, first)
}
