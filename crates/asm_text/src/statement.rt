//! What one line says.

ghost use Rattle.std.specs.Prelude.{◌≡◌};
ghost use Rattle.tn_text.specs.Gives.{Gives};
ghost use Rattle.asm_text.specs.Statement.{word_body, body_of, line_by, line_of};

use crate::arguments::read_args;
use crate::fault::{AsmKind, LineStop};
use crate::line::{Body, Line, word_number};
use std::alloc::Global;
use tn_text::content::{content, is_plain, trimmed};
use tn_text::cut::cut;
use tn_text::names::{copy_name, is_name};
use tn_text::numbers::{Numeral, signed_number};
use tn_text::stop::Stop;
use tn_text::words::first_word;

/// What `.word` places.
fn read_word(operands: &[u8]) -> Result<Body, LineStop>
    ensures { Gives result (word_body operands.now) }
{
    match signed_number(operands) {
        Numeral::Value(number) => Ok(Body::Word(word_number(number))),
        Numeral::TooLarge => Err(Stop::Fault(AsmKind::BadNumber)),
        Numeral::NoNumber => Err(Stop::Fault(AsmKind::BadLine)),
    }
}

/// What a line says after its label.
fn read_body(alloc: Global, text: &[u8]) -> Result<Body, LineStop>
    ensures { Gives result (body_of text.now) }
{
    let Some((word, rest)) = first_word(text) else {
        return Ok(Body::Empty);
    };
    let operands = trimmed(rest);
    if word == b".word".as_slice() {
        return read_word(operands);
    }
    if !is_name(word) {
        return Err(Stop::Fault(AsmKind::BadLine));
    }
    let args = read_args(alloc, operands)?;
    let name = copy_name(alloc, word)?;
    Ok(Body::Ins { name, args })
}

/// What a line says that is not blank.
fn read_statement(alloc: Global, number: u32, text: &[u8]) -> Result<Line, LineStop>
    ensures { Gives result (line_by number text.now) }
{
    let Some((front, rest)) = cut(text, b':') else {
        let body = read_body(alloc, text)?;
        return Ok(Line {
            number,
            label: None,
            body,
        });
    };
    let name = trimmed(front);
    if !is_name(name) {
        return Err(Stop::Fault(AsmKind::BadLine));
    }
    let body = read_body(alloc, rest)?;
    let label = Some(copy_name(alloc, name)?);
    Ok(Line {
        number,
        label,
        body,
    })
}

/// What a line says, or None where it is blank.
pub(crate) fn read_line(alloc: Global, number: u32, line: &[u8]) -> Result<Option<Line>, LineStop>
    ensures { Gives result (line_of number line.now) }
{
    if !is_plain(line) {
        return Err(Stop::Fault(AsmKind::BadLine));
    }
    let text = content(line);
    if text.is_empty() {
        return Ok(None);
    }
    let line = read_statement(alloc, number, text)?;
    Ok(Some(line))
}
