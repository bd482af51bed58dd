//! The arguments of an instruction.

ghost use Rattle.std.specs.Prelude.{◌≡◌, []};
ghost use Rattle.std.specs.declared.result.Result.TheVariants.{Ok};
ghost use Rattle.tn_text.specs.Content.{trimmed as trimmed_of};
ghost use Rattle.tn_text.specs.Gives.{Becomes, Gives};
ghost use Rattle.tn_text.specs.Cut.{parts_at};
ghost use Rattle.asm_text.specs.Arguments.{base_of, memory_of, arg_of, args_of, args_in};
ghost use Rattle.asm_text.specs.Reading.{joined, taken};

use crate::fault::{AsmKind, LineStop};
use crate::line::Arg;
use crate::registers::find_register;
use std::alloc::Global;
use tn_text::content::trimmed;
use tn_text::cut::cut;
use tn_text::items::Items;
use tn_text::names::{copy_name, is_name};
use tn_text::numbers::{Numeral, signed_number};
use tn_text::stop::Stop;

/// The register of a text that ends with `)`.
fn base(text: &[u8]) -> Option<u8>
    ensures { result ≡ base_of text.now }
{
    let (front, rest) = cut(text, b')')?;
    if rest.is_empty() {
        find_register(trimmed(front))
    } else {
        None
    }
}

/// A number with a register in brackets.
fn read_memory(text: &[u8]) -> Result<Arg, LineStop>
    ensures { Gives result (memory_of text.now) }
{
    let Some((front, rest)) = cut(text, b'(') else {
        return Err(Stop::Fault(AsmKind::BadLine));
    };
    let Some(base) = base(rest) else {
        return Err(Stop::Fault(AsmKind::BadLine));
    };
    match signed_number(trimmed(front)) {
        Numeral::Value(offset) => Ok(Arg::Mem(offset, base)),
        Numeral::TooLarge => Err(Stop::Fault(AsmKind::BadNumber)),
        Numeral::NoNumber => Err(Stop::Fault(AsmKind::BadLine)),
    }
}

fn read_arg(alloc: Global, text: &[u8]) -> Result<Arg, LineStop>
    ensures { Gives result (arg_of text.now) }
{
    if let Some(register) = find_register(text) {
        return Ok(Arg::Reg(register));
    }
    match signed_number(text) {
        Numeral::Value(number) => return Ok(Arg::Num(number)),
        Numeral::TooLarge => return Err(Stop::Fault(AsmKind::BadNumber)),
        Numeral::NoNumber => {}
    }
    if is_name(text) {
        return Ok(Arg::Name(copy_name(alloc, text)?));
    }
    read_memory(text)
}

/// Arguments that are being read, and whether one had a number that is too large.
#[derive(Drop)]
struct Reading {
    args: Items<Arg>,
    too_large: bool,
}

impl Reading {
    /// Reads one more argument.
    fn take(&mut self, alloc: Global, part: &[u8]) -> Result<(), LineStop>
        ensures { Becomes result self.new (taken self.old (arg_of (trimmed_of part.now))) }
    {
        match read_arg(alloc, trimmed(part)) {
            Ok(arg) => self.args.push(arg)?,
            Err(Stop::Fault(AsmKind::BadNumber)) => self.too_large = true,
            Err(stop) => return Err(stop),
        }
        Ok(())
    }

    fn finish(self) -> Result<Items<Arg>, LineStop>
        ensures { Gives result (joined self.args self.too_large (Ok [])) }
    {
        if self.too_large {
            return Err(Stop::Fault(AsmKind::BadNumber));
        }
        Ok(self.args)
    }
}

/// The arguments of a text that is not empty.
fn read_parts(alloc: Global, text: &[u8]) -> Result<Items<Arg>, LineStop>
    ensures { Gives result (args_of (parts_at 44 text.now)) }
{
    let mut reading = Reading {
        args: Items::new(alloc),
        too_large: false,
    };
    let mut rest = text;
    while let Some((part, after)) = cut(rest, b',') {
        reading.take(alloc, part)?;
        rest = after;
    }
    reading.take(alloc, rest)?;
    reading.finish()
}

/// The arguments of a text, with commas between them.
pub(crate) fn read_args(alloc: Global, text: &[u8]) -> Result<Items<Arg>, LineStop>
    ensures { Gives result (args_in text.now) }
{
    if text.is_empty() {
        return Ok(Items::new(alloc));
    }
    read_parts(alloc, text)
}
