//! A line of assembly.

ghost use Rattle.std.specs.Prelude.{◌≡◌};
ghost use Rattle.asm_text.specs.Number.{word_number as word_number_of};

use tn_base::name::Name;
use tn_text::items::Items;

/// An argument of an instruction.
#[derive(Drop)]
pub enum Arg {
    /// A register, 0 to 31.
    Reg(u8),
    /// A number of at most 32 bits, or one with a leading `-`.
    Num(i64),
    /// A label, or the name of a control register.
    Name(Name),
    /// A number, and after it a register in brackets.
    Mem(i64, u8),
}

/// What a line says after its label.
#[derive(Drop)]
pub enum Body {
    /// Nothing.
    Empty,
    /// An instruction's name and its arguments.
    Ins { name: Name, args: Items<Arg> },
    /// `.word` and its number, in two's complement.
    Word(u32),
}

/// A line that is not blank.
#[derive(Drop)]
pub struct Line {
    pub number: u32,
    pub label: Option<Name>,
    pub body: Body,
}

/// The two's complement of a number in 32 bits.
pub fn word_number(number: i64) -> u32
    ensures { result ≡ word_number_of number }
{
    (number.cast_unsigned() % (1 << 32)) as u32
}
