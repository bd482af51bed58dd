//! The words of a line.

ghost use Rattle.std.specs.Prelude.{◌≡◌, length};
ghost use Rattle.asm_build.specs.Code.{word_for, one as one_of, high_part, low_part, number_code, address_code, target_code, label_code, pseudo_code, op_code, instruction_code, code_of};

use crate::fields::{offset, read_fields};
use crate::labels::Labels;
use crate::spelling::{Pseudo, op_named, pseudo_named, spelling};
use asm_text::fault::AsmKind;
use asm_text::line::{Arg, Body, word_number};
use rv_isa::instr::Instr;
use rv_isa::op::Op32;
use rv_isa::word::encode;

/// The words of a line.
#[derive(Clone, Copy, PartialEq, Eq, Debug)]
pub(crate) enum Code {
    Nothing,
    One(u32),
    Two(u32, u32),
}

/// The word of an instruction with these fields.
#[tactic(auto, unfolding(crate::specs::Code::word_for))]
fn word(op: Op32, rd: u8, rs1: u8, rs2: u8, imm: i64) -> Result<u32, AsmKind>
    ensures { result ≡ word_for op rd rs1 rs2 imm }
{
    let Ok(imm) = i32::try_from(imm) else {
        return Err(AsmKind::OutOfRange);
    };
    match Instr::of(op, rd, rs1, rs2, imm) {
        Some(instr) => Ok(encode(&instr)),
        None => Err(AsmKind::OutOfRange),
    }
}

/// What is left of a number once its low part is taken off, shifted up by 12.
fn high(number: u32) -> i64
    ensures { result ≡ high_part number }
{
    i64::from((number.wrapping_add(0x800) / 0x1000 * 0x1000).cast_signed())
}

/// The low 12 bits of a number, with a sign.
fn low(number: u32) -> i64
    ensures { result ≡ low_part number }
{
    let bits = i64::from(number % 0x1000);
    if bits < 0x800 { bits } else { bits - 0x1000 }
}

/// Loads an address, in two words whatever it is.
#[tactic(auto, unfolding(crate::specs::Code::address_code))]
fn address_words(rd: u8, address: u32) -> Result<Code, AsmKind>
    ensures { result ≡ address_code rd address }
{
    let first = word(Op32::Lui, rd, 0, 0, high(address))?;
    let second = word(Op32::Addi, rd, rd, 0, low(address))?;
    Ok(Code::Two(first, second))
}

/// Loads a number.
#[tactic(auto, unfolding(crate::specs::Code::number_code))]
fn number_words(rd: u8, number: u32) -> Result<Code, AsmKind>
    ensures { result ≡ number_code rd number }
{
    let signed = number.cast_signed();
    if -0x800 <= signed && signed < 0x800 {
        return Ok(Code::One(word(Op32::Addi, rd, 0, 0, i64::from(signed))?));
    }
    address_words(rd, number)
}

fn one(word: Result<u32, AsmKind>) -> Result<Code, AsmKind>
    ensures { result ≡ one_of word }
{
    match word {
        Ok(word) => Ok(Code::One(word)),
        Err(kind) => Err(kind),
    }
}

/// One instruction with a target, which is written as another.
fn target_word(op: Op32, rd: u8, rs1: u8, offset: Result<i64, AsmKind>) -> Result<Code, AsmKind>
    ensures { result ≡ target_code op rd rs1 offset }
{
    one(word(op, rd, rs1, 0, offset?))
}

/// Loads the address of a label.
fn label_words(rd: u8, address: Option<u32>) -> Result<Code, AsmKind>
    ensures { result ≡ label_code rd address }
{
    match address {
        Some(address) => address_words(rd, address),
        None => Err(AsmKind::NoLabel),
    }
}

/// The words of a name for other instructions.
fn pseudo_words(pseudo: Pseudo, places: &Labels, here: u32, args: &[Arg]) -> Result<Code, AsmKind>
    ensures { result ≡ pseudo_code pseudo places.now here args.now }
{
    match (pseudo, args) {
        (Pseudo::Nop, []) => one(word(Op32::Addi, 0, 0, 0, 0)),
        (Pseudo::Mv, [Arg::Reg(rd), Arg::Reg(rs)]) => one(word(Op32::Addi, *rd, *rs, 0, 0)),
        (Pseudo::Li, [Arg::Reg(rd), Arg::Num(number)]) => number_words(*rd, word_number(*number)),
        (Pseudo::La, [Arg::Reg(rd), Arg::Name(label)]) => label_words(*rd, places.get(label)),
        (Pseudo::J, [target]) => target_word(Op32::Jal, 0, 0, offset(places, here, target)),
        (Pseudo::Call, [target]) => target_word(Op32::Jal, 1, 0, offset(places, here, target)),
        (Pseudo::Ret, []) => one(word(Op32::Jalr, 0, 1, 0, 0)),
        (Pseudo::Beqz, [Arg::Reg(rs), target]) => {
            target_word(Op32::Beq, 0, *rs, offset(places, here, target))
        }
        (Pseudo::Bnez, [Arg::Reg(rs), target]) => {
            target_word(Op32::Bne, 0, *rs, offset(places, here, target))
        }
        _ => Err(AsmKind::BadArgs),
    }
}

/// The word of an instruction with these arguments.
fn op_word(op: Op32, places: &Labels, here: u32, args: &[Arg]) -> Result<Code, AsmKind>
    ensures { result ≡ op_code op places.now here args.now }
{
    let (_, form) = spelling(op);
    let fields = read_fields(form, places, here, args)?;
    one(word(op, fields.rd, fields.rs1, fields.rs2, fields.imm))
}

/// The words of an instruction at an address. `places` are the addresses of the labels.
fn instruction_words(name: &[u8], places: &Labels, here: u32, args: &[Arg]) -> Result<Code, AsmKind>
    ensures { result ≡ instruction_code name.now places.now here args.now }
{
    if let Some(op) = op_named(name) {
        return op_word(op, places, here, args);
    }
    match pseudo_named(name) {
        Some(pseudo) => pseudo_words(pseudo, places, here, args),
        None => Err(AsmKind::BadName),
    }
}

/// The words of a line at an address. `places` are the addresses of the labels.
pub(crate) fn find_code(places: &Labels, here: u32, body: &Body) -> Result<Code, AsmKind>
    ensures { result ≡ code_of places.now here body.now }
{
    match body {
        Body::Empty => Ok(Code::Nothing),
        Body::Word(word) => Ok(Code::One(*word)),
        Body::Ins { name, args } => {
            instruction_words(name.as_slice(), places, here, args.as_slice())
        }
    }
}
