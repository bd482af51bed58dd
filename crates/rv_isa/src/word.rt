//! The words of instructions, and the instructions of words.

ghost use Rattle.std.specs.Prelude.{◌≡◌, ◌↔◌};
ghost use Rattle.rv_isa.specs.Table.{row_of, Matches};
ghost use Rattle.rv_isa.specs.Word.{word_of};
ghost use Rattle.rv_isa.specs.Decode.{decode_of, IsRead};
ghost use Rattle.rv_isa.specs.declared.instr.Instr.{Instr};

use crate::bits::{bits, sign_extend};
use crate::find::find_op;
use crate::instr::Instr;
use crate::op::Op32;
use crate::row::{Row, find_row};

/// The word of an instruction, as the manual's table of instruction formats lays out its fields.
pub fn encode(i: &Instr) -> u32
    ensures word { result ≡ word_of i.now }
    ensures numbers { Matches (row_of i.now.op) result }
{
    let imm = i.imm().cast_unsigned();
    let rd = u32::from(i.rd());
    let rs1 = u32::from(i.rs1());
    let rs2 = u32::from(i.rs2());
    match find_row(i.op()) {
        Row::Register(opcode, funct3, funct7) => {
            (funct7 << 25) + (rs2 << 20) + (rs1 << 15) + (funct3 << 12) + (rd << 7) + opcode
        }
        Row::Shift(opcode, funct3, funct7) => {
            (funct7 << 25)
                + (bits(imm, 4, 0) << 20)
                + (rs1 << 15)
                + (funct3 << 12)
                + (rd << 7)
                + opcode
        }
        Row::Immediate(opcode, funct3) => {
            (bits(imm, 11, 0) << 20) + (rs1 << 15) + (funct3 << 12) + (rd << 7) + opcode
        }
        Row::Control(opcode, funct3) => {
            (bits(imm, 11, 0) << 20) + (rs1 << 15) + (funct3 << 12) + (rd << 7) + opcode
        }
        Row::Store(opcode, funct3) => {
            (bits(imm, 11, 5) << 25)
                + (rs2 << 20)
                + (rs1 << 15)
                + (funct3 << 12)
                + (bits(imm, 4, 0) << 7)
                + opcode
        }
        Row::Branch(opcode, funct3) => {
            (bits(imm, 12, 12) << 31)
                + (bits(imm, 10, 5) << 25)
                + (rs2 << 20)
                + (rs1 << 15)
                + (funct3 << 12)
                + (bits(imm, 4, 1) << 8)
                + (bits(imm, 11, 11) << 7)
                + opcode
        }
        Row::Upper(opcode) => (bits(imm, 31, 12) << 12) + (rd << 7) + opcode,
        Row::Jump(opcode) => {
            (bits(imm, 20, 20) << 31)
                + (bits(imm, 10, 1) << 21)
                + (bits(imm, 11, 11) << 20)
                + (bits(imm, 19, 12) << 12)
                + (rd << 7)
                + opcode
        }
        Row::Fixed(word) => word,
    }
}

/// The instruction of this name with the fields of a word.
fn read_fields(op: Op32, word: u32) -> Instr
    requires { Matches (row_of op) word }
    ensures { IsRead result op word }
{
    let rd = bits(word, 11, 7) as u8;
    let rs1 = bits(word, 19, 15) as u8;
    let rs2 = bits(word, 24, 20) as u8;
    match find_row(op) {
        Row::Register(..) => Instr::new(op, rd, rs1, rs2, 0),
        Row::Shift(..) => Instr::new(op, rd, rs1, 0, bits(word, 24, 20) as i32),
        Row::Immediate(..) => { Instr::new(op, rd, rs1, 0, sign_extend(bits(word, 31, 20), 12)) }
        Row::Control(..) => Instr::new(op, rd, rs1, 0, bits(word, 31, 20) as i32),
        Row::Store(..) => {
            let imm = (bits(word, 31, 25) << 5) + bits(word, 11, 7);
            Instr::new(op, 0, rs1, rs2, sign_extend(imm, 12))
        }
        Row::Branch(..) => {
            let imm = (bits(word, 31, 31) << 12)
                + (bits(word, 7, 7) << 11)
                + (bits(word, 30, 25) << 5)
                + (bits(word, 11, 8) << 1);
            Instr::new(op, 0, rs1, rs2, sign_extend(imm, 13))
        }
        Row::Upper(..) => { Instr::new(op, rd, 0, 0, (bits(word, 31, 12) << 12).cast_signed()) }
        Row::Jump(..) => {
            let imm = (bits(word, 31, 31) << 20)
                + (bits(word, 19, 12) << 12)
                + (bits(word, 20, 20) << 11)
                + (bits(word, 30, 21) << 1);
            Instr::new(op, rd, 0, 0, sign_extend(imm, 21))
        }
        Row::Fixed(..) => Instr::new(op, 0, 0, 0, 0),
    }
}

/// The instruction that has a word, or None where no row of the table has it.
pub fn decode(word: u32) -> Option<Instr>
    ensures value { result ≡ decode_of word }
    ensures row { (i : Instr) → (result ≡ Some i) ↔ (word_of i ≡ word) }
{
    let op = find_op(word)?;
    Some(read_fields(op, word))
}
