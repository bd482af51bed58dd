//! The instruction that a word names.

ghost use Rattle.std.specs.Prelude.{◌≡◌};
ghost use Rattle.rv_isa.specs.Search.{op_found};

use crate::bits::bits;
use crate::op::Op32;

/// The instruction whose row has the numbers of a word.
#[tactic(auto, unfolding(crate::specs::Search::op_found))]
pub(crate) fn find_op(word: u32) -> Option<Op32>
    ensures { result ≡ op_found word }
{
    match (bits(word, 6, 0), bits(word, 14, 12), bits(word, 31, 25)) {
        (0b0110111, _, _) => Some(Op32::Lui),
        (0b0010111, _, _) => Some(Op32::Auipc),
        (0b1101111, _, _) => Some(Op32::Jal),
        (0b1100111, 0b000, _) => Some(Op32::Jalr),
        (0b1100011, 0b000, _) => Some(Op32::Beq),
        (0b1100011, 0b001, _) => Some(Op32::Bne),
        (0b1100011, 0b100, _) => Some(Op32::Blt),
        (0b1100011, 0b101, _) => Some(Op32::Bge),
        (0b1100011, 0b110, _) => Some(Op32::Bltu),
        (0b1100011, 0b111, _) => Some(Op32::Bgeu),
        (0b0000011, 0b000, _) => Some(Op32::Lb),
        (0b0000011, 0b001, _) => Some(Op32::Lh),
        (0b0000011, 0b010, _) => Some(Op32::Lw),
        (0b0000011, 0b100, _) => Some(Op32::Lbu),
        (0b0000011, 0b101, _) => Some(Op32::Lhu),
        (0b0100011, 0b000, _) => Some(Op32::Sb),
        (0b0100011, 0b001, _) => Some(Op32::Sh),
        (0b0100011, 0b010, _) => Some(Op32::Sw),
        (0b0010011, 0b000, _) => Some(Op32::Addi),
        (0b0010011, 0b010, _) => Some(Op32::Slti),
        (0b0010011, 0b011, _) => Some(Op32::Sltiu),
        (0b0010011, 0b100, _) => Some(Op32::Xori),
        (0b0010011, 0b110, _) => Some(Op32::Ori),
        (0b0010011, 0b111, _) => Some(Op32::Andi),
        (0b0010011, 0b001, 0b0000000) => Some(Op32::Slli),
        (0b0010011, 0b101, 0b0000000) => Some(Op32::Srli),
        (0b0010011, 0b101, 0b0100000) => Some(Op32::Srai),
        (0b0110011, 0b000, 0b0000000) => Some(Op32::Add),
        (0b0110011, 0b000, 0b0100000) => Some(Op32::Sub),
        (0b0110011, 0b001, 0b0000000) => Some(Op32::Sll),
        (0b0110011, 0b010, 0b0000000) => Some(Op32::Slt),
        (0b0110011, 0b011, 0b0000000) => Some(Op32::Sltu),
        (0b0110011, 0b100, 0b0000000) => Some(Op32::Xor),
        (0b0110011, 0b101, 0b0000000) => Some(Op32::Srl),
        (0b0110011, 0b101, 0b0100000) => Some(Op32::Sra),
        (0b0110011, 0b110, 0b0000000) => Some(Op32::Or),
        (0b0110011, 0b111, 0b0000000) => Some(Op32::And),
        (0b0110011, 0b000, 0b0000001) => Some(Op32::Mul),
        (0b0110011, 0b001, 0b0000001) => Some(Op32::Mulh),
        (0b0110011, 0b010, 0b0000001) => Some(Op32::Mulhsu),
        (0b0110011, 0b011, 0b0000001) => Some(Op32::Mulhu),
        (0b0110011, 0b100, 0b0000001) => Some(Op32::Div),
        (0b0110011, 0b101, 0b0000001) => Some(Op32::Divu),
        (0b0110011, 0b110, 0b0000001) => Some(Op32::Rem),
        (0b0110011, 0b111, 0b0000001) => Some(Op32::Remu),
        (0b0001111, 0b000, _) => Some(Op32::Fence),
        (0b1110011, 0b001, _) => Some(Op32::Csrrw),
        (0b1110011, 0b010, _) => Some(Op32::Csrrs),
        (0b1110011, 0b000, _) if word == 0x00000073 => Some(Op32::Ecall),
        (0b1110011, 0b000, _) if word == 0x00100073 => Some(Op32::Ebreak),
        _ => None,
    }
}
