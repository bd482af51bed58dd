//! The rows of the table.

ghost use Rattle.std.specs.Prelude.{◌≡◌};
ghost use Rattle.rv_isa.specs.Table.{row_of, IsSmallRow};

use crate::op::Op32;

/// The form of an instruction's word, with the opcode, funct3 and funct7 that name the instruction.
#[derive(Clone, Copy)]
pub(crate) enum Row {
    /// R-type: rd, rs1 and rs2.
    Register(u32, u32, u32),
    /// I-type with a shift's distance in the place of rs2: rd, rs1 and the distance, 0 to 31.
    Shift(u32, u32, u32),
    /// I-type: rd, rs1 and a signed immediate of 12 bits.
    Immediate(u32, u32),
    /// I-type: rd, rs1 and the number of a control register, 0 to 4,095.
    Control(u32, u32),
    /// S-type: rs1, rs2 and a signed immediate of 12 bits.
    Store(u32, u32),
    /// B-type: rs1, rs2 and a signed immediate of 13 bits, a multiple of 2.
    Branch(u32, u32),
    /// U-type: rd and an immediate of 32 bits, a multiple of 4,096.
    Upper(u32),
    /// J-type: rd and a signed immediate of 21 bits, a multiple of 2.
    Jump(u32),
    /// One word alone.
    Fixed(u32),
}

/// The row of an instruction.
pub(crate) fn find_row(op: Op32) -> Row
    ensures row { result ≡ row_of op }
    ensures small { IsSmallRow result }
{
    match op {
        Op32::Lui => Row::Upper(0b0110111),
        Op32::Auipc => Row::Upper(0b0010111),
        Op32::Jal => Row::Jump(0b1101111),
        Op32::Jalr => Row::Immediate(0b1100111, 0b000),
        Op32::Beq => Row::Branch(0b1100011, 0b000),
        Op32::Bne => Row::Branch(0b1100011, 0b001),
        Op32::Blt => Row::Branch(0b1100011, 0b100),
        Op32::Bge => Row::Branch(0b1100011, 0b101),
        Op32::Bltu => Row::Branch(0b1100011, 0b110),
        Op32::Bgeu => Row::Branch(0b1100011, 0b111),
        Op32::Lb => Row::Immediate(0b0000011, 0b000),
        Op32::Lh => Row::Immediate(0b0000011, 0b001),
        Op32::Lw => Row::Immediate(0b0000011, 0b010),
        Op32::Lbu => Row::Immediate(0b0000011, 0b100),
        Op32::Lhu => Row::Immediate(0b0000011, 0b101),
        Op32::Sb => Row::Store(0b0100011, 0b000),
        Op32::Sh => Row::Store(0b0100011, 0b001),
        Op32::Sw => Row::Store(0b0100011, 0b010),
        Op32::Addi => Row::Immediate(0b0010011, 0b000),
        Op32::Slti => Row::Immediate(0b0010011, 0b010),
        Op32::Sltiu => Row::Immediate(0b0010011, 0b011),
        Op32::Xori => Row::Immediate(0b0010011, 0b100),
        Op32::Ori => Row::Immediate(0b0010011, 0b110),
        Op32::Andi => Row::Immediate(0b0010011, 0b111),
        Op32::Slli => Row::Shift(0b0010011, 0b001, 0b0000000),
        Op32::Srli => Row::Shift(0b0010011, 0b101, 0b0000000),
        Op32::Srai => Row::Shift(0b0010011, 0b101, 0b0100000),
        Op32::Add => Row::Register(0b0110011, 0b000, 0b0000000),
        Op32::Sub => Row::Register(0b0110011, 0b000, 0b0100000),
        Op32::Sll => Row::Register(0b0110011, 0b001, 0b0000000),
        Op32::Slt => Row::Register(0b0110011, 0b010, 0b0000000),
        Op32::Sltu => Row::Register(0b0110011, 0b011, 0b0000000),
        Op32::Xor => Row::Register(0b0110011, 0b100, 0b0000000),
        Op32::Srl => Row::Register(0b0110011, 0b101, 0b0000000),
        Op32::Sra => Row::Register(0b0110011, 0b101, 0b0100000),
        Op32::Or => Row::Register(0b0110011, 0b110, 0b0000000),
        Op32::And => Row::Register(0b0110011, 0b111, 0b0000000),
        Op32::Mul => Row::Register(0b0110011, 0b000, 0b0000001),
        Op32::Mulh => Row::Register(0b0110011, 0b001, 0b0000001),
        Op32::Mulhsu => Row::Register(0b0110011, 0b010, 0b0000001),
        Op32::Mulhu => Row::Register(0b0110011, 0b011, 0b0000001),
        Op32::Div => Row::Register(0b0110011, 0b100, 0b0000001),
        Op32::Divu => Row::Register(0b0110011, 0b101, 0b0000001),
        Op32::Rem => Row::Register(0b0110011, 0b110, 0b0000001),
        Op32::Remu => Row::Register(0b0110011, 0b111, 0b0000001),
        Op32::Fence => Row::Immediate(0b0001111, 0b000),
        Op32::Ecall => Row::Fixed(0x00000073),
        Op32::Ebreak => Row::Fixed(0x00100073),
        Op32::Csrrw => Row::Control(0b1110011, 0b001),
        Op32::Csrrs => Row::Control(0b1110011, 0b010),
    }
}
