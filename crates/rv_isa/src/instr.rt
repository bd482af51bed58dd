//! An instruction: its name and its fields.

ghost use Rattle.std.specs.Prelude.{◌≡◌, ◌<◌, IsTrue, IsSome, IfSome, ◌↔◌};
ghost use Rattle.rv_isa.specs.Table.{row_of, row_fits};

use crate::op::Op32;
use crate::row::{Row, find_row};

/// An instruction whose fields fit its row of the table. A field for which the row has no place is 0. A
/// shift's distance and the number of a control register stand in `imm`, as does an upper immediate, shifted
/// up by 12.
#[derive(Clone, Copy, PartialEq, Eq, Debug)]
pub struct Instr {
    op: Op32,
    rd: u8,
    rs1: u8,
    rs2: u8,
    imm: i32,
    pub ghost fits: { IsTrue (row_fits (row_of op) rd rs1 rs2 imm) },
}

/// Whether the fields fit the row of an instruction.
fn fits(op: Op32, rd: u8, rs1: u8, rs2: u8, imm: i32) -> bool
    ensures { result ≡ row_fits (row_of op) rd rs1 rs2 imm }
{
    match find_row(op) {
        Row::Register(..) => rd < 32 && rs1 < 32 && rs2 < 32 && imm == 0,
        Row::Shift(..) => rd < 32 && rs1 < 32 && rs2 == 0 && 0 <= imm && imm < 32,
        Row::Immediate(..) => rd < 32 && rs1 < 32 && rs2 == 0 && -2048 <= imm && imm < 2048,
        Row::Control(..) => rd < 32 && rs1 < 32 && rs2 == 0 && 0 <= imm && imm < 4096,
        Row::Store(..) => rd == 0 && rs1 < 32 && rs2 < 32 && -2048 <= imm && imm < 2048,
        Row::Branch(..) => {
            rd == 0 && rs1 < 32 && rs2 < 32 && -4096 <= imm && imm < 4096 && imm % 2 == 0
        }
        Row::Upper(..) => rd < 32 && rs1 == 0 && rs2 == 0 && imm % 4096 == 0,
        Row::Jump(..) => {
            rd < 32 && rs1 == 0 && rs2 == 0 && -1048576 <= imm && imm < 1048576 && imm % 2 == 0
        }
        Row::Fixed(..) => rd == 0 && rs1 == 0 && rs2 == 0 && imm == 0,
    }
}

impl Instr {
    ghost use Rattle.rv_isa.specs.Decode.{instr_of, HasFields};

    /// The instruction with these fields, or None where one does not fit.
    pub fn of(op: Op32, rd: u8, rs1: u8, rs2: u8, imm: i32) -> Option<Instr>
        ensures value { result ≡ instr_of op rd rs1 rs2 imm }
        ensures fits { IsSome result ↔ IsTrue (row_fits (row_of op) rd rs1 rs2 imm) }
        ensures fields { IfSome result (λ i. HasFields i op rd rs1 rs2 imm) }
    {
        if fits(op, rd, rs1, rs2, imm) {
            Some(Instr::new(op, rd, rs1, rs2, imm))
        } else {
            None
        }
    }

    /// The instruction with these fields, which fit.
    pub(crate) fn new(op: Op32, rd: u8, rs1: u8, rs2: u8, imm: i32) -> Instr
        requires { IsTrue (row_fits (row_of op) rd rs1 rs2 imm) }
        ensures { HasFields result op rd rs1 rs2 imm }
    {
        Instr {
            op,
            rd,
            rs1,
            rs2,
            imm,
        }
    }

    /// The instruction's name.
    #[inline(always)]
    pub fn op(&self) -> Op32
        ensures { result ≡ self.now.op }
    {
        self.op
    }

    /// The register that it writes, 0 to 31.
    #[inline(always)]
    pub fn rd(&self) -> u8
        ensures value { result ≡ self.now.rd }
        ensures small { result < 32 }
    {
        self.rd
    }

    /// The first register that it reads, 0 to 31.
    #[inline(always)]
    pub fn rs1(&self) -> u8
        ensures value { result ≡ self.now.rs1 }
        ensures small { result < 32 }
    {
        self.rs1
    }

    /// The second register that it reads, 0 to 31.
    #[inline(always)]
    pub fn rs2(&self) -> u8
        ensures value { result ≡ self.now.rs2 }
        ensures small { result < 32 }
    {
        self.rs2
    }

    /// The immediate.
    #[inline(always)]
    pub fn imm(&self) -> i32
        ensures { result ≡ self.now.imm }
    {
        self.imm
    }
}
