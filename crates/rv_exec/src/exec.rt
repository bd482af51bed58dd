//! The effects of instructions.

ghost use Rattle.std.specs.Prelude.{◌≡◌, ◌<◌, ◌%◌, ◌==◌, if◌then◌else◌};
ghost use Rattle.tn_base.specs.Regs.{set_reg};
ghost use Rattle.rv_exec.specs.Rows.{step_of, jump as jump_of};
ghost use Rattle.rv_exec.specs.Exec.{step_at, regs_after, OnAsking, IsRowEffect};

use crate::arithmetic::{
    divide_signed, divide_unsigned, high_mixed, high_signed, high_unsigned, less_signed,
    remainder_signed, remainder_unsigned,
};
use rv_isa::instr::Instr;
use rv_isa::op::Op32;
use tn_base::effect::Effect;
use tn_base::event::Trap;
use tn_base::regs::Regs;

/// A jump, which traps where four does not divide the address.
#[inline(always)]
fn jump(target: u32) -> Effect
    ensures { result ≡ jump_of target }
{
    if target % 4 == 0 {
        Effect::Jump(target)
    } else {
        Effect::Trap(Trap::Misaligned)
    }
}

/// Writes a word to `rd`, and goes on behind the instruction.
#[inline(always)]
fn put(regs: &mut Regs, rd: u8, value: u32) -> Effect
    requires { rd < 32 }
    ensures effect { result ≡ Effect.Next }
    ensures regs { regs.new ≡ set_reg regs.old rd value }
{
    regs.set(rd, value);
    Effect::Next
}

/// Jumps, and writes a word to `rd` where the jump does not trap.
#[inline(always)]
fn link(regs: &mut Regs, rd: u8, target: u32, value: u32) -> Effect
    requires { rd < 32 }
    ensures effect { result ≡ jump_of target }
    ensures regs { regs.new ≡ regs_after (if target % 4 == 0 then Some value else None) rd regs.old }
{
    if target % 4 == 0 {
        regs.set(rd, value);
        Effect::Jump(target)
    } else {
        Effect::Trap(Trap::Misaligned)
    }
}

/// Jumps where the branch is taken.
#[inline(always)]
fn branch(taken: bool, target: u32) -> Effect
    ensures { result ≡ (if taken then jump_of target else Effect.Next) }
{
    if taken { jump(target) } else { Effect::Next }
}

/// Asks to read memory into `rd`.
#[inline(always)]
fn load(rd: u8, addr: u32, width: u8, signed: bool) -> Effect
    ensures { result ≡ Effect.Load rd addr width signed }
{
    Effect::Load {
        rd,
        addr,
        width,
        signed,
    }
}

/// Asks to write memory.
#[inline(always)]
fn store(addr: u32, width: u8, value: u32) -> Effect
    ensures { result ≡ Effect.Store addr width value }
{
    Effect::Store { addr, width, value }
}

/// CSRRS: only the form that sets no bits is there.
#[inline(always)]
fn read_csr(rd: u8, rs1: u8, csr: u16) -> Effect
    ensures { result ≡ (if rs1 == 0 then Effect.CsrRead rd csr else Effect.Trap Trap.BadCsr) }
{
    if rs1 == 0 {
        Effect::CsrRead { rd, csr }
    } else {
        Effect::Trap(Trap::BadCsr)
    }
}

/// Does what an instruction at `pc` does whose registers rs1 and rs2 hold `a` and `b`.
#[inline(always)]
fn execute_row(i: &Instr, pc: u32, a: u32, b: u32, regs: &mut Regs) -> Effect
    ensures effect { result ≡ (step_of i.now.op i.now.rd i.now.rs1 pc a b i.now.imm).effect }
    ensures regs { regs.new ≡ regs_after (step_of i.now.op i.now.rd i.now.rs1 pc a b i.now.imm).written i.now.rd regs.old }
{
    let rd = i.rd();
    let imm = i.imm();
    let u = imm.cast_unsigned();
    match i.op() {
        Op32::Lui => put(regs, rd, u),
        Op32::Auipc => put(regs, rd, pc.wrapping_add(u)),
        Op32::Jal => link(regs, rd, pc.wrapping_add(u), pc.wrapping_add(4)),
        Op32::Jalr => link(regs, rd, a.wrapping_add(u) & !1, pc.wrapping_add(4)),
        Op32::Beq => branch(a == b, pc.wrapping_add(u)),
        Op32::Bne => branch(a != b, pc.wrapping_add(u)),
        Op32::Blt => branch(less_signed(a, b), pc.wrapping_add(u)),
        Op32::Bge => branch(!less_signed(a, b), pc.wrapping_add(u)),
        Op32::Bltu => branch(a < b, pc.wrapping_add(u)),
        Op32::Bgeu => branch(a >= b, pc.wrapping_add(u)),
        Op32::Lb => load(rd, a.wrapping_add(u), 1, true),
        Op32::Lh => load(rd, a.wrapping_add(u), 2, true),
        Op32::Lw => load(rd, a.wrapping_add(u), 4, false),
        Op32::Lbu => load(rd, a.wrapping_add(u), 1, false),
        Op32::Lhu => load(rd, a.wrapping_add(u), 2, false),
        Op32::Sb => store(a.wrapping_add(u), 1, b),
        Op32::Sh => store(a.wrapping_add(u), 2, b),
        Op32::Sw => store(a.wrapping_add(u), 4, b),
        Op32::Addi => put(regs, rd, a.wrapping_add(u)),
        Op32::Slti => put(regs, rd, u32::from(a.cast_signed() < imm)),
        Op32::Sltiu => put(regs, rd, u32::from(a < u)),
        Op32::Xori => put(regs, rd, a ^ u),
        Op32::Ori => put(regs, rd, a | u),
        Op32::Andi => put(regs, rd, a & u),
        Op32::Slli => put(regs, rd, a << (u % 32)),
        Op32::Srli => put(regs, rd, a >> (u % 32)),
        Op32::Srai => put(regs, rd, (a.cast_signed() >> (u % 32)).cast_unsigned()),
        Op32::Add => put(regs, rd, a.wrapping_add(b)),
        Op32::Sub => put(regs, rd, a.wrapping_sub(b)),
        Op32::Sll => put(regs, rd, a << (b % 32)),
        Op32::Slt => put(regs, rd, u32::from(less_signed(a, b))),
        Op32::Sltu => put(regs, rd, u32::from(a < b)),
        Op32::Xor => put(regs, rd, a ^ b),
        Op32::Srl => put(regs, rd, a >> (b % 32)),
        Op32::Sra => put(regs, rd, (a.cast_signed() >> (b % 32)).cast_unsigned()),
        Op32::Or => put(regs, rd, a | b),
        Op32::And => put(regs, rd, a & b),
        Op32::Mul => put(regs, rd, a.wrapping_mul(b)),
        Op32::Mulh => put(regs, rd, high_signed(a, b)),
        Op32::Mulhsu => put(regs, rd, high_mixed(a, b)),
        Op32::Mulhu => put(regs, rd, high_unsigned(a, b)),
        Op32::Div => put(regs, rd, divide_signed(a, b)),
        Op32::Divu => put(regs, rd, divide_unsigned(a, b)),
        Op32::Rem => put(regs, rd, remainder_signed(a, b)),
        Op32::Remu => put(regs, rd, remainder_unsigned(a, b)),
        Op32::Fence => Effect::Next,
        Op32::Ecall | Op32::Ebreak => Effect::Trap(Trap::Environment),
        Op32::Csrrw => Effect::CsrWrite {
            rd,
            csr: u as u16,
            value: a,
        },
        Op32::Csrrs => read_csr(rd, i.rs1(), u as u16),
    }
}

/// Executes an instruction at the address `pc`, but for what it asks of the memory and the control registers.
#[inline(always)]
pub fn exec(i: &Instr, pc: u32, regs: &mut Regs) -> Effect
    ensures effect { result ≡ (step_at i.now pc regs.old).effect }
    ensures regs { regs.new ≡ regs_after (step_at i.now pc regs.old).written i.now.rd regs.old }
    ensures kept { OnAsking result (regs.new ≡ regs.old) }
    ensures whole { IsRowEffect result }
{
    let a = regs.get(i.rs1());
    let b = regs.get(i.rs2());
    execute_row(i, pc, a, b, regs)
}
