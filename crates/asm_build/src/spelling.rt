//! How instructions are written.

ghost use Rattle.std.specs.Prelude.{◌≡◌, find, bytes_eq};
ghost use Rattle.asm_build.specs.Spelling.{spelling_of, name_of, op_named as op_named_of, pseudo_named as pseudo_named_of};

use rv_isa::op::Op32;

/// The arguments of an instruction. An offset is in bytes, from the instruction's own address.
#[derive(Clone, Copy, PartialEq, Eq, Debug)]
pub(crate) enum Form {
    /// `rd, rs1, rs2`
    Registers,
    /// `rd, rs1, imm`
    Immediate,
    /// `rd, imm(rs1)`
    Load,
    /// `rs2, imm(rs1)`
    Store,
    /// `rs1, rs2, target`
    Branch,
    /// `rd, imm`, the upper 20 bits
    Upper,
    /// `rd, target`
    Jump,
    /// `rd, csr, rs1`
    Control,
    /// Nothing.
    Alone,
    /// `rd, rs1, imm`, or nothing.
    Fence,
}

/// A name for other instructions.
#[derive(Clone, Copy, PartialEq, Eq, Debug)]
pub(crate) enum Pseudo {
    Nop,
    Mv,
    Li,
    La,
    J,
    Call,
    Ret,
    Beqz,
    Bnez,
}

/// Every instruction.
const OPS: [Op32; 50] = [
    Op32::Lui,
    Op32::Auipc,
    Op32::Jal,
    Op32::Jalr,
    Op32::Beq,
    Op32::Bne,
    Op32::Blt,
    Op32::Bge,
    Op32::Bltu,
    Op32::Bgeu,
    Op32::Lb,
    Op32::Lh,
    Op32::Lw,
    Op32::Lbu,
    Op32::Lhu,
    Op32::Sb,
    Op32::Sh,
    Op32::Sw,
    Op32::Addi,
    Op32::Slti,
    Op32::Sltiu,
    Op32::Xori,
    Op32::Ori,
    Op32::Andi,
    Op32::Slli,
    Op32::Srli,
    Op32::Srai,
    Op32::Add,
    Op32::Sub,
    Op32::Sll,
    Op32::Slt,
    Op32::Sltu,
    Op32::Xor,
    Op32::Srl,
    Op32::Sra,
    Op32::Or,
    Op32::And,
    Op32::Mul,
    Op32::Mulh,
    Op32::Mulhsu,
    Op32::Mulhu,
    Op32::Div,
    Op32::Divu,
    Op32::Rem,
    Op32::Remu,
    Op32::Fence,
    Op32::Ecall,
    Op32::Ebreak,
    Op32::Csrrw,
    Op32::Csrrs,
];

/// The name of an instruction and the form of its arguments.
pub(crate) fn spelling(op: Op32) -> (&'static str, Form)
    ensures { (result.0.now, result.1) ≡ spelling_of op }
{
    match op {
        Op32::Lui => ("lui", Form::Upper),
        Op32::Auipc => ("auipc", Form::Upper),
        Op32::Jal => ("jal", Form::Jump),
        Op32::Jalr => ("jalr", Form::Load),
        Op32::Beq => ("beq", Form::Branch),
        Op32::Bne => ("bne", Form::Branch),
        Op32::Blt => ("blt", Form::Branch),
        Op32::Bge => ("bge", Form::Branch),
        Op32::Bltu => ("bltu", Form::Branch),
        Op32::Bgeu => ("bgeu", Form::Branch),
        Op32::Lb => ("lb", Form::Load),
        Op32::Lh => ("lh", Form::Load),
        Op32::Lw => ("lw", Form::Load),
        Op32::Lbu => ("lbu", Form::Load),
        Op32::Lhu => ("lhu", Form::Load),
        Op32::Sb => ("sb", Form::Store),
        Op32::Sh => ("sh", Form::Store),
        Op32::Sw => ("sw", Form::Store),
        Op32::Addi => ("addi", Form::Immediate),
        Op32::Slti => ("slti", Form::Immediate),
        Op32::Sltiu => ("sltiu", Form::Immediate),
        Op32::Xori => ("xori", Form::Immediate),
        Op32::Ori => ("ori", Form::Immediate),
        Op32::Andi => ("andi", Form::Immediate),
        Op32::Slli => ("slli", Form::Immediate),
        Op32::Srli => ("srli", Form::Immediate),
        Op32::Srai => ("srai", Form::Immediate),
        Op32::Add => ("add", Form::Registers),
        Op32::Sub => ("sub", Form::Registers),
        Op32::Sll => ("sll", Form::Registers),
        Op32::Slt => ("slt", Form::Registers),
        Op32::Sltu => ("sltu", Form::Registers),
        Op32::Xor => ("xor", Form::Registers),
        Op32::Srl => ("srl", Form::Registers),
        Op32::Sra => ("sra", Form::Registers),
        Op32::Or => ("or", Form::Registers),
        Op32::And => ("and", Form::Registers),
        Op32::Mul => ("mul", Form::Registers),
        Op32::Mulh => ("mulh", Form::Registers),
        Op32::Mulhsu => ("mulhsu", Form::Registers),
        Op32::Mulhu => ("mulhu", Form::Registers),
        Op32::Div => ("div", Form::Registers),
        Op32::Divu => ("divu", Form::Registers),
        Op32::Rem => ("rem", Form::Registers),
        Op32::Remu => ("remu", Form::Registers),
        Op32::Fence => ("fence", Form::Fence),
        Op32::Ecall => ("ecall", Form::Alone),
        Op32::Ebreak => ("ebreak", Form::Alone),
        Op32::Csrrw => ("csrrw", Form::Control),
        Op32::Csrrs => ("csrrs", Form::Control),
    }
}

/// The first of these instructions that has a name.
fn named_among(name: &[u8], ops: &[Op32]) -> Option<Op32>
    ensures { result ≡ find (λ op. bytes_eq (name_of op) name.now) ops.now }
{
    for op in ops {
        if spelling(*op).0.as_bytes() == name {
            return Some(*op);
        }
    }
    None
}

/// The instruction of a name.
#[tactic(auto, unfolding(crate::specs::Spelling::op_named))]
pub(crate) fn op_named(name: &[u8]) -> Option<Op32>
    ensures { result ≡ op_named_of name.now }
{
    named_among(name, &OPS)
}

/// The name for other instructions that a text is.
pub(crate) fn pseudo_named(name: &[u8]) -> Option<Pseudo>
    ensures { result ≡ pseudo_named_of name.now }
{
    match name {
        b"nop" => Some(Pseudo::Nop),
        b"mv" => Some(Pseudo::Mv),
        b"li" => Some(Pseudo::Li),
        b"la" => Some(Pseudo::La),
        b"j" => Some(Pseudo::J),
        b"call" => Some(Pseudo::Call),
        b"ret" => Some(Pseudo::Ret),
        b"beqz" => Some(Pseudo::Beqz),
        b"bnez" => Some(Pseudo::Bnez),
        _ => None,
    }
}
