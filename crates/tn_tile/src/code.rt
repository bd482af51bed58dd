//! The code of a tile: for each word the instruction that it is.

ghost use Rattle.std.specs.Prelude.{◌≡◌, ◌↔◌, IfOk, IsTrue, map};
ghost use Rattle.rv_isa.specs.Decode.{decode_of};
ghost use Rattle.tn_tile.specs.Same.{SameFields, SameOperands, SameTarget};

use rv_isa::instr::Instr;
use rv_isa::word::decode;
use std::alloc::{AllocError, Global};

/// The instructions of the words, if they are instructions.
pub(crate) fn decode_all(alloc: Global, words: &[u32]) -> Result<Vec<Option<Instr>>, AllocError>
    ensures { IfOk result (λ v. v.items ≡ map decode_of words.now) }
{
    words.iter().map(|word| decode(*word)).collect(alloc)
}

/// The same instructions.
pub(crate) fn copy_code(code: &Vec<Option<Instr>>) -> Result<Vec<Option<Instr>>, AllocError>
    ensures { IfOk result (λ r. r.items ≡ code.now.items) }
{
    let mut all = Vec::with_capacity(code.allocator().clone()?, code.len())?;
    for instr in code {
        all.push(*instr)?;
    }
    Ok(all)
}

/// Whether the instructions are equal.
pub(crate) fn same_code(a: &Vec<Option<Instr>>, b: &Vec<Option<Instr>>) -> bool
    ensures { IsTrue result ↔ (a.now.items ≡ b.now.items) }
{
    if a.len() != b.len() {
        return false;
    }
    for i in 0..a.len() {
        if !same_word(&a[i], &b[i]) {
            return false;
        }
    }
    true
}

/// Whether equal instructions stand in two places, or none in both.
fn same_word(a: &Option<Instr>, b: &Option<Instr>) -> bool
    ensures { IsTrue result ↔ (a.now ≡ b.now) }
{
    match (a, b) {
        (Some(i), Some(j)) => same_instr(i, j),
        (None, None) => true,
        _ => false,
    }
}

/// Whether two instructions are equal.
fn same_instr(i: &Instr, j: &Instr) -> bool
    ensures { IsTrue result ↔ (i.now ≡ j.now) }
{
    same_fields(i, j)
}

/// Whether two instructions have equal fields.
fn same_fields(i: &Instr, j: &Instr) -> bool
    ensures { IsTrue result ↔ SameFields i.now j.now }
{
    same_target(i, j) && same_operands(i, j)
}

/// Whether two instructions have one name, and write one register.
fn same_target(i: &Instr, j: &Instr) -> bool
    ensures { IsTrue result ↔ SameTarget i.now j.now }
{
    i.op() == j.op() && i.rd() == j.rd()
}

/// Whether two instructions have equal operands.
fn same_operands(i: &Instr, j: &Instr) -> bool
    ensures { IsTrue result ↔ SameOperands i.now j.now }
{
    i.rs1() == j.rs1() && i.rs2() == j.rs2() && same_imm(i.imm(), j.imm())
}

/// Whether two immediates are equal.
fn same_imm(a: i32, b: i32) -> bool
    ensures { IsTrue result ↔ (a ≡ b) }
{
    a == b
}
