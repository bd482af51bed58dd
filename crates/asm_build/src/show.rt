//! Words as assembly.

ghost use Rattle.std.specs.Prelude.{◌≡◌, ◌++◌, IfOk, OnOk};
ghost use Rattle.asm_build.specs.Shown.{control_text, text_of, operands_of, shown_instr, unknown_text, shown};
ghost use Rattle.asm_build.specs.declared.spelling.Form.TheVariants.{Registers, Immediate, Load, Store, Branch, Upper, Jump, Control};

use crate::spelling::{Form, spelling};
use rv_isa::instr::Instr;
use rv_isa::word::decode;
use std::alloc::{AllocError, Global};
use tn_base::name::Name;
use tn_text::print::push_hex_word;

fn show_registers(alloc: Global, name: &str, i: &Instr) -> Result<Name, AllocError>
    ensures { IfOk result (λ line. line ≡ text_of name.now (operands_of Registers i.now)) }
{
    let (rd, rs1, rs2) = (i.rd(), i.rs1(), i.rs2());
    let text = format!(in alloc; "{name} x{rd}, x{rs1}, x{rs2}")?;
    Ok(Name::of(text.into_bytes()))
}

fn show_immediate(alloc: Global, name: &str, i: &Instr) -> Result<Name, AllocError>
    ensures { IfOk result (λ line. line ≡ text_of name.now (operands_of Immediate i.now)) }
{
    let (rd, rs1, imm) = (i.rd(), i.rs1(), i.imm());
    let text = format!(in alloc; "{name} x{rd}, x{rs1}, {imm}")?;
    Ok(Name::of(text.into_bytes()))
}

fn show_load(alloc: Global, name: &str, i: &Instr) -> Result<Name, AllocError>
    ensures { IfOk result (λ line. line ≡ text_of name.now (operands_of Load i.now)) }
{
    let (rd, imm, rs1) = (i.rd(), i.imm(), i.rs1());
    let text = format!(in alloc; "{name} x{rd}, {imm}(x{rs1})")?;
    Ok(Name::of(text.into_bytes()))
}

fn show_store(alloc: Global, name: &str, i: &Instr) -> Result<Name, AllocError>
    ensures { IfOk result (λ line. line ≡ text_of name.now (operands_of Store i.now)) }
{
    let (rs2, imm, rs1) = (i.rs2(), i.imm(), i.rs1());
    let text = format!(in alloc; "{name} x{rs2}, {imm}(x{rs1})")?;
    Ok(Name::of(text.into_bytes()))
}

fn show_branch(alloc: Global, name: &str, i: &Instr) -> Result<Name, AllocError>
    ensures { IfOk result (λ line. line ≡ text_of name.now (operands_of Branch i.now)) }
{
    let (rs1, rs2, offset) = (i.rs1(), i.rs2(), i.imm());
    let text = format!(in alloc; "{name} x{rs1}, x{rs2}, {offset}")?;
    Ok(Name::of(text.into_bytes()))
}

fn show_upper(alloc: Global, name: &str, i: &Instr) -> Result<Name, AllocError>
    ensures { IfOk result (λ line. line ≡ text_of name.now (operands_of Upper i.now)) }
{
    let rd = i.rd();
    let upper = i.imm().cast_unsigned() / 0x1000;
    let text = format!(in alloc; "{name} x{rd}, {upper}")?;
    Ok(Name::of(text.into_bytes()))
}

fn show_jump(alloc: Global, name: &str, i: &Instr) -> Result<Name, AllocError>
    ensures { IfOk result (λ line. line ≡ text_of name.now (operands_of Jump i.now)) }
{
    let (rd, offset) = (i.rd(), i.imm());
    let text = format!(in alloc; "{name} x{rd}, {offset}")?;
    Ok(Name::of(text.into_bytes()))
}

/// Appends a number below 4,096 in three hexadecimal digits.
fn push_control(alloc: Global, text: &mut Vec<u8>, number: u32) -> Result<(), AllocError>
    ensures { OnOk result (text.new.items ≡ text.old.items ++ control_text number) }
{
    let mut digits = Vec::new(alloc);
    push_hex_word(&mut digits, number)?;
    text.extend_from_slice(b"0x")?;
    text.extend_from_slice(&digits[5..])?;
    Ok(())
}

fn show_control(alloc: Global, name: &str, i: &Instr) -> Result<Name, AllocError>
    ensures { IfOk result (λ line. line ≡ text_of name.now (operands_of Control i.now)) }
{
    let (rd, rs1) = (i.rd(), i.rs1());
    let number = i.imm().cast_unsigned();
    let front = format!(in alloc; "{name} x{rd}, ")?;
    let back = format!(in alloc; ", x{rs1}")?;
    let mut text = front.into_bytes();
    push_control(alloc, &mut text, number)?;
    text.extend_from_slice(back.as_bytes())?;
    Ok(Name::of(text))
}

/// The canonical line of an instruction.
fn show_instr(alloc: Global, i: &Instr) -> Result<Name, AllocError>
    ensures { IfOk result (λ line. line ≡ shown_instr i.now) }
{
    let (name, form) = spelling(i.op());
    match form {
        Form::Registers => show_registers(alloc, name, i),
        Form::Immediate | Form::Fence => show_immediate(alloc, name, i),
        Form::Load => show_load(alloc, name, i),
        Form::Store => show_store(alloc, name, i),
        Form::Branch => show_branch(alloc, name, i),
        Form::Upper => show_upper(alloc, name, i),
        Form::Jump => show_jump(alloc, name, i),
        Form::Control => show_control(alloc, name, i),
        Form::Alone => show_alone(alloc, name),
    }
}

fn show_alone(alloc: Global, name: &str) -> Result<Name, AllocError>
    ensures { IfOk result (λ line. line ≡ name.now) }
{
    let mut text = Vec::new(alloc);
    text.extend_from_slice(name.as_bytes())?;
    Ok(Name::of(text))
}

fn show_unknown(alloc: Global, word: u32) -> Result<Name, AllocError>
    ensures { IfOk result (λ line. line ≡ unknown_text word) }
{
    let mut text = Vec::new(alloc);
    text.extend_from_slice(b".word 0x")?;
    push_hex_word(&mut text, word)?;
    Ok(Name::of(text))
}

/// The canonical line of a word: the instruction that has the word, or `.word` where none has it.
pub fn show(alloc: Global, word: u32) -> Result<Name, AllocError>
    // By `law_show` the line is assembled to exactly this word.
    ensures { IfOk result (λ line. line ≡ shown word) }
{
    match decode(word) {
        Some(i) => show_instr(alloc, &i),
        None => show_unknown(alloc, word),
    }
}
