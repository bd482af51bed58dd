//! The fields of an instruction, by its arguments.

ghost use Rattle.std.specs.Prelude.{◌≡◌};
ghost use Rattle.asm_build.specs.Fields.{offset_of, upper_of, control_number, register_fields, immediate_fields, load_fields, store_fields, branch_fields, upper_fields, jump_fields, control_fields, alone_fields, fence_fields, fields_of};

use crate::control::find_control;
use crate::labels::Labels;
use crate::spelling::Form;
use asm_text::fault::AsmKind;
use asm_text::line::Arg;

/// The fields of an instruction, whether or not they fit.
#[derive(Clone, Copy, PartialEq, Eq, Debug)]
pub(crate) struct Fields {
    pub rd: u8,
    pub rs1: u8,
    pub rs2: u8,
    pub imm: i64,
}

/// The offset from an address to a target.
pub(crate) fn offset(places: &Labels, here: u32, target: &Arg) -> Result<i64, AsmKind>
    ensures { result ≡ offset_of places.now here target.now }
{
    match target {
        Arg::Num(offset) => Ok(*offset),
        Arg::Name(label) => match places.get(label) {
            Some(address) => Ok(i64::from(address) - i64::from(here)),
            None => Err(AsmKind::NoLabel),
        },
        _ => Err(AsmKind::BadArgs),
    }
}

/// The immediate whose upper 20 bits are a number.
fn upper(number: i64) -> Result<i64, AsmKind>
    ensures { result ≡ upper_of number }
{
    if number < 0 || number >= 1 << 20 {
        return Err(AsmKind::OutOfRange);
    }
    Ok(i64::from(((number as u32) << 12).cast_signed()))
}

fn control(arg: &Arg) -> Result<i64, AsmKind>
    ensures { result ≡ control_number arg.now }
{
    match arg {
        Arg::Num(number) => Ok(*number),
        Arg::Name(name) => match find_control(name.as_slice()) {
            Some(number) => Ok(i64::from(number)),
            None => Err(AsmKind::BadArgs),
        },
        _ => Err(AsmKind::BadArgs),
    }
}

fn of_registers(args: &[Arg]) -> Result<Fields, AsmKind>
    ensures { result ≡ register_fields args.now }
{
    match args {
        [Arg::Reg(rd), Arg::Reg(rs1), Arg::Reg(rs2)] => Ok(Fields {
            rd: *rd,
            rs1: *rs1,
            rs2: *rs2,
            imm: 0,
        }),
        _ => Err(AsmKind::BadArgs),
    }
}

fn of_immediate(args: &[Arg]) -> Result<Fields, AsmKind>
    ensures { result ≡ immediate_fields args.now }
{
    match args {
        [Arg::Reg(rd), Arg::Reg(rs1), Arg::Num(imm)] => Ok(Fields {
            rd: *rd,
            rs1: *rs1,
            rs2: 0,
            imm: *imm,
        }),
        _ => Err(AsmKind::BadArgs),
    }
}

fn of_load(args: &[Arg]) -> Result<Fields, AsmKind>
    ensures { result ≡ load_fields args.now }
{
    match args {
        [Arg::Reg(rd), Arg::Mem(imm, rs1)] => Ok(Fields {
            rd: *rd,
            rs1: *rs1,
            rs2: 0,
            imm: *imm,
        }),
        _ => Err(AsmKind::BadArgs),
    }
}

fn of_store(args: &[Arg]) -> Result<Fields, AsmKind>
    ensures { result ≡ store_fields args.now }
{
    match args {
        [Arg::Reg(rs2), Arg::Mem(imm, rs1)] => Ok(Fields {
            rd: 0,
            rs1: *rs1,
            rs2: *rs2,
            imm: *imm,
        }),
        _ => Err(AsmKind::BadArgs),
    }
}

fn of_branch(places: &Labels, here: u32, args: &[Arg]) -> Result<Fields, AsmKind>
    ensures { result ≡ branch_fields places.now here args.now }
{
    match args {
        [Arg::Reg(rs1), Arg::Reg(rs2), target] => Ok(Fields {
            rd: 0,
            rs1: *rs1,
            rs2: *rs2,
            imm: offset(places, here, target)?,
        }),
        _ => Err(AsmKind::BadArgs),
    }
}

fn of_upper(args: &[Arg]) -> Result<Fields, AsmKind>
    ensures { result ≡ upper_fields args.now }
{
    match args {
        [Arg::Reg(rd), Arg::Num(number)] => Ok(Fields {
            rd: *rd,
            rs1: 0,
            rs2: 0,
            imm: upper(*number)?,
        }),
        _ => Err(AsmKind::BadArgs),
    }
}

fn of_jump(places: &Labels, here: u32, args: &[Arg]) -> Result<Fields, AsmKind>
    ensures { result ≡ jump_fields places.now here args.now }
{
    match args {
        [Arg::Reg(rd), target] => Ok(Fields {
            rd: *rd,
            rs1: 0,
            rs2: 0,
            imm: offset(places, here, target)?,
        }),
        _ => Err(AsmKind::BadArgs),
    }
}

fn of_control(args: &[Arg]) -> Result<Fields, AsmKind>
    ensures { result ≡ control_fields args.now }
{
    match args {
        [Arg::Reg(rd), register, Arg::Reg(rs1)] => Ok(Fields {
            rd: *rd,
            rs1: *rs1,
            rs2: 0,
            imm: control(register)?,
        }),
        _ => Err(AsmKind::BadArgs),
    }
}

fn of_nothing(imm: i64, args: &[Arg]) -> Result<Fields, AsmKind>
    ensures { result ≡ alone_fields imm args.now }
{
    if !args.is_empty() {
        return Err(AsmKind::BadArgs);
    }
    Ok(Fields {
        rd: 0,
        rs1: 0,
        rs2: 0,
        imm,
    })
}

fn of_fence(args: &[Arg]) -> Result<Fields, AsmKind>
    ensures { result ≡ fence_fields args.now }
{
    if args.is_empty() {
        of_nothing(0xff, args)
    } else {
        of_immediate(args)
    }
}

/// The fields that arguments of a form give.
pub(crate) fn read_fields(
    form: Form,
    places: &Labels,
    here: u32,
    args: &[Arg],
) -> Result<Fields, AsmKind>
    ensures { result ≡ fields_of form places.now here args.now }
{
    match form {
        Form::Registers => of_registers(args),
        Form::Immediate => of_immediate(args),
        Form::Load => of_load(args),
        Form::Store => of_store(args),
        Form::Branch => of_branch(places, here, args),
        Form::Upper => of_upper(args),
        Form::Jump => of_jump(places, here, args),
        Form::Control => of_control(args),
        Form::Alone => of_nothing(0, args),
        Form::Fence => of_fence(args),
    }
}
