//! Printing a job.

ghost use Rattle.std.specs.Prelude.{◌≡◌, ◌++◌, IfOk, OnOk, flat_map};
ghost use Rattle.job_text.specs.Printed.{header_text, shape_text, setting_text, settings_text, owner_text, end_text, code_text, asm_text, fill_text, beat_text, table_text, script_text, graph_text, sections_text, text_of};

use crate::job::{
    BeatLine, CodeSection, FillLine, Job, Owner, ScriptLine, ScriptText, TableSection, TextSection,
};
use std::alloc::{AllocError, Global};
use tn_base::shape::ShapeNumbers;
use tn_text::print::{push_decimal, push_hex, push_number, push_words};

fn push_header(alloc: Global, text: &mut Vec<u8>, version: u32) -> Result<(), AllocError>
    ensures { OnOk result (text.new.items ≡ text.old.items ++ header_text version) }
{
    text.extend_from_slice(b"tinsel".as_slice())?;
    push_number(alloc, text, version)?;
    text.push(b'\n')?;
    Ok(())
}

fn push_shape(alloc: Global, text: &mut Vec<u8>, numbers: &ShapeNumbers) -> Result<(), AllocError>
    ensures { OnOk result (text.new.items ≡ text.old.items ++ shape_text numbers.now) }
{
    text.extend_from_slice(b"shape".as_slice())?;
    push_number(alloc, text, numbers.boards_x)?;
    push_number(alloc, text, numbers.boards_y)?;
    push_number(alloc, text, numbers.tiles_x)?;
    push_number(alloc, text, numbers.tiles_y)?;
    push_number(alloc, text, numbers.cores)?;
    push_number(alloc, text, numbers.threads)?;
    text.push(b'\n')?;
    Ok(())
}

fn push_setting(
    alloc: Global,
    text: &mut Vec<u8>,
    name: &[u8],
    number: u32,
) -> Result<(), AllocError>
    ensures { OnOk result (text.new.items ≡ text.old.items ++ setting_text name.now number) }
{
    text.extend_from_slice(name)?;
    push_number(alloc, text, number)?;
    text.push(b'\n')?;
    Ok(())
}

fn push_settings(
    alloc: Global,
    text: &mut Vec<u8>,
    numbers: &ShapeNumbers,
) -> Result<(), AllocError>
    ensures { OnOk result (text.new.items ≡ text.old.items ++ settings_text numbers.now) }
{
    push_setting(alloc, text, b"slots".as_slice(), numbers.slots)?;
    push_setting(alloc, text, b"link".as_slice(), numbers.link)?;
    push_setting(alloc, text, b"mem".as_slice(), numbers.mem)?;
    push_setting(alloc, text, b"fuel".as_slice(), numbers.fuel)?;
    push_setting(alloc, text, b"turn".as_slice(), numbers.turn)
}

fn push_owner(alloc: Global, text: &mut Vec<u8>, owner: Owner) -> Result<(), AllocError>
    ensures { OnOk result (text.new.items ≡ text.old.items ++ owner_text owner) }
{
    match owner {
        Owner::All => text.extend_from_slice(b"all".as_slice()),
        Owner::Tile(tile) => push_decimal(alloc, text, tile),
    }
}

fn push_end(text: &mut Vec<u8>) -> Result<(), AllocError>
    ensures { OnOk result (text.new.items ≡ text.old.items ++ end_text) }
{
    text.extend_from_slice(b"end\n".as_slice())
}

fn push_code(alloc: Global, text: &mut Vec<u8>, section: &CodeSection) -> Result<(), AllocError>
    ensures { OnOk result (text.new.items ≡ text.old.items ++ code_text section.now) }
{
    text.extend_from_slice(b"code ".as_slice())?;
    push_owner(alloc, text, section.owner)?;
    text.push(b'\n')?;
    push_words(text, section.words.as_slice())?;
    push_end(text)
}

fn push_asm(alloc: Global, text: &mut Vec<u8>, section: &TextSection) -> Result<(), AllocError>
    ensures { OnOk result (text.new.items ≡ text.old.items ++ asm_text section.now) }
{
    text.extend_from_slice(b"asm ".as_slice())?;
    push_owner(alloc, text, section.owner)?;
    text.push(b'\n')?;
    text.extend_from_slice(section.text.as_slice())?;
    push_end(text)
}

fn push_fill(alloc: Global, text: &mut Vec<u8>, fill: &FillLine) -> Result<(), AllocError>
    ensures { OnOk result (text.new.items ≡ text.old.items ++ fill_text fill.now) }
{
    text.extend_from_slice(b"fill".as_slice())?;
    push_number(alloc, text, fill.thread)?;
    push_number(alloc, text, fill.address)?;
    text.push(b' ')?;
    push_hex(text, fill.bytes.as_slice())?;
    text.push(b'\n')?;
    Ok(())
}

fn push_beats(text: &mut Vec<u8>, beats: &[BeatLine]) -> Result<(), AllocError>
    ensures { OnOk result (text.new.items ≡ text.old.items ++ flat_map beat_text beats.now) }
{
    for beat in beats {
        push_hex(text, &beat.bytes)?;
        text.push(b'\n')?;
    }
    Ok(())
}

fn push_table(alloc: Global, text: &mut Vec<u8>, table: &TableSection) -> Result<(), AllocError>
    ensures { OnOk result (text.new.items ≡ text.old.items ++ table_text table.now) }
{
    text.extend_from_slice(b"table".as_slice())?;
    push_number(alloc, text, table.x)?;
    push_number(alloc, text, table.y)?;
    text.push(b'\n')?;
    push_beats(text, table.beats.as_slice())?;
    push_end(text)
}

fn push_script(alloc: Global, text: &mut Vec<u8>, line: &ScriptLine) -> Result<(), AllocError>
    ensures { OnOk result (text.new.items ≡ text.old.items ++ script_text line.now) }
{
    match &line.item {
        ScriptText::Send(thread, bytes) => {
            text.extend_from_slice(b"host send".as_slice())?;
            push_number(alloc, text, *thread)?;
            text.push(b' ')?;
            push_hex(text, bytes.as_slice())?;
            text.push(b'\n')?;
            Ok(())
        }
        ScriptText::Idle => text.extend_from_slice(b"host idle\n".as_slice()),
    }
}

fn push_graph(text: &mut Vec<u8>, graph: &Option<TextSection>) -> Result<(), AllocError>
    ensures { OnOk result (text.new.items ≡ text.old.items ++ graph_text graph.now) }
{
    let Some(section) = graph else {
        return Ok(());
    };
    text.extend_from_slice(section.text.as_slice())?;
    push_end(text)
}

fn push_codes(alloc: Global, text: &mut Vec<u8>, codes: &[CodeSection]) -> Result<(), AllocError>
    ensures { OnOk result (text.new.items ≡ text.old.items ++ flat_map code_text codes.now) }
{
    for section in codes {
        push_code(alloc, text, section)?;
    }
    Ok(())
}

fn push_asms(alloc: Global, text: &mut Vec<u8>, asms: &[TextSection]) -> Result<(), AllocError>
    ensures { OnOk result (text.new.items ≡ text.old.items ++ flat_map asm_text asms.now) }
{
    for section in asms {
        push_asm(alloc, text, section)?;
    }
    Ok(())
}

fn push_fills(alloc: Global, text: &mut Vec<u8>, fills: &[FillLine]) -> Result<(), AllocError>
    ensures { OnOk result (text.new.items ≡ text.old.items ++ flat_map fill_text fills.now) }
{
    for fill in fills {
        push_fill(alloc, text, fill)?;
    }
    Ok(())
}

fn push_tables(alloc: Global, text: &mut Vec<u8>, tables: &[TableSection]) -> Result<(), AllocError>
    ensures { OnOk result (text.new.items ≡ text.old.items ++ flat_map table_text tables.now) }
{
    for table in tables {
        push_table(alloc, text, table)?;
    }
    Ok(())
}

fn push_scripts(alloc: Global, text: &mut Vec<u8>, script: &[ScriptLine]) -> Result<(), AllocError>
    ensures { OnOk result (text.new.items ≡ text.old.items ++ flat_map script_text script.now) }
{
    for line in script {
        push_script(alloc, text, line)?;
    }
    Ok(())
}

fn push_sections(alloc: Global, text: &mut Vec<u8>, job: &Job) -> Result<(), AllocError>
    ensures { OnOk result (text.new.items ≡ text.old.items ++ sections_text job.now) }
{
    push_codes(alloc, text, job.codes.as_slice())?;
    push_asms(alloc, text, job.asms.as_slice())?;
    push_fills(alloc, text, job.fills.as_slice())?;
    push_tables(alloc, text, job.tables.as_slice())?;
    push_scripts(alloc, text, job.script.as_slice())?;
    push_graph(text, &job.graph)
}

/// The printed form of a job: decimal numbers, one space between words, sections by kind and in order of lines.
pub fn print_job(alloc: Global, job: &Job) -> Result<Vec<u8>, AllocError>
    ensures { IfOk result (λ text. text.items ≡ text_of job.now) }
{
    let mut text = Vec::new(alloc);
    push_header(alloc, &mut text, job.version)?;
    push_shape(alloc, &mut text, &job.numbers)?;
    push_settings(alloc, &mut text, &job.numbers)?;
    push_sections(alloc, &mut text, job)?;
    Ok(text)
}
