//! A section that is being read: its head, or its one line, and the lines inside.

ghost use Rattle.std.specs.Prelude.{◌≡◌, Some};
ghost use Rattle.tn_text.specs.Gives.{Gives};
ghost use Rattle.tn_text.specs.Hex.{hex_array_of, hex_bytes_of};
ghost use Rattle.tn_text.specs.Words.{three_of, two_of, words_of};
ghost use Rattle.job_text.specs.SectionLines.{asm_head, beat_added, beat_line, code_head, fill_by, fill_bytes as fill_bytes_of, graph_head, host_line, is_whole as is_whole_section, section_begun, send_by, send_bytes as send_bytes_of, table_head, text_added, with_line as section_with, word_line};

use crate::arguments::{find_owner, given, one_number, two_numbers};
use crate::job::{
    BeatLine, CodeSection, FillLine, JobKind, LineStop, Owner, ScriptLine, ScriptText, Section,
    TableSection, TextSection,
};
use crate::keyword::Keyword;
use std::alloc::{AllocError, Global};
use tn_text::hex::{hex_array, hex_bytes, hex_word};
use tn_text::items::Items;
use tn_text::number_lists::numbers;
use tn_text::stop::Stop;
use tn_text::words::{first_word, one_word, three_words, two_words};

/// The most words of a `code` section.
const WORDS: usize = 16_384;

/// The most beats of a `table` section.
const BEATS: usize = 65_536;

/// The most bytes of a `fill` line.
const FILL_BYTES: usize = 4_096;

fn code_head(alloc: Global, number: u32, rest: &[u8]) -> Result<Section, LineStop>
    ensures { Gives result (code_head number (words_of rest.now)) }
{
    let owner = find_owner(rest)?;
    Ok(Section::Code(CodeSection {
        line: number,
        owner,
        words: Items::new(alloc),
    }))
}

fn asm_head(alloc: Global, number: u32, rest: &[u8]) -> Result<Section, LineStop>
    ensures { Gives result (asm_head number (words_of rest.now)) }
{
    let owner = find_owner(rest)?;
    Ok(Section::Asm(TextSection {
        line: number,
        owner,
        text: Items::new(alloc),
    }))
}

fn table_head(alloc: Global, number: u32, rest: &[u8]) -> Result<Section, LineStop>
    ensures { Gives result (table_head number (words_of rest.now)) }
{
    let [x, y] = given(numbers::<2>(rest))?;
    Ok(Section::Table(TableSection {
        line: number,
        x,
        y,
        beats: Items::new(alloc),
    }))
}

fn graph_head(alloc: Global, number: u32, line: &[u8], rest: &[u8]) -> Result<Section, LineStop>
    ensures { Gives result (graph_head number line.now (words_of rest.now)) }
{
    let [_, _] = given(numbers::<2>(rest))?;
    let mut text = Items::new(alloc);
    text.extend(line)?;
    text.push(b'\n')?;
    Ok(Section::Graph(TextSection {
        line: number,
        owner: Owner::All,
        text,
    }))
}

/// The bytes of a `fill` line.
fn fill_bytes(alloc: Global, digits: &[u8]) -> Result<Items<u8>, LineStop>
    ensures { Gives result (fill_bytes_of (hex_bytes_of digits.now)) }
{
    let Some(bytes) = hex_bytes(alloc, digits)? else {
        return Err(Stop::Fault(JobKind::BadLine));
    };
    if bytes.len() > FILL_BYTES {
        return Err(Stop::Fault(JobKind::BadLine));
    }
    Ok(Items::from(bytes))
}

fn fill_line(alloc: Global, number: u32, rest: &[u8]) -> Result<Section, LineStop>
    ensures { Gives result (fill_by number (three_of (words_of rest.now))) }
{
    let Some((thread, address, digits)) = three_words(rest) else {
        return Err(Stop::Fault(JobKind::BadLine));
    };
    let bytes = fill_bytes(alloc, digits)?;
    let (thread, address) = two_numbers(thread, address)?;
    Ok(Section::Fill(FillLine {
        line: number,
        thread,
        address,
        bytes,
    }))
}

/// The bytes of a `host send` line.
fn send_bytes(alloc: Global, digits: &[u8]) -> Result<Items<u8>, LineStop>
    ensures { Gives result (send_bytes_of (hex_bytes_of digits.now)) }
{
    match hex_bytes(alloc, digits)? {
        Some(bytes) => Ok(Items::from(bytes)),
        None => Err(Stop::Fault(JobKind::BadLine)),
    }
}

fn send_line(alloc: Global, number: u32, rest: &[u8]) -> Result<Section, LineStop>
    ensures { Gives result (send_by number (two_of (words_of rest.now))) }
{
    let Some((thread, digits)) = two_words(rest) else {
        return Err(Stop::Fault(JobKind::BadLine));
    };
    let bytes = send_bytes(alloc, digits)?;
    let thread = one_number(thread)?;
    Ok(Section::Script(ScriptLine {
        line: number,
        item: ScriptText::Send(thread, bytes),
    }))
}

fn host_line(alloc: Global, number: u32, rest: &[u8]) -> Result<Section, LineStop>
    ensures { Gives result (host_line number (words_of rest.now)) }
{
    let Some((name, rest)) = first_word(rest) else {
        return Err(Stop::Fault(JobKind::BadLine));
    };
    if name == b"idle".as_slice() {
        if first_word(rest).is_some() {
            return Err(Stop::Fault(JobKind::BadLine));
        }
        return Ok(Section::Script(ScriptLine {
            line: number,
            item: ScriptText::Idle,
        }));
    }
    if name == b"send".as_slice() {
        return send_line(alloc, number, rest);
    }
    Err(Stop::Fault(JobKind::BadLine))
}

/// The section that begins on a line with this keyword. `rest` are the words after the keyword.
pub(crate) fn begin_section(
    alloc: Global,
    number: u32,
    line: &[u8],
    keyword: Keyword,
    rest: &[u8],
) -> Result<Section, LineStop>
    ensures { Gives result (section_begun number line.now keyword (words_of rest.now)) }
{
    match keyword {
        Keyword::Number(_) => Err(Stop::Fault(JobKind::BadLine)),
        Keyword::Code => code_head(alloc, number, rest),
        Keyword::Asm => asm_head(alloc, number, rest),
        Keyword::Fill => fill_line(alloc, number, rest),
        Keyword::Table => table_head(alloc, number, rest),
        Keyword::Host => host_line(alloc, number, rest),
        Keyword::Graph => graph_head(alloc, number, line, rest),
    }
}

/// Whether a section is of one line.
pub(crate) fn is_whole(section: &Section) -> bool
    ensures { result ≡ is_whole_section section.now }
{
    matches!(section, Section::Fill(_) | Section::Script(_))
}

fn word_line(section: CodeSection, line: &[u8]) -> Result<CodeSection, LineStop>
    ensures { Gives result (word_line section (words_of line.now)) }
{
    if first_word(line).is_none() {
        return Ok(section);
    }
    let Some(word) = one_word(line) else {
        return Err(Stop::Fault(JobKind::BadWord));
    };
    let Some(word) = hex_word(word) else {
        return Err(Stop::Fault(JobKind::BadWord));
    };
    let mut with_word = section;
    if with_word.words.len() >= WORDS {
        return Err(Stop::Fault(JobKind::TooMany));
    }
    with_word.words.push(word)?;
    Ok(with_word)
}

fn push_beat(table: TableSection, number: u32, word: &[u8]) -> Result<TableSection, LineStop>
    ensures { Gives result (beat_added table number (hex_array_of 32 word.now)) }
{
    let Some(bytes) = hex_array::<32>(word) else {
        return Err(Stop::Fault(JobKind::BadWord));
    };
    let mut with_beat = table;
    if with_beat.beats.len() >= BEATS {
        return Err(Stop::Fault(JobKind::TooMany));
    }
    with_beat.beats.push(BeatLine {
        line: number,
        bytes,
    })?;
    Ok(with_beat)
}

fn beat_line(table: TableSection, number: u32, line: &[u8]) -> Result<TableSection, LineStop>
    ensures { Gives result (beat_line table number (words_of line.now)) }
{
    if first_word(line).is_none() {
        return Ok(table);
    }
    let Some(word) = one_word(line) else {
        return Err(Stop::Fault(JobKind::BadWord));
    };
    push_beat(table, number, word)
}

fn push_line(section: TextSection, line: &[u8]) -> Result<TextSection, LineStop>
    ensures { Gives result (Ok (text_added section line.now)) }
{
    let mut with_text = section;
    with_text.text.extend(line)?;
    with_text.text.push(b'\n')?;
    Ok(with_text)
}

/// A section with one more of its lines.
pub(crate) fn with_line(section: Section, number: u32, line: &[u8]) -> Result<Section, LineStop>
    ensures { Gives result (section_with number line.now section) }
{
    match section {
        Section::Code(code) => Ok(Section::Code(word_line(code, line)?)),
        Section::Asm(asm) => Ok(Section::Asm(push_line(asm, line)?)),
        Section::Table(table) => Ok(Section::Table(beat_line(table, number, line)?)),
        Section::Graph(graph) => Ok(Section::Graph(push_line(graph, line)?)),
        Section::Fill(_) => Err(Stop::Fault(JobKind::BadLine)),
        Section::Script(_) => Err(Stop::Fault(JobKind::BadLine)),
    }
}
