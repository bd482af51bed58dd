//! One line of a graph.

ghost use Rattle.std.specs.Prelude.{◌≡◌, ◌&&◌, [], IfOk, MatchResult};
ghost use Rattle.tn_text.specs.Gives.{Gives};
ghost use Rattle.tn_text.specs.Numbers.{number_of};
ghost use Rattle.tn_text.specs.Words.{StartsWord, words_of};
ghost use Rattle.tn_text.specs.declared.stop.Stop.TheVariants as Stop;
ghost use Rattle.graph_text.specs.declared.graph.GraphKind.TheVariants as GraphKind;
ghost use Rattle.graph_text.specs.Line.{content_line, edge_line, given as given_of, head_line, head_with, kind_line, kind_with, pair_of, value_in, vertex_line, within as is_within};

use crate::graph::GraphKind;
use std::alloc::{AllocError, Global};
use tn_base::name::Name;
use tn_text::items::Items;
use tn_text::names::{copy_name, is_name};
use tn_text::number_lists::{numbers, word_values};
use tn_text::numbers::{Numeral, number};
use tn_text::stop::Stop;
use tn_text::words::first_word;

/// What the graph's line says.
#[derive(Clone, Copy, PartialEq, Eq, Debug)]
pub(crate) struct Head {
    pub flits: u32,
    pub per_thread: u32,
}

/// What a line of a kind says.
#[derive(Drop)]
pub(crate) struct KindLine {
    pub name: Name,
    pub pins: u32,
    pub words: u32,
}

/// What a line of a vertex says. `words` are those that it gives.
#[derive(Drop)]
pub(crate) struct VertexLine {
    pub name: Name,
    pub kind: Name,
    pub words: Items<u32>,
}

/// What a line of an edge says.
#[derive(Drop)]
pub(crate) struct EdgeLine {
    pub from: Name,
    pub pin: u32,
    pub to: Name,
    pub value: u32,
}

/// What a line after the graph's line says.
#[derive(Drop)]
pub(crate) enum GraphLine {
    Kind(KindLine),
    Vertex(VertexLine),
    Edge(EdgeLine),
}

/// Why a line says nothing.
pub(crate) type LineStop = Stop<GraphKind>;

fn within(least: u32, most: u32, n: u32) -> bool
    ensures { result ≡ is_within least most n }
{
    least <= n && n <= most
}

/// The numbers of a line that has its form but for them.
fn given<V: Drop>(fits: bool, numbers: Numeral<V>) -> Result<V, LineStop>
    ensures { Gives result (given_of fits numbers) }
{
    if !fits {
        return Err(Stop::Fault(GraphKind::BadLine));
    }
    match numbers {
        Numeral::Value(numbers) => Ok(numbers),
        Numeral::TooLarge => Err(Stop::Fault(GraphKind::BadNumber)),
        Numeral::NoNumber => Err(Stop::Fault(GraphKind::BadLine)),
    }
}

/// The first word, and what comes after it. A form that wants one more word is not that of a line without it.
fn next_word(line: &[u8]) -> Result<(&[u8], &[u8]), LineStop>
    ensures { MatchResult result (λ r. StartsWord line.now r.0.now r.1.now)
        (λ stop. (words_of line.now ≡ []) × (stop ≡ Stop.Fault GraphKind.BadLine)) }
{
    match first_word(line) {
        Some(parts) => Ok(parts),
        None => Err(Stop::Fault(GraphKind::BadLine)),
    }
}

/// What the graph's line says.
pub(crate) fn read_head(content: &[u8]) -> Result<Head, LineStop>
    ensures { Gives result (head_line (words_of content.now)) }
{
    let (word, rest) = next_word(content)?;
    let [flits, per_thread] = given(word == b"graph".as_slice(), numbers::<2>(rest))?;
    if within(1, 8, flits) && within(1, 64, per_thread) {
        Ok(Head { flits, per_thread })
    } else {
        Err(Stop::Fault(GraphKind::BadNumber))
    }
}

fn read_kind(alloc: Global, rest: &[u8]) -> Result<GraphLine, LineStop>
    ensures { Gives result (kind_line (words_of rest.now)) }
{
    let (name, rest) = next_word(rest)?;
    let [pins, words] = given(is_name(name), numbers::<2>(rest))?;
    if pins > 4 || !within(1, 16, words) {
        return Err(Stop::Fault(GraphKind::BadNumber));
    }
    let name = copy_name(alloc, name)?;
    Ok(GraphLine::Kind(KindLine { name, pins, words }))
}

fn read_vertex(alloc: Global, rest: &[u8]) -> Result<GraphLine, LineStop>
    ensures { Gives result (vertex_line (words_of rest.now)) }
{
    let (name, rest) = next_word(rest)?;
    let (kind, rest) = next_word(rest)?;
    let words = given(is_name(name) && is_name(kind), word_values(alloc, rest)?)?;
    let name = copy_name(alloc, name)?;
    let kind = copy_name(alloc, kind)?;
    Ok(GraphLine::Vertex(VertexLine { name, kind, words }))
}

/// The value of an edge, from the words after its vertices.
fn read_value(rest: &[u8]) -> Numeral<u32>
    ensures { result ≡ value_in (words_of rest.now) }
{
    let Some((value, rest)) = first_word(rest) else {
        return Numeral::Value(0);
    };
    if first_word(rest).is_some() {
        return Numeral::NoNumber;
    }
    number(value)
}

fn pair(first: Numeral<u32>, second: Numeral<u32>) -> Numeral<(u32, u32)>
    ensures { result ≡ pair_of first second }
{
    match (first, second) {
        (Numeral::Value(first), Numeral::Value(second)) => Numeral::Value((first, second)),
        (Numeral::NoNumber, _) | (_, Numeral::NoNumber) => Numeral::NoNumber,
        _ => Numeral::TooLarge,
    }
}

fn read_edge(alloc: Global, rest: &[u8]) -> Result<GraphLine, LineStop>
    ensures { Gives result (edge_line (words_of rest.now)) }
{
    let (from, rest) = next_word(rest)?;
    let (pin, rest) = next_word(rest)?;
    let (to, rest) = next_word(rest)?;
    let numbers = pair(number(pin), read_value(rest));
    let (pin, value) = given(is_name(from) && is_name(to), numbers)?;
    let from = copy_name(alloc, from)?;
    let to = copy_name(alloc, to)?;
    Ok(GraphLine::Edge(EdgeLine {
        from,
        pin,
        to,
        value,
    }))
}

/// What a line says that is not the graph's line.
pub(crate) fn read_line(alloc: Global, content: &[u8]) -> Result<GraphLine, LineStop>
    ensures { Gives result (content_line content.now) }
{
    let (word, rest) = next_word(content)?;
    if word == b"kind".as_slice() {
        return read_kind(alloc, rest);
    }
    if word == b"vertex".as_slice() {
        return read_vertex(alloc, rest);
    }
    if word == b"edge".as_slice() {
        return read_edge(alloc, rest);
    }
    Err(Stop::Fault(GraphKind::BadLine))
}
