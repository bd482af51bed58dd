//! Reading a graph.

ghost use Rattle.std.specs.Prelude.{◌≡◌, ◌+◌, ◌<◌, ◌^◌, length, IfOk};
ghost use Rattle.tn_text.specs.Gives.{Gives};
ghost use Rattle.tn_text.specs.Lines.{lines_of};
ghost use Rattle.graph_text.specs.Flits.{lines_flits};
ghost use Rattle.graph_text.specs.Graph.{IsGraph};
ghost use Rattle.graph_text.specs.Rows.{IsSaid, said_lines};
ghost use Rattle.graph_text.specs.Text.{graph_of, head_of};

use crate::draft::Draft;
use crate::graph::{Graph, GraphKind, GraphStop};
use crate::line::{Head, LineStop, read_head};
use std::alloc::Global;
use tn_text::content::{content, is_plain};
use tn_text::lines::first_line;
use tn_text::stop::Stop;

fn head(line: &[u8]) -> Result<Head, LineStop>
    ensures { Gives result (head_of line.now) }
{
    if !is_plain(line) {
        return Err(Stop::Fault(GraphKind::BadLine));
    }
    read_head(content(line))
}

fn read(alloc: Global, lines: &[u8], first: u32) -> Result<Graph, GraphStop>
    requires { first + length (lines_of lines.now) < 2 ^ 32 }
    ensures { Gives result (graph_of first (lines_of lines.now)) }
{
    let Some((front, mut rest)) = first_line(lines) else {
        return Err(Stop::Fault(GraphKind::BadLine).at(first));
    };
    let mut draft = match head(front) {
        Ok(head) => Draft::new(alloc, head),
        Err(stop) => return Err(stop.at(first)),
    };
    let mut number = first;
    while let Some((line, after)) = first_line(rest) {
        number += 1;
        draft = match draft.take_line(alloc, number, line) {
            Ok(next) => next,
            Err(stop) => return Err(stop.at(number)),
        };
        rest = after;
    }
    draft.finish(first)
}

/// The graph that a text says. Its first line is the graph's, `graph FLITS PER`, whose number is `first`.
pub fn read_graph(alloc: Global, lines: &[u8], first: u32) -> Result<Graph, GraphStop>
    requires { first + length (lines_of lines.now) < 2 ^ 32 }
    // The graph that the lines say, or the first line at fault with the first kind that applies there.
    ensures read { Gives result (graph_of first (lines_of lines.now)) }
    // Each line of a kind, a vertex or an edge gives one row, in order, and the names are those of rows of the graph.
    ensures says { IfOk result (λ graph. IsSaid graph (said_lines first (lines_of lines.now))) }
    // So its rows name rows that are there, and all numbers are within their limits.
    ensures fits { IfOk result (λ graph. IsGraph graph) }
    // Its messages have the flits that the first line gives.
    ensures flits { IfOk result (λ graph. graph.flits ≡ lines_flits (lines_of lines.now)) }
{
    read(alloc, lines, first)
}
