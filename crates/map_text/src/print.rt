//! Printing places and tables.
ghost use Rattle.std.specs.Prelude.{◌≡◌, ◌≤◌, ◌<◌, ◌++◌, IfOk, OnOk, flat_map, length};
ghost use Rattle.tn_base.specs.Shape.{WithinLimits};
ghost use Rattle.tn_text.specs.Words.{spaced};
ghost use Rattle.map_text.specs.Text.{beat_line, board_text, map_text, place_line, places_text, row_text, section_text, tables_text, vertex_line};

use graph_text::graph::Graph;
use polite_place::placement::Placement;
use std::alloc::{AllocError, Global};
use tn_base::shape::Shape;
use tn_keys::beat::Beat;
use tn_keys::tables::Tables;
use tn_keys::write_beat;
use tn_text::print::{push_hex, push_number};

fn push_word(text: &mut Vec<u8>, word: &[u8]) -> Result<(), AllocError>
    ensures { OnOk result (text.new.items ≡ text.old.items ++ spaced word.now) }
{
    text.push(b' ')?;
    text.extend_from_slice(word)
}

/// Appends the line of a name and a thread.
fn push_place(alloc: Global, text: &mut Vec<u8>, name: &[u8], thread: u32) -> Result<(), AllocError>
    ensures { OnOk result (text.new.items ≡ text.old.items ++ place_line name.now thread) }
{
    text.extend_from_slice(b"place".as_slice())?;
    push_word(text, name)?;
    push_number(alloc, text, thread)?;
    text.push(b'\n')?;
    Ok(())
}

/// Appends the line of a vertex.
fn push_vertex(
    alloc: Global,
    text: &mut Vec<u8>,
    graph: &Graph,
    placement: &Placement,
    vertex: u32,
) -> Result<(), AllocError>
    requires there { vertex < length graph.now.vertices }
    requires seats { length placement.now ≡ length graph.now.vertices }
    ensures { OnOk result (text.new.items ≡ text.old.items ++ vertex_line graph.now placement.now vertex) }
{
    let vertices = graph.vertices.as_slice();
    let name = vertices[vertex as usize].name.as_slice();
    push_place(alloc, text, name, placement.thread(vertex).0)
}

/// Appends the lines of all vertices, in order.
fn push_places(
    alloc: Global,
    text: &mut Vec<u8>,
    graph: &Graph,
    placement: &Placement,
) -> Result<(), AllocError>
    requires few { length graph.now.vertices ≤ 65536 }
    requires seats { length placement.now ≡ length graph.now.vertices }
    ensures { OnOk result (text.new.items ≡ text.old.items ++ places_text graph.now placement.now) }
{
    let count = graph.vertices.len() as u32;
    for vertex in 0..count {
        push_vertex(alloc, text, graph, placement, vertex)?;
    }
    Ok(())
}

/// Appends the lines of beats, in order.
fn push_beats(text: &mut Vec<u8>, beats: &[Beat]) -> Result<(), AllocError>
    ensures { OnOk result (text.new.items ≡ text.old.items ++ flat_map beat_line beats.now) }
{
    for beat in beats {
        push_hex(text, &write_beat(beat))?;
        text.push(b'\n')?;
    }
    Ok(())
}

/// Appends the section of a table.
fn push_section(
    alloc: Global,
    text: &mut Vec<u8>,
    x: u32,
    y: u32,
    beats: &[Beat],
) -> Result<(), AllocError>
    ensures { OnOk result (text.new.items ≡ text.old.items ++ section_text x y beats.now) }
{
    text.extend_from_slice(b"table".as_slice())?;
    push_number(alloc, text, x)?;
    push_number(alloc, text, y)?;
    text.push(b'\n')?;
    push_beats(text, beats)?;
    text.extend_from_slice(b"end\n".as_slice())
}

/// Appends the section of a board, if its table has beats.
fn push_board(
    alloc: Global,
    text: &mut Vec<u8>,
    shape: &Shape,
    tables: &Tables,
    y: u32,
    x: u32,
) -> Result<(), AllocError>
    requires column { x < 4 }
    requires row { y < 4 }
    ensures { OnOk result (text.new.items ≡ text.old.items ++ board_text shape.now tables.now y x) }
{
    let n = shape.numbers();
    let board = y * n.boards_x + x;
    if tables.len(board) == 0 {
        return Ok(());
    }
    push_section(alloc, text, x, y, tables.table(board))
}

/// Appends the sections of the boards of one y, by x.
fn push_row(
    alloc: Global,
    text: &mut Vec<u8>,
    shape: &Shape,
    tables: &Tables,
    y: u32,
) -> Result<(), AllocError>
    requires { y < 4 }
    ensures { OnOk result (text.new.items ≡ text.old.items ++ row_text shape.now tables.now y) }
{
    let n = shape.numbers();
    for x in 0..n.boards_x {
        push_board(alloc, text, shape, tables, y, x)?;
    }
    Ok(())
}

/// Appends the sections of all boards, by y, then x.
fn push_tables(
    alloc: Global,
    text: &mut Vec<u8>,
    shape: &Shape,
    tables: &Tables,
) -> Result<(), AllocError>
    ensures { OnOk result (text.new.items ≡ text.old.items ++ tables_text shape.now tables.now) }
{
    let n = shape.numbers();
    for y in 0..n.boards_y {
        push_row(alloc, text, shape, tables, y)?;
    }
    Ok(())
}

/// Where each vertex runs, and the tables of the boards: a line for each vertex, then a section for each board whose table has
/// beats.
pub fn print_map(
    alloc: Global,
    shape: &Shape,
    graph: &Graph,
    placement: &Placement,
    tables: &Tables,
) -> Result<Vec<u8>, AllocError>
    requires few { length graph.now.vertices ≤ 65536 }
    requires seats { length placement.now ≡ length graph.now.vertices }
    ensures text { IfOk result (λ text. text.items ≡ map_text graph.now placement.now shape.now tables.now) }
{
    let mut text = Vec::new(alloc);
    push_places(alloc, &mut text, graph, placement)?;
    push_tables(alloc, &mut text, shape, tables)?;
    Ok(text)
}
