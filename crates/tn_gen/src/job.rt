//! The graph job of a start and a number of vertices.
ghost use Rattle.std.specs.Prelude.{◌≡◌, ◌+◌, ◌*◌, ◌<◌, ◌≤◌, ◌^◌, ◌++◌, IfOk, OnOk, length};
ghost use Rattle.tn_gen.specs.Head.{head};
ghost use Rattle.tn_gen.specs.Job.{edge_text, edges_text, gen_text, vertex_text, vertices_text};

use crate::draw::draw;
use std::alloc::{AllocError, Global};
use tn_text::print::push_decimal;

/// A machine of four boards, the program of the vertices, and their kind.
const HEAD: &str =
    "tinsel 1\nshape 2 2 2 2 1 4\nasm all\nsum_init: li a0, 1\nret\nsum_send: lw a2, 0(a0)\nsw a2, 4(a1)\nli a0, 0\nret\nsum_recv: lw a2, 4(a1)\nlw a3, 4(a0)\nadd a3, a3, a2\nsw a3, 4(a0)\nmv a0, a4\nret\nsum_step: lw a2, 0(a0)\nlw a3, 4(a0)\nadd a2, a2, a3\nsw a2, 0(a0)\nsw x0, 4(a0)\nlw a3, 8(a0)\naddi a3, a3, -1\nsw a3, 8(a0)\nli a1, 0\nbeqz a3, stop\nli a1, 1\nstop: mv a0, a1\nret\nsum_finish: sw a3, 0(a1)\nlw a2, 0(a0)\nsw a2, 4(a1)\nli a0, 1\nret\nend\ngraph 1 64\nkind sum 1 3\n";

/// Appends what a drawn job says before the lines of its vertices and edges.
#[tactic(auto, unfolding(crate::specs::Head::head))]
fn push_head(text: &mut Vec<u8>) -> Result<(), AllocError>
    ensures { OnOk result (text.new.items ≡ text.old.items ++ head) }
{
    text.extend_from_slice(HEAD.as_bytes())?;
    Ok(())
}

/// Appends the line of a vertex.
fn push_vertex(alloc: Global, text: &mut Vec<u8>, vertex: u32) -> Result<(), AllocError>
    requires { vertex < 4096 }
    ensures { OnOk result (text.new.items ≡ text.old.items ++ vertex_text vertex) }
{
    text.extend_from_slice(b"vertex v")?;
    push_decimal(alloc, text, vertex)?;
    text.extend_from_slice(b" sum ")?;
    push_decimal(alloc, text, vertex + 1)?;
    text.extend_from_slice(b" 0 5\n")?;
    Ok(())
}

/// Appends the lines of so many vertices.
fn push_vertices(alloc: Global, text: &mut Vec<u8>, count: u32) -> Result<(), AllocError>
    requires { count ≤ 4096 }
    ensures { OnOk result (text.new.items ≡ text.old.items ++ vertices_text 0 count) }
{
    for vertex in 0..count {
        push_vertex(alloc, text, vertex)?;
    }
    Ok(())
}

/// Appends the line of an edge.
fn push_edge(
    alloc: Global,
    text: &mut Vec<u8>,
    count: u32,
    vertex: u32,
    word: u32,
) -> Result<(), AllocError>
    requires { 1 ≤ count }
    ensures { OnOk result (text.new.items ≡ text.old.items ++ edge_text count vertex word) }
{
    text.extend_from_slice(b"edge v")?;
    push_decimal(alloc, text, vertex)?;
    text.extend_from_slice(b" 0 v")?;
    push_decimal(alloc, text, word % count)?;
    text.extend_from_slice(b"\n")?;
    Ok(())
}

/// Appends the lines of all edges.
fn push_edges(
    alloc: Global,
    text: &mut Vec<u8>,
    count: u32,
    words: &[u32],
) -> Result<(), AllocError>
    requires some { 1 ≤ count }
    requires few { length words.now < 2 ^ 32 }
    ensures { OnOk result (text.new.items ≡ text.old.items ++ edges_text count 0 words.now) }
{
    let mut used: u32 = 0;
    for word in words {
        push_edge(alloc, text, count, used / 4, *word)?;
        used += 1;
    }
    Ok(())
}

/// The job of this start with so many vertices.
pub fn generate(alloc: Global, start: u32, count: u32) -> Result<Vec<u8>, AllocError>
    requires some { 1 ≤ count }
    requires few { count ≤ 4096 }
    ensures { IfOk result (λ text. text.items ≡ gen_text start count) }
{
    let words = draw(alloc, start, 4 * count as usize)?;
    let mut text = Vec::new(alloc);
    push_head(&mut text)?;
    push_vertices(alloc, &mut text, count)?;
    push_edges(alloc, &mut text, count, words.as_slice())?;
    text.extend_from_slice(b"end\n")?;
    Ok(text)
}
