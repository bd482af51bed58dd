//! The states of vertices as bytes.

ghost use Rattle.std.specs.Prelude.{◌≡◌, ◌+◌, ◌++◌, ◌≤◌, ◌<◌, flat_map, length, IfOk};
ghost use Rattle.std.specs.Int.{to_le_bytes, w32};
ghost use Rattle.graph_text.specs.Graph.{IsGraph};
ghost use Rattle.polite_start.specs.Start.{state_of};

use graph_text::graph::Graph;
use std::alloc::AllocError;

/// Appends words, each as four bytes, the low byte first.
fn push_words(image: &mut Vec<u8>, words: &[u32]) -> Result<(), AllocError>
    ensures { IfOk result (λ _. image.new.items ≡ image.old.items ++ flat_map (to_le_bytes w32) words.now) }
{
    for word in words {
        image.extend_from_slice(word.to_le_bytes().as_slice())?;
    }
    Ok(())
}

/// Appends the state of a vertex.
pub(crate) fn push_state(image: &mut Vec<u8>, graph: &Graph, vertex: u32) -> Result<(), AllocError>
    requires graph { IsGraph graph.now }
    requires there { vertex < length graph.now.vertices }
    ensures state { IfOk result (λ _. image.new.items ≡ image.old.items ++ state_of graph.now vertex) }
    ensures small { IfOk result (λ _. length image.new.items ≤ length image.old.items + 64) }
{
    let words = graph.vertices.as_slice()[vertex as usize].words.as_slice();
    push_words(image, words)
}
