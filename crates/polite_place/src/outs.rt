//! The out-edges of a graph's vertices.

ghost use Rattle.std.specs.Prelude.{◌≡◌, ◌<◌, ◌≤◌, [], IfOk, length, replicate};
ghost use Rattle.std.specs.List.{All};
ghost use Rattle.graph_text.specs.Graph.{IsGraph};
ghost use Rattle.polite_place.specs.Order.{AllListsBelow};
ghost use Rattle.polite_place.specs.Outs.{Joins, out_lists, outs_of};

use crate::order::OutList;
use graph_text::graph::{EdgeRow, Graph};
use std::alloc::{AllocError, Global};

/// Lists without vertices.
fn empty_lists(alloc: Global, count: usize) -> Result<Vec<OutList>, AllocError>
    ensures { IfOk result (λ lists. lists.items ≡ replicate count []) }
{
    let mut lists = Vec::new(alloc);
    for _vertex in 0..count {
        lists.push(OutList::new(alloc))?;
    }
    Ok(lists)
}

/// Appends where each edge leads to the list of the vertex that it comes from.
fn add_edges(lists: &mut [OutList], edges: &[EdgeRow]) -> Result<(), AllocError>
    requires there { All (Joins (length lists.old)) edges.now }
    requires none { lists.old ≡ replicate (length lists.old) [] }
    ensures { IfOk result (λ _. lists.new ≡ out_lists (length lists.old) edges.now) }
{
    for edge in edges {
        lists[edge.from as usize].push(edge.to)?;
    }
    Ok(())
}

/// Where the edges of each vertex lead, in order of lines.
pub(crate) fn outs_of(alloc: Global, graph: &Graph) -> Result<Vec<OutList>, AllocError>
    requires { IsGraph graph.now }
    ensures value { IfOk result (λ lists. lists.items ≡ outs_of graph.now) }
    ensures edges { IfOk result (λ lists. AllListsBelow (length lists.items) lists.items) }
    ensures few { IfOk result (λ lists. length lists.items ≤ 65536) }
{
    let mut lists = empty_lists(alloc, graph.vertices.len())?;
    let list = lists.as_mut_slice();
    add_edges(list, graph.edges.as_slice())?;
    Ok(lists)
}
