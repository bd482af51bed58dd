//! The device of a vertex.

ghost use Rattle.std.specs.Prelude.{◌≡◌, ◌<◌, length, map, IfOk};
ghost use Rattle.std.specs.List.{range_with_len};
ghost use Rattle.graph_text.specs.Graph.{IsGraph, pins_at};
ghost use Rattle.polite_routes.specs.Answer.{pin_key};
ghost use Rattle.polite_start.specs.Start.{device_of, entries_of, keys_on};

use graph_text::graph::Graph;
use polite_routes::routes::VertexKeys;
use polite_switch::device::Device;
use std::alloc::{AllocError, Global};

/// The addresses of a kind's handlers, in the order of the softswitch: init, send, recv, step, finish.
pub type Entries = [u32; 5];

/// The keys of a vertex's pins.
fn keys_of(
    alloc: Global,
    graph: &Graph,
    keys: &VertexKeys,
    vertex: u32,
) -> Result<Vec<Option<u32>>, AllocError>
    ensures { IfOk result (λ list. list.items ≡ keys_on graph.now keys.now vertex) }
{
    let pins = graph.pins_at(vertex);
    let mut list = Vec::with_capacity(alloc, pins as usize)?;
    for pin in 0..pins {
        list.push(keys.key(vertex, pin))?;
    }
    Ok(list)
}

/// The handlers of a vertex: those of its kind.
fn entries_of(graph: &Graph, entries: &[Entries], vertex: u32) -> Entries
    requires { vertex < length graph.now.vertices }
    ensures { result ≡ entries_of graph.now entries.now vertex }
{
    let kind = graph.vertices.as_slice()[vertex as usize].kind;
    match entries.get(kind as usize) {
        Some(addresses) => *addresses,
        None => [0; 5],
    }
}

/// The device of a vertex whose state begins at this address.
pub(crate) fn device_of(
    alloc: Global,
    graph: &Graph,
    keys: &VertexKeys,
    entries: &[Entries],
    state: u32,
    vertex: u32,
) -> Result<Device, AllocError>
    requires { vertex < length graph.now.vertices }
    ensures { IfOk result (λ d. d ≡ device_of graph.now keys.now entries.now state vertex) }
{
    let keys = keys_of(alloc, graph, keys, vertex)?;
    Ok(Device {
        vertex,
        state,
        entries: entries_of(graph, entries, vertex),
        keys,
    })
}
