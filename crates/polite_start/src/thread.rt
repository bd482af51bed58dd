//! A thread of a graph at the start.

ghost use Rattle.std.specs.Prelude.{◌≡◌, ◌≤◌, length, IfOk};
ghost use Rattle.std.specs.List.{All};
ghost use Rattle.graph_text.specs.Graph.{IsGraph};
ghost use Rattle.polite_switch.specs.Device.{AllNamed};
ghost use Rattle.polite_start.specs.Start.{AreAligned, AreVertices, devices_from, image_of, switch_of};

pub use crate::device::Entries;
use crate::device::device_of;
use crate::state::push_state;
use graph_text::graph::Graph;
use polite_routes::in_edges::InLists;
use polite_routes::routes::VertexKeys;
use polite_switch::device::Device;
use polite_switch::switch::Switch;
use std::alloc::{AllocError, Global};

/// A thread of a graph at the start.
#[derive(Drop)]
pub struct GraphThread {
    /// The states of its vertices, from address 0 on. Behind them its memory has zeros.
    pub image: Vec<u8>,
    pub switch: Switch,
}

/// The states of vertices and their devices.
#[derive(Drop)]
struct States {
    image: Vec<u8>,
    devices: Vec<Device>,
}

/// The states of vertices one behind the other, and their devices.
fn states_of(
    alloc: Global,
    graph: &Graph,
    keys: &VertexKeys,
    entries: &[Entries],
    vertices: &[u32],
) -> Result<States, AllocError>
    requires graph { IsGraph graph.now }
    requires there { AreVertices graph.now vertices.now }
    requires few { length vertices.now ≤ 64 }
    ensures image { IfOk result (λ s. s.image.items ≡ image_of graph.now vertices.now) }
    ensures devices { IfOk result (λ s. s.devices.items ≡ devices_from graph.now keys.now entries.now 0 vertices.now) }
{
    let mut image = Vec::new(alloc);
    let mut devices = Vec::with_capacity(alloc, vertices.len())?;
    for vertex in vertices {
        let state = image.len() as u32;
        devices.push(device_of(alloc, graph, keys, entries, state, *vertex)?)?;
        push_state(&mut image, graph, *vertex)?;
    }
    Ok(States { image, devices })
}

/// The thread that has these vertices, by device, and these in-edges, by local key. `entries` has the handlers of each kind.
pub fn start_thread(
    alloc: Global,
    graph: &Graph,
    keys: &VertexKeys,
    entries: &[Entries],
    vertices: &[u32],
    in_edges: InLists,
) -> Result<GraphThread, AllocError>
    requires graph { IsGraph graph.now }
    requires there { AreVertices graph.now vertices.now }
    requires few { length vertices.now ≤ 64 }
    requires aligned { AreAligned entries.now }
    requires named { AllNamed (length vertices.now) in_edges }
    ensures image { IfOk result (λ t. t.image.items ≡ image_of graph.now vertices.now) }
    ensures switch { IfOk result (λ t. t.switch ≡ switch_of graph.now keys.now entries.now vertices.now in_edges) }
{
    let states = states_of(alloc, graph, keys, entries, vertices)?;
    let switch = Switch::of(alloc, states.devices, in_edges.into_lists())?;
    Ok(GraphThread {
        image: states.image,
        switch,
    })
}
