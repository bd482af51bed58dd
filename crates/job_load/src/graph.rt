//! The threads of a graph's machine at the start.

ghost use Rattle.std.specs.Prelude.{◌≡◌, IfOk, map};
ghost use Rattle.std.specs.List.{range_with_len};
ghost use Rattle.tn_base.specs.Shape.{thread_count};
ghost use Rattle.job_load.specs.Graph.{StartsFit, seated};

use graph_text::graph::Graph;
use job_faults::handlers::Entries;
use polite_place::roster::Roster;
use polite_routes::in_edges::InEdges;
use polite_routes::routes::VertexKeys;
use polite_start::thread::{GraphThread, start_thread};
use polite_switch::switch::Switch;
use std::alloc::{AllocError, Global};
use std::marker::Model;
use tn_base::shape::Shape;

/// A thread of a graph's machine at the start: the states of its vertices, and its softswitch. A contract sees both.
#[derive(Drop)]
pub(crate) struct Seated {
    start: GraphThread,
}

impl Model for Seated {
    ghost use Rattle.job_load.specs.SeatedModel.{SeatedModel};

    ghost Value = { SeatedModel };

    ghost view = { λ s. record { image = s.start.image.items; switch = s.start.switch } };
}

impl Seated {
    /// The states of the thread's vertices.
    pub(crate) fn image(&self) -> &[u8]
        ensures { result.now ≡ self.now.image }
    {
        self.start.image.as_slice()
    }

    /// The same softswitch.
    pub(crate) fn switch(&self) -> Result<Switch, AllocError>
        ensures { IfOk result (λ s. s ≡ self.now.switch) }
    {
        self.start.switch.copy()
    }
}

/// The threads of a graph's machine by ascending address.
pub(crate) fn seat_threads(
    alloc: Global,
    shape: &Shape,
    graph: &Graph,
    keys: &VertexKeys,
    entries: &[Entries],
    in_edges: InEdges,
) -> Result<Vec<Seated>, AllocError>
    requires { StartsFit shape.now graph.now entries.now in_edges }
    ensures { IfOk result (λ all. all.items ≡ map (seated shape.now graph.now keys.now entries.now in_edges) (range_with_len 0 (thread_count shape.now))) }
{
    let roster = Roster::of(alloc, graph, shape)?;
    let mut all = Vec::with_capacity(alloc, shape.thread_count() as usize)?;
    for lists in in_edges.into_threads() {
        let vertices = roster.vertices(all.len() as u32);
        let start = start_thread(alloc, graph, keys, entries, vertices, lists)?;
        all.push(Seated { start })?;
    }
    Ok(all)
}
