//! The vertices of each thread, by device.

ghost use Rattle.std.specs.Prelude.{◌≡◌, take, IfOk};
ghost use Rattle.graph_text.specs.Graph.{IsGraph};
ghost use Rattle.polite_place.specs.Outs.{outs_of};
ghost use Rattle.polite_place.specs.Roster.{roster_of, vertices_in};

use crate::order::breadth_first;
use crate::outs::outs_of;
use crate::placement::share_of;
use graph_text::graph::Graph;
use std::alloc::{AllocError, Global};
use std::marker::Model;
use tn_base::shape::Shape;

/// The vertices of a graph in breadth-first order. Each thread by ascending address takes its share of them.
#[derive(Drop)]
pub struct Roster {
    order: Vec<u32>,
    share: u32,
}

impl Model for Roster {
    ghost use Rattle.polite_place.specs.Roster.{RosterView};

    ghost Value = { RosterView };

    ghost view = { λ r. record { order = r.order.items; share = r.share } };
}

impl Roster {
    /// The roster of a graph on a machine: it says of each thread what the placement says of each vertex. The work grows with the
    /// vertices and edges.
    pub fn of(alloc: Global, graph: &Graph, shape: &Shape) -> Result<Roster, AllocError>
        requires { IsGraph graph.now }
        ensures { IfOk result (λ r. r ≡ roster_of shape.now (outs_of graph.now)) }
    {
        let outs = outs_of(alloc, graph)?;
        let share = share_of(shape, outs.len());
        let order = breadth_first(alloc, outs.as_slice())?;
        Ok(Roster { order, share })
    }

    /// The vertices of the thread at a place by ascending address, by device.
    pub fn vertices(&self, thread: u32) -> &[u32]
        ensures { result.now ≡ vertices_in self.now thread }
    {
        let from = (u64::from(thread) * u64::from(self.share)) as usize;
        let rest = self.order.get(from..).unwrap_or(&[]);
        front(rest, self.share as usize)
    }
}

/// The first so many vertices, or all if they are fewer.
fn front(vertices: &[u32], count: usize) -> &[u32]
    ensures { result.now ≡ take count vertices.now }
{
    match vertices.get(..count) {
        Some(first) => first,
        None => vertices,
    }
}
