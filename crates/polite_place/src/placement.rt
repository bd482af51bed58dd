//! The thread and device of each vertex.

ghost use Rattle.std.specs.Prelude.{◌≡◌, ◌≤◌, ◌<◌, ◌+◌, ◌-◌, ◌*◌, ◌/◌, ◌%◌, ◌^◌, List, ℕ, length, IfOk, slice_index_or};
ghost use Rattle.tn_base.specs.Shape.{WithinLimits, thread_count};
ghost use Rattle.polite_place.specs.Order.{AllListsBelow, Once, bfs};
ghost use Rattle.graph_text.specs.Graph.{IsGraph};
ghost use Rattle.polite_place.specs.Outs.{outs_of};
ghost use Rattle.polite_place.specs.Seats.{Places, Seated, placed, seat, seat_at, seat_of, seats, share_of};

use crate::laws::law_seats;
use crate::order::{OutList, breadth_first};
use crate::outs::outs_of;
use graph_text::graph::Graph;
use std::alloc::{AllocError, Global};
use std::marker::Model;
use tn_base::ids::ThreadId;
use tn_base::shape::Shape;

/// Where a vertex runs: a thread, and the place among its devices.
#[derive(Clone, Copy, PartialEq, Eq, Debug)]
pub struct Seat {
    pub thread: ThreadId,
    pub device: u32,
}

/// The seat of each vertex. A contract sees the list.
#[derive(Drop)]
pub struct Placement {
    seats: Vec<Seat>,
}

impl Model for Placement {
    ghost use Rattle.std.specs.Prelude.{List};
    ghost use Rattle.polite_place.specs.declared.placement.Seat.{Seat};

    ghost Value = { List Seat };

    ghost view = { λ p. p.seats.items };
}

/// Why vertices were not placed.
#[derive(Clone, Copy, PartialEq, Eq, Debug)]
pub enum PlaceStop {
    /// There are more vertices than threads times devices of a thread.
    TooMany,
    Memory,
}

impl From<AllocError> for PlaceStop {
    ghost use Rattle.std.specs.Prelude.{◌≡◌};
    ghost use Rattle.polite_place.specs.declared.placement.PlaceStop.TheVariants.{Memory};

    ghost from_gives = { λ _ e. e ≡ Memory };

    fn from(_: AllocError) -> PlaceStop {
        PlaceStop::Memory
    }
}

impl Placement {
    /// The thread of a vertex.
    pub fn thread(&self, v: u32) -> ThreadId
        requires { v < length self.now }
        ensures { result ≡ (seat_of self.now v).thread }
    {
        self.seats[v as usize].thread
    }

    /// The place of a vertex among the devices of its thread.
    pub fn device(&self, v: u32) -> u32
        requires { v < length self.now }
        ensures { result ≡ (seat_of self.now v).device }
    {
        self.seats[v as usize].device
    }
}

/// How many threads the machine has.
fn count_threads(shape: &Shape) -> usize
    ensures value { result ≡ thread_count shape.now }
    ensures some { 0 < result }
    ensures few { result ≤ 16384 }
{
    let _numbers = shape.numbers();
    shape.thread_count() as usize
}

/// How many vertices each thread takes: their number by that of the threads, rounded up.
pub(crate) fn share_of(shape: &Shape, count: usize) -> u32
    requires { count ≤ 65536 }
    ensures { result ≡ share_of shape.now count }
{
    let threads = count_threads(shape);
    ((count + threads - 1) / threads) as u32
}

/// Gives the vertices their seats, in order.
fn take_seats(shape: &Shape, order: &[u32], share: usize, seats: &mut [Seat])
    requires once { Once (length seats.old) order.now }
    requires few { length order.now ≤ 65536 }
    requires room { length order.now ≤ thread_count shape.now * share }
    ensures seats { (k : ℕ) → k < length order.now → slice_index_or seats.new (slice_index_or order.now k 0) (seat 0 0) ≡ seat_at shape.now share k }
{
    for (place, vertex) in order.iter().enumerate() {
        seats[*vertex as usize] = Seat {
            thread: shape.thread_at((place / share) as u32),
            device: (place % share) as u32,
        };
    }
}

/// Places the vertices in breadth-first order: each thread by ascending address takes the next of them, as many as each
/// has to take where all take the same.
fn place_outs(
    alloc: Global,
    shape: &Shape,
    outs: &[OutList],
    per_thread: u32,
) -> Result<Placement, PlaceStop>
    requires few { length outs.now ≤ 65536 }
    requires edges { AllListsBelow (length outs.now) outs.now }
    requires devices { per_thread ≤ 64 }
    ensures { Places result (placed shape.now per_thread outs.now) }
{
    let count = outs.len();
    let threads = count_threads(shape);
    if count > threads * per_thread as usize {
        return Err(PlaceStop::TooMany);
    }
    let order = breadth_first(alloc, outs)?;
    let nowhere = Seat {
        thread: ThreadId(0),
        device: 0,
    };
    let mut list = vec![in alloc; nowhere; count]?;
    let share = share_of(shape, count) as usize;
    take_seats(shape, order.as_slice(), share, list.as_mut_slice());
    Ok(Placement { seats: list })
}

/// Places the vertices of a graph in breadth-first order, over out-edges in order of lines. The work grows with the vertices
/// and edges.
pub fn place(alloc: Global, graph: &Graph, shape: &Shape) -> Result<Placement, PlaceStop>
    requires { IsGraph graph.now }
    ensures answer { Places result (placed shape.now graph.now.per_thread (outs_of graph.now)) }
    ensures seated { IfOk result (λ p. Seated shape.now graph.now.per_thread p) }
{
    let outs = outs_of(alloc, graph)?;
    law_seats(shape);
    place_outs(alloc, shape, outs.as_slice(), graph.per_thread)
}
