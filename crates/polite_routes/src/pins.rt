//! The pins of a graph's vertices.

ghost use Rattle.std.specs.Prelude.{◌≡◌, ◌≤◌, ◌<◌, ◌*◌, ◌+◌, IfOk, length};
ghost use Rattle.tn_base.specs.Shape.{WithinLimits};
ghost use Rattle.graph_text.specs.Graph.{IsGraph};
ghost use Rattle.polite_place.specs.Seats.{Seated};
ghost use Rattle.polite_routes.specs.Pins.{board_of, first_pins, pin_place, pins_of, target_at};
ghost use Rattle.polite_routes.specs.Routes.{PinsThere};

use crate::target::{Pin, Target, TargetList};
use graph_text::graph::{EdgeRow, Graph};
use polite_place::placement::Placement;
use polite_switch::device::InEdge;
use std::alloc::{AllocError, Global};
use tn_base::ids::{Board, ThreadId};
use tn_base::shape::Shape;

/// The board of a thread.
fn board_of(thread: ThreadId) -> Board
    ensures { result ≡ board_of thread.0 }
{
    Board {
        x: thread.0 / 1024 % 4,
        y: thread.0 / 4096 % 4,
    }
}

/// Where the edge at a place leads.
fn target_at(placement: &Placement, place: u32, edge: EdgeRow) -> Target
    requires { edge.to < length placement.now }
    ensures { result ≡ target_at placement.now place edge }
{
    Target {
        thread: placement.thread(edge.to),
        edge: InEdge {
            device: placement.device(edge.to),
            value: edge.value,
            edge: place,
        },
    }
}

/// The place of an edge's pin among all pins.
fn pin_place(edge: EdgeRow) -> usize
    requires from { edge.from < 65536 }
    requires pin { edge.pin < 4 }
    ensures { result ≡ pin_place edge.from edge.pin }
{
    (edge.from * 4 + edge.pin) as usize
}

/// The pins of all vertices, without edges.
fn empty_pins(alloc: Global, graph: &Graph, placement: &Placement) -> Result<Vec<Pin>, AllocError>
    requires graph { IsGraph graph.now }
    requires count { length placement.now ≡ length graph.now.vertices }
    ensures { IfOk result (λ pins. pins.items ≡ first_pins (length graph.now.vertices) graph.now.edges 0 placement.now) }
{
    let count = graph.vertices.len() * 4;
    let mut pins = Vec::with_capacity(alloc, count)?;
    for place in 0..count {
        let thread = placement.thread((place / 4) as u32);
        pins.push(Pin {
            board: board_of(thread),
            targets: TargetList::new(alloc),
        })?;
    }
    Ok(pins)
}

/// Gives each edge to its pin, in order of lines.
fn add_edges(pins: &mut [Pin], graph: &Graph, placement: &Placement) -> Result<(), AllocError>
    requires graph { IsGraph graph.now }
    requires count { length placement.now ≡ length graph.now.vertices }
    requires none { pins.old ≡ first_pins (length graph.now.vertices) graph.now.edges 0 placement.now }
    ensures { IfOk result (λ _. pins.new ≡ pins_of graph.now placement.now) }
{
    let edges = graph.edges.as_slice();
    for place in 0..edges.len() {
        let edge = edges[place];
        let target = target_at(placement, place as u32, edge);
        pins[pin_place(edge)].push(target)?;
    }
    Ok(())
}

/// The pins of a graph, by vertex and pin.
pub(crate) fn pins_of(
    alloc: Global,
    shape: &Shape,
    graph: &Graph,
    placement: &Placement,
) -> Result<Vec<Pin>, AllocError>
    requires graph { IsGraph graph.now }
    requires count { length placement.now ≡ length graph.now.vertices }
    requires seated { Seated shape.now graph.now.per_thread placement.now }
    ensures value { IfOk result (λ pins. pins.items ≡ pins_of graph.now placement.now) }
    ensures there { IfOk result (λ pins. PinsThere shape.now pins.items) }
    ensures count { IfOk result (λ pins. length pins.items ≡ length graph.now.vertices * 4) }
{
    let _numbers = shape.numbers();
    let mut pins = empty_pins(alloc, graph, placement)?;
    let slice = pins.as_mut_slice();
    add_edges(slice, graph, placement)?;
    Ok(pins)
}
