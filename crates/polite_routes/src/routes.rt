//! The routes of a graph.

ghost use Rattle.std.specs.Prelude.{◌≡◌, ◌≤◌, ◌<◌, ◌+◌, ◌*◌, IfOk, Ok, length, map, slice_index_or};
ghost use Rattle.std.specs.List.{range_with_len};
ghost use Rattle.std.specs.declared.option.Option.TheVariants.{None};
ghost use Rattle.tn_base.specs.Shape.{WithinLimits};
ghost use Rattle.graph_text.specs.Graph.{IsGraph, pins_at};
ghost use Rattle.polite_place.specs.Outs.{outs_of};
ghost use Rattle.polite_place.specs.Seats.{Seated, placed};
ghost use Rattle.polite_routes.specs.Answer.{AllServed, KeyedByEdges, Routes, keys_of, listed_key, pin_key, routes_by, routes_of, vertex_keys};
ghost use Rattle.polite_routes.specs.Passes.{PassesButWidth};
ghost use Rattle.polite_routes.specs.Pins.{pin_place, pins_of};
ghost use Rattle.polite_routes.specs.Routes.{PinsThere, keys_to};

use crate::in_edges::{InEdges, list_in_edges};
use crate::laws::law_served;
use crate::pins::pins_of;
use crate::planting::{Planting, plant_pins};
use crate::target::{Pin, RouteStop};
use graph_text::graph::Graph;
use polite_place::placement::Placement;
use std::alloc::{AllocError, Global};
use std::marker::Model;
use tn_base::shape::Shape;
use tn_keys::tables::Tables;

/// The keys of a vertex's pins: a pin without edges has none. A contract sees the list.
#[derive(Drop)]
pub struct PinKeys {
    keys: Vec<Option<u32>>,
}

impl Model for PinKeys {
    ghost use Rattle.std.specs.Prelude.{List, ℕ};
    ghost use Rattle.std.specs.declared.option.Option.{Option};

    ghost Value = { List (Option ℕ) };

    ghost view = { λ k. k.keys.items };
}

/// The keys of all vertices' pins. A contract sees the lists.
#[derive(Drop)]
pub struct VertexKeys {
    vertices: Vec<PinKeys>,
}

impl Model for VertexKeys {
    ghost use Rattle.std.specs.Prelude.{List, ℕ};
    ghost use Rattle.std.specs.declared.option.Option.{Option};

    ghost Value = { List (List (Option ℕ)) };

    ghost view = { λ k. k.vertices.items };
}

/// The routes of a graph: the tables of the boards, the keys by vertex and pin, and the in-edges by thread and local key.
#[derive(Drop)]
pub struct RouteSet {
    pub tables: Tables,
    pub keys: VertexKeys,
    pub in_edges: InEdges,
}

impl PinKeys {
    /// The key of a pin, if the pin has edges.
    pub fn key(&self, pin: u32) -> Option<u32>
        ensures { result ≡ slice_index_or self.now pin None }
    {
        match self.keys.get(pin as usize) {
            Some(key) => *key,
            None => None,
        }
    }

    /// The keys by pin. This takes no memory.
    pub fn into_vec(self) -> Vec<Option<u32>>
        ensures { result.items ≡ self }
    {
        self.keys
    }
}

impl VertexKeys {
    /// The key of a vertex's pin, if the pin has edges.
    pub fn key(&self, vertex: u32, pin: u32) -> Option<u32>
        ensures { result ≡ pin_key self.now vertex pin }
    {
        match self.vertices.get(vertex as usize) {
            Some(keys) => keys.key(pin),
            None => None,
        }
    }

    /// The keys by vertex. This takes no memory.
    pub fn into_vertices(self) -> Vec<PinKeys>
        ensures { result.items ≡ self }
    {
        self.vertices
    }
}

/// The keys of so many pins of a vertex.
fn pin_keys(
    alloc: Global,
    keys: &[Option<u32>],
    vertex: usize,
    pins: u32,
) -> Result<PinKeys, AllocError>
    requires vertex { vertex < 65536 }
    requires few { pins ≤ 4 }
    requires there { pin_place vertex 4 ≤ length keys.now }
    ensures { IfOk result (λ k. k ≡ map (listed_key keys.now vertex) (range_with_len 0 pins)) }
{
    let mut list = Vec::with_capacity(alloc, pins as usize)?;
    for pin in 0..pins {
        list.push(keys[vertex * 4 + pin as usize])?;
    }
    Ok(PinKeys { keys: list })
}

/// The keys of pins, by vertex and pin.
fn keys_of(
    alloc: Global,
    shape: &Shape,
    graph: &Graph,
    pins: &[Pin],
    keys: &[Option<u32>],
) -> Result<VertexKeys, AllocError>
    requires graph { IsGraph graph.now }
    requires pins { length pins.now ≡ length graph.now.vertices * 4 }
    requires keys { keys.now ≡ keys_to shape.now pins.now (length pins.now) }
    ensures { IfOk result (λ k. k ≡ keys_of shape.now graph.now pins.now) }
{
    let _numbers = shape.numbers();
    let count = graph.vertices.len();
    let mut vertices = Vec::with_capacity(alloc, count)?;
    for vertex in 0..count {
        let few = graph.pins_at(vertex as u32);
        vertices.push(pin_keys(alloc, keys, vertex, few)?)?;
    }
    Ok(VertexKeys { vertices })
}

/// The routes of pins.
fn routes_by(
    alloc: Global,
    shape: &Shape,
    graph: &Graph,
    pins: &[Pin],
) -> Result<RouteSet, RouteStop>
    requires graph { IsGraph graph.now }
    requires pins { length pins.now ≡ length graph.now.vertices * 4 }
    requires there { PinsThere shape.now pins.now }
    ensures { Routes result (routes_by shape.now graph.now pins.now) }
{
    let _numbers = shape.numbers();
    let planting = plant_pins(alloc, shape, pins)?;
    let in_edges = list_in_edges(alloc, shape, pins)?;
    let keys = keys_of(alloc, shape, graph, pins, planting.keys.as_slice())?;
    let tables = planting.tables.into_tables(alloc)?;
    Ok(RouteSet {
        tables,
        keys,
        in_edges,
    })
}

/// The routes of a graph on a machine: a tree for each pin with edges, in order of vertices and pins, and the in-edges of each
/// thread. The work grows with the vertices, edges and beats.
pub fn routes(
    alloc: Global,
    graph: &Graph,
    shape: &Shape,
    placement: &Placement,
) -> Result<RouteSet, RouteStop>
    requires graph { IsGraph graph.now }
    requires placement { Ok placement.now ≡ placed shape.now graph.now.per_thread (outs_of graph.now) }
    ensures answer { Routes result (routes_of shape.now graph.now placement.now) }
    ensures keys { IfOk result (λ set. KeyedByEdges graph.now set.keys) }
    ensures passes { IfOk result (λ set. PassesButWidth shape.now set.tables) }
    ensures served { IfOk result (λ set. AllServed shape.now graph.now placement.now set) }
{
    let _numbers = shape.numbers();
    law_served(shape, graph, placement);
    let pins = pins_of(alloc, shape, graph, placement)?;
    routes_by(alloc, shape, graph, pins.as_slice())
}
