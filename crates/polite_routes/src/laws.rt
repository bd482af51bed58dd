//! Laws of routes. A law answers nothing: its contract is what it says.

ghost use Rattle.std.specs.Prelude.{◌≡◌, ◌≤◌, ◌<◌, ℕ, List, [], Ok, length, slice_index_or};
ghost use Rattle.tn_base.specs.Shape.{thread_count};
ghost use Rattle.graph_text.specs.Graph.{IsGraph};
ghost use Rattle.polite_place.specs.Outs.{outs_of};
ghost use Rattle.polite_place.specs.Roster.{vertices_on};
ghost use Rattle.polite_place.specs.Seats.{Numbered, Seated, devices_on, placed};
ghost use Rattle.polite_switch.specs.Device.{AllNamed};
ghost use Rattle.polite_routes.specs.declared.routes.RouteSet.{RouteSet};
ghost use Rattle.polite_routes.specs.Answer.{AllServed, KeyedByEdges, routes_of};
ghost use Rattle.polite_routes.specs.declared.target.Pin.{Pin};
ghost use Rattle.polite_routes.specs.Named.{AllLead};
ghost use Rattle.polite_routes.specs.Passes.{PassesButWidth};
ghost use Rattle.polite_routes.specs.Routes.{PinRouted, PinsThere, in_lists, key_at, local_of, pin_at, tables_of};

use graph_text::graph::Graph;
use polite_place::laws::law_seats;
use polite_place::placement::Placement;
use tn_base::shape::Shape;

/// If all pins and the threads to which their edges lead are those of a machine: what the key of a pin reaches, with the
/// in-edge lists, is exactly the pin's edges, each once, and each copy finds an edge; along each branch of its tree East or West
/// comes before South or North, in one direction each; and the tables pass each test but that of width.
pub fn law_routes(shape: &Shape)
    ensures routed { (pins : List Pin) (j : ℕ) → PinsThere shape.now pins → j < length pins →
        PinRouted shape.now (tables_of shape.now pins) (in_lists pins) (pin_at pins j).board (key_at shape.now pins j) (pin_at pins j).targets (local_of pins j) }
    ensures passes { (pins : List Pin) → PinsThere shape.now pins → PassesButWidth shape.now (tables_of shape.now pins) }
{
    let _numbers = shape.numbers();
}

/// In the routes of a graph with its placement: what the key of each pin reaches, with the in-edge lists, is exactly the pin's
/// edges, each once; each copy finds an edge, and each branch is straight; exactly the pins without edges have no key; and the
/// tables pass each test but that of width. The placement has a seat of the machine for each vertex.
pub fn law_served(shape: &Shape, graph: &Graph, placement: &Placement)
    requires graph { IsGraph graph.now }
    requires placement { Ok placement.now ≡ placed shape.now graph.now.per_thread (outs_of graph.now) }
    ensures served { (set : RouteSet) → Ok set ≡ routes_of shape.now graph.now placement.now → AllServed shape.now graph.now placement.now set }
    ensures keys { (set : RouteSet) → Ok set ≡ routes_of shape.now graph.now placement.now → KeyedByEdges graph.now set.keys }
    ensures passes { (set : RouteSet) → Ok set ≡ routes_of shape.now graph.now placement.now → PassesButWidth shape.now set.tables }
    ensures count { length placement.now ≡ length graph.now.vertices }
    ensures seated { Seated shape.now graph.now.per_thread placement.now }
{
    let _numbers = shape.numbers();
    let _graph = graph;
    let _placement = placement;
    law_seats(shape);
}

/// In the routes of a graph with its placement each in-edge of a thread leads to one of the thread's devices, of which there are
/// at most 64, and each pin of a vertex has an entry among the vertex's keys. Thus a softswitch can be made of the devices of
/// each thread and the thread's in-edges.
pub fn law_devices(shape: &Shape, graph: &Graph, placement: &Placement)
    requires graph { IsGraph graph.now }
    requires placement { Ok placement.now ≡ placed shape.now graph.now.per_thread (outs_of graph.now) }
    ensures lead { (set : RouteSet) → Ok set ≡ routes_of shape.now graph.now placement.now → AllLead shape.now graph.now placement.now set }
    ensures roster { (set : RouteSet) (i : ℕ) → Ok set ≡ routes_of shape.now graph.now placement.now → i < thread_count shape.now →
        AllNamed (length (vertices_on shape.now (outs_of graph.now) i)) (slice_index_or set.in_edges i []) }
    ensures few { (a : ℕ) → devices_on placement.now a ≤ 64 }
    ensures numbered { Numbered graph.now.per_thread placement.now }
{
    let _numbers = shape.numbers();
    let _graph = graph;
    let _placement = placement;
    law_seats(shape);
}
