//! Laws of placements. A law answers nothing: its contract is what it says.

ghost use Rattle.std.specs.Prelude.{◌≡◌, ◌≤◌, ◌<◌, ◌*◌, ℕ, List, length};
ghost use Rattle.tn_base.specs.Address.{thread_at};
ghost use Rattle.tn_base.specs.Shape.{thread_count};
ghost use Rattle.graph_text.specs.Graph.{IsGraph};
ghost use Rattle.graph_text.specs.declared.graph.Graph.{Graph};
ghost use Rattle.polite_place.specs.Order.{AllListsBelow, Once, bfs};
ghost use Rattle.polite_place.specs.Outs.{outs_of};
ghost use Rattle.polite_place.specs.Roster.{Lists, vertices_on};
ghost use Rattle.polite_place.specs.Seats.{Numbered, Seated, devices_on, seats};

use tn_base::laws::law_threads;
use tn_base::shape::Shape;

/// In breadth-first order each vertex stands once. Where there is room, each vertex has a thread of the machine and one of
/// its devices, no other vertex has the same, and the devices of a thread are numbered from 0. A thread has as many devices as
/// the roster lists. There is a list of out-edges for each vertex of a graph, which leads to vertices of the graph.
pub fn law_seats(shape: &Shape)
    ensures once { (outs : List (List ℕ)) → AllListsBelow (length outs) outs → Once (length outs) (bfs outs (length outs)) }
    ensures count { (outs : List (List ℕ)) → length (seats shape.now outs) ≡ length outs }
    ensures seated { (outs : List (List ℕ)) (per_thread : ℕ) → AllListsBelow (length outs) outs → length outs ≤ thread_count shape.now * per_thread →
        Seated shape.now per_thread (seats shape.now outs) }
    ensures numbered { (outs : List (List ℕ)) (per_thread : ℕ) → AllListsBelow (length outs) outs → length outs ≤ thread_count shape.now * per_thread →
        Numbered per_thread (seats shape.now outs) }
    ensures listed { (outs : List (List ℕ)) (i : ℕ) → AllListsBelow (length outs) outs → i < thread_count shape.now →
        devices_on (seats shape.now outs) (thread_at shape.now i) ≡ length (vertices_on shape.now outs i) }
    ensures vertices { (graph : Graph) → length (outs_of graph) ≡ length graph.vertices }
    ensures edges { (graph : Graph) → IsGraph graph → AllListsBelow (length (outs_of graph)) (outs_of graph) }
{
    let _numbers = shape.numbers();
    law_threads(shape);
}

/// A roster and the seats say the same: each vertex is listed at its seat, each listed vertex has its seat there, and the vertices
/// of a thread weigh what the vertices with seats there weigh.
pub fn law_roster(shape: &Shape)
    ensures { (outs : List (List ℕ)) → AllListsBelow (length outs) outs → Lists shape.now outs }
{
    let _numbers = shape.numbers();
    law_threads(shape);
}
