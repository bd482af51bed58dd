//! Laws of the edges of graph jobs. A law answers nothing: its contract is what it says.

ghost use Rattle.job_edges.specs.Laws.{EachHasGraph, EachIsGraphMachine, EachKeepsEdges};

use job_bag::laws::law_starts;
use polite_edges::laws::{law_apart, law_histories};

/// Each accepted job with a graph section has its graph with places and routes, so the laws below speak of the job.
pub fn law_graph_jobs()
    ensures { EachHasGraph }
{}

/// The machine of each accepted job with a graph is, at its start, that of the graph: each vertex has its device, what the key of a
/// pin reaches is exactly the pin's edges, each edge is an edge of one pin, and nothing has happened.
pub fn law_graph_machine()
    ensures { EachIsGraphMachine }
{
    law_apart();
}

/// In each run of an accepted job with a graph, from its start: nothing was received that was not due by an earlier send. Each step
/// handler is called after an announcement of 1, and each finish handler after an announcement of 2. At each announcement each send
/// came to each edge of its pin exactly once, with its bytes under the edge's local key.
pub fn law_graph_edges()
    ensures { EachKeepsEdges }
{
    law_graph_machine();
    law_starts();
    law_histories();
}
