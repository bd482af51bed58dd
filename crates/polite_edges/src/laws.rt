//! Laws of runs of graph jobs. A law answers nothing: its contract is what it says.

ghost use Rattle.polite_edges.specs.Histories.{EveryHistoryHasEachSendOnce, EveryHistoryIsEven, EveryHistoryIsLawful};
ghost use Rattle.polite_edges.specs.Runs.{EveryEdgeHasEachSendOnce, EveryLogIsEven, EveryRunIsLawful};
ghost use Rattle.polite_edges.specs.VertexLog.{GraphEdgesAreApart};

/// Whatever the handlers do, and in whatever order the machine steps: in each run of the bag machine of a graph, nothing was received
/// that was not due by an earlier send, and no recv handler is called without its letter. Each step handler is called after an
/// announcement of 1, before its thread receives anything. Each finish handler is called after an announcement of 2. At each
/// announcement all that was due was received, and each device was stepped once if the announcement before it was of 1.
/// At each announcement each send of the vertex log came to each edge of its pin exactly once, by its number, and with its bytes under
/// the edge's local key.
pub fn law_edges()
    ensures lawful { EveryRunIsLawful }
    ensures even { EveryLogIsEven }
    ensures once { EveryEdgeHasEachSendOnce }
{}

/// The same in each run of a machine of tiles, routers, links, host and detector, from the start of a graph: the deeds and the vertex
/// log are read from its history.
pub fn law_histories()
    ensures lawful { EveryHistoryIsLawful }
    ensures even { EveryHistoryIsEven }
    ensures once { EveryHistoryHasEachSendOnce }
{}

/// In a graph each edge is an edge of one pin of one vertex, once: it is the pin that the edge's line names.
pub fn law_apart()
    ensures { GraphEdgesAreApart }
{}
