//! Laws of the packets of graph jobs. A law answers nothing: its contract is what it says.

ghost use Rattle.job_flow.specs.Carried.{WalksCarry};
ghost use Rattle.job_flow.specs.Laws.{EachGraphJobEnds, EachGraphJobFlows, EachGraphJobGoesOn, EachThreadGoesOn, NoGraphJobFindsBadKey, NoGraphJobJams};

use job_bag::laws::law_starts;
use job_edges::laws::law_graph_machine;
use polite_flow::laws::law_graphs;
use polite_live::laws::law_served;

/// Along each walk of an accepted job with a graph, from its start, all packets are on their way: the ranks of the places to which a packet
/// goes fall. So no walk of such a job ends with a bad key.
pub fn law_graph_jobs_flow()
    ensures flow { EachGraphJobFlows }
    ensures keys { NoGraphJobFindsBadKey }
{
    law_graph_machine();
    law_starts();
    law_graphs();
}

/// Along each walk from the start of a machine, each packet on a link is one of the machine, and no tile drops more than 512 letters an
/// event.
pub fn law_carried()
    ensures { WalksCarry }
{}

/// After each walk of fewer than 2^50 events of an accepted job with a graph, an event is enabled, if each tile serves: no thread of the tile
/// trapped, each thread has steps left, and if no slot of the tile is free, a thread of the tile can make a step.
pub fn law_graph_jobs_go_on()
    ensures { EachGraphJobGoesOn }
{
    law_graph_machine();
    law_starts();
    law_graphs();
}

/// If a run of an accepted job with a graph is not over, each thread goes on: it has not trapped and has steps left. A thread that waits, waits
/// for room to send. A dead thread has no letters.
pub fn law_graph_threads()
    ensures { EachThreadGoesOn }
{
    law_graph_machine();
    law_starts();
    law_graphs();
}

/// No run of fewer than 2^50 events of an accepted job with a graph jams: the run is over, or an event is enabled. So its outcome is that all
/// threads ended, that a thread trapped, or that a thread used its steps up.
pub fn law_graph_jobs_never_jam()
    ensures goes_on { NoGraphJobJams }
    ensures outcome { EachGraphJobEnds }
{
    law_graph_machine();
    law_starts();
    law_graphs();
    law_served();
}
