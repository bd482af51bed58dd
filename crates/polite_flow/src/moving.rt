//! Laws of a whole machine of a graph's job: a packet that stands anywhere lets an event be enabled. A law answers nothing: its
//! contract is what it says.

ghost use Rattle.polite_flow.specs.Always.{WalksGoOn};
ghost use Rattle.polite_flow.specs.Enabled.{PendingMoves, RouterLinksMove, RoutersDepartTo, RoutersRoute, SomeEventAtEachMoment, SomeEventAtEachPhase, SomeEventIsEnabled, TileLinksMove, TilesDepartTo};
ghost use Rattle.polite_flow.specs.Threads.{TilesMoveUnlessStill};

/// Of a machine whose packets are on their way, each kind of place has its event. This event is enabled, unless the next place of the
/// packet is taken, or the packet is for threads of a tile that has no free slot.
pub fn law_moves()
    ensures pending { PendingMoves }
    ensures tiles_depart { TilesDepartTo }
    ensures routers_depart { RoutersDepartTo }
    ensures route { RoutersRoute }
    ensures tile_links { TileLinksMove }
    ensures router_links { RouterLinksMove }
{}

/// If a packet stands anywhere on such a machine, an event is enabled. If the detector's invariant holds of the machine, this is so
/// also while the detector holds parts.
pub fn law_enabled()
    ensures packet { SomeEventIsEnabled }
    ensures phases { SomeEventAtEachPhase }
{}

/// An event is enabled at each moment at which each tile that is not still has a packet or a thread that can make a step, and the host
/// has no message to send.
pub fn law_unjammed()
    ensures { SomeEventAtEachMoment }
{}

/// A tile that is not still has a packet or a thread that can make a step, if each thread waits for room to send whenever it waits, has
/// not trapped, has steps left, and has no letters when it is dead.
pub fn law_threads()
    ensures { TilesMoveUnlessStill }
{}

/// Along each walk of fewer than 2^50 events from the start of a machine whose threads send by keys of packets on their way, an event is
/// enabled, if each part goes on: each packet on a link is one of the machine, a tile without a free slot has a thread that can make a
/// step, the count of dropped letters is not at its end, and each thread goes on as `law_threads` asks.
pub fn law_walks()
    ensures { WalksGoOn }
{}
