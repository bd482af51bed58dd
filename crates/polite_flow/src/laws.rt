//! Laws of the packets of a graph's job. A law answers nothing: its contract is what it says.

ghost use Rattle.std.specs.Prelude.{◌≡◌, Ok};
ghost use Rattle.graph_text.specs.Graph.{IsGraph};
ghost use Rattle.polite_place.specs.Outs.{outs_of};
ghost use Rattle.polite_place.specs.Seats.{placed};
ghost use Rattle.polite_routes.specs.declared.routes.RouteSet.{RouteSet};
ghost use Rattle.polite_routes.specs.Answer.{routes_of};
ghost use Rattle.polite_flow.specs.Flowing.{EventsKeepFlowing, StartsAreFlowing, WalksKeepFlowing};
ghost use Rattle.polite_flow.specs.Fresh.{FreshPartsAreOnWay};
ghost use Rattle.polite_flow.specs.Graphs.{GraphsStartFlowing, WalksOfGraphsFlow};
ghost use Rattle.polite_flow.specs.Machine.{LinksLeadOn};
ghost use Rattle.polite_flow.specs.Meetings.{RoutersArrive, RoutersDepart, TilesArrive, TilesDepart};
ghost use Rattle.polite_flow.specs.Routers.{RoutersGiveWays, RoutersKeepWays};
ghost use Rattle.polite_flow.specs.Sending.{EventsKeepSenders, TurnsOfSendersFit, WalksOfSendersFlow};
ghost use Rattle.polite_flow.specs.Tiles.{TilesGiveWays, TilesKeepWays};
ghost use Rattle.polite_flow.specs.Traffic.{ArrivalsKeepWays, DeparturesKeepWays, SuchHostsPutNothing};
ghost use Rattle.polite_flow.specs.World.{EventsKeepWays};
ghost use Rattle.polite_flow.specs.Law.{AreRoutes, EachChangeKeepsWays, NoKeyIsBad, RanksFall, SomePacketIsFree, StraightKeysFit};

use graph_text::graph::Graph;
use polite_place::placement::Placement;
use polite_routes::laws::law_served;
use tn_base::shape::Shape;

/// If the branches of each key that is sent are straight, each change keeps every packet on its way: the ranks of the places to
/// which the packet goes fall. So if a packet stands anywhere, the first packet of some place goes out or finds room in its next
/// place. No packet comes to a router by a bad key.
pub fn law_ranks()
    ensures keep { EachChangeKeepsWays }
    ensures fall { RanksFall }
    ensures free { SomePacketIsFree }
    ensures keys { NoKeyIsBad }
    ensures straight { StraightKeysFit }
{}

/// The routes of a graph with its placement are such routes: their tables name the four directions alone, and each vertex may send by
/// the key of each of its pins.
pub fn law_routed(shape: &Shape, graph: &Graph, placement: &Placement)
    requires graph { IsGraph graph.now }
    requires placement { Ok placement.now ≡ placed shape.now graph.now.per_thread (outs_of graph.now) }
    ensures { (set : RouteSet) → Ok set ≡ routes_of shape.now graph.now placement.now → AreRoutes shape.now graph.now placement.now set }
{
    let _numbers = shape.numbers();
    law_served(shape, graph, placement);
}

/// The links of a machine lead on as the places say: a packet on a link goes to the place where the part behind the link puts it.
pub fn law_links(shape: &Shape)
    ensures { LinksLeadOn shape.now }
{
    let _numbers = shape.numbers();
}

/// Each deed of a router keeps its packets on their way, if what the router takes is on its way. So no Route finds a bad key. What the
/// router gives to a link is on its way there.
pub fn law_routers()
    ensures keep { RoutersKeepWays }
    ensures give { RoutersGiveWays }
{}

/// Each deed of a tile keeps its packets on their way, if what a turn leaves to be sent is on its way, and what the tile takes. What the
/// tile gives to a link is on its way there.
pub fn law_tiles()
    ensures keep { TilesKeepWays }
    ensures give { TilesGiveWays }
{}

/// A packet that departs or arrives, at a tile or at a router, leaves the packets of the part and of the link on their way. A packet
/// arrives by a link of the machine.
pub fn law_meetings()
    ensures tile_departs { TilesDepart }
    ensures router_departs { RoutersDepart }
    ensures tile_arrives { TilesArrive }
    ensures router_arrives { RoutersArrive }
{}

/// At the start of a machine all packets of its routers, tiles and links are on their way, since there are none.
pub fn law_fresh()
    ensures { FreshPartsAreOnWay }
{}

/// An event of a whole machine keeps all its packets on their way, if the event is on one part, a visit of the detector or what the host
/// takes. A turn does so if what the turn leaves to be sent is on its way. The law says nothing of departures and arrivals.
pub fn law_events()
    ensures { EventsKeepWays }
{}

/// A packet that departs from a part of a whole machine, or arrives at a part, keeps all packets on their way. A host without messages
/// puts no packet on its link.
pub fn law_traffic()
    ensures depart { DeparturesKeepWays }
    ensures arrive { ArrivalsKeepWays }
    ensures host { SuchHostsPutNothing }
{}

/// At its start a machine with the tables of a graph flows: all its packets are on their way, its routers are ready, and its host has no
/// message to send. Each event keeps the machine flowing, and so does each walk, if what each turn leaves to be sent is on its way.
pub fn law_flowing()
    ensures start { StartsAreFlowing }
    ensures event { EventsKeepFlowing }
    ensures walk { WalksKeepFlowing }
{}

/// If each thread of a machine has firmware, and each key of its softswitch is of packets on their way, each event leaves the threads such
/// senders. What their turns leave to be sent is on its way. So along each walk from such a start the machine flows.
pub fn law_senders()
    ensures event { EventsKeepSenders }
    ensures turn { TurnsOfSendersFit }
    ensures walk { WalksOfSendersFlow }
{}

/// The machine of a graph, at its start, flows, and its threads are senders, if the tables name the four directions alone and packets by
/// the keys of the threads' pins are on their way. So each walk from that start keeps all packets on their way.
pub fn law_graphs()
    ensures start { GraphsStartFlowing }
    ensures walk { WalksOfGraphsFlow }
{}
