//! What events change of a router.

ghost use Rattle.std.specs.Prelude.{◌≡◌, ◌↔◌, IsSome, IsTrue, Some, is_some, option_and_then, option_map};
ghost use Rattle.tn_base.specs.Does.{Does};
ghost use Rattle.tn_node.specs.PortRows.{at};
ghost use Rattle.tn_router.specs.Kept.{IsFit, fresh_state};
ghost use Rattle.tn_router.specs.Rows.{accept_row, answered, can_accept, carried, depart_row, first_move, happened, is_free, is_still, move_at, route_row, routed, told, with_sent};

use crate::moves::{Move, Routed, Sent, has_side, move_of};
use crate::places::started;
use crate::plan::Plan;
use crate::ways::next_way;
use crate::work::Work;
use tn_base::message::Packet;
use tn_base::port::Port;
use tn_node::node::Node;
use tn_node::ports::Ports;

/// The sides from which packets come, in the order in which a Route looks at them.
const SIDES: [Port; 6] = [
    Port::Up,
    Port::East,
    Port::West,
    Port::South,
    Port::North,
    Port::HostPort,
];

/// The packets in a router, and what the router noted.
#[derive(Drop)]
pub struct RouterState {
    /// The packets in process, by the side from which they came.
    pub inputs: Ports<Work>,
    /// The packets that wait for a way out.
    pub node: Node,
    /// The key of the first Route that found a bad key.
    pub ended: Option<u32>,
}

impl RouterState {
    /// A router at its start: no packet is in it.
    pub(crate) fn new() -> RouterState
        ensures { result ≡ fresh_state }
    {
        RouterState {
            inputs: Ports::new(),
            node: Node::new(),
            ended: None,
        }
    }

    /// Makes the move of the first side that can move, if there is such a side.
    pub(crate) fn route(&mut self, plan: &Plan) -> Routed
        requires { IsFit plan.now self.old }
        ensures row { Does (happened result) (route_row plan.now self.old) self.old self.new }
        ensures answer { result ≡ routed plan.now self.old }
    {
        match self.first_side(plan) {
            Some(side) => self.route_at(plan, side),
            None => Routed::Nothing,
        }
    }

    /// The first side that can move.
    pub(crate) fn first_side(&self, plan: &Plan) -> Option<Port>
        requires { IsFit plan.now self.now }
        ensures first { first_move plan.now self.now ≡ option_and_then (λ side. move_at plan.now side self.now) result }
        ensures some { is_some result ≡ is_some (first_move plan.now self.now) }
    {
        for side in &SIDES {
            if self.can_move(plan, *side) {
                return Some(*side);
            }
        }
        None
    }

    /// Whether a side can move: it has a packet, and the way out of the packet's next move is free.
    fn can_move(&self, plan: &Plan, side: Port) -> bool
        requires { IsFit plan.now self.now }
        ensures { result ≡ is_some (move_at plan.now side self.now) }
    {
        let Some(work) = self.inputs.get(side) else {
            return false;
        };
        let way = next_way(&plan.shape, plan.board, &plan.beats, work);
        is_free(&self.node.out, way)
    }

    /// Makes the move of a side that can move.
    fn route_at(&mut self, plan: &Plan, side: Port) -> Routed
        requires fits { IsFit plan.now self.old }
        requires can { IsSome (move_at plan.now side self.old) }
        ensures row { option_map (carried self.old) (move_at plan.now side self.old) ≡ Some self.new }
        ensures answer { result ≡ answered (move_at plan.now side self.old) }
    {
        let Some(work) = self.inputs.take(side) else {
            return Routed::Nothing;
        };
        let found = move_of(&plan.shape, plan.board, &plan.beats, side, work);
        let answer = found.answer();
        self.carry(found);
        answer
    }

    /// Makes a move.
    fn carry(&mut self, found: Move)
        ensures { self.new ≡ carried self.old found }
    {
        self.inputs.set(found.side, found.work);
        wait(&mut self.node.out, found.sent);
        if self.ended.is_none() {
            self.ended = found.bad;
        }
    }

    /// The packet that waited for a way out has gone to a link.
    pub(crate) fn depart(&mut self, way: Port)
        requires { IsSome (depart_row way self.old) }
        ensures { depart_row way self.old ≡ Some self.new }
    {
        self.node.depart(way);
    }

    /// Whether the router would take a packet that comes from a side.
    pub(crate) fn accepts(&self, plan: &Plan, from: Port, p: &Packet) -> bool
        ensures { result ≡ can_accept plan.now from p.now self.now }
    {
        has_side(&plan.shape, plan.board, from)
            && self.inputs.get(from).is_none()
            && plan.shape.has_packet(p)
    }

    /// Takes a packet from a link.
    pub(crate) fn accept(&mut self, plan: &Plan, from: Port, p: &Packet)
        requires { IsSome (accept_row plan.now from p.now self.old) }
        ensures { accept_row plan.now from p.now self.old ≡ Some self.new }
    {
        self.inputs.set(from, Some(started(&plan.beats, p.copy())));
        self.node.arrive();
    }

    /// Whether no packet is in process and no packet waits for a way out.
    pub(crate) fn still(&self) -> bool
        ensures { result ≡ is_still self.now }
    {
        self.inputs.is_empty() && self.node.out.is_empty()
    }

    /// The same state.
    pub(crate) fn copy(&self) -> RouterState
        ensures { result ≡ self.now }
    {
        RouterState {
            inputs: self.inputs.copy(),
            node: self.node.copy(),
            ended: self.ended,
        }
    }

    /// Whether the states are equal.
    pub(crate) fn same(&self, other: &RouterState) -> bool
        ensures { IsTrue result ↔ (self.now ≡ other.now) }
    {
        self.ended == other.ended && self.node.same(&other.node) && self.inputs.same(&other.inputs)
    }
}

/// Whether no packet waits for the way out, or no way is asked for.
fn is_free(out: &Ports<Packet>, way: Option<Port>) -> bool
    ensures { result ≡ is_free way out.now }
{
    match way {
        Some(way) => out.get(way).is_none(),
        None => true,
    }
}

/// What is sent waits for its way out.
fn wait(out: &mut Ports<Packet>, sent: Option<Sent>)
    ensures { out.new ≡ with_sent sent out.old }
{
    match sent {
        Some(sent) => out.set(sent.way, Some(sent.packet)),
        None => {}
    }
}
