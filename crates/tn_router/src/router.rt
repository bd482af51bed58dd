//! A router.

ghost use Rattle.std.specs.Prelude.{◌≡◌, ◌↔◌, IfOk, IsSome, IsTrue, Some, is_some, option_copied, option_map, slice_get};
ghost use Rattle.tn_base.specs.Does.{Does};
ghost use Rattle.tn_keys.specs.Tables.{HasBoard};
ghost use Rattle.tn_node.specs.NodeRows.{offered};
ghost use Rattle.tn_node.specs.PortRows.{at};
ghost use Rattle.tn_router.specs.Kept.{WellShaped, fresh_router};
ghost use Rattle.tn_router.specs.RouterView.{now_by, with_now};
ghost use Rattle.tn_router.specs.Rows.{accept_row, can_accept, depart_row, gone_on, happened, is_still, released, route_row, routed, router_facts, router_whitened};

use crate::moves::Routed;
use crate::plan::Plan;
use crate::state::RouterState;
use std::alloc::AllocError;
use std::marker::Model;
use tn_base::ids::Board;
use tn_base::message::Packet;
use tn_base::port::Port;
use tn_base::shape::Shape;
use tn_keys::beat::Beat;
use tn_node::facts::PartFacts;

/// The router of a board: its plan, which no event changes, and its state.
#[derive(Drop)]
pub struct Router {
    plan: Plan,
    state: RouterState,
}

impl Model for Router {
    ghost use Rattle.tn_router.specs.Kept.{WellShaped};
    ghost use Rattle.tn_router.specs.RouterView.{RouterView};

    ghost Value = { RouterView };

    ghost view = { λ r. record { plan = r.plan; now = r.state } };

    ghost invariant = { λ r. WellShaped (record { plan = r.plan; now = r.state }) };
}

impl Router {
    /// The router of a board of this machine at its start, with this table. A record whose destination is not there, which
    /// no accepted table has, will make no copy.
    pub fn of(shape: &Shape, board: Board, beats: Vec<Beat>) -> Router
        requires { HasBoard shape.now board }
        ensures { result ≡ fresh_router shape.now board beats.items }
    {
        Router {
            plan: Plan::of(shape, board, beats),
            state: RouterState::new(),
        }
    }

    /// The machine that the router is a part of.
    pub fn shape(&self) -> Shape
        ensures { result ≡ self.now.plan.shape }
    {
        self.plan.shape
    }

    /// The board that the router is on.
    pub fn board(&self) -> Board
        ensures { result ≡ self.now.plan.board }
    {
        self.plan.board
    }

    /// A beat of the table.
    pub fn beat(&self, i: u32) -> Option<&Beat>
        ensures { option_copied result ≡ slice_get self.now.plan.beats i }
    {
        self.plan.beats.get(i as usize)
    }

    /// The packet in process that came from a side, with the number in the table of the beat that holds its next record,
    /// and that record's place in the beat. Both numbers are 0 if no record comes.
    pub fn in_process(&self, from: Port) -> Option<(&Packet, u32, u32)>
        ensures { option_map (λ q. record { packet = q.0.now; beat = q.1; at = q.2 }) result ≡ at from self.now.now.inputs }
    {
        match self.state.inputs.get(from) {
            Some(work) => Some((&work.packet, work.beat, work.at)),
            None => None,
        }
    }

    /// The packet that waits for a way out, even if the router is held.
    pub fn buffer(&self, way: Port) -> Option<&Packet>
        ensures { option_copied result ≡ at way self.now.now.node.out }
    {
        self.state.node.out.get(way)
    }

    /// The key of the first Route that found a bad key.
    pub fn ended(&self) -> Option<u32>
        ensures { result ≡ self.now.now.ended }
    {
        self.state.ended
    }

    /// Whether the router is that of this board of this machine.
    pub fn made_for(&self, shape: &Shape, board: Board) -> bool
        ensures { IsTrue result ↔ ((self.now.plan.shape ≡ shape.now) × (self.now.plan.board ≡ board)) }
    {
        self.plan.shape == *shape && self.plan.board == board
    }

    /// Tells what holds of every router.
    pub fn kept(&self)
        ensures { WellShaped self.now }
    {
        let _plan = &self.plan;
    }

    /// Of the first side that can move: does one record, sends on the whole of a packet without a key, or notes that the
    /// packet's key is bad.
    pub fn route(&mut self) -> Routed
        ensures row { Does (happened result) (now_by self.old (route_row self.old.plan self.old.now)) self.old self.new }
        ensures answer { result ≡ routed self.old.plan self.old.now }
    {
        self.state.route(&self.plan)
    }

    /// Whether a Route would do something.
    pub fn can_route(&self) -> bool
        ensures { result ≡ is_some (route_row self.now.plan self.now.now) }
    {
        self.state.first_side(&self.plan).is_some()
    }

    /// The packet that waits for a way out, unless the router is held.
    pub fn offer(&self, way: Port) -> Option<&Packet>
        ensures { option_copied result ≡ offered way self.now.now.node }
    {
        self.state.node.offer(way)
    }

    /// The packet that waits for a way out has gone to a link.
    pub fn depart(&mut self, way: Port)
        requires { IsSome (depart_row way self.old.now) }
        ensures { now_by self.old (depart_row way self.old.now) ≡ Some self.new }
    {
        self.state.depart(way);
    }

    /// Whether the router would take a packet that comes from a side: a link leads here from there, no packet of that side is
    /// in process, and the packet is one of the machine.
    pub fn accepts(&self, from: Port, p: &Packet) -> bool
        ensures { result ≡ can_accept self.now.plan from p.now self.now.now }
    {
        self.state.accepts(&self.plan, from, p)
    }

    /// Takes a packet from a link.
    pub fn accept(&mut self, from: Port, p: &Packet)
        requires { IsSome (accept_row self.old.plan from p.now self.old.now) }
        ensures { now_by self.old (accept_row self.old.plan from p.now self.old.now) ≡ Some self.new }
    {
        self.state.accept(&self.plan, from, p);
    }

    /// Whether the router does nothing by itself: no packet is in process or waits for a way out.
    pub fn still(&self) -> bool
        ensures { result ≡ is_still self.now.now }
    {
        self.state.still()
    }

    /// Whether the router took a packet from a link since it reported last.
    pub fn black(&self) -> bool
        ensures { result ≡ self.now.now.node.black }
    {
        self.state.node.black
    }

    /// Whether the router puts no packet on a link.
    pub fn held(&self) -> bool
        ensures { result ≡ self.now.now.node.held }
    {
        self.state.node.held
    }

    /// Packets put on links less packets taken from links.
    pub fn counter(&self) -> i64
        ensures { result ≡ self.now.now.node.counter }
    {
        self.state.node.counter
    }

    /// What the router tells the detector.
    pub fn facts(&self) -> PartFacts
        ensures { result ≡ router_facts self.now.now }
    {
        PartFacts {
            still: self.still(),
            black: self.black(),
            counter: self.counter(),
            live: false,
            votes: true,
            at_end: false,
            value: 0,
        }
    }

    /// The router has reported.
    pub fn whiten(&mut self)
        ensures { self.new ≡ with_now self.old (router_whitened self.old.now) }
    {
        self.state.node.whiten();
    }

    /// Holds the router's packets until the detector lets them go. A router has no threads, so the answer tells it nothing.
    pub fn release(&mut self, _value: u32)
        ensures { self.new ≡ with_now self.old (released self.old.now) }
    {
        self.state.node.hold();
    }

    /// Lets the router's packets go.
    pub fn go(&mut self)
        ensures { self.new ≡ with_now self.old (gone_on self.old.now) }
    {
        self.state.node.go();
    }

    /// The same router.
    pub fn copy(&self) -> Result<Router, AllocError>
        ensures { IfOk result (λ r. r ≡ self.now) }
    {
        Ok(Router {
            plan: self.plan.copy()?,
            state: self.state.copy(),
        })
    }

    /// Whether the routers are equal.
    pub fn same(&self, other: &Router) -> bool
        ensures { IsTrue result ↔ (self.now ≡ other.now) }
    {
        self.plan.same(&other.plan) && self.state.same(&other.state)
    }
}
