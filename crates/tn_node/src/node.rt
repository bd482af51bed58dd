//! What a part has that links join.

ghost use Rattle.std.specs.Prelude.{◌≡◌, ◌↔◌, IsTrue, None, Option, Some, IsSome, is_none, option_copied, if◌then◌else◌};
ghost use Rattle.tn_base.specs.Does.{Does};
ghost use Rattle.tn_node.specs.NodeRows.{arrived, can_arrive, depart_row, fresh_node, held_back, let_go, offered, waits, whitened};

use crate::ports::Ports;
use tn_base::message::Packet;
use tn_base::port::Port;

/// The packets that wait for a way out of a part, and what the idle detector asks of it.
#[derive(Drop)]
pub struct Node {
    /// For each way out the packet that waits there.
    pub out: Ports<Packet>,
    /// Packets put on links less packets taken from links.
    pub counter: i64,
    /// The part took a packet from a link since it reported last.
    pub black: bool,
    /// The part puts no packet on a link.
    pub held: bool,
}

impl Node {
    /// A node at its start: no packet waits, and none has passed a link.
    pub fn new() -> Node
        ensures { result ≡ fresh_node }
    {
        Node {
            out: Ports::new(),
            counter: 0,
            black: false,
            held: false,
        }
    }

    /// The packet that waits for a way out, unless the part is held.
    pub fn offer(&self, way: Port) -> Option<&Packet>
        ensures { option_copied result ≡ offered way self.now }
    {
        if self.held { None } else { self.out.get(way) }
    }

    /// Lets a packet wait for a way out. If a packet waits there already, gives the packet back.
    pub fn wait(&mut self, way: Port, p: Packet) -> Option<Packet>
        ensures row { Does (is_none result) (waits way p self.old) self.old self.new }
        ensures back { result ≡ (if is_none (waits way p self.old) then Some p else None) }
    {
        if self.out.get(way).is_some() {
            return Some(p);
        }
        self.out.set(way, Some(p));
        None
    }

    /// The packet that waited for a way out has gone to a link.
    pub fn depart(&mut self, way: Port)
        requires { IsSome (depart_row way self.old) }
        ensures { depart_row way self.old ≡ Some self.new }
    {
        self.out.set(way, None);
        self.counter += 1;
    }

    /// A packet came from a link.
    pub fn arrive(&mut self)
        requires { IsTrue (can_arrive self.old) }
        ensures { self.new ≡ arrived self.old }
    {
        self.counter -= 1;
        self.black = true;
    }

    /// The part has reported.
    pub fn whiten(&mut self)
        ensures { self.new ≡ whitened self.old }
    {
        self.black = false;
    }

    /// Holds the packets back.
    pub fn hold(&mut self)
        ensures { self.new ≡ held_back self.old }
    {
        self.held = true;
    }

    /// Lets the packets go.
    pub fn go(&mut self)
        ensures { self.new ≡ let_go self.old }
    {
        self.held = false;
    }

    /// The same node.
    pub fn copy(&self) -> Node
        ensures { result ≡ self.now }
    {
        Node {
            out: self.out.copy(),
            counter: self.counter,
            black: self.black,
            held: self.held,
        }
    }

    /// Whether the nodes are equal.
    pub fn same(&self, other: &Node) -> bool
        ensures { IsTrue result ↔ (self.now ≡ other.now) }
    {
        self.counter == other.counter
            && self.black == other.black
            && self.held == other.held
            && self.out.same(&other.out)
    }
}
