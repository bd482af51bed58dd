//! Packets: delivered to the tile's threads, sent on to other parts, and taken from links.

ghost use Rattle.std.specs.Prelude.{◌≡◌, ◌-◌, IsTrue, IsSome, Some, is_some, option_copied};
ghost use Rattle.tn_base.specs.Does.{Does};
ghost use Rattle.tn_node.specs.NodeRows.{offered};
ghost use Rattle.tn_tile.specs.Rows.{accept_row, accepted, deliver_row, depart_row, is_here};
ghost use Rattle.tn_tile.specs.TileView.{now_by};
ghost use Rattle.tn_tile.specs.Turns.{moved};

use crate::ready::look_at;
use crate::tile::Tile;
use tn_base::ids::ThreadId;
use tn_base::message::Packet;
use tn_base::port::Port;

/// Whether an event happened.
#[derive(Clone, Copy, PartialEq, Eq, Debug)]
pub enum Did {
    /// It did.
    Moved,
    /// It was not enabled, and nothing changed.
    Nothing,
}

impl Tile {
    /// Delivers the packet that a thread sent. The packet goes to the threads of this tile that are its receivers, if a
    /// slot is free or none of them is alive. It goes to where it waits for its way out, if no packet waits there.
    pub fn deliver(&mut self, t: ThreadId) -> Did
        requires { IsTrue (is_here self.old.plan t.0) }
        ensures { Does (moved result) (now_by self.old (deliver_row self.old.plan t.0 self.old.now)) self.old self.new }
    {
        if !self.counts() {
            return Did::Nothing;
        }
        let place = self.plan.place(t);
        let Some(woken) = self.state.deliver(&self.plan, self.dead, place) else {
            return Did::Nothing;
        };
        self.ready = look_at(self.ready, &self.state, self.plan.fuel(), woken.with(place));
        Did::Moved
    }

    /// Whether the packet that a thread sent can be delivered.
    pub fn can_deliver(&self, t: ThreadId) -> bool
        requires { IsTrue (is_here self.now.plan t.0) }
        ensures { result ≡ is_some (deliver_row self.now.plan t.0 self.now.now) }
    {
        match self.state.pending.get(self.plan.place(t)) {
            None => false,
            Some(packet) => self.counts() && self.state.has_room(&self.plan, self.dead, packet),
        }
    }

    /// The packet that waits for a way out, unless the tile is held.
    pub fn offer(&self, way: Port) -> Option<&Packet>
        ensures { option_copied result ≡ offered way self.now.now.node }
    {
        self.state.node.offer(way)
    }

    /// The packet that waits for a way out has gone to a link.
    pub fn depart(&mut self, way: Port)
        requires { IsSome (depart_row way self.old.now) }
        ensures { now_by self.old (depart_row way self.old.now) ≡ Some self.new }
    {
        self.state.node.depart(way);
    }

    /// Whether the tile would take a packet from a link.
    pub fn accepts(&self, p: &Packet) -> bool
        ensures { result ≡ is_some (accepted self.now.plan p.now self.now.now) }
    {
        self.plan.has_packet(p) && self.state.has_room(&self.plan, self.dead, p)
    }

    /// Takes a packet from a link. Answers for how many dead receivers on this tile it was dropped.
    pub fn accept(&mut self, p: &Packet) -> u32
        requires { IsSome (accept_row self.old.plan p.now self.old.now) }
        ensures row { now_by self.old (accept_row self.old.plan p.now self.old.now) ≡ Some self.new }
        ensures dropped { result ≡ self.new.now.dropped - self.old.now.dropped }
    {
        let before = self.state.dropped;
        let woken = self.state.accept(&self.plan, self.dead, p);
        self.ready = look_at(self.ready, &self.state, self.plan.fuel(), woken);
        (self.state.dropped - before) as u32
    }
}
