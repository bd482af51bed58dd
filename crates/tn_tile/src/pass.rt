//! Packets that come to a tile: to its threads, or on to other parts.

ghost use Rattle.std.specs.Prelude.{◌≡◌, ◌≤◌, ◌<◌, ◌+◌, ◌^◌, IsTrue, IsSome, Some, bit_and, is_some, length};
ghost use Rattle.std.specs.Int.{bit_not, w64};
ghost use Rattle.tn_base.specs.Does.{Does};
ghost use Rattle.tn_base.specs.Message.{has_packet};
ghost use Rattle.tn_base.specs.Address.{tile_threads};
ghost use Rattle.tn_tile.specs.Kept.{IsFit, PoolFits};
ghost use Rattle.tn_tile.specs.Passes.{Delivers, Passes, Wakes};
ghost use Rattle.tn_tile.specs.Receivers.{dead_in, receivers};
ghost use Rattle.tn_tile.specs.Rows.{accept_row, can_count, delivered_from, passed, received, sent_on, stored};
ghost use Rattle.tn_tile.specs.Step.{pending_at};

use crate::plan::Plan;
use crate::sender::Sender;
use crate::state::TileState;
use tn_base::mask::Mask;
use tn_base::message::Packet;
use tn_base::port::Port;
use tn_node::same::Same;

impl TileState {
    /// Whether a packet can be passed on: a slot is free, or no receiver is alive, or the packet's way out is free.
    pub(crate) fn has_room(&self, plan: &Plan, dead: Mask, p: &Packet) -> bool
        requires packet { IsTrue (has_packet plan.now.shape p.now) }
        requires dead { dead ≡ dead_in self.now.threads }
        ensures { result ≡ is_some (passed plan.now p.now self.now) }
    {
        match plan.port(&p.dest) {
            Port::Here => receivers_alive(plan, dead, p).is_empty() || !self.pool.full(),
            way => self.node.out.get(way).is_none(),
        }
    }

    /// Delivers the packet that the thread at a place sent. Answers the places whose queues have grown.
    pub(crate) fn deliver(&mut self, plan: &Plan, dead: Mask, place: u32) -> Option<Mask>
        requires there { place < tile_threads plan.now.shape }
        requires dead { dead ≡ dead_in self.old.threads }
        requires fits { IsFit plan.now self.old }
        requires counts { IsTrue (can_count self.old) }
        ensures { Delivers result (delivered_from plan.now place (pending_at self.old place) self.old) self.old self.new }
    {
        let packet = self.pending.take(place)?;
        match self.pass(plan, dead, packet) {
            Ok(woken) => Some(woken),
            Err(packet) => {
                self.pending.put(place, packet);
                None
            }
        }
    }

    /// Takes a packet from a link. Answers the places whose queues have grown.
    pub(crate) fn accept(&mut self, plan: &Plan, dead: Mask, p: &Packet) -> Mask
        requires dead { dead ≡ dead_in self.old.threads }
        requires fits { IsFit plan.now self.old }
        requires can { IsSome (accept_row plan.now p.now self.old) }
        ensures row { accept_row plan.now p.now self.old ≡ Some self.new }
        ensures woken { Wakes result self.old.pool self.new.pool }
    {
        let Ok(woken) = self.pass(plan, dead, p.copy()) else {
            return Mask::of(0);
        };
        self.node.arrive();
        woken
    }

    /// Passes a packet on: to its receivers here, or to where it waits for its way out. Answers the places whose queues
    /// have grown, or gives the packet back.
    fn pass(&mut self, plan: &Plan, dead: Mask, p: Packet) -> Result<Mask, Packet>
        requires dead { dead ≡ dead_in self.old.threads }
        requires packet { IsTrue (has_packet plan.now.shape p) }
        requires pool { PoolFits plan.now.shape self.old.pool self.old.senders }
        requires counts { IsTrue (can_count self.old) }
        ensures { Passes p result (passed plan.now p self.old) self.old self.new }
    {
        match plan.port(&p.dest) {
            Port::Here => self.receive(plan, dead, p),
            Port::Down | Port::HostPort => Err(p),
            way => self.send_on(way, p),
        }
    }

    /// Lets a packet wait for its way out, unless a packet waits there already.
    fn send_on(&mut self, way: Port, p: Packet) -> Result<Mask, Packet>
        ensures { Passes p result (sent_on way p self.old) self.old self.new }
    {
        match self.node.wait(way, p) {
            None => Ok(Mask::of(0)),
            Some(p) => Err(p),
        }
    }

    /// Hands a packet to the receivers on this tile that are alive, in one slot; counts the others.
    fn receive(&mut self, plan: &Plan, dead: Mask, p: Packet) -> Result<Mask, Packet>
        requires dead { dead ≡ dead_in self.old.threads }
        requires packet { IsTrue (has_packet plan.now.shape p) }
        requires pool { PoolFits plan.now.shape self.old.pool self.old.senders }
        requires counts { IsTrue (can_count self.old) }
        ensures { Passes p result (received plan.now p self.old) self.old self.new }
    {
        let all = plan.receivers(&p.dest);
        let alive = Mask::of(all.bits() & !dead.bits());
        if !self.store(&p, alive) {
            return Err(p);
        }
        self.dropped += u64::from((all.bits() & dead.bits()).count_ones());
        Ok(alive)
    }

    /// Puts a packet into a slot for these threads, unless there is no thread or no slot.
    fn store(&mut self, p: &Packet, threads: Mask) -> bool
        requires threads { threads < 2 ^ length self.old.pool.queues }
        requires bytes { length p.now.bytes ≤ self.old.pool.slot_bytes }
        requires senders { length self.old.senders ≡ length self.old.pool.slots }
        ensures { Does result (stored threads p.now self.old) self.old self.new }
    {
        if threads.is_empty() {
            return true;
        }
        let Ok(slot) = self.pool.put(&p.bytes, threads) else {
            return false;
        };
        let sender = Sender {
            origin: p.origin,
            number: p.number,
        };
        self.senders.set(slot, sender);
        true
    }
}

/// The receivers of a packet on a tile, but for the threads that ended.
fn receivers_alive(plan: &Plan, dead: Mask, p: &Packet) -> Mask
    requires { IsTrue (has_packet plan.now.shape p.now) }
    ensures { result ≡ bit_and (receivers plan.now.shape p.now.dest) (bit_not w64 dead) }
{
    let all = plan.receivers(&p.dest);
    Mask::of(all.bits() & !dead.bits())
}
