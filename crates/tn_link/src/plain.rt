//! The link in memory.

ghost use Rattle.std.specs.Prelude.{◌≡◌, ◌≤◌, ◌↔◌, [], IfOk, IsTrue, length};
ghost use Rattle.std.specs.VecDeque.{deque_capacity};

use crate::link::{Full, Link};
use std::alloc::{AllocError, Global};
use std::collections::VecDeque;
use std::marker::Model;
use tn_base::message::Packet;

/// A link in memory: a ring with room for as many packets as there may be.
#[derive(Drop)]
pub struct PlainLink {
    packets: VecDeque<Packet>,
    capacity: u32,
}

impl Model for PlainLink {
    ghost use Rattle.std.specs.Prelude.{◌≤◌, length};
    ghost use Rattle.std.specs.VecDeque.{deque_capacity};
    ghost use Rattle.tn_link.specs.LinkView.{LinkView};

    ghost Value = { LinkView };

    ghost view = { λ a. record { packets = a.packets.items; capacity = a.capacity } };

    ghost invariant = { λ a. (length a.packets.items ≤ a.capacity) × (a.capacity ≤ deque_capacity a.packets) };
}

impl PlainLink {
    /// A link without packets, for at most so many.
    pub fn of(alloc: Global, capacity: u32) -> Result<PlainLink, AllocError>
        ensures { IfOk result (λ r. r ≡ record { packets = []; capacity = capacity }) }
    {
        let packets = VecDeque::with_capacity(alloc, capacity as usize)?;
        Ok(PlainLink { packets, capacity })
    }
}

impl Link for PlainLink {
    ghost content = { λ s. s };

    fn put(&mut self, p: &Packet) -> Result<(), Full> {
        if self.packets.len() as u32 == self.capacity {
            return Err(Full);
        }
        self.packets.push_back_reserved(p.copy());
        Ok(())
    }

    fn take(&mut self) -> Option<Packet> {
        self.packets.pop_front()
    }

    fn front(&self) -> Option<&Packet> {
        self.packets.front()
    }

    fn get(&self, i: u32) -> Option<&Packet> {
        self.packets.get(i as usize)
    }

    fn len(&self) -> u32 {
        let _capacity = self.capacity;
        self.packets.len() as u32
    }

    fn capacity(&self) -> u32 {
        self.capacity
    }

    fn copy(&self) -> Result<Self, AllocError> {
        let packets = copy_ring(&self.packets, self.capacity as usize)?;
        Ok(PlainLink {
            packets,
            capacity: self.capacity,
        })
    }

    fn same(&self, other: &PlainLink) -> bool {
        self.capacity == other.capacity && same_packets(&self.packets, &other.packets)
    }
}

/// The same packets, in a ring with room for at least so many.
fn copy_ring(packets: &VecDeque<Packet>, room: usize) -> Result<VecDeque<Packet>, AllocError>
    requires { length packets.now.items ≤ room }
    ensures packets { IfOk result (λ r. r.items ≡ packets.now.items) }
    ensures room { IfOk result (λ r. room ≤ deque_capacity r) }
{
    let mut all = VecDeque::with_capacity(packets.allocator().clone()?, room)?;
    for i in 0..packets.len() {
        all.push_back_reserved(packets[i].copy());
    }
    Ok(all)
}

/// Whether the packets are equal.
fn same_packet(a: &Packet, b: &Packet) -> bool
    ensures { IsTrue result ↔ (a.now ≡ b.now) }
{
    a.origin == b.origin && a.number == b.number && a.dest == b.dest && a.bytes == b.bytes
}

/// Whether the rings hold equal packets in the same order.
fn same_packets(a: &VecDeque<Packet>, b: &VecDeque<Packet>) -> bool
    ensures { IsTrue result ↔ (a.now.items ≡ b.now.items) }
{
    if a.len() != b.len() {
        return false;
    }
    for i in 0..a.len() {
        if !same_packet(&a[i], &b[i]) {
            return false;
        }
    }
    true
}
