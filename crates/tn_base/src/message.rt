//! Messages: where they go, packets and letters.

ghost use Rattle.std.specs.Prelude.{◌≡◌, ◌<◌};
ghost use Rattle.tn_base.specs.Mask.{names_core, names_threads};
ghost use Rattle.tn_base.specs.Message.{flits, slot_bytes, has_dest, has_packet};

use crate::bytes::Bytes;
use crate::ids::{ThreadId, TileId};
use crate::mask::Mask;
use crate::shape::Shape;

/// The address of the host, as an origin, a receiver or a destination.
pub const HOST: u32 = 0x4000_0000;

/// Where a message goes.
#[derive(Clone, Copy, PartialEq, Eq, Debug)]
pub enum Dest {
    /// One thread.
    Thread(ThreadId),
    /// The host.
    Host,
    /// Some of the threads of one tile.
    Mask(TileId, Mask),
    /// Where the records of the routers' tables lead that this key names.
    Key(u32),
}

/// What one send makes, and what links carry.
#[derive(PartialEq, Eq, Debug, Drop)]
pub struct Packet {
    /// The address of the thread that sent it, or `HOST`.
    pub origin: u32,
    /// How many packets its origin sent before it, modulo 2 to the 32nd.
    pub number: u32,
    pub dest: Dest,
    pub bytes: Bytes,
}

/// A packet's content for one receiver.
#[derive(PartialEq, Eq, Debug, Drop)]
pub struct Letter {
    /// The address of the thread that sent it, or `HOST`.
    pub origin: u32,
    /// How many packets its origin sent before, modulo 2 to the 32nd.
    pub number: u32,
    /// The address of the thread that it is for, or `HOST`.
    pub receiver: u32,
    pub bytes: Bytes,
}

impl Packet {
    /// The same packet.
    pub fn copy(&self) -> Packet
        ensures { result ≡ self.now }
    {
        Packet {
            origin: self.origin,
            number: self.number,
            dest: self.dest,
            bytes: self.bytes.copy(),
        }
    }
}

impl Letter {
    /// The same letter.
    pub fn copy(&self) -> Letter
        ensures { result ≡ self.now }
    {
        Letter {
            origin: self.origin,
            number: self.number,
            receiver: self.receiver,
            bytes: self.bytes.copy(),
        }
    }
}

impl Shape {
    /// The most flits that a message has, 4 or 8 by the version.
    pub fn flits(&self) -> u32
        ensures { result ≡ flits self.now }
    {
        if self.numbers().version == 1 { 4 } else { 8 }
    }

    /// The bytes of a message slot, 64 or 128 by the version.
    pub fn slot_bytes(&self) -> u32
        ensures { result ≡ slot_bytes self.now }
    {
        if self.numbers().version == 1 { 64 } else { 128 }
    }

    /// Whether each bit of the mask, core * 16 + thread, is a thread that the machine has on each tile.
    pub fn names_threads(&self, mask: Mask) -> bool
        ensures { result ≡ names_threads self.now mask }
    {
        self.names_core(mask, 0)
            && self.names_core(mask, 1)
            && self.names_core(mask, 2)
            && self.names_core(mask, 3)
    }

    /// Whether a message may have this destination.
    pub fn has_dest(&self, dest: &Dest) -> bool
        ensures { result ≡ has_dest self.now dest.now }
    {
        match *dest {
            Dest::Thread(t) => self.has_thread(t),
            Dest::Host | Dest::Key(_) => true,
            Dest::Mask(tile, mask) => {
                self.has_tile(tile) && !mask.is_empty() && self.names_threads(mask)
            }
        }
    }

    /// Whether the packet is one of the machine: its destination is there, and its bytes fit a slot.
    pub fn has_packet(&self, p: &Packet) -> bool
        ensures { result ≡ has_packet self.now p.now }
    {
        self.has_dest(&p.dest) && p.bytes.as_slice().len() <= self.slot_bytes() as usize
    }

    /// Whether the mask names, on one core, only threads that the machine has there.
    fn names_core(&self, mask: Mask, core: u32) -> bool
        requires { core < 4 }
        ensures { result ≡ names_core self.now mask core }
    {
        let n = self.numbers();
        let named = (mask.bits() >> (16 * core)) % 65536;
        let past = if core < n.cores { 1 << n.threads } else { 1 };
        named < past
    }
}
