//! What every link does.

ghost use Rattle.std.specs.Prelude.{◌≡◌, ◌≤◌, ◌↔◌, IfOk, IsTrue, is_ok, is_some, length, option_copied, slice_get};
ghost use Rattle.tn_base.specs.Does.{Does};
ghost use Rattle.tn_link.specs.LinkView.{LinkView};
ghost use Rattle.tn_link.specs.LinkRows.{front_of, put_in, take_from};

use std::alloc::AllocError;
use tn_base::message::Packet;

/// The link has no room.
#[derive(Clone, Copy, PartialEq, Eq, Debug)]
pub struct Full;

/// A list of packets with a capacity, the oldest packet first. Only `copy` takes memory.
pub trait Link: Drop {
    ghost content: { Self → LinkView };

    /// Puts a packet at the end, where there is room.
    fn put(&mut self, p: &Packet) -> Result<(), Full>
        ensures { Does (is_ok result) (put_in p.now (content self.old)) (content self.old) (content self.new) };

    /// Takes the first packet.
    fn take(&mut self) -> Option<Packet>
        ensures packet { result ≡ front_of (content self.old) }
        ensures row { Does (is_some result) (take_from (content self.old)) (content self.old) (content self.new) };

    /// The first packet.
    fn front(&self) -> Option<&Packet>
        ensures { option_copied result ≡ front_of (content self.now) };

    /// The packet at a place, from 0 at the front.
    fn get(&self, i: u32) -> Option<&Packet>
        ensures { option_copied result ≡ slice_get (content self.now).packets i };

    /// How many packets there are.
    fn len(&self) -> u32
        ensures value { result ≡ length (content self.now).packets }
        ensures within { result ≤ (content self.now).capacity };

    /// How many packets there may be.
    fn capacity(&self) -> u32
        ensures { result ≡ (content self.now).capacity };

    /// The same link.
    fn copy(&self) -> Result<Self, AllocError>
        ensures { IfOk result (λ r. content r ≡ content self.now) };

    /// Whether the links hold the same packets and have the same capacity.
    fn same(&self, other: &Self) -> bool
        ensures { IsTrue result ↔ (content self.now ≡ content other.now) };
}
