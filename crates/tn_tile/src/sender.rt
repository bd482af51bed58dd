//! Whose packets the slots of a tile have.

ghost use Rattle.std.specs.Prelude.{◌≡◌, ◌<◌, ◌↔◌, IfOk, IsTrue, length, replicate, slice_index_or, slice_set};

use std::alloc::{AllocError, Global};
use std::marker::Model;

/// Whose packet a slot has, and which of its packets.
#[derive(Clone, Copy, PartialEq, Eq, Debug)]
pub struct Sender {
    /// The address of the thread that sent it, or the host's.
    pub origin: u32,
    /// How many packets its origin sent before it, modulo 2 to the 32nd.
    pub number: u32,
}

/// Nobody's packet.
const NOBODY: Sender = Sender {
    origin: 0,
    number: 0,
};

/// For each slot of a tile whose packet was put there last.
#[derive(Drop)]
pub struct Senders {
    items: Vec<Sender>,
}

impl Model for Senders {
    ghost use Rattle.std.specs.Prelude.{List};
    ghost use Rattle.tn_tile.specs.declared.sender.Sender.{Sender};

    ghost Value = { List Sender };

    ghost view = { λ s. s.items.items };
}

impl Senders {
    /// No packet was put into any slot.
    pub(crate) fn of(alloc: Global, count: u32) -> Result<Senders, AllocError>
        ensures { IfOk result (λ s. s ≡ replicate count (record { origin = 0; number = 0 })) }
    {
        let items = vec![in alloc; NOBODY; count as usize]?;
        Ok(Senders { items })
    }

    /// Whose packet was put into a slot last.
    pub(crate) fn get(&self, slot: u16) -> Sender
        requires { slot < length self.now }
        ensures { result ≡ slice_index_or self.now slot (record { origin = 0; number = 0 }) }
    {
        self.items[slot as usize]
    }

    /// Notes whose packet was put into a slot.
    pub(crate) fn set(&mut self, slot: u16, sender: Sender)
        requires { slot < length self.old }
        ensures { self.new ≡ slice_set self.old slot sender }
    {
        self.items[slot as usize] = sender;
    }

    /// The same senders.
    pub(crate) fn copy(&self) -> Result<Senders, AllocError>
        ensures { IfOk result (λ s. s ≡ self.now) }
    {
        let items = self.items.clone()?;
        Ok(Senders { items })
    }

    /// Whether the senders are equal.
    pub(crate) fn same(&self, other: &Senders) -> bool
        ensures { IsTrue result ↔ (self.now ≡ other.now) }
    {
        same_senders(&self.items, &other.items)
    }
}

/// Whether the senders are equal.
fn same_senders(a: &Vec<Sender>, b: &Vec<Sender>) -> bool
    ensures { IsTrue result ↔ (a.now.items ≡ b.now.items) }
{
    if a.len() != b.len() {
        return false;
    }
    for i in 0..a.len() {
        if a[i] != b[i] {
            return false;
        }
    }
    true
}
