//! The packets that the threads of a tile sent.

ghost use Rattle.std.specs.Prelude.{◌≡◌, ◌≤◌, ◌<◌, ◌↔◌, IfOk, IsTrue, is_none, is_some, length, None, option_copied, replicate, slice_index_or, slice_set, Some};
ghost use Rattle.std.specs.List.{list_all};
ghost use Rattle.tn_tile.specs.Ready.{IsFirst};

use crate::bits::{first_bit, write_bit};
use std::alloc::{AllocError, Global};
use std::marker::Model;
use tn_base::message::Packet;
use tn_node::same::{copy_option, same_option};

/// For each thread of a tile the packet that it sent and that is not delivered yet.
#[derive(Drop)]
pub struct Pending {
    items: Vec<Option<Packet>>,
    /// The places with a packet.
    sends: u64,
}

impl Model for Pending {
    ghost use Rattle.std.specs.Prelude.{List, Option};
    ghost use Rattle.tn_base.specs.declared.message.Packet.{Packet};
    ghost use Rattle.tn_tile.specs.Words.{KnowsSends};

    ghost Value = { List (Option Packet) };

    ghost view = { λ p. p.items.items };

    ghost invariant = { λ p. KnowsSends p.items.items p.sends };
}

impl Pending {
    /// No packet of any thread is pending.
    pub(crate) fn of(alloc: Global, count: u32) -> Result<Pending, AllocError>
        requires { count ≤ 64 }
        ensures { IfOk result (λ p. p ≡ replicate count None) }
    {
        let items = none_pending(alloc, count)?;
        Ok(Pending { items, sends: 0 })
    }

    /// The packet of a thread.
    pub(crate) fn get(&self, at: u32) -> Option<&Packet>
        requires { at < length self.now }
        ensures { option_copied result ≡ slice_index_or self.now at None }
    {
        self.items[at as usize].as_ref()
    }

    /// Whether no packet of a thread is pending.
    #[inline(always)]
    pub(crate) fn is_free(&self, at: u32) -> bool
        requires { at < length self.now }
        ensures { result ≡ is_none (slice_index_or self.now at None) }
    {
        self.items[at as usize].is_none()
    }

    /// A packet of a thread is pending from now on.
    pub(crate) fn put(&mut self, at: u32, packet: Packet)
        requires { at < length self.old }
        ensures { self.new ≡ slice_set self.old at (Some packet) }
    {
        self.items[at as usize] = Some(packet);
        self.sends = write_bit(self.sends, at, true);
    }

    /// Takes the packet of a thread.
    pub(crate) fn take(&mut self, at: u32) -> Option<Packet>
        requires { at < length self.old }
        ensures packet { result ≡ slice_index_or self.old at None }
        ensures after { self.new ≡ slice_set self.old at None }
    {
        self.sends = write_bit(self.sends, at, false);
        self.items[at as usize].take()
    }

    /// Whether no packet is pending.
    pub(crate) fn is_empty(&self) -> bool
        ensures { result ≡ list_all is_none self.now }
    {
        self.sends == 0
    }

    /// The first place from a place on whose thread has a pending packet.
    pub(crate) fn next(&self, from: u32) -> Option<u32>
        ensures { IsFirst (λ k. is_some (slice_index_or self.now k None)) from (length self.now) result }
    {
        first_bit(self.sends, from)
    }

    /// The same packets.
    pub(crate) fn copy(&self) -> Result<Pending, AllocError>
        ensures { IfOk result (λ p. p ≡ self.now) }
    {
        let items = copy_packets(&self.items)?;
        Ok(Pending {
            items,
            sends: self.sends,
        })
    }

    /// Whether the packets are equal.
    pub(crate) fn same(&self, other: &Pending) -> bool
        ensures { IsTrue result ↔ (self.now ≡ other.now) }
    {
        same_packets(&self.items, &other.items)
    }
}

/// No packet of any thread is pending.
fn none_pending(alloc: Global, count: u32) -> Result<Vec<Option<Packet>>, AllocError>
    ensures { IfOk result (λ v. v.items ≡ replicate count None) }
{
    let mut all = Vec::with_capacity(alloc, count as usize)?;
    for _k in 0..count {
        all.push(None)?;
    }
    Ok(all)
}

/// The same packets.
fn copy_packets(packets: &Vec<Option<Packet>>) -> Result<Vec<Option<Packet>>, AllocError>
    ensures { IfOk result (λ r. r.items ≡ packets.now.items) }
{
    let mut all = Vec::with_capacity(packets.allocator().clone()?, packets.len())?;
    for packet in packets {
        all.push(copy_option(packet))?;
    }
    Ok(all)
}

/// Whether the packets are equal.
fn same_packets(a: &Vec<Option<Packet>>, b: &Vec<Option<Packet>>) -> bool
    ensures { IsTrue result ↔ (a.now.items ≡ b.now.items) }
{
    if a.len() != b.len() {
        return false;
    }
    for i in 0..a.len() {
        if !same_option(&a[i], &b[i]) {
            return false;
        }
    }
    true
}
