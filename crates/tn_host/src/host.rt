//! The host.

ghost use Rattle.std.specs.Prelude.{◌≡◌, ◌<◌, ◌^◌, ◌↔◌, IfOk, IsSome, IsTrue, MatchResult, length};
ghost use Rattle.tn_host.specs.HostView.{with_now};
ghost use Rattle.tn_host.specs.Rows.{at_end, can_depart, departed, fresh_state, gone_on, host_facts, host_letter, host_whitened, is_still, offered, released, reserved, took};
ghost use Rattle.tn_node.specs.NodeRows.{can_arrive};

use crate::script::{Script, ScriptItem};
use std::alloc::{AllocError, Global};
use std::marker::Model;
use tn_base::message::{HOST, Letter, Packet};
use tn_node::facts::PartFacts;
use tn_node::node::Node;

/// The host: the rest of its script, the letters that it took, and what the detector asks of it.
#[derive(Drop)]
pub struct Host {
    script: Script,
    /// How many messages the host sent.
    sends: u32,
    got: Vec<Letter>,
    /// For how many letters in all there is room.
    room: usize,
    node: Node,
}

impl Model for Host {
    ghost use Rattle.std.specs.Prelude.{◌<◌, ◌≤◌, ◌+◌, ◌^◌, length, vec_capacity};
    ghost use Rattle.tn_host.specs.HostView.{HostView};

    ghost Value = { HostView };

    ghost view = { λ h. record { now = record { script = h.script; sends = h.sends; got = h.got.items; node = h.node }; room = h.room } };

    ghost invariant = { λ h. (h.room ≤ vec_capacity h.got) × (h.sends + length h.script < 2 ^ 32) };
}

impl Host {
    /// A host at its start, with this script. It takes no memory.
    pub fn of(alloc: Global, script: Vec<ScriptItem>) -> Host
        requires { length script.items < 2 ^ 32 }
        ensures { result ≡ record { now = fresh_state script.items; room = 0 } }
    {
        Host {
            script: Script::of(script),
            sends: 0,
            got: Vec::new(alloc),
            room: 0,
            node: Node::new(),
        }
    }

    /// The message that the host sends next; None if its next item is no message or the host is held.
    pub fn offer(&self) -> Option<Packet>
        ensures { result ≡ offered self.now.now }
    {
        if self.node.held {
            return None;
        }
        let item = self.script.next()?;
        item.packet(self.sends)
    }

    /// The message that the host sends next has gone to its link.
    pub fn depart(&mut self)
        requires offers { IsSome (offered self.old.now) }
        requires counts { IsTrue (can_depart self.old.now.node) }
        ensures { self.new ≡ with_now self.old (departed self.old.now) }
    {
        self.script.pass();
        self.sends += 1;
        self.node.counter += 1;
    }

    /// Takes a packet from the host's link, into room that `reserve` made.
    pub fn accept(&mut self, p: &Packet)
        requires room { length self.old.now.got < self.old.room }
        requires counts { IsTrue (can_arrive self.old.now.node) }
        ensures { self.new ≡ with_now self.old (took p.now self.old.now) }
    {
        if self.got.push(letter_of(p)).is_ok() {
            self.node.arrive();
        }
    }

    /// Makes room for one letter more.
    pub fn reserve(&mut self) -> Result<(), AllocError>
        ensures { MatchResult result (λ _. self.new ≡ reserved self.old) (λ _. self.new ≡ self.old) }
    {
        self.got.reserve(1)?;
        self.room = self.room.max(self.got.len() + 1);
        Ok(())
    }

    /// The letters that the host took, the first one first.
    pub fn got(&self) -> &[Letter]
        ensures { result.now ≡ self.now.now.got }
    {
        &self.got
    }

    /// The items of the script that are still to come.
    pub fn rest(&self) -> &[ScriptItem]
        ensures { result.now ≡ self.now.now.script }
    {
        self.script.rest()
    }

    /// How many messages the host sent.
    pub fn sends(&self) -> u32
        ensures { result ≡ self.now.now.sends }
    {
        self.sends
    }

    /// Whether the script is at its end.
    pub fn at_end(&self) -> bool
        ensures { result ≡ at_end self.now.now }
    {
        self.script.next().is_none()
    }

    /// Whether the host does nothing by itself: its next item is no message.
    pub fn still(&self) -> bool
        ensures { result ≡ is_still self.now.now }
    {
        !matches!(self.script.next(), Some(ScriptItem::Send(..)))
    }

    /// Whether the host took a packet from its link since it reported last.
    pub fn black(&self) -> bool
        ensures { result ≡ self.now.now.node.black }
    {
        self.node.black
    }

    /// Whether the host puts no packet on its link.
    pub fn held(&self) -> bool
        ensures { result ≡ self.now.now.node.held }
    {
        self.node.held
    }

    /// Packets put on the host's link less packets taken from its link.
    pub fn counter(&self) -> i64
        ensures { result ≡ self.now.now.node.counter }
    {
        self.node.counter
    }

    /// What the host tells the detector.
    pub fn facts(&self) -> PartFacts
        ensures { result ≡ host_facts self.now.now }
    {
        PartFacts {
            still: self.still(),
            black: self.black(),
            counter: self.counter(),
            live: false,
            votes: true,
            at_end: self.at_end(),
            value: 0,
        }
    }

    /// The host has reported.
    pub fn whiten(&mut self)
        ensures { self.new ≡ with_now self.old (host_whitened self.old.now) }
    {
        self.node.whiten();
    }

    /// Holds the host's messages until the detector lets them go. A host that waits for the machine's rest goes on: the
    /// answer tells it nothing.
    pub fn release(&mut self, _value: u32)
        ensures { self.new ≡ with_now self.old (released self.old.now) }
    {
        if let Some(ScriptItem::AwaitIdle) = self.script.next() {
            self.script.pass();
        }
        self.node.hold();
    }

    /// Lets the host's messages go.
    pub fn go(&mut self)
        ensures { self.new ≡ with_now self.old (gone_on self.old.now) }
    {
        self.node.go();
    }

    /// The same host, but for spare room.
    pub fn copy(&self) -> Result<Host, AllocError>
        ensures { IfOk result (λ h. h.now ≡ self.now.now) }
    {
        Ok(Host {
            script: self.script.copy()?,
            sends: self.sends,
            got: copy_letters(&self.got)?,
            room: 0,
            node: self.node.copy(),
        })
    }

    /// Whether the hosts are equal, but for spare room.
    pub fn same(&self, other: &Host) -> bool
        ensures { IsTrue result ↔ (self.now.now ≡ other.now.now) }
    {
        self.sends == other.sends
            && same_letters(&self.got, &other.got)
            && self.node.same(&other.node)
            && self.script.same(&other.script)
    }
}

/// The letter that a packet is for the host.
fn letter_of(p: &Packet) -> Letter
    ensures { result ≡ host_letter p.now }
{
    Letter {
        origin: p.origin,
        number: p.number,
        receiver: HOST,
        bytes: p.bytes.copy(),
    }
}

/// The same letters.
fn copy_letters(letters: &Vec<Letter>) -> Result<Vec<Letter>, AllocError>
    ensures { IfOk result (λ all. all.items ≡ letters.now.items) }
{
    let mut all = Vec::with_capacity(letters.allocator().clone()?, letters.len())?;
    for letter in letters {
        all.push(letter.copy())?;
    }
    Ok(all)
}

/// Whether the letters are equal.
fn same_letters(a: &Vec<Letter>, b: &Vec<Letter>) -> bool
    ensures { IsTrue result ↔ (a.now.items ≡ b.now.items) }
{
    if a.len() != b.len() {
        return false;
    }
    for i in 0..a.len() {
        if !same_letter(&a[i], &b[i]) {
            return false;
        }
    }
    true
}

/// Whether two letters are equal.
fn same_letter(a: &Letter, b: &Letter) -> bool
    ensures { IsTrue result ↔ (a.now ≡ b.now) }
{
    a.origin == b.origin && a.number == b.number && a.receiver == b.receiver && a.bytes == b.bytes
}
