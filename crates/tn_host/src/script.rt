//! The script of a host.

ghost use Rattle.std.specs.Prelude.{◌≡◌, ◌↔◌, IfOk, IsTrue, IsSome, Some, option_copied};
ghost use Rattle.tn_host.specs.Script.{first_item, items_behind, packet_of};

use std::alloc::{AllocError, Global};
use std::marker::Model;
use tn_base::bytes::Bytes;
use tn_base::ids::ThreadId;
use tn_base::message::{Dest, HOST, Packet};

/// What the host does next.
#[derive(PartialEq, Eq, Debug, Drop)]
pub enum ScriptItem {
    /// It sends a message to a thread.
    Send(ThreadId, Bytes),
    /// It waits for the machine's rest.
    AwaitIdle,
}

impl ScriptItem {
    /// The packet of an item that is a message, which has this number among the host's packets.
    pub fn packet(&self, number: u32) -> Option<Packet>
        ensures { result ≡ packet_of number (Some self.now) }
    {
        match self {
            ScriptItem::Send(t, bytes) => Some(Packet {
                origin: HOST,
                number,
                dest: Dest::Thread(*t),
                bytes: bytes.copy(),
            }),
            ScriptItem::AwaitIdle => None,
        }
    }

    /// The same item.
    pub fn copy(&self) -> ScriptItem
        ensures { result ≡ self.now }
    {
        match self {
            ScriptItem::Send(t, bytes) => ScriptItem::Send(*t, bytes.copy()),
            ScriptItem::AwaitIdle => ScriptItem::AwaitIdle,
        }
    }

    /// Whether the items are equal.
    pub fn same(&self, other: &ScriptItem) -> bool
        ensures { IsTrue result ↔ (self.now ≡ other.now) }
    {
        match (self, other) {
            (ScriptItem::Send(t, a), ScriptItem::Send(u, b)) => *t == *u && *a == *b,
            (ScriptItem::AwaitIdle, ScriptItem::AwaitIdle) => true,
            _ => false,
        }
    }
}

/// The items that are still to come. A contract sees their list.
#[derive(Drop)]
pub struct Script {
    items: Vec<ScriptItem>,
    /// How many items passed.
    passed: usize,
}

impl Model for Script {
    ghost use Rattle.std.specs.Prelude.{◌≤◌, List, drop, vec_len};
    ghost use Rattle.tn_host.specs.declared.script.ScriptItem.{ScriptItem};

    ghost Value = { List ScriptItem };

    ghost view = { λ s. drop s.passed s.items.items };

    ghost invariant = { λ s. s.passed ≤ vec_len s.items };
}

impl Script {
    /// A script of which all items are still to come.
    pub fn of(items: Vec<ScriptItem>) -> Script
        ensures { result ≡ items.items }
    {
        Script { items, passed: 0 }
    }

    /// The next item.
    #[inline(always)]
    pub fn next(&self) -> Option<&ScriptItem>
        ensures { option_copied result ≡ first_item self.now }
    {
        self.items.get(self.passed)
    }

    /// The next item has passed.
    pub fn pass(&mut self)
        requires { IsSome (first_item self.old) }
        ensures { self.new ≡ items_behind self.old }
    {
        self.passed += 1;
    }

    /// The items that are still to come.
    pub fn rest(&self) -> &[ScriptItem]
        ensures { result.now ≡ self.now }
    {
        &self.items[self.passed..]
    }

    /// The same items.
    pub fn copy(&self) -> Result<Script, AllocError>
        ensures { IfOk result (λ s. s ≡ self.now) }
    {
        let items = copy_items(self.items.allocator().clone()?, self.rest())?;
        Ok(Script::of(items))
    }

    /// Whether the same items are still to come.
    pub fn same(&self, other: &Script) -> bool
        ensures { IsTrue result ↔ (self.now ≡ other.now) }
    {
        same_items(self.rest(), other.rest())
    }
}

/// The same items.
fn copy_items(alloc: Global, items: &[ScriptItem]) -> Result<Vec<ScriptItem>, AllocError>
    ensures { IfOk result (λ all. all.items ≡ items.now) }
{
    let mut all = Vec::with_capacity(alloc, items.len())?;
    for item in items {
        all.push(item.copy())?;
    }
    Ok(all)
}

/// Whether the items are equal.
fn same_items(a: &[ScriptItem], b: &[ScriptItem]) -> bool
    ensures { IsTrue result ↔ (a.now ≡ b.now) }
{
    if a.len() != b.len() {
        return false;
    }
    for i in 0..a.len() {
        if !a[i].same(&b[i]) {
            return false;
        }
    }
    true
}
