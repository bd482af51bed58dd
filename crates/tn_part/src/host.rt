//! Events on the host and one of its links.

ghost use Rattle.std.specs.Prelude.{◌≡◌, ◌&&◌, is_some};
ghost use Rattle.tn_base.specs.declared.event.Event.TheVariants as event;
ghost use Rattle.tn_host.specs.Rows.{can_depart, offered};
ghost use Rattle.tn_node.specs.NodeRows.{can_arrive};
ghost use Rattle.tn_rows.specs.Events.{meets};
ghost use Rattle.tn_rows.specs.PartView.{HostV, LinkV};
ghost use Rattle.tn_tile.specs.Turns.{moved};
ghost use Rattle.tn_part.specs.Joint.{DoesBoth, DoesBothOr};
ghost use Rattle.tn_rows.specs.Roles.{IsHost, IsLink};

use crate::part::{Contents, Part};
use std::alloc::AllocError;
use tn_host::host::Host;
use tn_link::link::Link;
use tn_tile::deliver::Did;

/// Whether the host has a message to send, which can be counted.
fn can_send(host: &Host) -> bool
    ensures { result ≡ (is_some (offered host.now.now) && can_depart host.now.now.node) }
{
    host.offer().is_some() && host.counter() < i64::MAX
}

/// Whether a packet that the host takes can be counted.
fn counts_one(host: &Host) -> bool
    ensures { result ≡ can_arrive host.now.now.node }
{
    i64::MIN < host.counter()
}

/// The host puts its next message on the link.
fn put_host<L: Link>(host: &mut Host, link: &mut L) -> Did
    ensures { DoesBoth (moved result) (meets event.HostPut (HostV host.old.now) (LinkV (L.content link.old))) (HostV host.old.now) (LinkV (L.content link.old)) (HostV host.new.now) (LinkV (L.content link.new)) }
{
    if host.counter() == i64::MAX {
        return Did::Nothing;
    }
    let Some(packet) = host.offer() else {
        return Did::Nothing;
    };
    if link.put(&packet).is_err() {
        return Did::Nothing;
    }
    host.depart();
    Did::Moved
}

/// The host takes the link's first packet, which may want memory.
fn take_host<L: Link>(host: &mut Host, link: &mut L) -> Result<Did, AllocError>
    ensures { DoesBothOr result (meets event.HostTake (HostV host.old.now) (LinkV (L.content link.old))) (HostV host.old.now) (LinkV (L.content link.old)) (HostV host.new.now) (LinkV (L.content link.new)) }
{
    if !can_take_host(host, link) {
        return Ok(Did::Nothing);
    }
    host.reserve()?;
    let Some(packet) = link.take() else {
        return Ok(Did::Nothing);
    };
    host.accept(&packet);
    Ok(Did::Moved)
}

/// Whether the host can put its next message on the link.
fn can_put_host<L: Link>(host: &Host, link: &L) -> bool
    ensures { result ≡ is_some (meets event.HostPut (HostV host.now.now) (LinkV (L.content link.now))) }
{
    can_send(host) && link.len() < link.capacity()
}

/// Whether the host can take the link's first packet.
fn can_take_host<L: Link>(host: &Host, link: &L) -> bool
    ensures { result ≡ is_some (meets event.HostTake (HostV host.now.now) (LinkV (L.content link.now))) }
{
    match link.front() {
        Some(_) => counts_one(host),
        None => false,
    }
}

impl<L: Link> Part<L> {
    /// The host puts its next message on the link.
    pub fn put(&mut self, link: &mut Part<L>) -> Did
        requires host { IsHost self.old }
        requires link { IsLink link.old }
        ensures { DoesBoth (moved result) (meets event.HostPut self.old link.old) self.old link.old self.new link.new }
    {
        match (&mut self.contents, &mut link.contents) {
            (Contents::Host(host), Contents::Link(link)) => put_host(host, link),
            _ => Did::Nothing,
        }
    }

    /// The host takes the link's first packet, which may want memory.
    pub fn take(&mut self, link: &mut Part<L>) -> Result<Did, AllocError>
        requires host { IsHost self.old }
        requires link { IsLink link.old }
        ensures { DoesBothOr result (meets event.HostTake self.old link.old) self.old link.old self.new link.new }
    {
        match (&mut self.contents, &mut link.contents) {
            (Contents::Host(host), Contents::Link(link)) => take_host(host, link),
            _ => Ok(Did::Nothing),
        }
    }

    /// Whether the host can put its next message on the link.
    pub fn can_put(&self, link: &Part<L>) -> bool
        requires host { IsHost self.now }
        requires link { IsLink link.now }
        ensures { result ≡ is_some (meets event.HostPut self.now link.now) }
    {
        match (&self.contents, &link.contents) {
            (Contents::Host(host), Contents::Link(link)) => can_put_host(host, link),
            _ => false,
        }
    }

    /// Whether the host can take the link's first packet.
    pub fn can_take(&self, link: &Part<L>) -> bool
        requires host { IsHost self.now }
        requires link { IsLink link.now }
        ensures { result ≡ is_some (meets event.HostTake self.now link.now) }
    {
        match (&self.contents, &link.contents) {
            (Contents::Host(host), Contents::Link(link)) => can_take_host(host, link),
            _ => false,
        }
    }
}
