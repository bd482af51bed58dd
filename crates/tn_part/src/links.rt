//! Events on a tile or a router and a link: departures and arrivals.

ghost use Rattle.std.specs.Prelude.{◌≡◌, is_some};
ghost use Rattle.tn_base.specs.declared.event.Event.TheVariants as event;
ghost use Rattle.tn_rows.specs.Events.{meets};
ghost use Rattle.tn_rows.specs.PartView.{LinkV, RouterV, TileV};
ghost use Rattle.tn_rows.specs.Places.{link_side, link_way};
ghost use Rattle.tn_router.specs.Rows.{accept_row as router_accepts, depart_row as router_departs};
ghost use Rattle.tn_tile.specs.Rows.{accept_row, depart_row};
ghost use Rattle.tn_tile.specs.Turns.{moved};
ghost use Rattle.tn_part.specs.Joint.{DoesBoth};
ghost use Rattle.tn_rows.specs.Roles.{IsLink, IsSide, IsWay, NoLink};

use crate::part::{Contents, Part};
use tn_base::ids::PartId;
use tn_base::message::Packet;
use tn_base::port::Port;
use tn_link::link::Link;
use tn_router::router::Router;
use tn_tile::deliver::Did;
use tn_tile::tile::Tile;

/// Whether a tile can give a packet to a link that leads away by this way.
fn can_give(tile: &Tile, way: Port) -> bool
    ensures { result ≡ is_some (depart_row way tile.now.now) }
{
    tile.counter() < i64::MAX && tile.offer(way).is_some()
}

/// Whether a tile can take this packet from a link.
fn can_take(tile: &Tile, packet: &Packet) -> bool
    ensures { result ≡ is_some (accept_row tile.now.plan packet.now tile.now.now) }
{
    if !tile.counts() {
        return false;
    }
    i64::MIN < tile.counter() && tile.accepts(packet)
}

/// A packet goes from a tile to the link, which leads away by this way.
fn depart_tile<L: Link>(tile: &mut Tile, link: &mut L, p: PartId, l: PartId, way: Port) -> Did
    requires { way ≡ link_way tile.old.plan.shape l.0 }
    ensures { DoesBoth (moved result) (meets (event.Depart p l) (TileV tile.old) (LinkV (L.content link.old))) (TileV tile.old) (LinkV (L.content link.old)) (TileV tile.new) (LinkV (L.content link.new)) }
{
    if tile.counter() == i64::MAX {
        return Did::Nothing;
    }
    let Some(packet) = tile.offer(way) else {
        return Did::Nothing;
    };
    if link.put(packet).is_err() {
        return Did::Nothing;
    }
    tile.depart(way);
    Did::Moved
}

/// A link's first packet goes to a tile.
fn arrive_tile<L: Link>(tile: &mut Tile, link: &mut L, l: PartId, p: PartId) -> Did
    ensures { DoesBoth (moved result) (meets (event.Arrive l p) (TileV tile.old) (LinkV (L.content link.old))) (TileV tile.old) (LinkV (L.content link.old)) (TileV tile.new) (LinkV (L.content link.new)) }
{
    let Some(packet) = link.front() else {
        return Did::Nothing;
    };
    if !can_take(tile, packet) {
        return Did::Nothing;
    }
    let _dead = tile.accept(packet);
    let _packet = link.take();
    Did::Moved
}

/// Whether a packet can go from a tile to the link, which leads away by this way.
fn can_depart_tile<L: Link>(tile: &Tile, link: &L, p: PartId, l: PartId, way: Port) -> bool
    requires { way ≡ link_way tile.now.plan.shape l.0 }
    ensures { result ≡ is_some (meets (event.Depart p l) (TileV tile.now) (LinkV (L.content link.now))) }
{
    can_give(tile, way) && link.len() < link.capacity()
}

/// Whether a link's first packet can go to a tile.
fn can_arrive_tile<L: Link>(tile: &Tile, link: &L, l: PartId, p: PartId) -> bool
    ensures { result ≡ is_some (meets (event.Arrive l p) (TileV tile.now) (LinkV (L.content link.now))) }
{
    match link.front() {
        Some(packet) => can_take(tile, packet),
        None => false,
    }
}

/// Whether a router can give a packet to a link that leads away by this way.
fn can_send(router: &Router, way: Port) -> bool
    ensures { result ≡ is_some (router_departs way router.now.now) }
{
    router.counter() < i64::MAX && router.offer(way).is_some()
}

/// Whether a router can take this packet from a link that leads to it from this side.
fn can_receive(router: &Router, side: Port, packet: &Packet) -> bool
    ensures { result ≡ is_some (router_accepts router.now.plan side packet.now router.now.now) }
{
    i64::MIN < router.counter() && router.accepts(side, packet)
}

/// A packet goes from a router to the link, which leads away by this way.
fn depart_router<L: Link>(router: &mut Router, link: &mut L, p: PartId, l: PartId, way: Port) -> Did
    requires { way ≡ link_way router.old.plan.shape l.0 }
    ensures { DoesBoth (moved result) (meets (event.Depart p l) (RouterV router.old) (LinkV (L.content link.old))) (RouterV router.old) (LinkV (L.content link.old)) (RouterV router.new) (LinkV (L.content link.new)) }
{
    if router.counter() == i64::MAX {
        return Did::Nothing;
    }
    let Some(packet) = router.offer(way) else {
        return Did::Nothing;
    };
    if link.put(packet).is_err() {
        return Did::Nothing;
    }
    router.depart(way);
    Did::Moved
}

/// A link's first packet goes to a router, to which the link leads from this side.
fn arrive_router<L: Link>(
    router: &mut Router,
    link: &mut L,
    l: PartId,
    p: PartId,
    side: Port,
) -> Did
    requires { side ≡ link_side router.old.plan.shape l.0 }
    ensures { DoesBoth (moved result) (meets (event.Arrive l p) (RouterV router.old) (LinkV (L.content link.old))) (RouterV router.old) (LinkV (L.content link.old)) (RouterV router.new) (LinkV (L.content link.new)) }
{
    let Some(packet) = link.front() else {
        return Did::Nothing;
    };
    if !can_receive(router, side, packet) {
        return Did::Nothing;
    }
    router.accept(side, packet);
    let _taken = link.take();
    Did::Moved
}

/// Whether a packet can go from a router to the link, which leads away by this way.
fn can_depart_router<L: Link>(router: &Router, link: &L, p: PartId, l: PartId, way: Port) -> bool
    requires { way ≡ link_way router.now.plan.shape l.0 }
    ensures { result ≡ is_some (meets (event.Depart p l) (RouterV router.now) (LinkV (L.content link.now))) }
{
    can_send(router, way) && link.len() < link.capacity()
}

/// Whether a link's first packet can go to a router, to which the link leads from this side.
fn can_arrive_router<L: Link>(router: &Router, link: &L, l: PartId, p: PartId, side: Port) -> bool
    requires { side ≡ link_side router.now.plan.shape l.0 }
    ensures { result ≡ is_some (meets (event.Arrive l p) (RouterV router.now) (LinkV (L.content link.now))) }
{
    match link.front() {
        Some(packet) => can_receive(router, side, packet),
        None => false,
    }
}

impl<L: Link> Part<L> {
    /// A packet goes from this part to a link, which leads away by this way.
    pub fn depart(&mut self, link: &mut Part<L>, p: PartId, l: PartId, way: Port) -> Did
        requires way { IsWay self.old l.0 way }
        requires link { IsLink link.old }
        ensures { DoesBoth (moved result) (meets (event.Depart p l) self.old link.old) self.old link.old self.new link.new }
    {
        match (&mut self.contents, &mut link.contents) {
            (Contents::Tile(tile), Contents::Link(link)) => depart_tile(tile, link, p, l, way),
            (Contents::Router(router), Contents::Link(link)) => {
                depart_router(router, link, p, l, way)
            }
            _ => Did::Nothing,
        }
    }

    /// A link's first packet goes to this part, to which the link leads from this side.
    pub fn arrive(&mut self, link: &mut Part<L>, l: PartId, p: PartId, side: Port) -> Did
        requires side { IsSide self.old l.0 side }
        requires part { NoLink self.old }
        ensures { DoesBoth (moved result) (meets (event.Arrive l p) self.old link.old) self.old link.old self.new link.new }
    {
        match (&mut self.contents, &mut link.contents) {
            (Contents::Tile(tile), Contents::Link(link)) => arrive_tile(tile, link, l, p),
            (Contents::Router(router), Contents::Link(link)) => {
                arrive_router(router, link, l, p, side)
            }
            _ => Did::Nothing,
        }
    }

    /// Whether a packet can go from this part to a link, which leads away by this way.
    pub fn can_depart(&self, link: &Part<L>, p: PartId, l: PartId, way: Port) -> bool
        requires way { IsWay self.now l.0 way }
        requires link { IsLink link.now }
        ensures { result ≡ is_some (meets (event.Depart p l) self.now link.now) }
    {
        match (&self.contents, &link.contents) {
            (Contents::Tile(tile), Contents::Link(link)) => can_depart_tile(tile, link, p, l, way),
            (Contents::Router(router), Contents::Link(link)) => {
                can_depart_router(router, link, p, l, way)
            }
            _ => false,
        }
    }

    /// Whether a link's first packet can go to this part, to which the link leads from this side.
    pub fn can_arrive(&self, link: &Part<L>, l: PartId, p: PartId, side: Port) -> bool
        requires side { IsSide self.now l.0 side }
        requires part { NoLink self.now }
        ensures { result ≡ is_some (meets (event.Arrive l p) self.now link.now) }
    {
        match (&self.contents, &link.contents) {
            (Contents::Tile(tile), Contents::Link(link)) => can_arrive_tile(tile, link, l, p),
            (Contents::Router(router), Contents::Link(link)) => {
                can_arrive_router(router, link, l, p, side)
            }
            _ => false,
        }
    }
}
