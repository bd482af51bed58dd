//! What stands at each place of a machine, kept so that no event asks the shape for it.

ghost use Rattle.std.specs.Prelude.{◌≡◌, IfOk, MatchOption, None, Some, option_map, if◌then◌else◌};
ghost use Rattle.tn_base.specs.declared.part.Kind.TheVariants as kind;
ghost use Rattle.tn_base.specs.Parts.{kind_of, part_count};
ghost use Rattle.tn_rows.specs.Places.{is_router, leads_from, leads_to, link_side, link_way, places, side_between, way_between};
ghost use Rattle.tn_part.specs.Meeting.{one_place, port_of};
ghost use Rattle.tn_part.specs.Sites.{site_of, sites};

use crate::place::{detector, part_of};
use std::alloc::{AllocError, Global};
use std::marker::Model;
use tn_base::event::Event;
use tn_base::ids::{PartId, ThreadId};
use tn_base::message::Dest;
use tn_base::part::Kind;
use tn_base::port::Port;
use tn_base::shape::Shape;

/// What stands at a place of a machine. Of a link also the way by which it leads away from the part that it comes from,
/// and the side from which it leads to a router; `Here` elsewhere.
#[derive(Clone, Copy)]
pub struct Site {
    /// What stands there.
    pub kind: Kind,
    /// The way of a link.
    pub way: Port,
    /// The side from which a link leads to a router.
    pub side: Port,
}

/// What stands at each place of a machine of a shape, and how each link there joins its neighbours.
#[derive(Drop)]
pub struct Sites {
    shape: Shape,
    count: u32,
    known: Vec<Site>,
}

impl Model for Sites {
    ghost use Rattle.tn_base.specs.declared.shape.ShapeNumbers.{ShapeNumbers};
    ghost use Rattle.tn_part.specs.Sites.{AreKnown};

    ghost Value = { ShapeNumbers };

    ghost view = { λ s. s.shape };

    ghost invariant = { λ s. AreKnown s.shape s.count s.known.items };
}

impl Sites {
    /// The places of a shape.
    pub fn of(alloc: Global, shape: &Shape) -> Result<Sites, AllocError>
        ensures { IfOk result (λ s. s ≡ shape.now) }
    {
        let known = sites_of(alloc, shape)?;
        Ok(Sites {
            shape: *shape,
            count: shape.part_count(),
            known,
        })
    }

    /// The same places.
    pub fn copy(&self) -> Result<Sites, AllocError>
        ensures { IfOk result (λ s. s ≡ self.now) }
    {
        Ok(Sites {
            shape: self.shape,
            count: self.count,
            known: self.known.clone()?,
        })
    }

    /// The numbers of the machine.
    pub fn shape(&self) -> &Shape
        ensures { result.now ≡ self.now }
    {
        &self.shape
    }

    /// How many parts the machine has.
    pub fn part_count(&self) -> u32
        ensures { result ≡ part_count self.now }
    {
        self.count
    }

    /// What stands at each place, in order.
    pub fn all(&self) -> &[Site]
        ensures { result.now ≡ sites self.now }
    {
        &self.known
    }

    /// What stands at a place; None past the last part.
    pub fn site(&self, p: PartId) -> Option<&Site>
        ensures { MatchOption result (kind_of self.now p.0 ≡ kind.Detector) (λ site. site.now ≡ site_of self.now p.0) }
    {
        self.known.get(p.0 as usize)
    }

    /// The way by which a link leads away from a part, where it does.
    pub fn way_from(&self, p: PartId, l: PartId) -> Option<Port>
        ensures { result ≡ (if leads_from p.0 (kind_of self.now l.0) then Some (link_way self.now l.0) else None) }
    {
        let site = self.site(l)?;
        match site.kind {
            Kind::Link { from, .. } if from == p => Some(site.way),
            _ => None,
        }
    }

    /// The side from which a link leads to a part, where it does; `Here` where the part is no router.
    pub fn side_onto(&self, l: PartId, p: PartId) -> Option<Port>
        ensures { result ≡ (if leads_to p.0 (kind_of self.now l.0) then Some (link_side self.now l.0) else None) }
    {
        let site = self.site(l)?;
        match site.kind {
            Kind::Link { to, .. } if to == p => Some(site.side),
            _ => None,
        }
    }
}

impl Sites {
    /// The place of an event on one part, if the machine has such a part.
    pub fn place_of(&self, e: &Event) -> Option<PartId>
        ensures { option_map (λ p. p.0) result ≡ one_place (places self.now e.now) }
    {
        match *e {
            Event::Turn(t, _) | Event::Deliver(t) => part_of(&self.shape, t),
            Event::Route(p) => self.router_at(p),
            Event::Begin | Event::Announce => Some(detector(self)),
            Event::Depart(_, _)
            | Event::Arrive(_, _)
            | Event::HostPut
            | Event::HostTake
            | Event::Report(_)
            | Event::Confirm(_)
            | Event::Release(_)
            | Event::Go(_) => None,
        }
    }

    /// The same place, if a router stands there.
    fn router_at(&self, p: PartId) -> Option<PartId>
        ensures { result ≡ (if is_router (kind_of self.now p.0) then Some p else None) }
    {
        match self.site(p)?.kind {
            Kind::Router(_) => Some(p),
            Kind::Host | Kind::Tile(_) | Kind::Link { .. } | Kind::Detector => None,
        }
    }

    /// The port at which the parts of an event on two parts are joined, if the machine has two such parts.
    pub fn port_of(&self, e: &Event) -> Option<Port>
        ensures { result ≡ port_of self.now e.now }
    {
        match *e {
            Event::Depart(p, l) => self.way_from(p, l),
            Event::Arrive(l, p) => self.side_onto(l, p),
            Event::HostPut | Event::HostTake => Some(Port::Here),
            Event::Report(p) | Event::Confirm(p) | Event::Release(p) | Event::Go(p) => {
                if p.0 < self.shape.visited() {
                    Some(Port::Here)
                } else {
                    None
                }
            }
            Event::Turn(_, _)
            | Event::Deliver(_)
            | Event::Route(_)
            | Event::Begin
            | Event::Announce => None,
        }
    }
}

/// The way between two neighbours.
fn way_between(a: Kind, b: Kind) -> Port
    ensures { result ≡ way_between a b }
{
    match (a, b) {
        (Kind::Tile(a), Kind::Tile(b)) => a.port(&Dest::Thread(ThreadId(b.0))),
        (Kind::Tile(_), Kind::Router(_)) => Port::Up,
        (Kind::Router(_), Kind::Tile(_)) => Port::Down,
        (Kind::Router(a), Kind::Router(b)) => a.way_to(b),
        (Kind::Router(_), Kind::Host) => Port::HostPort,
        _ => Port::Here,
    }
}

/// The side of a router from which a packet comes that came from this neighbour.
fn side_between(a: Kind, b: Kind) -> Port
    ensures { result ≡ side_between a b }
{
    match (a, b) {
        (Kind::Router(_), Kind::Tile(_)) => Port::Up,
        (Kind::Router(a), Kind::Router(b)) => a.way_to(b),
        (Kind::Router(_), Kind::Host) => Port::HostPort,
        _ => Port::Here,
    }
}

/// What stands at a place of the machine; past the last part the detector's kind.
fn kind_at(shape: &Shape, p: PartId) -> Kind
    ensures { result ≡ kind_of shape.now p.0 }
{
    if p.0 < shape.part_count() {
        shape.kind(p)
    } else {
        Kind::Detector
    }
}

/// What stands at a place, and how it joins its neighbours.
fn site_of(shape: &Shape, p: PartId) -> Site
    ensures { result ≡ site_of shape.now p.0 }
{
    let kind = kind_at(shape, p);
    let (way, side) = match kind {
        Kind::Link { from, to } => {
            let (from, to) = (kind_at(shape, from), kind_at(shape, to));
            (way_between(from, to), side_between(to, from))
        }
        _ => (Port::Here, Port::Here),
    };
    Site { kind, way, side }
}

/// What stands at all places of a machine.
fn sites_of(alloc: Global, shape: &Shape) -> Result<Vec<Site>, AllocError>
    ensures { IfOk result (λ all. all.items ≡ sites shape.now) }
{
    let count = shape.part_count();
    let mut all = Vec::with_capacity(alloc, count as usize)?;
    for p in 0..count {
        all.push(site_of(shape, PartId(p)))?;
    }
    Ok(all)
}
