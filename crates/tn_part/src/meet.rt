//! Events on a part, or on two parts, given as an event.

ghost use Rattle.std.specs.Prelude.{◌≡◌};
ghost use Rattle.tn_base.specs.Does.{Does};
ghost use Rattle.tn_part.specs.Joint.{DoesBothOr};
ghost use Rattle.tn_part.specs.Meeting.{IsJoined, IsNoTurn};
ghost use Rattle.tn_rows.specs.Events.{after, answer_at, carried, crossing_of, given_to, meets, put_by, told};
ghost use Rattle.tn_rows.specs.Roles.{IsWay};
ghost use Rattle.tn_stamp.specs.declared.entry.Crossing.TheVariants as crossing;
ghost use Rattle.tn_tile.specs.Turns.{moved};

use crate::part::{Contents, Part};
use crate::visit::Visit;
use std::alloc::AllocError;
use tn_base::event::Event;
use tn_base::ids::PartId;
use tn_base::message::Packet;
use tn_base::port::Port;
use tn_detect::answer::value_of;
use tn_link::link::Link;
use tn_node::facts::PartFacts;
use tn_stamp::entry::Crossing;
use tn_tile::deliver::Did;

impl<L: Link> Part<L> {
    /// The packet that this part gives to a link, which leads away by this way.
    fn given(&self, l: PartId, way: Port) -> Option<Packet>
        requires { IsWay self.now l.0 way }
        ensures { result ≡ given_to l.0 self.now }
    {
        match &self.contents {
            Contents::Tile(tile) => tile.offer(way).map(|packet| packet.copy()),
            Contents::Router(router) => router.offer(way).map(|packet| packet.copy()),
            Contents::Link(_) | Contents::Host(_) | Contents::Detector(_) => None,
        }
    }

    /// The packet that a link gives.
    fn carried(&self) -> Option<Packet>
        ensures { result ≡ carried self.now }
    {
        match &self.contents {
            Contents::Link(link) => link.front().map(|packet| packet.copy()),
            Contents::Tile(_) | Contents::Router(_) | Contents::Host(_) | Contents::Detector(_) =>
                None,
        }
    }

    /// The packet that the host puts on its link.
    fn put_by(&self) -> Option<Packet>
        ensures { result ≡ put_by self.now }
    {
        match &self.contents {
            Contents::Host(host) => host.offer(),
            Contents::Tile(_) | Contents::Router(_) | Contents::Link(_) | Contents::Detector(_) =>
                None,
        }
    }

    /// The detector's answer, as a number; 0 on every other part.
    fn answer(&self) -> u32
        ensures { result ≡ answer_at self.now }
    {
        match &self.contents {
            Contents::Detector(detector) => value_of(detector.answer()),
            Contents::Tile(_) | Contents::Router(_) | Contents::Link(_) | Contents::Host(_) => 0,
        }
    }

    /// What this part and the detector tell one another.
    fn told(&self, detector: &Part<L>) -> Option<PartFacts>
        ensures { result ≡ told self.now detector.now }
    {
        let facts = self.facts()?;
        Some(PartFacts {
            value: detector.answer(),
            ..facts
        })
    }

    /// What passes between this part and another one in an event. They are joined at this port.
    pub fn crossing(&self, high: &Part<L>, e: Event, at: Port) -> Option<Crossing>
        requires { IsJoined e self.now high.now at }
        ensures { result ≡ crossing_of e self.now high.now }
    {
        match e {
            Event::Depart(_, l) => self.given(l, at).map(Crossing::Packet),
            Event::Arrive(_, _) | Event::HostTake => high.carried().map(Crossing::Packet),
            Event::HostPut => self.put_by().map(Crossing::Packet),
            Event::Report(_) | Event::Confirm(_) | Event::Release(_) | Event::Go(_) => {
                self.told(high).map(Crossing::View)
            }
            Event::Turn(_, _)
            | Event::Deliver(_)
            | Event::Route(_)
            | Event::Begin
            | Event::Announce => None,
        }
    }

    /// An event on this part and another one, which are joined at this port. A letter for the host may want memory.
    pub fn meet(&mut self, high: &mut Part<L>, e: Event, at: Port) -> Result<Did, AllocError>
        requires { IsJoined e self.old high.old at }
        ensures { DoesBothOr result (meets e self.old high.old) self.old high.old self.new high.new }
    {
        match e {
            Event::Depart(p, l) => Ok(self.depart(high, p, l, at)),
            Event::Arrive(l, p) => Ok(self.arrive(high, l, p, at)),
            Event::HostPut => Ok(self.put(high)),
            Event::HostTake => self.take(high),
            Event::Report(p) => Ok(self.visit(high, Visit::Report, p)),
            Event::Confirm(p) => Ok(self.visit(high, Visit::Confirm, p)),
            Event::Release(p) => Ok(self.visit(high, Visit::Release, p)),
            Event::Go(p) => Ok(self.visit(high, Visit::Go, p)),
            Event::Turn(_, _)
            | Event::Deliver(_)
            | Event::Route(_)
            | Event::Begin
            | Event::Announce => Ok(Did::Nothing),
        }
    }

    /// An event on this part alone that is no turn.
    pub fn one(&mut self, e: Event) -> Did
        requires { IsNoTurn e }
        ensures { Does (moved result) (after e crossing.None self.old) self.old self.new }
    {
        match e {
            Event::Deliver(t) => self.deliver(t),
            Event::Route(p) => self.route(p),
            Event::Begin => self.begin(),
            Event::Announce => self.announce(),
            Event::Turn(_, _)
            | Event::Depart(_, _)
            | Event::Arrive(_, _)
            | Event::HostPut
            | Event::HostTake
            | Event::Report(_)
            | Event::Confirm(_)
            | Event::Release(_)
            | Event::Go(_) => Did::Nothing,
        }
    }
}
