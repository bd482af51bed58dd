//! The parts of an event.

ghost use Rattle.std.specs.Prelude.{◌≡◌};
ghost use Rattle.tn_stamped.specs.Placing.{ArePartsOf, greater_of, lesser_of};

use tn_base::event::Event;
use tn_base::ids::PartId;
use tn_base::laws::{law_links, law_tile_parts, law_tile_threads};
use tn_base::port::Port;
use tn_part::place::{detector, from_host, to_host};
use tn_part::site::Sites;

/// The parts of an event of a machine.
#[derive(Clone, Copy, PartialEq, Eq, Debug)]
pub enum EventParts {
    /// The machine has no such parts, or they are not joined so.
    Nowhere,
    One(PartId),
    /// The lesser part, the greater one, and the port at which they are joined.
    Two(PartId, PartId, Port),
}

/// The parts of an event.
pub fn parts_of(sites: &Sites, e: &Event) -> EventParts
    ensures { ArePartsOf sites.now e.now result }
{
    law_links(sites.shape());
    law_tile_threads(sites.shape());
    law_tile_parts(sites.shape());
    if let Some(p) = sites.place_of(e) {
        return EventParts::One(p);
    }
    let Some(at) = sites.port_of(e) else {
        return EventParts::Nowhere;
    };
    EventParts::Two(lesser_of(e), greater_of(sites, e), at)
}

fn lesser_of(e: &Event) -> PartId
    ensures { result.0 ≡ lesser_of e.now }
{
    match *e {
        Event::Depart(p, _)
        | Event::Arrive(_, p)
        | Event::Report(p)
        | Event::Confirm(p)
        | Event::Release(p)
        | Event::Go(p) => p,
        Event::HostPut
        | Event::HostTake
        | Event::Turn(_, _)
        | Event::Deliver(_)
        | Event::Route(_)
        | Event::Begin
        | Event::Announce => PartId(0),
    }
}

fn greater_of(sites: &Sites, e: &Event) -> PartId
    ensures { result.0 ≡ greater_of sites.now e.now }
{
    match *e {
        Event::Depart(_, l) | Event::Arrive(l, _) => l,
        Event::HostPut => from_host(sites),
        Event::HostTake => to_host(sites),
        Event::Report(_)
        | Event::Confirm(_)
        | Event::Release(_)
        | Event::Go(_)
        | Event::Turn(_, _)
        | Event::Deliver(_)
        | Event::Route(_)
        | Event::Begin
        | Event::Announce => detector(sites),
    }
}
