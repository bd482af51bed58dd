//! Whether an event is enabled on a machine.

ghost use Rattle.std.specs.Prelude.{◌≡◌, is_some, option_and_then, option_copied, slice_get};
ghost use Rattle.tn_base.specs.declared.event.Event.TheVariants as event;
ghost use Rattle.tn_part.specs.Visits.{visit_event};
ghost use Rattle.tn_rows.specs.Events.{IsWorld, happened};
ghost use Rattle.tn_rows.specs.Places.{part_of};

use crate::has_parts::HasParts;
use crate::part::Part;
use crate::place::{detector, from_host, part_of, to_host};
use crate::visit::Visit;
use tn_base::ids::{PartId, ThreadId};
use tn_base::laws::law_links;

/// The part at a place, if the machine has the place.
fn part_at<M: HasParts>(machine: &M, p: PartId) -> Option<&Part<M::Link>>
    requires { IsWorld (M.world machine.now) }
    ensures { option_copied result ≡ slice_get (M.world machine.now).parts p.0 }
{
    if p.0 < machine.sites().part_count() {
        Some(machine.part(p))
    } else {
        None
    }
}

/// The part that a thread is on.
pub fn part_with<M: HasParts>(machine: &M, t: ThreadId) -> Option<&Part<M::Link>>
    requires { IsWorld (M.world machine.now) }
    ensures { option_copied result ≡ option_and_then (slice_get (M.world machine.now).parts) (part_of (M.world machine.now).shape t) }
{
    let p = part_of(machine.sites().shape(), t)?;
    part_at(machine, p)
}

/// Whether a thread can make a step.
pub fn can_turn<M: HasParts>(machine: &M, t: ThreadId) -> bool
    requires { IsWorld (M.world machine.now) }
    ensures { result ≡ is_some (happened (event.Turn t 1) (M.world machine.now)) }
{
    match part_with(machine, t) {
        Some(part) => part.can_turn(t),
        None => false,
    }
}

/// Whether a thread's packet can be delivered.
pub fn can_deliver<M: HasParts>(machine: &M, t: ThreadId) -> bool
    requires { IsWorld (M.world machine.now) }
    ensures { result ≡ is_some (happened (event.Deliver t) (M.world machine.now)) }
{
    match part_with(machine, t) {
        Some(part) => part.can_deliver(t),
        None => false,
    }
}

/// Whether a router can do something.
pub fn can_route<M: HasParts>(machine: &M, p: PartId) -> bool
    requires { IsWorld (M.world machine.now) }
    ensures { result ≡ is_some (happened (event.Route p) (M.world machine.now)) }
{
    match part_at(machine, p) {
        Some(part) => part.can_route(p),
        None => false,
    }
}

/// Whether a packet can go from a part to a link.
pub fn can_depart<M: HasParts>(machine: &M, p: PartId, l: PartId) -> bool
    requires { IsWorld (M.world machine.now) }
    ensures { result ≡ is_some (happened (event.Depart p l) (M.world machine.now)) }
{
    let sites = machine.sites();
    law_links(sites.shape());
    match sites.way_from(p, l) {
        Some(way) => machine.part(p).can_depart(machine.part(l), p, l, way),
        None => false,
    }
}

/// Whether a link's first packet can go to a part.
pub fn can_arrive<M: HasParts>(machine: &M, l: PartId, p: PartId) -> bool
    requires { IsWorld (M.world machine.now) }
    ensures { result ≡ is_some (happened (event.Arrive l p) (M.world machine.now)) }
{
    let sites = machine.sites();
    law_links(sites.shape());
    match sites.side_onto(l, p) {
        Some(side) => machine.part(p).can_arrive(machine.part(l), l, p, side),
        None => false,
    }
}

/// Whether the host can put its next message on its link.
pub fn can_put<M: HasParts>(machine: &M) -> bool
    requires { IsWorld (M.world machine.now) }
    ensures { result ≡ is_some (happened event.HostPut (M.world machine.now)) }
{
    let l = from_host(machine.sites());
    machine.part(PartId(0)).can_put(machine.part(l))
}

/// Whether the host can take a packet from its link.
pub fn can_take<M: HasParts>(machine: &M) -> bool
    requires { IsWorld (M.world machine.now) }
    ensures { result ≡ is_some (happened event.HostTake (M.world machine.now)) }
{
    let l = to_host(machine.sites());
    machine.part(PartId(0)).can_take(machine.part(l))
}

/// Whether the detector can visit a part.
pub fn can_visit<M: HasParts>(machine: &M, visit: Visit, p: PartId) -> bool
    requires { IsWorld (M.world machine.now) }
    ensures { result ≡ is_some (happened (visit_event visit p) (M.world machine.now)) }
{
    let shape = machine.sites().shape();
    law_links(shape);
    if p.0 >= shape.visited() {
        return false;
    }
    let d = detector(machine.sites());
    machine.part(p).can_visit(machine.part(d), visit, p)
}

/// Whether the detector can begin to confirm.
pub fn can_begin<M: HasParts>(machine: &M) -> bool
    requires { IsWorld (M.world machine.now) }
    ensures { result ≡ is_some (happened event.Begin (M.world machine.now)) }
{
    let d = detector(machine.sites());
    machine.part(d).can_begin()
}

/// Whether the detector can announce.
pub fn can_announce<M: HasParts>(machine: &M) -> bool
    requires { IsWorld (M.world machine.now) }
    ensures { result ≡ is_some (happened event.Announce (M.world machine.now)) }
{
    let d = detector(machine.sites());
    machine.part(d).can_announce()
}
