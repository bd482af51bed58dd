//! The first event that is enabled on a machine.

ghost use Rattle.std.specs.Prelude.{◌≡◌, ◌<◌, MatchOption};
ghost use Rattle.tn_base.specs.Parts.{part_count};
ghost use Rattle.tn_part.specs.First.{First, FirstOf};
ghost use Rattle.tn_part.specs.Visits.{visit_event};
ghost use Rattle.tn_rows.specs.Events.{IsWorld, Rests};
ghost use Rattle.tn_rows.specs.Listed.{arrivals, arrivals_from, by_part, deliveries, departures, departures_from, listed, of_detector, of_host, routings, turns};

use crate::can::{
    can_announce, can_arrive, can_begin, can_deliver, can_depart, can_put, can_route, can_take,
    can_turn, can_visit,
};
use crate::has_parts::HasParts;
use crate::visit::Visit;
use tn_base::event::Event;
use tn_base::ids::PartId;
use tn_base::laws::law_threads;

/// The first event in their order that is enabled: turns by thread, then deliveries by thread, departures by part
/// and link, arrivals by link, routings by router, the host's events, and the detector's events.
pub fn first_enabled<M: HasParts>(machine: &M) -> Option<Event>
    requires { IsWorld (M.world machine.now) }
    ensures { MatchOption result (Rests (M.world machine.now)) (First (M.world machine.now) (listed (M.world machine.now).shape)) }
{
    law_threads(machine.sites().shape());
    if let Some(e) = first_turn(machine) {
        return Some(e);
    }
    if let Some(e) = first_delivery(machine) {
        return Some(e);
    }
    if let Some(e) = first_departure(machine) {
        return Some(e);
    }
    if let Some(e) = first_arrival(machine) {
        return Some(e);
    }
    if let Some(e) = first_routing(machine) {
        return Some(e);
    }
    if let Some(e) = first_of_host(machine) {
        return Some(e);
    }
    first_of_detector(machine)
}

/// The first thread that can make a step.
fn first_turn<M: HasParts>(machine: &M) -> Option<Event>
    requires { IsWorld (M.world machine.now) }
    ensures { FirstOf (M.world machine.now) (turns (M.world machine.now).shape) result }
{
    let shape = machine.sites().shape();
    for i in 0..shape.thread_count() {
        let t = shape.thread_at(i);
        if can_turn(machine, t) {
            return Some(Event::Turn(t, 1));
        }
    }
    None
}

/// The first thread whose packet can be delivered.
fn first_delivery<M: HasParts>(machine: &M) -> Option<Event>
    requires { IsWorld (M.world machine.now) }
    ensures { FirstOf (M.world machine.now) (deliveries (M.world machine.now).shape) result }
{
    let shape = machine.sites().shape();
    for i in 0..shape.thread_count() {
        let t = shape.thread_at(i);
        if can_deliver(machine, t) {
            return Some(Event::Deliver(t));
        }
    }
    None
}

/// The first part that can give a packet to a link.
fn first_departure<M: HasParts>(machine: &M) -> Option<Event>
    requires { IsWorld (M.world machine.now) }
    ensures { FirstOf (M.world machine.now) (departures (M.world machine.now).shape) result }
{
    for p in 0..machine.sites().shape().part_count() {
        if let Some(e) = departure_from(machine, PartId(p)) {
            return Some(e);
        }
    }
    None
}

/// The first link that can give a packet to a part.
fn first_arrival<M: HasParts>(machine: &M) -> Option<Event>
    requires { IsWorld (M.world machine.now) }
    ensures { FirstOf (M.world machine.now) (arrivals (M.world machine.now).shape) result }
{
    for l in 0..machine.sites().shape().part_count() {
        if let Some(e) = arrival_from(machine, PartId(l)) {
            return Some(e);
        }
    }
    None
}

/// The first router that can do something.
fn first_routing<M: HasParts>(machine: &M) -> Option<Event>
    requires { IsWorld (M.world machine.now) }
    ensures { FirstOf (M.world machine.now) (routings (M.world machine.now).shape) result }
{
    for p in 0..machine.sites().shape().part_count() {
        if can_route(machine, PartId(p)) {
            return Some(Event::Route(PartId(p)));
        }
    }
    None
}

/// The first event of the host that can happen.
fn first_of_host<M: HasParts>(machine: &M) -> Option<Event>
    requires { IsWorld (M.world machine.now) }
    ensures { FirstOf (M.world machine.now) of_host result }
{
    if can_put(machine) {
        return Some(Event::HostPut);
    }
    if can_take(machine) {
        return Some(Event::HostTake);
    }
    None
}

/// The first event of the detector that can happen: reports by part, Begin, confirmations by part, Announce, releases by part, and
/// parts that go on.
fn first_of_detector<M: HasParts>(machine: &M) -> Option<Event>
    requires { IsWorld (M.world machine.now) }
    ensures { FirstOf (M.world machine.now) (of_detector (M.world machine.now).shape) result }
{
    if let Some(e) = first_visit(machine, Visit::Report) {
        return Some(e);
    }
    if can_begin(machine) {
        return Some(Event::Begin);
    }
    if let Some(e) = first_visit(machine, Visit::Confirm) {
        return Some(e);
    }
    if can_announce(machine) {
        return Some(Event::Announce);
    }
    if let Some(e) = first_visit(machine, Visit::Release) {
        return Some(e);
    }
    first_visit(machine, Visit::Go)
}

/// The first visit of a kind that can happen.
fn first_visit<M: HasParts>(machine: &M, visit: Visit) -> Option<Event>
    requires { IsWorld (M.world machine.now) }
    ensures { FirstOf (M.world machine.now) (by_part (visit_event visit) (M.world machine.now).shape) result }
{
    for p in 0..machine.sites().shape().visited() {
        if can_visit(machine, visit, PartId(p)) {
            return Some(visit.event(PartId(p)));
        }
    }
    None
}

/// The first link that can take a packet from a part.
fn departure_from<M: HasParts>(machine: &M, p: PartId) -> Option<Event>
    requires world { IsWorld (M.world machine.now) }
    requires there { p.0 < part_count (M.world machine.now).shape }
    ensures { FirstOf (M.world machine.now) (departures_from (M.world machine.now).shape p.0) result }
{
    if !machine.part(p).offers() {
        return None;
    }
    for l in 0..machine.sites().shape().part_count() {
        if can_depart(machine, p, PartId(l)) {
            return Some(Event::Depart(p, PartId(l)));
        }
    }
    None
}

/// The first part that can take a packet from a link.
fn arrival_from<M: HasParts>(machine: &M, l: PartId) -> Option<Event>
    requires world { IsWorld (M.world machine.now) }
    requires there { l.0 < part_count (M.world machine.now).shape }
    ensures { FirstOf (M.world machine.now) (arrivals_from (M.world machine.now).shape l.0) result }
{
    if !machine.part(l).carries() {
        return None;
    }
    for p in 0..machine.sites().shape().part_count() {
        if can_arrive(machine, l, PartId(p)) {
            return Some(Event::Arrive(l, PartId(p)));
        }
    }
    None
}
