//! What a worker tries next on its share of the stops.
//!
//! An agenda is advice. It visits only stops that may have something to do, and of a tile only the threads that can make a step
//! or have a pending packet. It may miss an event: unless a run ends with a final event, every event is tested before the run ends.
//! A miss costs time, and no event is lost.
//!
//! The detector's events come only if nothing is left to do on any stop of the share. Then each of these stops reports that did
//! something since its last report, and the detector begins to confirm. If it announces, it releases all parts and lets them go on.

ghost use Rattle.std.specs.Prelude.{◌<◌};
ghost use Rattle.tn_base.specs.Address.{tile_threads};

use crate::links::{Ends, Exit, Stop, ends_of, stops_of};
use crate::marks::Marks;
use crate::share::Share;
use std::alloc::{AllocError, Global};
use tn_base::event::Event;
use tn_base::ids::{PartId, ThreadId};
use tn_detect::phase::Phase;
use tn_host::host::Host;
use tn_link::link::Link;
use tn_part::part::{Contents, Part};
use tn_part::site::Sites;
use tn_router::router::Router;
use tn_tile::tile::Tile;

/// No more links than this number lead to a part, or away from a part.
const PORTS: u32 = 7;

/// The kinds of events of a part, in the order in which a worker tries them.
#[derive(Clone, Copy)]
enum Stage {
    Arrivals,
    /// Of a tile the pending packets; of a router the next record.
    Packets,
    Turns,
    Departures,
}

/// Where a worker is among the events of its share of the stops.
#[derive(Drop)]
pub struct Agenda {
    share: Share,
    /// By stop its links.
    stops: Vec<Stop>,
    /// By part the ends of the link that it is, from the first link on.
    ends: Vec<Ends>,
    first_link: u32,
    /// The stops of the share on which something may happen.
    marks: Marks,
    /// The stops of the share that did something since their last report.
    changed: Marks,
    /// Whether the detector's events are tried, and whether Begin was tried since the last report.
    resting: bool,
    tried_begin: bool,
    /// The stop in hand, the kind of its next event and the event's number in its kind. An event of the stop happened since the
    /// worker came to it, or the worker missed one.
    at: u32,
    stage: Stage,
    next: u32,
    moved: bool,
    missed: bool,
}

impl Agenda {
    /// The agenda of a share. Something may happen on every stop of it.
    pub fn of(alloc: Global, sites: &Sites, share: Share) -> Result<Agenda, AllocError> {
        let first_link = sites.shape().visited();
        let stops = stops_of(alloc, first_link, sites.all())?;
        let ends = ends_of(alloc, &stops, sites.all())?;
        let mut agenda = Agenda {
            share,
            stops,
            ends,
            first_link,
            marks: Marks::NONE,
            changed: Marks::NONE,
            resting: false,
            tried_begin: false,
            at: share.first,
            stage: Stage::Arrivals,
            next: 0,
            moved: false,
            missed: false,
        };
        agenda.wake_all();
        Ok(agenda)
    }

    /// The stop in hand; None if nothing is left to try on any stop of the share.
    pub fn stop(&mut self) -> Option<PartId> {
        if self.resting {
            return None;
        }
        if !self.marks.has(self.at as usize) {
            self.at = self.marks.next_behind(self.at)?;
        }
        Some(PartId(self.at))
    }

    /// The next event to try on the stop in hand, which is this part. None ends the visit: the worker goes on to the next stop.
    pub fn next<L: Link>(&mut self, part: &Part<L>) -> Option<Event> {
        let found = self.event(part);
        if found.is_none() {
            self.leave();
        }
        found
    }

    /// The next event of the detector, which is this part; None if it waits for a stop. It is asked only if no stop is in hand.
    pub fn rest<L: Link>(&mut self, detector: &Part<L>) -> Option<Event> {
        if !self.resting {
            self.resting = true;
            self.tried_begin = false;
        }
        let event = self.event_of_detector(detector);
        if event.is_none() {
            self.resting = false;
        }
        event
    }

    /// An event of the stop in hand was not tried, since another worker has the turn of a part of the event. The stop stays marked.
    pub fn missed(&mut self) {
        self.missed = true;
    }

    /// The link of an arrival that was to be tried has no packet.
    pub fn emptied(&mut self, arrival: &Event) {
        let Some(ends) = self.ends_of_arrival(arrival) else {
            return;
        };
        if let Some(stop) = self.stops.get_mut(ends.to.0 as usize) {
            stop.loaded &= !(1u32 << (ends.place % 32));
        }
    }

    /// An event that was tried happened: more may happen here, and at the other end of its link. The answer is the stop at that end,
    /// if it is of another share; its worker is to be told.
    pub fn happened(&mut self, e: &Event) -> Option<PartId> {
        if self.resting {
            return self.detector_did(e);
        }
        self.moved = true;
        match *e {
            Event::Depart(_, l) => {
                let ends = self.ends_at(l)?;
                self.load(ends);
                self.mark(ends.to)
            }
            Event::Arrive(l, _) => {
                let ends = self.ends_at(l)?;
                self.mark(ends.from)
            }
            // The last link leads from the host to the router to which the host's other link belongs too.
            Event::HostPut => {
                let ends = self.ends.last().copied()?;
                self.load(ends);
                self.mark(ends.to)
            }
            Event::HostTake => {
                let ends = self.ends.last().copied()?;
                self.mark(ends.to)
            }
            _ => None,
        }
    }

    /// Something may happen on a stop: the worker of another share says so. A stop of another share stays as it is.
    pub fn wake(&mut self, stop: PartId) {
        if !self.share.has(stop.0) {
            return;
        }
        self.marks.mark(stop.0 as usize);
        self.changed.mark(stop.0 as usize);
        if let Some(stop) = self.stops.get_mut(stop.0 as usize) {
            stop.loaded = u32::MAX;
        }
    }

    /// Something may happen on every stop of the share.
    pub fn wake_all(&mut self) {
        self.resting = false;
        for stop in self.share.first..self.share.end {
            self.wake(PartId(stop));
        }
    }

    /// Something may happen on a stop. The answer is the stop if it is of another share.
    fn mark(&mut self, stop: PartId) -> Option<PartId> {
        if self.share.has(stop.0) {
            self.marks.mark(stop.0 as usize);
            None
        } else {
            Some(stop)
        }
    }

    /// The worker leaves the stop in hand. If nothing happened there and nothing was missed, nothing may happen there.
    fn leave(&mut self) {
        if self.moved {
            self.changed.mark(self.at as usize);
        } else if !self.missed {
            self.marks.unmark(self.at as usize);
        }
        self.moved = false;
        self.missed = false;
        self.go_to(Stage::Arrivals);
        if let Some(p) = self.marks.next_behind(self.at) {
            self.at = p;
        }
    }

    /// The next event of the detector; None if it waits for a stop.
    fn event_of_detector<L: Link>(&mut self, part: &Part<L>) -> Option<Event> {
        let Contents::Detector(detector) = part.contents() else {
            return None;
        };
        match detector.phase() {
            Phase::Collect => self.report(),
            Phase::Confirm(i) if i < detector.visited() => Some(Event::Confirm(PartId(i))),
            Phase::Confirm(_) => Some(Event::Announce),
            Phase::Release(i) => Some(Event::Release(PartId(i))),
            Phase::Go(i) => Some(Event::Go(PartId(i))),
        }
    }

    /// The next report, and Begin behind all reports. No stop reports as long as something may happen on a stop.
    fn report(&mut self) -> Option<Event> {
        if self.marks.next_behind(self.at).is_some() {
            return None;
        }
        if let Some(p) = self.changed.take_first() {
            return Some(Event::Report(PartId(p)));
        }
        if self.tried_begin {
            return None;
        }
        self.tried_begin = true;
        Some(Event::Begin)
    }

    /// An event of the detector happened. If a part is not confirmed, that part alone has no report any more. A part that is
    /// released may do something again. The answer is that part, if it is of another share.
    fn detector_did(&mut self, e: &Event) -> Option<PartId> {
        match *e {
            Event::Report(_) => {
                self.tried_begin = false;
                None
            }
            Event::Confirm(p) => {
                self.changed = Marks::NONE;
                self.change(p)
            }
            Event::Release(p) => {
                self.change(p);
                self.mark(p)
            }
            _ => None,
        }
    }

    /// A stop has no report of what it did last. The answer is the stop if it is of another share.
    fn change(&mut self, stop: PartId) -> Option<PartId> {
        if self.share.has(stop.0) {
            self.changed.mark(stop.0 as usize);
            None
        } else {
            Some(stop)
        }
    }

    /// A packet is on a link.
    fn load(&mut self, ends: Ends) {
        if let Some(stop) = self.stops.get_mut(ends.to.0 as usize) {
            stop.loaded |= 1u32 << (ends.place % 32);
        }
    }

    /// The next event of the stop in hand, kind by kind.
    fn event<L: Link>(&mut self, part: &Part<L>) -> Option<Event> {
        match part.contents() {
            Contents::Tile(tile) => self.event_of_tile(tile),
            Contents::Router(router) => self.event_of_router(router),
            Contents::Host(host) => self.event_of_host(host),
            Contents::Link(_) | Contents::Detector(_) => None,
        }
    }

    /// The next kind of events begins.
    fn go_to(&mut self, stage: Stage) {
        self.stage = stage;
        self.next = 0;
    }

    /// The next event of a tile, which is the stop in hand.
    fn event_of_tile(&mut self, tile: &Tile) -> Option<Event> {
        if let Stage::Arrivals = self.stage {
            if let Some(event) = self.arrival() {
                return Some(event);
            }
            self.go_to(Stage::Packets);
        }
        if let Stage::Packets = self.stage {
            if let Some(place) = tile.next_send(self.next) {
                self.next = place.wrapping_add(1);
                return Some(Event::Deliver(thread_at(tile, place)));
            }
            self.go_to(Stage::Turns);
        }
        if let Stage::Turns = self.stage {
            if let Some(place) = tile.next_ready(self.next) {
                self.next = place.wrapping_add(1);
                return Some(Event::Turn(thread_at(tile, place), 1));
            }
            self.go_to(Stage::Departures);
        }
        for _ in 0..PORTS {
            let exit = self.next_exit()?;
            if tile.offer(exit.way).is_some() {
                return Some(Event::Depart(PartId(self.at), exit.link));
            }
        }
        None
    }

    /// The next event of a router, which is the stop in hand. It routes once a visit.
    fn event_of_router(&mut self, router: &Router) -> Option<Event> {
        if let Stage::Arrivals = self.stage {
            if let Some(event) = self.arrival() {
                return Some(event);
            }
            self.go_to(Stage::Departures);
            return Some(Event::Route(PartId(self.at)));
        }
        for _ in 0..PORTS {
            let exit = self.next_exit()?;
            if router.offer(exit.way).is_some() {
                return Some(Event::Depart(PartId(self.at), exit.link));
            }
        }
        None
    }

    /// The next event of the host, which is the stop in hand. It sends one message a visit.
    fn event_of_host(&mut self, host: &Host) -> Option<Event> {
        if let Stage::Arrivals = self.stage {
            if let Some(event) = self.arrival() {
                return Some(event);
            }
            self.go_to(Stage::Departures);
            if !host.held() && !host.still() {
                return Some(Event::HostPut);
            }
        }
        None
    }

    /// The arrival from the next link that leads to the stop in hand and may have a packet.
    fn arrival(&mut self) -> Option<Event> {
        let stop = self.stops.get_mut(self.at as usize)?;
        let rest = stop.loaded & (u32::MAX << (self.next % 32));
        if rest == 0 {
            return None;
        }
        let place = rest.trailing_zeros();
        let Some(l) = stop.arrivals.get(place as usize).copied() else {
            stop.loaded &= !(u32::MAX << (place % 32));
            return None;
        };
        self.next = place.wrapping_add(1);
        Some(self.arrival_by(l))
    }

    /// The arrival from a link at the stop in hand. The host, which is the first part, takes packets by an event of its own.
    fn arrival_by(&self, l: PartId) -> Event {
        if self.at == 0 {
            Event::HostTake
        } else {
            Event::Arrive(l, PartId(self.at))
        }
    }

    /// The next link that leads away from the stop in hand.
    fn next_exit(&mut self) -> Option<Exit> {
        let stop = self.stops.get(self.at as usize)?;
        let exit = *stop.departures.get(self.next as usize)?;
        self.next = self.next.wrapping_add(1);
        Some(exit)
    }

    fn ends_at(&self, l: PartId) -> Option<Ends> {
        self.ends
            .get(l.0.wrapping_sub(self.first_link) as usize)
            .copied()
    }

    /// The ends of the link of an arrival. The link to the host is the last but one.
    fn ends_of_arrival(&self, arrival: &Event) -> Option<Ends> {
        match *arrival {
            Event::Arrive(l, _) => self.ends_at(l),
            Event::HostTake => self.ends.get(self.ends.len().wrapping_sub(2)).copied(),
            _ => None,
        }
    }
}

/// The thread at a place of a tile.
fn thread_at(tile: &Tile, place: u32) -> ThreadId
    requires { place < tile_threads tile.now.plan.shape }
{
    tile.kept();
    tile.shape().thread_in_tile(tile.name(), place)
}
