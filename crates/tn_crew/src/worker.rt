//! What a worker does until nothing is left to do, or a journal has a final event, or memory is refused.
//!
//! A worker takes the turn of a stop of its share, makes what the agenda has on the stop alone, and gives the stop back. For an event on
//! two parts it takes the turns of both. If nothing is left to try on its share, it looks for notes of other workers, then asks the
//! detector, and then rests. If all workers rest and nothing is noted, all end.

ghost use Rattle.std.specs.Prelude.{◌≡◌, ◌<◌, ◌≤◌, length};
ghost use Rattle.tn_base.specs.Parts.{part_count};
ghost use Rattle.tn_crew.specs.Tries.{GrewBy};
ghost use Rattle.tn_turns.specs.Ready.{IsReady};
ghost use Rattle.tn_turns.specs.Words.{board_table, firsts, number_of};

use crate::making::Tried;
use crate::notes::Notes;
use crate::signals::Signals;
use crate::work::{Hand, make, make_on};
use std::alloc::Global;
use std::sync::Wait;
use std::thread;
use tn_agenda::agenda::Agenda;
use tn_agenda::share::Share;
use tn_base::event::Event;
use tn_base::ids::PartId;
use tn_io::gate::Gate;
use tn_link::plain::PlainLink;
use tn_pages::stock::PageStock;
use tn_part::place::{detector, to_host};
use tn_part::site::Sites;
use tn_stamped::placed::Placed;
use tn_stamped::placing::{EventParts, parts_of};
use tn_turns::{TurnBoard, TurnSeat};

/// A worker makes no more events than this number while it has one turn.
const MOST_IN_HAND: u32 = 64;

/// A worker that has nothing to do on its share looks so often for notes before it asks the detector.
const PATIENCE: u32 = 64;

/// A worker that has nothing to do looks so often for notes before it ends, if not all workers have begun. Where the system makes no more
/// threads, workers begin one after another.
const STARTING: u32 = 10_000;

/// What the agenda has on a part.
#[derive(Clone, Copy)]
enum Look {
    /// The event to try next.
    Next(Event),
    /// The agenda has no event here.
    Nothing,
    /// The part's journal has a final event.
    Ended,
}

/// What a step of a worker came to.
#[derive(Clone, Copy)]
enum Step {
    /// An event was made.
    Made,
    /// No event was made. The worker goes on.
    On,
    /// Another worker has the turn that this worker wants.
    Missed,
    /// Nothing is left to try.
    Idle,
    /// A journal has a final event.
    Ended,
    /// Memory or a stamp was refused.
    Refused,
}

/// What came of a visit to a part in hand.
#[derive(Clone, Copy)]
enum Found {
    /// The visit came to this.
    Came(Step),
    /// The next event is on this part and another part.
    Pair(Event),
}

/// What a worker has for itself, beside its seat: its agenda, what it holds in hand, and how it rests.
#[derive(Drop)]
struct Worker<'a, G: Gate> {
    hand: Hand<'a, G>,
    agenda: Agenda,
    share: Share,
    rest: Rest,
}

/// How long a worker has had nothing to do on its share, and whether the others count it among those that rest.
#[derive(Clone, Copy)]
struct Rest {
    rounds: u32,
    counted: bool,
}

impl Rest {
    /// A worker that has something to do.
    const NONE: Rest = Rest {
        rounds: 0,
        counted: false,
    };

    /// The worker has something to do again.
    fn ends(&mut self, signals: &Signals) {
        if self.counted {
            self.counted = false;
            signals.go_on();
        }
    }

    /// The worker has nothing to do.
    fn begins(&mut self, signals: &Signals) {
        if !self.counted {
            self.counted = true;
            signals.rest();
        }
    }

    /// Whether the worker looks only for notes: it has not yet looked so often, or another worker asks the detector.
    fn looks(&mut self, worker: u32) -> bool {
        self.rounds = self.rounds.saturating_add(1);
        self.rounds < PATIENCE || (self.counted && worker > 0)
    }
}

/// What the agenda has on a part in hand. If `rests` is set, the part is the detector.
fn found_on(agenda: &mut Agenda, part: &Placed<PlainLink>, rests: bool) -> Look {
    if part.stamped().ended() {
        return Look::Ended;
    }
    let next = if rests {
        agenda.rest(part.stamped().part())
    } else {
        agenda.next(part.stamped().part())
    };
    match next {
        Some(e) => Look::Next(e),
        None => Look::Nothing,
    }
}

/// Tries an event on the part in hand. None if the event is not on this part alone.
fn try_here<G: Gate>(
    part: &mut Placed<PlainLink>,
    sites: &Sites,
    hand: &mut Hand<'_, G>,
    p: PartId,
    e: &Event,
) -> Option<Tried>
    ensures grows { GrewBy (part_count sites.now) part.old part.new }
{
    match parts_of(sites, e) {
        EventParts::One(q) if q == p => Some(make_on(part, sites, hand, p, e)),
        EventParts::One(_) | EventParts::Two(_, _, _) | EventParts::Nowhere => None,
    }
}

/// The next event on a part in hand, made if it is on this part alone.
fn move_here<G: Gate>(
    part: &mut Placed<PlainLink>,
    sites: &Sites,
    work: &mut Worker<'_, G>,
    notes: &Notes,
    p: PartId,
    rests: bool,
) -> Found
    ensures grows { GrewBy (part_count sites.now) part.old part.new }
{
    let e = match found_on(&mut work.agenda, part, rests) {
        Look::Next(e) => e,
        Look::Nothing if rests => return Found::Came(Step::Idle),
        Look::Nothing => return Found::Came(Step::On),
        Look::Ended => return Found::Came(Step::Ended),
    };
    match try_here(part, sites, &mut work.hand, p, &e) {
        None => Found::Pair(e),
        Some(Tried::Made) => {
            happened(&mut work.agenda, notes, &e);
            Found::Came(Step::Made)
        }
        Some(Tried::Ended) => Found::Came(Step::Ended),
        Some(Tried::Refused) => Found::Came(Step::Refused),
        Some(Tried::Nothing | Tried::Elsewhere | Tried::Missed) => Found::Came(Step::On),
    }
}

/// Makes events on a part in hand, until the next event is on two parts, or none is left.
fn work_here<G: Gate>(
    part: &mut Placed<PlainLink>,
    sites: &Sites,
    work: &mut Worker<'_, G>,
    notes: &Notes,
    p: PartId,
    rests: bool,
) -> Found
    ensures grows { GrewBy (part_count sites.now) part.old part.new }
{
    for _ in 0..MOST_IN_HAND {
        let came = move_here(part, sites, work, notes, p, rests);
        let Found::Came(Step::Made) = came else {
            return came;
        };
    }
    Found::Came(Step::Made)
}

/// Takes the turn of a part, works there, and gives the part back.
fn visit<G: Gate>(
    board: &TurnBoard<Placed<PlainLink>>,
    seat: &mut TurnSeat<Placed<PlainLink>>,
    sites: &Sites,
    work: &mut Worker<'_, G>,
    notes: &Notes,
    p: PartId,
    rests: bool,
) -> Found
    requires ready { IsReady (board_table board.now) seat.old }
    requires parts { length (firsts board.now) ≡ part_count sites.now }
    requires within { p.0 < part_count sites.now }
    ensures ready { IsReady (board_table board.now) seat.new }
    ensures number { number_of seat.new ≡ number_of seat.old }
{
    let Some(mut part) = board.take(seat, p.0) else {
        return Found::Came(Step::Missed);
    };
    let came = work_here(&mut part, sites, work, notes, p, rests);
    board.give_one(seat, p.0, part);
    came
}

/// Whether a link was found empty.
fn is_empty(
    board: &TurnBoard<Placed<PlainLink>>,
    seat: &mut TurnSeat<Placed<PlainLink>>,
    l: PartId,
) -> bool
    requires ready { IsReady (board_table board.now) seat.old }
    requires within { l.0 < length (firsts board.now) }
    ensures ready { IsReady (board_table board.now) seat.new }
    ensures number { number_of seat.new ≡ number_of seat.old }
{
    let Some(link) = board.take(seat, l.0) else {
        return false;
    };
    let empty = !link.stamped().part().carries();
    board.give_one(seat, l.0, link);
    empty
}

/// The link of an arrival.
fn link_of(sites: &Sites, e: &Event) -> Option<PartId> {
    match *e {
        Event::Arrive(l, _) => Some(l),
        Event::HostTake => Some(to_host(sites)),
        _ => None,
    }
}

/// An event did not happen: of an arrival the agenda notes whether its link is empty.
fn nothing_came(
    board: &TurnBoard<Placed<PlainLink>>,
    seat: &mut TurnSeat<Placed<PlainLink>>,
    sites: &Sites,
    agenda: &mut Agenda,
    e: &Event,
)
    requires ready { IsReady (board_table board.now) seat.old }
    requires parts { length (firsts board.now) ≡ part_count sites.now }
    ensures ready { IsReady (board_table board.now) seat.new }
    ensures number { number_of seat.new ≡ number_of seat.old }
{
    let Some(l) = link_of(sites, e) else {
        return;
    };
    if l.0 >= sites.part_count() {
        return;
    }
    if is_empty(board, seat, l) {
        agenda.emptied(e);
    }
}

/// An event happened: the agenda notes what it makes possible, and the worker of another share is told.
fn happened(agenda: &mut Agenda, notes: &Notes, e: &Event) {
    if let Some(stop) = agenda.happened(e) {
        notes.note(stop.0);
    }
}

/// Tries an event.
fn try_event<G: Gate>(
    board: &TurnBoard<Placed<PlainLink>>,
    seat: &mut TurnSeat<Placed<PlainLink>>,
    sites: &Sites,
    work: &mut Worker<'_, G>,
    notes: &Notes,
    e: &Event,
) -> Step
    requires ready { IsReady (board_table board.now) seat.old }
    requires parts { length (firsts board.now) ≡ part_count sites.now }
    ensures ready { IsReady (board_table board.now) seat.new }
    ensures number { number_of seat.new ≡ number_of seat.old }
{
    match make(board, seat, sites, &mut work.hand, e) {
        Tried::Made => {
            happened(&mut work.agenda, notes, e);
            Step::Made
        }
        Tried::Nothing => {
            nothing_came(board, seat, sites, &mut work.agenda, e);
            Step::On
        }
        Tried::Missed => {
            work.agenda.missed();
            Step::Missed
        }
        Tried::Refused => Step::Refused,
        Tried::Ended => Step::Ended,
        Tried::Elsewhere => Step::On,
    }
}

/// Works at a part: first on the part alone, then by its next event on two parts.
fn work_at<G: Gate>(
    board: &TurnBoard<Placed<PlainLink>>,
    seat: &mut TurnSeat<Placed<PlainLink>>,
    sites: &Sites,
    work: &mut Worker<'_, G>,
    notes: &Notes,
    p: PartId,
    rests: bool,
) -> Step
    requires ready { IsReady (board_table board.now) seat.old }
    requires parts { length (firsts board.now) ≡ part_count sites.now }
    ensures ready { IsReady (board_table board.now) seat.new }
    ensures number { number_of seat.new ≡ number_of seat.old }
{
    if p.0 >= sites.part_count() {
        return Step::Idle;
    }
    match visit(board, seat, sites, work, notes, p, rests) {
        Found::Came(step) => step,
        Found::Pair(e) => try_event(board, seat, sites, work, notes, &e),
    }
}

/// One step: the agenda's next events on its next stop. If no stop is left, the worker looks for a note, and then asks the detector.
fn next_step<G: Gate>(
    board: &TurnBoard<Placed<PlainLink>>,
    seat: &mut TurnSeat<Placed<PlainLink>>,
    sites: &Sites,
    work: &mut Worker<'_, G>,
    signals: &Signals,
) -> Step
    requires ready { IsReady (board_table board.now) seat.old }
    requires parts { length (firsts board.now) ≡ part_count sites.now }
    ensures ready { IsReady (board_table board.now) seat.new }
    ensures number { number_of seat.new ≡ number_of seat.old }
{
    let notes = &signals.notes;
    if let Some(p) = work.agenda.stop() {
        return work_at(board, seat, sites, work, notes, p, false);
    }
    if notes.is_noted(work.share) {
        work.rest.rounds = 0;
        work.rest.ends(signals);
        if let Some(stop) = notes.take(work.share) {
            work.agenda.wake(PartId(stop));
        }
        return Step::On;
    }
    if work.rest.looks(work.hand.worker) {
        return Step::Idle;
    }
    work_at(board, seat, sites, work, notes, detector(sites), true)
}

/// Works on a share of the stops until all workers rest, or all are to end.
fn work_on<H: Wait, G: Gate>(
    rt: &H,
    board: &TurnBoard<Placed<PlainLink>>,
    seat: &mut TurnSeat<Placed<PlainLink>>,
    sites: &Sites,
    work: &mut Worker<'_, G>,
    signals: &Signals,
    workers: u32,
)
    requires ready { IsReady (board_table board.now) seat.old }
    requires parts { length (firsts board.now) ≡ part_count sites.now }
    ensures ready { IsReady (board_table board.now) seat.new }
    ensures number { number_of seat.new ≡ number_of seat.old }
{
    for _ in rt.forever() {
        if signals.ended() {
            return;
        }
        let came = next_step(board, seat, sites, work, signals);
        if !goes_on(came, &mut work.rest, signals, workers) {
            return;
        }
    }
}

/// Whether a worker goes on after a step.
fn goes_on(came: Step, rest: &mut Rest, signals: &Signals, workers: u32) -> bool {
    match came {
        Step::Made => rest.ends(signals),
        Step::On => {}
        Step::Missed => thread::yield_now(),
        Step::Idle => return waits(rest, signals, workers),
        Step::Ended => signals.end(),
        Step::Refused => signals.refuse(),
    }
    true
}

/// Whether a worker that found nothing to do waits for notes of other workers.
fn waits(rest: &mut Rest, signals: &Signals, workers: u32) -> bool {
    thread::yield_now();
    if rest.rounds < PATIENCE {
        return true;
    }
    rest.begins(signals);
    if signals.all_began(workers) {
        signals.end_if_all_rest(workers);
        return true;
    }
    if rest.rounds < STARTING {
        return true;
    }
    signals.leave();
    false
}

/// The work of a worker on its share of the stops. It ends where some worker made or saw a final event, where all workers rest, or where
/// memory is refused. Where other workers have not begun for long, it ends as soon as its share rests.
pub fn work<H: Wait, G: Gate>(
    rt: &H,
    alloc: Global,
    board: &TurnBoard<Placed<PlainLink>>,
    seat: &mut TurnSeat<Placed<PlainLink>>,
    sites: &Sites,
    gate: &G,
    signals: &Signals,
    worker: u32,
    workers: u32,
)
    requires ready { IsReady (board_table board.now) seat.old }
    requires parts { length (firsts board.now) ≡ part_count sites.now }
    requires worker { worker < workers }
    ensures ready { IsReady (board_table board.now) seat.new }
    ensures number { number_of seat.new ≡ number_of seat.old }
{
    signals.begin();
    let share = Share::of(sites.shape().visited(), workers, worker);
    let Ok(agenda) = Agenda::of(alloc, sites, share) else {
        signals.refuse();
        return;
    };
    let hand = Hand {
        worker,
        gate,
        stock: PageStock::of(alloc),
    };
    let mut work = Worker {
        hand,
        agenda,
        share,
        rest: Rest::NONE,
    };
    work_on(rt, board, seat, sites, &mut work, signals, workers);
}
