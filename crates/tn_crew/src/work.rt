//! Events that a worker makes on parts whose turns it takes. Before and after `make` a worker has no turn.

ghost use Rattle.std.specs.Prelude.{◌≡◌, ◌≢◌, ◌<◌, MatchOption, Some, length};
ghost use Rattle.tn_base.specs.declared.event.Event.TheVariants as event;
ghost use Rattle.tn_base.specs.declared.shape.ShapeNumbers.{ShapeNumbers};
ghost use Rattle.tn_base.specs.Parts.{part_count};
ghost use Rattle.tn_crew.specs.Tries.{CountsMiss, GrewBetween, GrewBy};
ghost use Rattle.tn_part.specs.Meeting.{IsNoTurn};
ghost use Rattle.tn_rows.specs.Places.{One, places};
ghost use Rattle.tn_stamped.specs.Placing.{IsPair};
ghost use Rattle.tn_turns.specs.Ready.{IsReady};
ghost use Rattle.tn_turns.specs.Words.{board_table, firsts, missed_of, number_of};

use crate::making::{Tried, try_one, try_turn, try_two};
use tn_base::event::Event;
use tn_base::ids::{PartId, ThreadId};
use tn_base::port::Port;
use tn_io::gate::Gate;
use tn_link::plain::PlainLink;
use tn_pages::stock::PageStock;
use tn_part::site::Sites;
use tn_stamped::placed::Placed;
use tn_stamped::placing::{EventParts, parts_of};
use tn_turns::{TurnBoard, TurnSeat};

/// What a worker has besides its seat: its number from 0, the gate that sees its events, and pages for its turns.
#[derive(Drop)]
pub struct Hand<'a, G: Gate> {
    pub worker: u32,
    pub gate: &'a G,
    pub stock: PageStock,
}

/// Two parts of an event, the lesser one first, and the port at which they are joined.
#[derive(Clone, Copy)]
struct Pair {
    low: PartId,
    high: PartId,
    at: Port,
}

/// The thread of a turn; None of another event.
fn turn_of(e: &Event) -> Option<ThreadId>
    ensures { MatchOption result (IsNoTurn e.now) (λ t. (n : ShapeNumbers) → places n e.now ≡ places n (event.Turn t 1)) }
{
    match *e {
        Event::Turn(t, _) => Some(t),
        Event::Deliver(_)
        | Event::Depart(_, _)
        | Event::Arrive(_, _)
        | Event::Route(_)
        | Event::HostPut
        | Event::HostTake
        | Event::Report(_)
        | Event::Begin
        | Event::Confirm(_)
        | Event::Announce
        | Event::Release(_)
        | Event::Go(_) => None,
    }
}

/// What came of a try, where no journal in hand has a final event.
fn unless_ended(tried: Tried, part: &Placed<PlainLink>) -> Tried
    requires { tried ≢ Tried.Missed }
    ensures { result ≢ Tried.Missed }
{
    if part.stamped().ended() {
        return Tried::Ended;
    }
    tried
}

/// An event on one part alone; a turn becomes the longest turn of its thread.
pub(crate) fn make_on<G: Gate>(
    part: &mut Placed<PlainLink>,
    sites: &Sites,
    hand: &mut Hand<'_, G>,
    p: PartId,
    e: &Event,
) -> Tried
    requires here { places sites.now e.now ≡ One p.0 }
    ensures grows { GrewBy (part_count sites.now) part.old part.new }
    ensures had { result ≢ Tried.Missed }
{
    if !part.is_at(sites, p) {
        return Tried::Elsewhere;
    }
    if part.stamped().ended() {
        return Tried::Ended;
    }
    hand.gate.begin(hand.worker, p);
    let tried = match turn_of(e) {
        Some(t) => try_turn(part, t, &mut hand.stock),
        None => try_one(part, *e),
    };
    unless_ended(tried, part)
}

/// An event on one part. Missed is the answer exactly where the take found the part with another worker.
fn make_alone<G: Gate>(
    board: &TurnBoard<Placed<PlainLink>>,
    seat: &mut TurnSeat<Placed<PlainLink>>,
    sites: &Sites,
    hand: &mut Hand<'_, G>,
    p: PartId,
    e: &Event,
) -> Tried
    requires ready { IsReady (board_table board.now) seat.old }
    requires parts { length (firsts board.now) ≡ part_count sites.now }
    requires here { places sites.now e.now ≡ One p.0 }
    requires within { p.0 < part_count sites.now }
    ensures ready { IsReady (board_table board.now) seat.new }
    ensures number { number_of seat.new ≡ number_of seat.old }
    ensures missed { CountsMiss result (missed_of seat.old) (missed_of seat.new) }
{
    let Some(mut part) = board.take(seat, p.0) else {
        return Tried::Missed;
    };
    let tried = make_on(&mut part, sites, hand, p, e);
    board.give_one(seat, p.0, part);
    tried
}

/// An event on two parts in hand.
fn make_on_both<G: Gate>(
    low: &mut Placed<PlainLink>,
    high: &mut Placed<PlainLink>,
    sites: &Sites,
    hand: &Hand<'_, G>,
    pair: Pair,
    e: &Event,
) -> Tried
    requires pair { IsPair sites.now e.now pair.low.0 pair.high.0 pair.at }
    ensures grow { GrewBetween (part_count sites.now) pair.low.0 pair.high.0 low.old high.old low.new high.new }
    ensures had { result ≢ Tried.Missed }
{
    if !low.is_at(sites, pair.low) {
        return Tried::Elsewhere;
    }
    if !high.is_at(sites, pair.high) {
        return Tried::Elsewhere;
    }
    if low.stamped().ended() {
        return Tried::Ended;
    }
    if high.stamped().ended() {
        return Tried::Ended;
    }
    hand.gate.begin(hand.worker, pair.low);
    try_two(low, high, *e, pair.at)
}

/// An event on two parts. Missed is the answer exactly where a take found a part with another worker.
fn make_pair<G: Gate>(
    board: &TurnBoard<Placed<PlainLink>>,
    seat: &mut TurnSeat<Placed<PlainLink>>,
    sites: &Sites,
    hand: &Hand<'_, G>,
    pair: Pair,
    e: &Event,
) -> Tried
    requires ready { IsReady (board_table board.now) seat.old }
    requires parts { length (firsts board.now) ≡ part_count sites.now }
    requires pair { IsPair sites.now e.now pair.low.0 pair.high.0 pair.at }
    ensures ready { IsReady (board_table board.now) seat.new }
    ensures number { number_of seat.new ≡ number_of seat.old }
    ensures missed { CountsMiss result (missed_of seat.old) (missed_of seat.new) }
{
    let Some(mut low) = board.take(seat, pair.low.0) else {
        return Tried::Missed;
    };
    let Some(mut high) = board.take(seat, pair.high.0) else {
        board.give_one(seat, pair.low.0, low);
        return Tried::Missed;
    };
    let tried = make_on_both(&mut low, &mut high, sites, hand, pair, e);
    board.give_two(seat, pair.low.0, low, pair.high.0, high);
    tried
}

/// An event of the machine, if its parts are at home and it is enabled.
pub fn make<G: Gate>(
    board: &TurnBoard<Placed<PlainLink>>,
    seat: &mut TurnSeat<Placed<PlainLink>>,
    sites: &Sites,
    hand: &mut Hand<'_, G>,
    e: &Event,
) -> Tried
    requires ready { IsReady (board_table board.now) seat.old }
    requires parts { length (firsts board.now) ≡ part_count sites.now }
    ensures ready { IsReady (board_table board.now) seat.new }
    ensures number { number_of seat.new ≡ number_of seat.old }
    ensures missed { CountsMiss result (missed_of seat.old) (missed_of seat.new) }
{
    match parts_of(sites, e) {
        EventParts::Nowhere => Tried::Nothing,
        EventParts::One(p) => make_alone(board, seat, sites, hand, p, e),
        EventParts::Two(low, high, at) => {
            make_pair(board, seat, sites, hand, Pair { low, high, at }, e)
        }
    }
}
