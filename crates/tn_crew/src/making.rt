//! Tries of events on parts that a worker has in hand.

ghost use Rattle.std.specs.Prelude.{◌≡◌, Some, true};
ghost use Rattle.tn_base.specs.declared.event.Event.TheVariants as event;
ghost use Rattle.tn_crew.specs.Tries.{IsKept, TriesOne, TriesTurn, TriesTwo};
ghost use Rattle.tn_part.specs.Meeting.{IsNoTurn, port_of};
ghost use Rattle.tn_rows.specs.Places.{One, Two, places};
ghost use Rattle.tn_stamped.specs.Doing.{IsReady};
ghost use Rattle.tn_stamped.specs.Placed.{GrewAlone, GrewTogether};

use tn_base::event::Event;
use tn_base::ids::ThreadId;
use tn_base::port::Port;
use tn_link::plain::PlainLink;
use tn_pages::stock::{FULL, PageStock};
use tn_stamped::placed::Placed;
use tn_tile::deliver::Did;
use tn_tile::step::Turned;

/// What came of an event that a worker tried.
#[derive(Clone, Copy, PartialEq, Eq, Debug)]
pub enum Tried {
    /// The event was made.
    Made,
    /// The event is not enabled. Nothing changed.
    Nothing,
    /// Memory or a stamp was refused. Nothing changed.
    Refused,
    /// A journal in hand has a final event; it may be the event that was tried.
    Ended,
    /// Another worker has the turn of a part. Nothing changed.
    Missed,
    /// The part in hand is not the part of this place. Nothing changed.
    Elsewhere,
}

/// Makes room for an entry. The answer is whether there is room, and a stamp.
fn has_room(part: &mut Placed<PlainLink>) -> bool
    ensures same { IsKept part.old.stamped part.new.stamped }
    ensures stays { (part.new.shape ≡ part.old.shape) × (part.new.place ≡ part.old.place) }
    ensures ready { result ≡ true → IsReady part.new.stamped }
{
    if part.reserve().is_err() {
        return false;
    }
    part.stamped().ready()
}

/// The longest turn of a thread that is on this part.
pub(crate) fn try_turn(part: &mut Placed<PlainLink>, t: ThreadId, stock: &mut PageStock) -> Tried
    requires here { places part.old.shape (event.Turn t 1) ≡ One part.old.place }
    ensures tries { TriesTurn result t part.old.stamped part.new.stamped }
    ensures grows { GrewAlone part.old part.new }
{
    if stock.reserve(FULL).is_err() {
        return Tried::Refused;
    }
    if !has_room(part) {
        return Tried::Refused;
    }
    match part.turn(t, stock).turned {
        Turned::Moved(_) => Tried::Made,
        Turned::Nothing => Tried::Nothing,
    }
}

/// An event on this part alone that is no turn.
pub(crate) fn try_one(part: &mut Placed<PlainLink>, e: Event) -> Tried
    requires here { places part.old.shape e ≡ One part.old.place }
    requires event { IsNoTurn e }
    ensures tries { TriesOne result e part.old.stamped part.new.stamped }
    ensures grows { GrewAlone part.old part.new }
{
    if !has_room(part) {
        return Tried::Refused;
    }
    match part.one(e) {
        Did::Moved => Tried::Made,
        Did::Nothing => Tried::Nothing,
    }
}

/// An event on two parts, which are joined at this port.
pub(crate) fn try_two(
    low: &mut Placed<PlainLink>,
    high: &mut Placed<PlainLink>,
    e: Event,
    at: Port,
) -> Tried
    requires here { places low.old.shape e ≡ Two low.old.place high.old.place }
    requires same { high.old.shape ≡ low.old.shape }
    requires port { port_of low.old.shape e ≡ Some at }
    ensures tries { TriesTwo result e low.old.stamped high.old.stamped low.new.stamped high.new.stamped }
    ensures grow { GrewTogether low.old high.old low.new high.new }
{
    if !has_room(low) {
        return Tried::Refused;
    }
    if !has_room(high) {
        return Tried::Refused;
    }
    match low.two(high, e, at) {
        Ok(Did::Moved) => Tried::Made,
        Ok(Did::Nothing) => Tried::Nothing,
        Err(_) => Tried::Refused,
    }
}
