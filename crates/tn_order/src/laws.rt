//! Laws of order. A law answers nothing: its contract is what it says.

ghost use Rattle.std.specs.Prelude.{ℕ};
ghost use Rattle.tn_base.specs.declared.message.Dest.{Dest};
ghost use Rattle.tn_order.specs.Acts.{EveryRunNumbersRise};
ghost use Rattle.tn_order.specs.Each.{EachEventKeeps};
ghost use Rattle.tn_order.specs.History.{EveryHistoryIsInOrder, EveryRunActsAsItsHistory, EveryRunIsInOrder};
ghost use Rattle.tn_order.specs.Law.{EachChangeKeeps, EarlierIsGone};
ghost use Rattle.tn_order.specs.Moving.{EachMovingKeeps};
ghost use Rattle.tn_order.specs.Net.{IsNet};
ghost use Rattle.tn_order.specs.Numbers.{EveryWalkCounts};
ghost use Rattle.tn_order.specs.Spots.{way_of};

use tn_base::shape::Shape;

/// Whatever the ways between places are, if at most one place comes next: each change keeps the order of the letters. If a letter
/// is handed at the end of the way, each letter of a smaller number was handed or dropped before.
pub fn law_moves()
    ensures keep { EachChangeKeeps }
    ensures gone { EarlierIsGone }
{}

/// Whatever events happen to a machine from its start, no thread has sent more often than it made steps, and no thread made more
/// steps than its fuel. So the numbers of a thread's sends do not wrap.
pub fn law_numbers()
    ensures { EveryWalkCounts }
{}

/// From each spot of a machine a packet for one thread or for the host goes to at most one spot, and to another spot.
pub fn law_spots(shape: &Shape)
    ensures { (s : ℕ) (goal : Dest) → IsNet (way_of shape.now s goal) }
{
    let _numbers = shape.numbers();
}

/// In each run of a machine from its start, each send has a greater number than each earlier send of its origin, be the origin a thread
/// or the host.
pub fn law_rising()
    ensures { EveryRunNumbersRise }
{}

/// A departure, a Route, an arrival and a delivery of a machine keep the letters of one sender for one receiver in order, whichever
/// numbers of the sender are meant. At most one letter is dropped, and that letter is meant.
pub fn law_moving()
    ensures { EachMovingKeeps }
{}

/// Each event of a machine keeps the letters of one sender for one receiver in order, by what the event sends, hands and drops. Whichever
/// numbers of the sender are meant, each send that is meant has to be for the receiver and to have a number above all that are meant and
/// were sent before.
pub fn law_each()
    ensures { EachEventKeeps }
{}

/// Whatever events happen to a machine from its start, unkeyed letters of one sender reach a receiver in their order: where a letter of a
/// send without a key is handed, the letter of each earlier send without a key of that origin to that receiver was handed or dropped
/// before. The earlier sends of an origin are those with smaller numbers. In each run, the steps of the bag machine send, hand and drop
/// what the events of the history do, in the same sequence; so the letters of these steps are in order too.
pub fn law_order()
    ensures histories { EveryHistoryIsInOrder }
    ensures acts { EveryRunActsAsItsHistory }
    ensures runs { EveryRunIsInOrder }
{}
