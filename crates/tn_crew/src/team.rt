//! Workers in threads over the parts of a machine.

ghost use Rattle.std.specs.Prelude.{◌≡◌, ◌≤◌, ◌<◌, ◌+◌, ◌^◌, [], length, map};
ghost use Rattle.std.specs.Vec.{vec_capacity};
ghost use Rattle.tn_base.specs.Parts.{part_count};
ghost use Rattle.tn_stamp.specs.Merging.{ArePaired};
ghost use Rattle.tn_stamped.specs.Placed.{began, entries_of};
ghost use Rattle.tn_turns.specs.Faithful.{IsFaithful};
ghost use Rattle.tn_turns.specs.Ready.{IsReady};
ghost use Rattle.tn_turns.specs.Returned.{AllReturned};
ghost use Rattle.tn_turns.specs.Words.{board_of, board_table, firsts, given_of, number_of};

use crate::signals::Signals;
use crate::worker::work;
use std::alloc::Global;
use std::sync::Wait;
use std::thread;
use std::thread::Threads;
use tn_io::gate::Gate;
use tn_link::plain::PlainLink;
use tn_part::site::Sites;
use tn_stamped::placed::Placed;
use tn_turns::{NoTurns, TurnBoard, TurnSeat, Turns};

/// The parts after workers made events on them, and whether memory or a stamp was refused.
pub struct Team {
    /// The parts, in their order.
    pub parts: Vec<Placed<PlainLink>>,
    /// Whether memory or a stamp was refused.
    pub refused: bool,
}

/// Seats of so many workers.
fn seats_of(
    turns: &mut Turns<Placed<PlainLink>>,
    seats: &mut Vec<TurnSeat<Placed<PlainLink>>>,
    workers: u32,
)
    requires new { given_of turns.old ≡ 0 }
    requires none { seats.old.items ≡ [] }
    requires room { workers ≤ vec_capacity seats.old }
    requires few { workers < 65 }
    ensures board { board_of turns.new ≡ board_of turns.old }
    ensures seats { AllReturned (board_table (board_of turns.old)) seats.new.items }
    ensures all { length seats.new.items ≡ given_of turns.new }
    ensures count { length seats.new.items ≡ workers }
{
    for _ in 0..workers {
        seats.push_reserved(turns.seat());
    }
}

/// All workers work, each on its seat.
fn run_workers<H: Threads + Wait + Sync, G: Gate + Sync>(
    rt: &H,
    alloc: Global,
    board: &TurnBoard<Placed<PlainLink>>,
    seats: &mut Vec<TurnSeat<Placed<PlainLink>>>,
    sites: &Sites,
    gate: &G,
    signals: &Signals,
    workers: u32,
)
    requires seats { AllReturned (board_table board.now) seats.old.items }
    requires parts { length (firsts board.now) ≡ part_count sites.now }
    requires count { length seats.old.items ≡ workers }
    requires some { 0 < workers }
    requires few { workers < 65 }
    ensures seats { AllReturned (board_table board.now) seats.new.items }
    ensures count { length seats.new.items ≡ length seats.old.items }
{
    let threads = seats.len();
    thread::for_each_mut(
        rt,
        seats.as_mut_slice(),
        threads,
        &|worker: usize, seat: &mut TurnSeat<Placed<PlainLink>>|
            requires { IsReady (board_table board.now) seat.old × (length (firsts board.now) ≡ part_count sites.now) × (worker < workers) × (workers < 65) }
            ensures { IsReady (board_table board.entry.now) seat.new × (number_of seat.new ≡ number_of seat.old) }
        {
            work(
                rt,
                alloc,
                board,
                seat,
                sites,
                gate,
                signals,
                worker as u32,
                workers,
            )
        },
    );
}

/// All workers work, each on a seat that it gets. No worker works if memory for the seats is refused.
fn run_on_seats<H: Threads + Wait + Sync, G: Gate + Sync>(
    rt: &H,
    alloc: Global,
    turns: &mut Turns<Placed<PlainLink>>,
    sites: &Sites,
    gate: &G,
    signals: &Signals,
    workers: u32,
) -> Vec<TurnSeat<Placed<PlainLink>>>
    requires new { given_of turns.old ≡ 0 }
    requires parts { length (firsts (board_of turns.old)) ≡ part_count sites.now }
    requires some { 0 < workers }
    requires few { workers < 65 }
    ensures board { board_of turns.new ≡ board_of turns.old }
    ensures seats { AllReturned (board_table (board_of turns.old)) result.items }
    ensures all { length result.items ≡ given_of turns.new }
{
    let mut seats = Vec::new(alloc);
    if seats.reserve(workers as usize).is_err() {
        signals.refuse();
        return seats;
    }
    seats_of(turns, &mut seats, workers);
    run_workers(
        rt,
        alloc,
        turns.board(),
        &mut seats,
        sites,
        gate,
        signals,
        workers,
    );
    seats
}

/// Workers make events on the parts until nothing is left to try, a journal has a final event, or memory is refused. The parts come back
/// with the starts that they had, and with journals that agree on every pair.
pub fn run_team<H: Threads + Wait + Sync, G: Gate + Sync>(
    rt: &H,
    alloc: Global,
    parts: Vec<Placed<PlainLink>>,
    sites: &Sites,
    workers: u32,
    gate: &G,
) -> Team
    requires count { length parts.items ≡ part_count sites.now }
    requires some { 0 < length parts.items }
    requires few { length parts.items < 2 ^ 32 }
    requires paired { ArePaired (map entries_of parts.items) }
    requires workers { (0 < workers) × (workers < 65) }
    ensures { IsFaithful began entries_of parts.items result.parts.items }
{
    let Ok(signals) = Signals::of(alloc, sites.shape().visited()) else {
        return Team {
            parts,
            refused: true,
        };
    };
    let mut turns = match Turns::of(alloc, parts) {
        Ok(turns) => turns,
        Err(NoTurns { items }) => {
            return Team {
                parts: items,
                refused: true,
            };
        }
    };
    let seats = run_on_seats(rt, alloc, &mut turns, sites, gate, &signals, workers);
    Team {
        parts: turns.close(seats),
        refused: signals.refused(),
    }
}
