//! Two items and two seats: who gets a turn.

ghost use Rattle.std.specs.Prelude.{◌≡◌, ◌<◌, [], length, IfOk};
ghost use Rattle.tn_turns.specs.Ready.{IsReady};
ghost use Rattle.tn_turns.specs.Words.{board_table, firsts, number_of};

use crate::opening::NoTurns;
use crate::seats::{TurnBoard, TurnSeat, Turns};
use std::alloc::{AllocError, Global};
use std::test::Fail;
use tn_stamp::item::Item;

/// An item to which nothing happens.
#[derive(Drop)]
struct Blank {
    number: u32,
}

impl Item for Blank {
    type Start = u32;

    ghost start = { λ b. b.number };

    ghost journal = { λ b. [] };
}

fn blanks(alloc: Global) -> Result<Vec<Blank>, AllocError>
    ensures { IfOk result (λ v. length v.items ≡ 2) }
{
    let mut items = Vec::with_capacity(alloc, 2)?;
    items.push_reserved(Blank { number: 0 });
    items.push_reserved(Blank { number: 1 });
    Ok(items)
}

// Whether the seat gets this turn. The item goes back as it was.
fn gets(board: &TurnBoard<Blank>, seat: &mut TurnSeat<Blank>, i: u32) -> bool
    requires ready { IsReady (board_table board.now) seat.old }
    requires within { i < length (firsts board.now) }
    ensures ready { IsReady (board_table board.now) seat.new }
    ensures number { number_of seat.new ≡ number_of seat.old }
{
    let Some(item) = board.take(seat, i) else {
        return false;
    };
    board.give_one(seat, i, item);
    true
}

// Whether the second seat gets the turn that it asks for, while the first seat holds one.
fn second_gets(
    board: &TurnBoard<Blank>,
    first: &mut TurnSeat<Blank>,
    second: &mut TurnSeat<Blank>,
    held: u32,
    asked: u32,
) -> bool
    requires first { IsReady (board_table board.now) first.old }
    requires second { IsReady (board_table board.now) second.old }
    requires held { held < length (firsts board.now) }
    requires asked { asked < length (firsts board.now) }
    ensures first { IsReady (board_table board.now) first.new }
    ensures second { IsReady (board_table board.now) second.new }
    ensures first_number { number_of first.new ≡ number_of first.old }
    ensures second_number { number_of second.new ≡ number_of second.old }
{
    let Some(item) = board.take(first, held) else {
        return false;
    };
    let got = gets(board, second, asked);
    board.give_one(first, held, item);
    got
}

// The table of cases: which turn is held, which is asked for.
fn answers(
    board: &TurnBoard<Blank>,
    first: &mut TurnSeat<Blank>,
    second: &mut TurnSeat<Blank>,
) -> [bool; 4]
    requires first { IsReady (board_table board.now) first.old }
    requires second { IsReady (board_table board.now) second.old }
    requires two { length (firsts board.now) ≡ 2 }
    ensures first { IsReady (board_table board.now) first.new }
    ensures second { IsReady (board_table board.now) second.new }
    ensures first_number { number_of first.new ≡ number_of first.old }
    ensures second_number { number_of second.new ≡ number_of second.old }
{
    let same = second_gets(board, first, second, 0, 0);
    let next = second_gets(board, first, second, 0, 1);
    let last = second_gets(board, first, second, 1, 0);
    let same_last = second_gets(board, first, second, 1, 1);
    [same, next, last, same_last]
}

fn is_send<T: Send>(_value: &T) {}

fn is_sync<T: Sync>(_value: &T) {}

#[test]
fn a_turn_is_with_one_seat(rt: HostRuntime) -> Result<(), Fail> {
    let items = blanks(rt.alloc())?;
    let mut seats = Vec::with_capacity(rt.alloc(), 2)?;
    let mut turns = match Turns::of(rt.alloc(), items) {
        Ok(turns) => turns,
        Err(NoTurns { items: _ }) => {
            seats.destroy_empty();
            return Err(AllocError)?;
        }
    };
    let mut first = turns.seat();
    let mut second = turns.seat();
    is_send(&first);
    is_sync(turns.board());
    let got = answers(turns.board(), &mut first, &mut second);
    seats.push_reserved(first);
    seats.push_reserved(second);
    let items = turns.close(seats);
    assert_eq!(rt; got, [false, true, true, false]);
    assert_eq!(rt; items.len(), 2);
    Ok(())
}
