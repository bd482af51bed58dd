//! The steps of the bag machine that a turn is.

ghost use Rattle.std.specs.Prelude.{◌≡◌, ◌++◌, IsSome, IsTrue, OnOk, map};
ghost use Rattle.tn_base.specs.Address.{place_in_tile};
ghost use Rattle.tn_base.specs.declared.op.Op.TheVariants as op;
ghost use Rattle.tn_slots.specs.Pool.{message_at, queue_at};
ghost use Rattle.tn_slots.specs.Queues.{first_of};
ghost use Rattle.tn_tile.specs.Rows.{is_here, turn_row};
ghost use Rattle.tn_tile.specs.Step.{can_step};
ghost use Rattle.tn_letters.specs.declared.steps.BagStep.TheVariants as bag;
ghost use Rattle.tn_letters.specs.Steps.{first_letter, queued, seen_at, step_by, thread_step, turn_steps};
ghost use Rattle.tn_letters.specs.Tiles.{letter_in};

use std::alloc::AllocError;
use tn_base::ids::ThreadId;
use tn_base::message::Letter;
use tn_base::op::Op;
use tn_letters::steps::{BagStep, Seen};
use tn_tile::tile::Tile;

/// The steps of a turn: those of its thread, made one after another on a copy of the tile.
pub(crate) fn push_turn(
    all: &mut Vec<BagStep>,
    tile: &Tile,
    t: ThreadId,
    n: u32,
) -> Result<(), AllocError>
    requires { IsSome (turn_row tile.now.plan t.0 n tile.now.now) }
    ensures { OnOk result (all.new.items ≡ all.old.items ++ turn_steps t.0 (place_in_tile tile.now.plan.shape t.0) n tile.now) }
{
    tile.kept();
    let mut current = tile.copy()?;
    let mut stock = tile.stock(0)?;
    for _made in 0..n {
        push_step(all, &current, t)?;
        stock.reserve(1)?;
        let _steps = current.turn_up_to(t, 1, &mut stock);
        current.kept();
    }
    Ok(())
}

/// One step of a thread, and the letters that are dropped with it.
fn push_step(all: &mut Vec<BagStep>, tile: &Tile, t: ThreadId) -> Result<(), AllocError>
    requires here { IsTrue (is_here tile.now.plan t.0) }
    requires can { IsTrue (can_step tile.now.plan.shape.fuel (place_in_tile tile.now.plan.shape t.0) tile.now.now) }
    ensures { OnOk result (all.new.items ≡ all.old.items ++ thread_step t.0 (place_in_tile tile.now.plan.shape t.0) tile.now) }
{
    let asked = tile.asks(t)?;
    all.push(step_by(tile, t, &asked))?;
    if matches!(asked, Op::Kill(_)) {
        push_dropped(all, tile, t)?;
    }
    Ok(())
}

/// A thread's own step, by what it asks of the tile.
fn step_by(tile: &Tile, t: ThreadId, asked: &Op) -> BagStep
    requires here { IsTrue (is_here tile.now.plan t.0) }
    requires hand { asked.now ≡ op.Hand → IsSome (first_of (queue_at tile.now.now.pool (place_in_tile tile.now.plan.shape t.0))) }
    ensures { result ≡ step_by t.0 (seen_at tile.now (place_in_tile tile.now.plan.shape t.0)) (first_letter tile.now (place_in_tile tile.now.plan.shape t.0)) asked.now }
{
    let thread = t.0;
    let seen = seen_by(tile, t);
    match *asked {
        Op::None | Op::Kill(_) | Op::Trap(_) => BagStep::Private { thread, seen },
        Op::Send(..) => BagStep::Send { thread, seen },
        Op::Hand => BagStep::Hand {
            thread,
            seen,
            letter: first_letter(tile, t),
        },
        Op::Free(slot) => BagStep::Free { thread, seen, slot },
        Op::Idle(vote) => BagStep::Idle { thread, seen, vote },
    }
}

/// What the tile shows to a thread.
fn seen_by(tile: &Tile, t: ThreadId) -> Seen
    requires { IsTrue (is_here tile.now.plan t.0) }
    ensures { result ≡ seen_at tile.now (place_in_tile tile.now.plan.shape t.0) }
{
    tile.kept();
    let place = tile.shape().place_in_tile(t);
    Seen {
        can_send: tile.pending(t).is_none(),
        first: tile.pool().first(place),
        key: tile.pool().key(place),
    }
}

/// The letter that a thread would be handed.
fn first_letter(tile: &Tile, t: ThreadId) -> Letter
    requires here { IsTrue (is_here tile.now.plan t.0) }
    requires first { IsSome (first_of (queue_at tile.now.now.pool (place_in_tile tile.now.plan.shape t.0))) }
    ensures { result ≡ first_letter tile.now (place_in_tile tile.now.plan.shape t.0) }
{
    tile.kept();
    tile.pool().kept();
    let slot = tile.pool().first(tile.shape().place_in_tile(t)).unwrap();
    letter_in(tile, slot, t)
}

/// The letters of the queue of a thread that ended are dropped.
fn push_dropped(all: &mut Vec<BagStep>, tile: &Tile, t: ThreadId) -> Result<(), AllocError>
    requires { IsTrue (is_here tile.now.plan t.0) }
    ensures { OnOk result (all.new.items ≡ all.old.items ++ map bag.Discard (queued tile.now (place_in_tile tile.now.plan.shape t.0))) }
{
    tile.kept();
    tile.pool().kept();
    let place = tile.shape().place_in_tile(t);
    let mut pool = tile.pool().copy()?;
    let count = pool.queue_len(place);
    for _taken in 0..count {
        let slot = pool.take(place).unwrap();
        let letter = letter_in(tile, slot, t);
        all.push(BagStep::Discard { letter })?;
    }
    Ok(())
}

/// The letter that a slot has for a thread.
fn letter_in(tile: &Tile, slot: u16, t: ThreadId) -> Letter
    requires here { IsTrue (is_here tile.now.plan t.0) }
    requires used { IsSome (message_at tile.now.now.pool slot) }
    ensures { result ≡ letter_in tile.now (place_in_tile tile.now.plan.shape t.0) slot }
{
    let (origin, number) = tile.sender(slot).unwrap();
    let bytes = tile.pool().bytes(slot).unwrap();
    Letter {
        origin,
        number,
        receiver: t.0,
        bytes: bytes.copy(),
    }
}
