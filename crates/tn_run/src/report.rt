//! The lines that a run writes.
ghost use Rattle.std.specs.Prelude.{◌≡◌, ◌++◌, OnOk, codes, sum_by};
ghost use Rattle.tn_letters.specs.Law.{dropped_on};
ghost use Rattle.tn_text.specs.Hex.{hex_word_text};
ghost use Rattle.tn_run.specs.Report.{dropped_text, exit_text, exits_from, exits_text, outcome_text, part_exits, part_hosts, report_text, taken_text, trap_text};

use std::alloc::{AllocError, Global};
use tn_base::event::{Outcome, Trap};
use tn_link::plain::PlainLink;
use tn_part::part::Part;
use tn_text::print::{push_decimal, push_hex_word};
use tn_thread::state::ThreadState;
use tn_tile::tile::Tile;
use tn_trace::host::push_hosts;
use tn_world::world::World;

/// The printed name of a trap.
fn trap_name(trap: Trap) -> &'static [u8]
    ensures { result.now ≡ trap_text trap }
{
    match trap {
        Trap::BadInstr => b"BadInstr",
        Trap::BadFetch => b"BadFetch",
        Trap::Misaligned => b"Misaligned",
        Trap::BadAddress => b"BadAddress",
        Trap::BadCsr => b"BadCsr",
        Trap::BadDest => b"BadDest",
        Trap::SendBusy => b"SendBusy",
        Trap::RecvEmpty => b"RecvEmpty",
        Trap::BadFree => b"BadFree",
        Trap::Environment => b"Environment",
        Trap::BadPin => b"BadPin",
        Trap::BadLocalKey => b"BadLocalKey",
    }
}

/// Appends the line of a thread that ended.
fn push_exit(
    alloc: Global,
    text: &mut Vec<u8>,
    address: u32,
    state: ThreadState,
) -> Result<(), AllocError>
    ensures { OnOk result (text.new.items ≡ text.old.items ++ exit_text address state) }
{
    let ThreadState::Dead(value) = state else {
        return Ok(());
    };
    text.extend_from_slice(b"exit ")?;
    push_decimal(alloc, text, address)?;
    text.extend_from_slice(b" ")?;
    push_decimal(alloc, text, value)?;
    text.extend_from_slice(b"\n")?;
    Ok(())
}

/// Appends the lines of the threads of a tile that ended, by address.
fn push_tile_exits(alloc: Global, text: &mut Vec<u8>, tile: &Tile) -> Result<(), AllocError>
    ensures { OnOk result (text.new.items ≡ text.old.items ++ exits_from tile.now.plan.shape tile.now.plan.tile 0 tile.now.now.threads) }
{
    tile.kept();
    let shape = tile.shape();
    let _few = shape.tile_threads();
    let mut place = 0;
    for thread in tile.threads() {
        let address = shape.thread_in_tile(tile.name(), place).0;
        push_exit(alloc, text, address, *thread.state())?;
        place += 1;
    }
    Ok(())
}

/// Appends the lines of all threads that ended, by address.
fn push_exits(
    alloc: Global,
    text: &mut Vec<u8>,
    parts: &[Part<PlainLink>],
) -> Result<(), AllocError>
    ensures { OnOk result (text.new.items ≡ text.old.items ++ exits_text parts.now) }
{
    for part in parts {
        push_part_exits(alloc, text, part)?;
    }
    Ok(())
}

/// Appends the lines of the threads of a part that ended.
fn push_part_exits(
    alloc: Global,
    text: &mut Vec<u8>,
    part: &Part<PlainLink>,
) -> Result<(), AllocError>
    ensures { OnOk result (text.new.items ≡ text.old.items ++ part_exits part.now) }
{
    match part.as_tile() {
        Some(tile) => push_tile_exits(alloc, text, tile),
        None => Ok(()),
    }
}

/// Appends the lines of the letters that the host took, in the order taken.
fn push_taken(text: &mut Vec<u8>, parts: &[Part<PlainLink>]) -> Result<(), AllocError>
    ensures { OnOk result (text.new.items ≡ text.old.items ++ taken_text parts.now) }
{
    for part in parts {
        push_part_hosts(text, part)?;
    }
    Ok(())
}

/// Appends the lines of the letters that a part took as the host.
fn push_part_hosts(text: &mut Vec<u8>, part: &Part<PlainLink>) -> Result<(), AllocError>
    ensures { OnOk result (text.new.items ≡ text.old.items ++ part_hosts part.now) }
{
    let Some(host) = part.as_host() else {
        return Ok(());
    };
    push_hosts(text, host.got())
}

/// How many letters were dropped on a part since their receivers were dead.
fn dropped_on(part: &Part<PlainLink>) -> u64
    ensures { result ≡ dropped_on part.now }
{
    match part.as_tile() {
        Some(tile) => tile.dropped(),
        None => 0,
    }
}

/// How many letters were dropped since their receivers were dead.
fn count_dropped(parts: &[Part<PlainLink>]) -> u128
    ensures { result ≡ sum_by dropped_on parts.now }
{
    let mut count = 0;
    for part in parts {
        count += u128::from(dropped_on(part));
    }
    count
}

/// Appends the line of the letters that were dropped, where any were.
fn push_dropped(alloc: Global, text: &mut Vec<u8>, count: u128) -> Result<(), AllocError>
    ensures { OnOk result (text.new.items ≡ text.old.items ++ dropped_text count) }
{
    if count == 0 {
        return Ok(());
    }
    let line = format!(in alloc; "dropped {count}\n")?;
    text.extend_from_slice(line.as_bytes())
}

/// Appends the line of a key that has no beats.
fn push_bad_key(text: &mut Vec<u8>, key: u32) -> Result<(), AllocError>
    ensures { OnOk result (text.new.items ≡ text.old.items ++ (codes "badkey " ++ hex_word_text key ++ codes "\n")) }
{
    text.extend_from_slice(b"badkey ")?;
    push_hex_word(text, key)?;
    text.extend_from_slice(b"\n")?;
    Ok(())
}

/// Appends the line of an outcome.
pub(crate) fn push_outcome(
    alloc: Global,
    text: &mut Vec<u8>,
    outcome: Outcome,
) -> Result<(), AllocError>
    ensures { OnOk result (text.new.items ≡ text.old.items ++ outcome_text outcome) }
{
    match outcome {
        Outcome::Done => text.extend_from_slice(b"done\n"),
        Outcome::Trapped(thread, trap) => {
            text.extend_from_slice(b"trap ")?;
            push_decimal(alloc, text, thread.0)?;
            text.extend_from_slice(b" ")?;
            text.extend_from_slice(trap_name(trap))?;
            text.extend_from_slice(b"\n")
        }
        Outcome::BadKey(key) => push_bad_key(text, key),
        Outcome::Spent(thread) => {
            text.extend_from_slice(b"spent ")?;
            push_decimal(alloc, text, thread.0)?;
            text.extend_from_slice(b"\n")
        }
        Outcome::Jammed => text.extend_from_slice(b"jammed\n"),
    }
}

/// Appends the report of a run that ended so with this machine.
pub(crate) fn push_report(
    alloc: Global,
    text: &mut Vec<u8>,
    end: &World<PlainLink>,
    outcome: Outcome,
) -> Result<(), AllocError>
    ensures { OnOk result (text.new.items ≡ text.old.items ++ report_text end.now outcome) }
{
    push_taken(text, end.parts())?;
    push_exits(alloc, text, end.parts())?;
    push_dropped(alloc, text, count_dropped(end.parts()))?;
    push_outcome(alloc, text, outcome)
}
