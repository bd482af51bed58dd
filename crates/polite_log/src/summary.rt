//! Figures of a run.

ghost use Rattle.std.specs.Prelude.{◌≡◌, ◌+◌, ◌++◌, IfOk, IsSome, IsTrue, OnOk, Some, count_by};
ghost use Rattle.tn_base.specs.Address.{place_in_tile};
ghost use Rattle.tn_letters.specs.Steps.{event_steps};
ghost use Rattle.tn_letters.specs.Tiles.{host_on};
ghost use Rattle.tn_rows.specs.Events.{happened};
ghost use Rattle.tn_rows.specs.Runs.{Run};
ghost use Rattle.tn_rows.specs.WorldView.{WorldView};
ghost use Rattle.tn_tile.specs.Rows.{is_here};
ghost use Rattle.polite_log.specs.Summary.{figure_text, is_announce, is_hand, letters_in, second_word, summary_text, word_sum};
ghost use Rattle.polite_log.specs.Waiting.{gone_or_waiting, waiting_by, waiting_in};

use crate::deeds::make;
use crate::reading::home;
use std::alloc::{AllocError, Global};
use tn_base::bytes::Bytes;
use tn_base::event::Event;
use tn_base::ids::ThreadId;
use tn_base::message::Letter;
use tn_link::link::Link;
use tn_pages::stock::PageStock;
use tn_tile::tile::Tile;
use tn_world::world::World;

/// The figures of a run of a graph job.
#[derive(Clone, Copy, PartialEq, Eq, Debug)]
pub struct Summary {
    /// How many vertices the graph has.
    pub vertices: u32,
    /// How many edges the graph has.
    pub edges: u32,
    /// How often the machine's rest was announced.
    pub announcements: usize,
    /// How often a recv handler was called with a letter.
    pub received: usize,
    /// How many letters were handed to threads.
    pub letters: usize,
    /// The sum of the second words of the letters that the host took, modulo 2 to the 32nd.
    pub sum: u32,
}

/// Whether an event announces the machine's rest.
fn is_announce(event: &Event) -> bool
    ensures { result ≡ is_announce event.now }
{
    matches!(event, Event::Announce)
}

/// How many announcements are among events.
pub fn announcements(history: &[Event]) -> usize
    ensures { result ≡ count_by is_announce history.now }
{
    history.iter().filter(|event| is_announce(event)).count()
}

/// How many letters were handed to threads in a run. The run is made again on one copy of the start, event by event.
pub fn letters<L: Link>(
    alloc: Global,
    start: &World<L>,
    history: &[Event],
) -> Result<usize, AllocError>
    requires { (end : WorldView) × Run start.now history.now end }
    ensures { IfOk result (λ n. n ≡ letters_in start.now history.now) }
{
    let mut count: usize = 0;
    let mut stock = PageStock::of(alloc);
    let mut world = start.copy()?;
    for event in history {
        let hands = make_and_count(&mut world, event, &mut stock)?;
        count = total(count, hands)?;
    }
    Ok(count)
}

/// Makes an event, and returns how many letters it hands to threads: as many as then wait no more, but for those that were dropped.
fn make_and_count<L: Link>(
    world: &mut World<L>,
    event: &Event,
    stock: &mut PageStock,
) -> Result<usize, AllocError>
    requires { IsSome (happened event.now world.old) }
    ensures made { OnOk result (happened event.now world.old ≡ Some world.new) }
    ensures hands { IfOk result (λ n. n ≡ count_by is_hand (event_steps event.now world.old)) }
{
    let before = waiting_by(world, event)?;
    make(world, event, stock)?;
    let after = waiting_by(world, event)?;
    Ok(before - after)
}

/// How many letters wait for the thread of a turn or were dropped on its tile; 0 for another event.
fn waiting_by<L: Link>(world: &World<L>, event: &Event) -> Result<usize, AllocError>
    ensures { IfOk result (λ n. n ≡ waiting_by event.now world.now) }
{
    match *event {
        Event::Turn(t, _) => waiting_in(world, t),
        Event::Deliver(_)
        | Event::Depart(_, _)
        | Event::Arrive(_, _)
        | Event::Route(_)
        | Event::HostPut
        | Event::HostTake
        | Event::Report(_)
        | Event::Begin
        | Event::Confirm(_)
        | Event::Announce
        | Event::Release(_)
        | Event::Go(_) => Ok(0),
    }
}

/// How many letters wait for a thread or were dropped on its tile; 0 if the thread is on no tile.
fn waiting_in<L: Link>(world: &World<L>, t: ThreadId) -> Result<usize, AllocError>
    ensures { IfOk result (λ n. n ≡ waiting_in t world.now) }
{
    match home(world, t) {
        Some(tile) => gone_or_waiting(tile, t),
        None => Ok(0),
    }
}

/// How many letters wait for a thread of a tile or were dropped on the tile.
fn gone_or_waiting(tile: &Tile, t: ThreadId) -> Result<usize, AllocError>
    requires { IsTrue (is_here tile.now.plan t.0) }
    ensures { IfOk result (λ n. n ≡ gone_or_waiting (place_in_tile tile.now.plan.shape t.0) tile.now.now) }
{
    tile.kept();
    let place = tile.shape().place_in_tile(t);
    let waiting = tile.pool().queue_len(place);
    total(waiting as usize, tile.dropped() as usize)
}

/// The sum of two counts. If no count can be so large, there is no room for the sum.
fn total(a: usize, b: usize) -> Result<usize, AllocError>
    ensures { IfOk result (λ sum. sum ≡ a + b) }
{
    match a.checked_add(b) {
        Some(sum) => Ok(sum),
        None => Err(AllocError),
    }
}

/// The second word of a message, its least byte first.
fn second_word(bytes: &Bytes) -> u32
    ensures { result ≡ second_word bytes.now }
{
    u32::from(bytes.byte(4))
        + 256 * u32::from(bytes.byte(5))
        + 65536 * u32::from(bytes.byte(6))
        + 16777216 * u32::from(bytes.byte(7))
}

/// The sum of the second words of letters, modulo 2 to the 32nd.
fn word_sum(letters: &[Letter]) -> u32
    ensures { result ≡ word_sum letters.now }
{
    let mut sum: u32 = 0;
    for letter in letters {
        sum = sum.wrapping_add(second_word(&letter.bytes));
    }
    sum
}

/// The sum of the second words of the letters that the host of a machine took, modulo 2 to the 32nd. It is 0 if no host is in its place.
pub fn host_sum<L: Link>(world: &World<L>) -> u32
    ensures { result ≡ word_sum (host_on world.now).got }
{
    match world.parts().first() {
        Some(part) => match part.as_host() {
            Some(host) => word_sum(host.got()),
            None => 0,
        },
        None => 0,
    }
}

/// Appends the six lines of a summary, each a name and a decimal number.
pub fn push_summary(alloc: Global, text: &mut Vec<u8>, summary: &Summary) -> Result<(), AllocError>
    ensures { OnOk result (text.new.items ≡ text.old.items ++ summary_text summary.now) }
{
    push_figure(alloc, text, "vertices", summary.vertices as u64)?;
    push_figure(alloc, text, "edges", summary.edges as u64)?;
    push_figure(alloc, text, "announcements", summary.announcements as u64)?;
    push_figure(alloc, text, "received", summary.received as u64)?;
    push_figure(alloc, text, "letters", summary.letters as u64)?;
    push_figure(alloc, text, "sum", summary.sum as u64)
}

/// Appends a line: a name and a decimal number.
fn push_figure(alloc: Global, text: &mut Vec<u8>, name: &str, number: u64) -> Result<(), AllocError>
    ensures { OnOk result (text.new.items ≡ text.old.items ++ figure_text name.now number) }
{
    let line = format!(in alloc; "{name} {number}\n")?;
    text.extend_from_slice(line.as_bytes())
}
