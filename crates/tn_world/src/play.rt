//! Runs of a machine on one thread.

ghost use Rattle.std.specs.Prelude.{◌≡◌, ◌≢◌, ◌≤◌, MatchOption, MatchResult, None, false, ℕ, ⊤};
ghost use Rattle.tn_base.specs.declared.event.Event.TheVariants as event;
ghost use Rattle.tn_base.specs.declared.ids.ThreadId.{ThreadId};
ghost use Rattle.tn_rows.specs.Events.{Rests, happened};
ghost use Rattle.tn_world.specs.Plays.{MakesOr, Played, Reached, Told};

use crate::events::{enabled, final_of};
use crate::world::World;
use std::alloc::AllocError;
use tn_agenda::agenda::Agenda;
use tn_agenda::share::Share;
use tn_base::event::Event;
use tn_base::ids::ThreadId;
use tn_link::link::Link;
use tn_pages::stock::{FULL, PageStock};
use tn_part::place::to_host;
use tn_part::visit::Visit;
use tn_tile::deliver::Did;
use tn_tile::step::Turned;

/// So many tries are enough to come round all events of the greatest machine several times.
const MOST_TRIES: u32 = 1 << 20;

/// Makes events, longest turns among them, round the parts, to a final event, to none enabled, or to `limit` events.
/// If memory runs out, the machine has made the first few of these events and nothing else.
pub fn play<L: Link>(world: &mut World<L>, limit: u64) -> Result<Vec<Event>, AllocError>
    ensures { MatchResult result (λ history. Played limit world.old history.items world.new) (λ _. Reached limit world.old world.new) }
{
    let alloc = world.parts.allocator().clone()?;
    let share = Share::of(world.sites.shape().visited(), 1, 0);
    let mut agenda = Agenda::of(alloc, &world.sites, share)?;
    let mut history = Vec::new(alloc);
    let mut stock = PageStock::of(alloc);
    while (history.len() as u64) < limit {
        let next = next_move(world, &mut agenda, &mut stock)?;
        let Some(made) = next else {
            return Ok(history);
        };
        history.push(made.event)?;
        if made.ends {
            return Ok(history);
        }
    }
    Ok(history)
}

/// An event that was made, and whether it ends the run.
#[derive(Clone, Copy)]
struct Made {
    event: Event,
    ends: bool,
}

/// The next event of the run; none where no event is enabled.
fn next_move<L: Link>(
    world: &mut World<L>,
    agenda: &mut Agenda,
    stock: &mut PageStock,
) -> Result<Option<Made>, AllocError>
    ensures { MakesOr result (Rests world.old) world.old world.new }
{
    match try_agenda(world, agenda, stock)? {
        Some(made) => Ok(Some(made)),
        None => make_first(world, agenda, stock),
    }
}

/// Makes the first event that is enabled; none where no event is.
fn make_first<L: Link>(
    world: &mut World<L>,
    agenda: &mut Agenda,
    stock: &mut PageStock,
) -> Result<Option<Made>, AllocError>
    ensures { MakesOr result (Rests world.old) world.old world.new }
{
    let Some(event) = enabled(world) else {
        return Ok(None);
    };
    agenda.wake_all();
    make(world, &event, stock)
}

/// The first event of the agenda that is enabled.
fn try_agenda<L: Link>(
    world: &mut World<L>,
    agenda: &mut Agenda,
    stock: &mut PageStock,
) -> Result<Option<Made>, AllocError>
    ensures { MakesOr result ⊤ world.old world.new }
{
    for _ in 0..MOST_TRIES {
        let Some(tried) = next_tried(world, agenda) else {
            return Ok(None);
        };
        if let Some(made) = make(world, &tried, stock)? {
            agenda.happened(&made.event);
            return Ok(Some(made));
        }
    }
    Ok(None)
}

/// The next event of the agenda; None if nothing is left to try.
fn next_tried<L: Link>(world: &World<L>, agenda: &mut Agenda) -> Option<Event> {
    for _ in 0..MOST_TRIES {
        let Some(p) = agenda.stop() else {
            if let Some(event) = agenda.rest(world.parts.last()?) {
                return Some(event);
            }
            agenda.stop()?;
            continue;
        };
        if let Some(event) = agenda.next(world.parts.get(p.0 as usize)?) {
            if !is_empty_arrival(world, &event) {
                return Some(event);
            }
            agenda.emptied(&event);
        }
    }
    None
}

/// Whether an event is an arrival from a link without a packet.
fn is_empty_arrival<L: Link>(world: &World<L>, e: &Event) -> bool {
    let l = match *e {
        Event::Arrive(l, _) => l,
        Event::HostTake => to_host(&world.sites),
        _ => return false,
    };
    match world.parts.get(l.0 as usize) {
        Some(link) => !link.carries(),
        None => false,
    }
}

/// Makes an event if it is enabled; a turn becomes the longest turn of its thread. The pages that a turn writes first and a letter
/// for the host may want memory.
#[inline(always)]
fn make<L: Link>(
    world: &mut World<L>,
    e: &Event,
    stock: &mut PageStock,
) -> Result<Option<Made>, AllocError>
    ensures { MakesOr result (happened e.now world.old ≡ None) world.old world.new }
{
    match *e {
        Event::Turn(t, _) => {
            stock.reserve(FULL)?;
            Ok(make_turn(world, t, stock))
        }
        Event::HostTake => {
            let did = world.host_take()?;
            Ok(went_on(did, *e))
        }
        _ => Ok(make_without(world, e)),
    }
}

/// Makes the longest turn of a thread with pages of a full stock, if a turn is enabled.
#[inline(always)]
fn make_turn<L: Link>(world: &mut World<L>, t: ThreadId, stock: &mut PageStock) -> Option<Made>
    requires { 64 ≤ stock.old }
    ensures { MatchOption result ((world.new ≡ world.old) × ((n : ℕ) → happened (event.Turn t n) world.old ≡ None)) (λ m. Told m.event m.ends world.old world.new) }
{
    let last = world.turn(t, stock);
    match last.turned {
        Turned::Moved(n) => Some(Made {
            event: Event::Turn(t, n),
            ends: last.ends,
        }),
        Turned::Nothing => None,
    }
}

/// Makes an event that wants no memory, if it is enabled.
fn make_without<L: Link>(world: &mut World<L>, e: &Event) -> Option<Made>
    requires turn { (t : ThreadId) (n : ℕ) → e.now ≢ event.Turn t n }
    requires take { e.now ≢ event.HostTake }
    ensures { MatchOption result ((world.new ≡ world.old) × (happened e.now world.old ≡ None)) (λ m. Told m.event m.ends world.old world.new) }
{
    match *e {
        Event::Deliver(t) => went_on(world.deliver(t), *e),
        Event::Depart(p, l) => went_on(world.depart(p, l), *e),
        Event::Arrive(l, p) => went_on(world.arrive(l, p), *e),
        Event::Route(p) => {
            let did = world.route(p);
            told(did, *e, final_of(world, e).is_some())
        }
        Event::HostPut => went_on(world.host_put(), *e),
        Event::Report(p) => went_on(world.visit(Visit::Report, p), *e),
        Event::Begin => went_on(world.begin(), *e),
        Event::Confirm(p) => went_on(world.visit(Visit::Confirm, p), *e),
        Event::Announce => {
            let did = world.announce();
            told(did, *e, final_of(world, e).is_some())
        }
        Event::Release(p) => went_on(world.visit(Visit::Release, p), *e),
        Event::Go(p) => went_on(world.visit(Visit::Go, p), *e),
        Event::Turn(_, _) | Event::HostTake => None,
    }
}

/// The event, if it happened: it ends no run.
#[inline(always)]
fn went_on(did: Did, e: Event) -> Option<Made>
    ensures { MatchOption result (did ≡ Did.Nothing) (λ m. (did ≡ Did.Moved) × (m ≡ record { event = e; ends = false })) }
{
    told(did, e, false)
}

/// The event, if it happened, and whether it ends the run.
#[inline(always)]
fn told(did: Did, event: Event, ends: bool) -> Option<Made>
    ensures { MatchOption result (did ≡ Did.Nothing) (λ m. (did ≡ Did.Moved) × (m ≡ record { event = event; ends = ends })) }
{
    match did {
        Did::Moved => Some(Made { event, ends }),
        Did::Nothing => None,
    }
}
