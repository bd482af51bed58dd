//! The run that placed parts made.

ghost use Rattle.std.specs.Prelude.{◌≡◌, ◌==◌, ◌||◌, ◌&&◌, ◌⊎◌, IfOk, false, filter, is_some, length, map, take, true};
ghost use Rattle.std.specs.List.{list_all};
ghost use Rattle.tn_rows.specs.Cuts.{IsCut, IsOver};
ghost use Rattle.tn_rows.specs.Ends.{final_after, last_of};
ghost use Rattle.tn_rows.specs.Events.{IsWorld, Rests};
ghost use Rattle.tn_rows.specs.Runs.{Run};
ghost use Rattle.tn_rows.specs.Stamped.{journals_of, machine, presents_of, starts_of};
ghost use Rattle.tn_settle.specs.Settles.{CanHappen, IsHistory, ended_here, last_here, some_ended};
ghost use Rattle.tn_stamp.specs.Merging.{ArePaired, IsMerge};
ghost use Rattle.tn_stamp.specs.Merging.{entries_of as journals_in};
ghost use Rattle.tn_stamped.specs.Placed.{AreAt, entries_of, stamped_of};

use std::alloc::{AllocError, Global};
use tn_base::event::{Event, Outcome};
use tn_base::laws::law_links;
use tn_base::shape::Shape;
use tn_link::link::Link;
use tn_pages::stock::PageStock;
use tn_part::part::Part;
use tn_stamp::journal::Journal;
use tn_stamp::merge::merge;
use tn_stamped::laws::law_placed_merge;
use tn_stamped::placed::Placed;
use tn_stamped::stamped::Pieces;
use tn_world::events::{final_of, redo};
use tn_world::world::World;

/// A run of a machine.
#[derive(Drop)]
pub struct Settled<L: Link> {
    /// Where the machine began.
    pub start: World<L>,
    /// Where the run ends.
    pub end: World<L>,
    /// The events of the run.
    pub history: Vec<Event>,
}

/// The run that all parts of a machine made: the merge of their journals, cut behind its first final event.
pub fn settle<L: Link>(
    alloc: Global,
    shape: Shape,
    parts: Vec<Placed<L>>,
) -> Result<Settled<L>, AllocError>
    requires places { AreAt shape 0 parts.items }
    requires world { IsWorld (machine shape (starts_of (stamped_of parts.items))) }
    requires paired { ArePaired (map entries_of parts.items) }
    ensures start { IfOk result (λ s. s.start ≡ machine shape (starts_of (stamped_of parts.items))) }
    ensures run { IfOk result (λ s. Run s.start s.history.items s.end) }
    ensures history { IfOk result (λ s. IsHistory (stamped_of parts.items) s.start s.history.items s.end) }
    ensures ended { IfOk result (λ s. is_some (final_after (last_of s.history.items) s.end) ≡ some_ended (stamped_of parts.items)) }
    ensures whole { IfOk result (λ s. some_ended (stamped_of parts.items) ≡ false → IsMerge (journals_of (stamped_of parts.items)) s.history.items × (s.end ≡ machine shape (presents_of (stamped_of parts.items)))) }
    ensures over { IfOk result (λ s. (some_ended (stamped_of parts.items) ≡ true) ⊎ Rests (machine shape (presents_of (stamped_of parts.items))) → IsOver s.history.items s.end) }
{
    law_links(&shape);
    law_placed_merge(&shape, &parts);
    let ended = ended_count(&parts);
    let last = all_end_last(&parts);
    let Apart {
        starts,
        journals,
        presents,
    } = take_apart(alloc, parts)?;
    let mut history = merge(alloc, &journals)?;
    let start = World::of(shape, starts)?;
    let end = World::of(shape, presents)?;
    if is_whole(ended, last, &end, &history) {
        return Ok(Settled {
            start,
            end,
            history,
        });
    }
    let mut end = start.copy()?;
    let count = replay(alloc, &mut end, &history)?;
    history.truncate(count);
    Ok(Settled {
        start,
        end,
        history,
    })
}

/// How many journals have a final event.
fn ended_count<L: Link>(parts: &[Placed<L>]) -> usize
    ensures { result ≡ length (filter ended_here parts.now) }
{
    parts.iter().filter(|part| part.stamped().ended()).count()
}

/// Whether the first final event of a part's journal, if there is one, is the journal's last event.
fn is_last_final<L: Link>(part: &Placed<L>) -> bool
    ensures { result ≡ last_here part.now }
{
    match part.stamped().first_final() {
        Some(stamp) => part.stamped().journal().last() == stamp,
        None => true,
    }
}

/// Whether no journal has an event behind its first final one.
fn all_end_last<L: Link>(parts: &[Placed<L>]) -> bool
    ensures { result ≡ list_all last_here parts.now }
{
    parts.iter().all(is_last_final)
}

/// How a run ended with its last event, after which the machine is this one, if that event is final.
pub fn final_after<L: Link>(world: &World<L>, history: &[Event]) -> Option<Outcome>
    ensures { result ≡ final_after (last_of history.now) world.now }
{
    final_of(world, history.last()?)
}

/// Whether the merge of journals is a run as it is: no journal has a final event, or one has, and that event is its last event and the
/// merge's.
fn is_whole<L: Link>(ended: usize, last: bool, end: &World<L>, history: &[Event]) -> bool
    ensures { result ≡ (ended == 0 || (ended == 1 && (last && is_some (final_after (last_of history.now) end.now)))) }
{
    ended == 0 || (ended == 1 && (last && final_after(end, history).is_some()))
}

/// Where parts began, their journals, and where they are.
#[derive(Drop)]
struct Apart<L: Link> {
    starts: Vec<Part<L>>,
    journals: Vec<Journal>,
    presents: Vec<Part<L>>,
}

/// The starts, the journals and the presents of parts.
fn take_apart<L: Link>(alloc: Global, parts: Vec<Placed<L>>) -> Result<Apart<L>, AllocError>
    ensures starts { IfOk result (λ r. r.starts.items ≡ starts_of (stamped_of parts.items)) }
    ensures journals { IfOk result (λ r. journals_in r.journals.items ≡ journals_of (stamped_of parts.items)) }
    ensures presents { IfOk result (λ r. r.presents.items ≡ presents_of (stamped_of parts.items)) }
{
    let mut starts = Vec::with_capacity(alloc, parts.len())?;
    let mut journals = Vec::with_capacity(alloc, parts.len())?;
    let mut presents = Vec::with_capacity(alloc, parts.len())?;
    for part in parts {
        let Pieces {
            start,
            journal,
            present,
        } = part.into_stamped().into_pieces();
        starts.push(start)?;
        journals.push(journal)?;
        presents.push(present)?;
    }
    Ok(Apart {
        starts,
        journals,
        presents,
    })
}

/// Makes these events on a machine, up to the first final one. The answer says how many events it made.
fn replay<L: Link>(
    alloc: Global,
    world: &mut World<L>,
    events: &[Event],
) -> Result<usize, AllocError>
    requires { CanHappen world.old events.now }
    ensures { IfOk result (λ count. IsCut world.old events.now (take count events.now) world.new) }
{
    let mut stock = PageStock::of(alloc);
    let mut made: usize = 0;
    for event in events {
        let _did = redo(world, event, &mut stock)?;
        made += 1;
        if final_of(world, event).is_some() {
            return Ok(made);
        }
    }
    Ok(made)
}
