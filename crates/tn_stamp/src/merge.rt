//! The merge of journals.

ghost use Rattle.std.specs.Prelude.{◌≡◌, ◌<◌, ◌≤◌, ◌+◌, ◌^◌, ◌++◌, ◌∷◌, [], if◌then◌else◌, length, IfOk, slice_index};
ghost use Rattle.std.specs.BinaryHeap.{IsHeap, heap_items, heap_len};
ghost use Rattle.std.specs.Option.{OnSome};
ghost use Rattle.std.specs.Result.{OnOk};
ghost use Rattle.tn_stamp.specs.Heads.{AllRise, AreHeads, IsNext, TakesNext, head_order};
ghost use Rattle.tn_stamp.specs.Journals.{Rises};
ghost use Rattle.tn_stamp.specs.Merging.{ArePaired, IsMerge, entries_at, entries_of, head_at, is_least};
ghost use Rattle.tn_stamp.specs.Pairs.{pair_of};

use crate::journal::Journal;
use std::alloc::{AllocError, Global};
use std::cmp::Reverse;
use std::collections::BinaryHeap;
use tn_base::event::Event;

// Stamps of the next entries of journals with the journals' places, the least first.
type Heads = BinaryHeap<Reverse<(u64, usize)>>;

// Whether the event stands in the journal of the least of its parts; an event on one part stands in no other.
fn is_least(count: usize, part: usize, e: &Event) -> bool
    ensures { result ≡ is_least (pair_of count e.now) part }
{
    match *e {
        Event::Turn(_, _) | Event::Deliver(_) | Event::Route(_) | Event::Begin | Event::Announce =>
            true,
        Event::Depart(p, _)
        | Event::Arrive(_, p)
        | Event::Report(p)
        | Event::Confirm(p)
        | Event::Release(p)
        | Event::Go(p) => p.0 as usize == part,
        Event::HostPut | Event::HostTake => part == 0,
    }
}

// The stamp and the event of the next entry of a journal.
fn next_of(journals: &[Journal], next: &[usize], part: usize) -> Option<(u64, Event)>
    requires { length next.now ≡ length journals.now }
    ensures entry { IsNext (head_at (entries_of journals.now) (slice_index next.now) part) result }
    ensures rises { Rises 0 (entries_at (entries_of journals.now) part) }
    ensures few { OnSome result (slice_index next.now part + 1 < 2 ^ 64) }
{
    if part >= journals.len() {
        return None;
    }
    let journal = &journals[part];
    let at = next[part];
    if at >= journal.len() {
        return None;
    }
    Some((journal.stamp_at(at), journal.event_at(at)))
}

// The next entries of all journals.
fn all_heads(alloc: Global, journals: &[Journal], next: &[usize]) -> Result<Heads, AllocError>
    requires { length next.now ≡ length journals.now }
    ensures heap { IfOk result (λ heads. IsHeap head_order (heap_items heads)) }
    ensures each { IfOk result (λ heads. AreHeads (entries_of journals.now) (slice_index next.now) (length journals.now) (heap_items heads)) }
    ensures rises { OnOk result (AllRise (entries_of journals.now) (length journals.now)) }
{
    let mut heads = BinaryHeap::new(alloc);
    for part in 0..journals.len() {
        if let Some((stamp, _event)) = next_of(journals, next, part) {
            heads.push(Reverse((stamp, part)))?;
        }
    }
    Ok(heads)
}

// Adds an event, where it is to be added.
fn push_if(events: &mut Vec<Event>, there: bool, e: Event) -> Result<(), AllocError>
    ensures { OnOk result (events.new.items ≡ events.old.items ++ (if there then e ∷ [] else [])) }
{
    if there {
        events.push(e)?;
    }
    Ok(())
}

// Adds the next entry of a journal, if it has one.
fn push_next(
    heads: &mut Heads,
    journals: &[Journal],
    next: &[usize],
    part: usize,
) -> Result<(), AllocError>
    requires { length next.now ≡ length journals.now }
    ensures next { OnOk result (TakesNext (entries_of journals.now) (slice_index next.now) part (heap_items heads.old) (heap_items heads.new)) }
    ensures len { OnOk result (heap_len heads.new ≤ heap_len heads.old + 1) }
{
    let Some((first, _event)) = next_of(journals, next, part) else {
        return Ok(());
    };
    heads.push(Reverse((first, part)))?;
    Ok(())
}

/// The events of all journals, each once, by stamp and then by the least of their parts.
pub fn merge(alloc: Global, journals: &[Journal]) -> Result<Vec<Event>, AllocError>
    requires { ArePaired (entries_of journals.now) }
    ensures { IfOk result (λ events. IsMerge (entries_of journals.now) events.items) }
{
    let mut next: Vec<usize> = vec![in alloc; 0; journals.len()]?;
    let mut heads = all_heads(alloc, journals, &next)?;
    let mut events = Vec::new(alloc);
    while let Some(Reverse((stamp, part))) = heads.pop() {
        let Some((first, event)) = next_of(journals, &next, part) else {
            continue;
        };
        if first != stamp {
            continue;
        }
        push_if(&mut events, is_least(journals.len(), part, &event), event)?;
        next[part] += 1;
        push_next(&mut heads, journals, &next, part)?;
    }
    Ok(events)
}
