//! The in-edges of each thread by local key.

ghost use Rattle.std.specs.Prelude.{◌≡◌, ◌≤◌, ◌<◌, ◌+◌, ◌++◌, ◌∷◌, [], ◌/◌, ◌==◌, ℕ, IfOk, true, length, map, replicate, slice_index_or, slice_set, if◌then◌else◌};
ghost use Rattle.tn_base.specs.Address.{thread_at};
ghost use Rattle.tn_base.specs.Shape.{WithinLimits, thread_count};
ghost use Rattle.polite_routes.specs.InEdges.{Located, edges_in};
ghost use Rattle.polite_routes.specs.Once.{AllThere};
ghost use Rattle.polite_routes.specs.Routes.{PinsThere, in_edges_of, lists_to, trees_to};
ghost use Rattle.polite_routes.specs.Targets.{count_in, edges_to, reaches};

use crate::counting::count_tree;
use crate::planting::count_all;
use crate::spots::TILES;
use crate::target::{Pin, Target};
use polite_switch::device::InEdge;
use std::alloc::{AllocError, Global};
use std::marker::Model;
use tn_base::laws::law_threads;
use tn_base::shape::Shape;

/// How many addresses threads may have.
const ADDRESSES: usize = 16_384;

/// The in-edges of a thread, a list for each local key of its tile. A contract sees the lists.
#[derive(Drop)]
pub struct InLists {
    lists: Vec<Vec<InEdge>>,
}

impl Model for InLists {
    ghost use Rattle.std.specs.Prelude.{List, map};
    ghost use Rattle.polite_switch.specs.declared.device.InEdge.{InEdge};

    ghost Value = { List (List InEdge) };

    ghost view = { λ l. map (λ v. v.items) l.lists.items };
}

/// The in-edges of all threads by ascending address. A contract sees the lists.
#[derive(Drop)]
pub struct InEdges {
    threads: Vec<InLists>,
}

impl Model for InEdges {
    ghost use Rattle.std.specs.Prelude.{List};
    ghost use Rattle.polite_switch.specs.declared.device.InEdge.{InEdge};

    ghost Value = { List (List (List InEdge)) };

    ghost view = { λ e. e.threads.items };
}

impl InLists {
    /// So many lists without edges. It takes the room for all of them at once.
    fn empty(alloc: Global, count: u32) -> Result<InLists, AllocError>
        ensures { IfOk result (λ l. l ≡ replicate count []) }
    {
        let mut lists = Vec::with_capacity(alloc, count as usize)?;
        for _local in 0..count {
            lists.push(Vec::new(alloc))?;
        }
        Ok(InLists { lists })
    }

    /// Appends an edge to the list of a local key.
    fn push(&mut self, local: u32, edge: InEdge) -> Result<(), AllocError>
        requires { local < length self.old }
        ensures { IfOk result (λ _. self.new ≡ slice_set self.old local (slice_index_or self.old local [] ++ edge ∷ [])) }
    {
        self.lists[local as usize].push(edge)?;
        Ok(())
    }

    /// The lists by local key. This takes no memory.
    pub fn into_lists(self) -> Vec<Vec<InEdge>>
        ensures { map (λ v. v.items) result.items ≡ self }
    {
        self.lists
    }
}

impl InEdges {
    /// The lists by thread. This takes no memory.
    pub fn into_threads(self) -> Vec<InLists>
        ensures { result.items ≡ self }
    {
        self.threads
    }
}

/// For each thread as many empty lists as trees reach its tile.
fn empty_lists(alloc: Global, shape: &Shape, counts: &[u32]) -> Result<Vec<InLists>, AllocError>
    requires { length counts.now ≡ 256 }
    ensures count { IfOk result (λ lists. length lists.items ≡ thread_count shape.now) }
    ensures empty { IfOk result (λ lists. (i : ℕ) → i < thread_count shape.now → slice_index_or lists.items i [] ≡ replicate (count_in counts.now (thread_at shape.now i / 64)) []) }
{
    let _numbers = shape.numbers();
    law_threads(shape);
    let count = shape.thread_count();
    let mut lists = Vec::with_capacity(alloc, count as usize)?;
    for thread in 0..count {
        let address = shape.thread_at(thread).0;
        lists.push(InLists::empty(alloc, counts[(address / 64) as usize])?)?;
    }
    Ok(lists)
}

/// The place of each thread among all threads, by its address.
fn places_of(alloc: Global, shape: &Shape) -> Result<Vec<u32>, AllocError>
    ensures { IfOk result (λ places. Located shape.now places.items) }
{
    let _numbers = shape.numbers();
    law_threads(shape);
    let mut list = vec![in alloc; 0u32; ADDRESSES]?;
    let places = list.as_mut_slice();
    for thread in 0..shape.thread_count() {
        places[shape.thread_at(thread).0 as usize] = thread;
    }
    Ok(list)
}

/// Appends the edges of a pin to the lists of its local keys.
fn add_pin(
    shape: &Shape,
    places: &[u32],
    lists: &mut [InLists],
    locals: &[u32],
    targets: &[Target],
) -> Result<(), AllocError>
    requires there { AllThere shape.now targets.now }
    requires located { Located shape.now places.now }
    requires locals { length locals.now ≡ 256 }
    requires threads { length lists.old ≡ thread_count shape.now }
    requires room { (i : ℕ) → i < thread_count shape.now → reaches targets.now (thread_at shape.now i / 64) ≡ true →
        count_in locals.now (thread_at shape.now i / 64) < length (slice_index_or lists.old i []) }
    ensures lists { IfOk result (λ _. (i k : ℕ) → i < thread_count shape.now → edges_in lists.new i k ≡
        edges_in lists.old i k ++ (if k == count_in locals.now (thread_at shape.now i / 64) then edges_to targets.now (thread_at shape.now i) else [])) }
    ensures room { IfOk result (λ _. (i : ℕ) → length (slice_index_or lists.new i []) ≡ length (slice_index_or lists.old i [])) }
{
    let _numbers = shape.numbers();
    law_threads(shape);
    for target in targets {
        let address = target.thread.0;
        let place = places[address as usize] as usize;
        lists[place].push(locals[(address / 64) as usize], target.edge)?;
    }
    Ok(())
}

/// Appends the edges of pins, in order.
fn add_pins(
    alloc: Global,
    shape: &Shape,
    places: &[u32],
    lists: &mut [InLists],
    pins: &[Pin],
) -> Result<(), AllocError>
    requires there { PinsThere shape.now pins.now }
    requires few { length pins.now ≤ 262144 }
    requires located { Located shape.now places.now }
    requires threads { length lists.old ≡ thread_count shape.now }
    requires empty { (i : ℕ) → i < thread_count shape.now → slice_index_or lists.old i [] ≡ replicate (trees_to pins.now (thread_at shape.now i / 64)) [] }
    ensures { IfOk result (λ _. lists.new ≡ in_edges_of shape.now pins.now) }
{
    let _numbers = shape.numbers();
    law_threads(shape);
    let mut count_list = vec![in alloc; 0u32; TILES]?;
    let mut met_list = vec![in alloc; 0u32; TILES]?;
    let counts = count_list.as_mut_slice();
    let met = met_list.as_mut_slice();
    let mut stamp = 0u32;
    for pin in pins {
        stamp += 1;
        let targets = pin.targets.as_slice();
        add_pin(shape, places, lists, counts, targets)?;
        count_tree(counts, met, stamp, targets);
    }
    Ok(())
}

/// The in-edges of pins by thread and local key. The room for a thread's lists is taken from the counts of trees.
pub(crate) fn list_in_edges(
    alloc: Global,
    shape: &Shape,
    pins: &[Pin],
) -> Result<InEdges, AllocError>
    requires there { PinsThere shape.now pins.now }
    requires few { length pins.now ≤ 262144 }
    ensures { IfOk result (λ e. e ≡ in_edges_of shape.now pins.now) }
{
    let _numbers = shape.numbers();
    let mut count_list = vec![in alloc; 0u32; TILES]?;
    let counts = count_list.as_mut_slice();
    count_all(alloc, shape, pins, counts)?;
    let places = places_of(alloc, shape)?;
    let mut threads = empty_lists(alloc, shape, counts)?;
    let lists = threads.as_mut_slice();
    add_pins(alloc, shape, places.as_slice(), lists, pins)?;
    Ok(InEdges { threads })
}
