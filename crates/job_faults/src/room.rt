//! Whether the states of a thread's vertices have room in the thread's memory.

ghost use Rattle.std.specs.Prelude.{◌≡◌, ◌+◌, ◌*◌, ◌^◌, ◌<◌, ◌≤◌, ℕ, IfOk, length, slice_index, slice_set};
ghost use Rattle.graph_text.specs.Graph.{IsGraph};
ghost use Rattle.polite_place.specs.Seats.{seat_of};
ghost use Rattle.job_faults.specs.Mapping.{AreMapped};
ghost use Rattle.job_faults.specs.Room.{AreLow, Summed, any_lacks, lacks_room, room_by, state_bytes};

use crate::fault::{FaultName, LoadFault};
use crate::map::Mapped;
use crate::numbers::fault_at;
use graph_text::graph::Graph;
use job_text::job::TextSection;
use polite_place::placement::Placement;
use std::alloc::{AllocError, Global};
use tn_base::shape::Shape;

/// Above the address of each thread.
const ADDRESSES: usize = 16384;

/// The bytes that a thread's memory has besides the states of its vertices.
const SPARE: u64 = 256;

/// The bytes of a vertex's state.
fn state_bytes(graph: &Graph, vertex: usize) -> u64
    requires graph { IsGraph graph.now }
    requires there { vertex < length graph.now.vertices }
    ensures value { result ≡ state_bytes graph.now vertex }
    ensures small { result ≤ 64 }
{
    let words = graph.vertices.as_slice()[vertex].words.len();
    4 * words as u64
}

/// Adds bytes to the sum of an address.
fn add_bytes(sums: &mut Vec<u64>, address: usize, bytes: u64)
    requires there { address < length sums.old.items }
    requires fits { slice_index sums.old.items address + bytes < 2 ^ 64 }
    ensures { sums.new.items ≡ slice_set sums.old.items address (slice_index sums.old.items address + bytes) }
{
    sums[address] += bytes;
}

/// For each address the bytes of the states of the vertices that have the thread there.
fn sum_states(alloc: Global, graph: &Graph, placement: &Placement) -> Result<Vec<u64>, AllocError>
    requires graph { IsGraph graph.now }
    requires seats { length placement.now ≡ length graph.now.vertices }
    requires low { AreLow placement.now }
    ensures sums { IfOk result (λ sums. Summed graph.now placement.now (length graph.now.vertices) sums.items) }
    ensures long { IfOk result (λ sums. length sums.items ≡ 16384) }
{
    let mut sums = vec![in alloc; 0u64; ADDRESSES]?;
    for vertex in 0..graph.vertices.len() {
        let address = placement.thread(vertex as u32).0 as usize;
        add_bytes(&mut sums, address, state_bytes(graph, vertex));
    }
    Ok(sums)
}

/// Whether the states on some thread are more than a memory with 256 bytes to spare.
fn any_lacks(sums: &[u64], mem: u32, graph: &Graph, placement: &Placement) -> bool
    requires graph { IsGraph graph.now }
    requires seats { length placement.now ≡ length graph.now.vertices }
    requires low { AreLow placement.now }
    requires sums { Summed graph.now placement.now (length graph.now.vertices) sums.now }
    requires long { length sums.now ≡ 16384 }
    ensures { result ≡ any_lacks mem graph.now placement.now }
{
    for vertex in 0..graph.vertices.len() {
        let address = placement.thread(vertex as u32).0 as usize;
        if sums[address] + SPARE > u64::from(mem) {
            return true;
        }
    }
    false
}

/// A thread without room for the states of its vertices, at the graph's line.
pub(crate) fn room_fault(
    alloc: Global,
    shape: &Shape,
    graph: &Option<TextSection>,
    mapped: &Option<Mapped>,
) -> Result<Option<LoadFault>, AllocError>
    requires { AreMapped mapped.now }
    ensures { IfOk result (λ found. found ≡ room_by shape.now graph.now mapped.now) }
{
    let Some(section) = graph else {
        return Ok(None);
    };
    let Some(mapped) = mapped else {
        return Ok(None);
    };
    let sums = sum_states(alloc, &mapped.graph, &mapped.placement)?;
    let mem = shape.numbers().mem;
    if any_lacks(sums.as_slice(), mem, &mapped.graph, &mapped.placement) {
        return Ok(Some(fault_at(section.line, FaultName::NoRoom)));
    }
    Ok(None)
}
