//! The threads of a tile at the start.

ghost use Rattle.std.specs.Prelude.{◌≡◌, ◌≤◌, ◌<◌, ℕ, IfOk, IsTrue, Some, length, map};
ghost use Rattle.std.specs.List.{AllByRecursion, range_with_len};
ghost use Rattle.tn_base.specs.Address.{has_tile, tile_threads};
ghost use Rattle.tn_base.specs.Shape.{thread_count};
ghost use Rattle.tn_tile.specs.Kept.{FitsFirmware, with_switches};
ghost use Rattle.job_faults.specs.Mapping.{graph_mapped};
ghost use Rattle.job_load.specs.Graph.{FitsGraph, bare_thread, seat_in, seats_on};
ghost use Rattle.job_load.specs.Groups.{AreGroups};
ghost use Rattle.job_load.specs.Images.{IsWithin};
ghost use Rattle.job_load.specs.Origin.{ComesFrom};
ghost use Rattle.job_load.specs.Start.{by_address, filled_thread, thread_start};

use crate::graph::Seated;
use crate::groups::FillGroups;
use crate::image::Image;
use crate::origin::Origin;
use job_text::job::{FillLine, Job};
use polite_switch::switch::Switch;
use std::alloc::{AllocError, Global};
use tn_base::ids::TileId;
use tn_base::laws::law_tile_parts;
use tn_base::shape::Shape;
use tn_thread::thread::Thread;

/// The threads of a tile, and for each thread of a graph its softswitch.
#[derive(Drop)]
pub(crate) struct TileThreads {
    pub threads: Vec<Thread>,
    pub switches: Vec<Switch>,
}

/// The threads of a tile over their fills: each thread is made of the one image, which is laid anew for it.
fn filled_threads(
    alloc: Global,
    shape: &Shape,
    fills: &[FillLine],
    groups: &FillGroups,
    tile: TileId,
) -> Result<Vec<Thread>, AllocError>
    requires tile { IsTrue (has_tile shape.now tile.0) }
    requires within { AllByRecursion (IsWithin shape.now.mem) fills.now }
    requires groups { AreGroups fills.now groups.now }
    ensures { IfOk result (λ threads. threads.items ≡ by_address (filled_thread shape.now fills.now) shape.now tile.0) }
{
    let count = shape.tile_threads();
    let mem = shape.numbers().mem;
    let mut image = Image::new(alloc);
    let mut threads = Vec::with_capacity(alloc, count as usize)?;
    for place in 0..count {
        let id = shape.thread_in_tile(tile, place);
        image.lay(mem, fills, groups.places(id))?;
        let thread = Thread::start(alloc, shape, id, image.as_slice(), None)?;
        threads.push(thread)?;
    }
    Ok(threads)
}

/// The threads of a tile over the states of their vertices.
fn seated_threads(
    alloc: Global,
    shape: &Shape,
    flits: u32,
    seats: &[Seated],
    tile: TileId,
) -> Result<Vec<Thread>, AllocError>
    requires tile { IsTrue (has_tile shape.now tile.0) }
    requires seats { length seats.now ≡ tile_threads shape.now }
    requires room { (k : ℕ) → k < length seats.now → length (seat_in seats.now k).image ≤ shape.now.mem }
    requires flits { FitsFirmware shape.now (Some flits) }
    ensures { IfOk result (λ threads. threads.items ≡ map (bare_thread shape.now flits seats.now tile.0) (range_with_len 0 (tile_threads shape.now))) }
{
    let count = shape.tile_threads();
    let mut threads = Vec::with_capacity(alloc, count as usize)?;
    for place in 0..count {
        let id = shape.thread_in_tile(tile, place);
        let image = seats[place as usize].image();
        let thread = Thread::start(alloc, shape, id, image, Some(flits))?;
        threads.push(thread)?;
    }
    Ok(threads)
}

/// The softswitches of threads.
fn switches_of(alloc: Global, seats: &[Seated]) -> Result<Vec<Switch>, AllocError>
    ensures { IfOk result (λ switches. switches.items ≡ map (λ s. s.switch) seats.now) }
{
    let mut switches = Vec::with_capacity(alloc, seats.len())?;
    for seat in seats {
        switches.push(seat.switch()?)?;
    }
    Ok(switches)
}

/// Those of the machine's threads that are on a tile.
fn seats_on<'a>(shape: &Shape, seats: &'a [Seated], tile: TileId) -> &'a [Seated]
    requires tile { IsTrue (has_tile shape.now tile.0) }
    requires seats { length seats.now ≡ thread_count shape.now }
    ensures { result.now ≡ seats_on shape.now seats.now tile.0 }
{
    law_tile_parts(shape);
    let count = shape.tile_threads() as usize;
    let first = (shape.tile_part(tile).0 - 1) as usize * count;
    &seats[first..first + count]
}

impl TileThreads {
    /// The threads of a tile of a job's machine.
    pub(crate) fn of(
        alloc: Global,
        job: &Job,
        shape: &Shape,
        origin: &Origin,
        tile: TileId,
    ) -> Result<TileThreads, AllocError>
        requires tile { IsTrue (has_tile shape.now tile.0) }
        requires shape { shape.now ≡ job.now.numbers }
        requires fills { AllByRecursion (IsWithin shape.now.mem) job.now.fills }
        requires origin { ComesFrom job.now origin.now }
        requires fits { FitsGraph job.now (graph_mapped job.now) }
        ensures threads { IfOk result (λ t. with_switches t.threads.items t.switches.items ≡ by_address (thread_start job.now) shape.now tile.0) }
        ensures few { IfOk result (λ t. length t.switches.items ≤ length t.threads.items) }
    {
        let _numbers = shape.numbers();
        match origin {
            Origin::Sections { groups, .. } => Ok(TileThreads {
                threads: filled_threads(alloc, shape, job.fills.as_slice(), groups, tile)?,
                switches: Vec::new(alloc),
            }),
            Origin::Graph { flits, threads, .. } => {
                let seats = seats_on(shape, threads.as_slice(), tile);
                Ok(TileThreads {
                    threads: seated_threads(alloc, shape, *flits, seats, tile)?,
                    switches: switches_of(alloc, seats)?,
                })
            }
        }
    }
}
