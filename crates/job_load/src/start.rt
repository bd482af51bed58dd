//! A job's machine at its start.

ghost use Rattle.std.specs.Prelude.{◌≡◌, IfOk, IsTrue, map};
ghost use Rattle.tn_base.specs.Address.{has_tile};
ghost use Rattle.tn_base.specs.Parts.{parts};
ghost use Rattle.job_faults.specs.Checked.{IsChecked};
ghost use Rattle.job_load.specs.Origin.{IsMadeOf};
ghost use Rattle.job_load.specs.Start.{IsThere, part_start, start_of, tile_start};

use crate::origin::Origin;
use crate::script::script_of;
use crate::threads::TileThreads;
use job_faults::check::{Checked, Read};
use job_faults::code::code_of;
use job_text::job::{CodeSection, Job};
use std::alloc::{AllocError, Global};
use tn_base::ids::{PartId, TileId};
use tn_base::laws::law_tiles;
use tn_base::part::Kind;
use tn_base::shape::Shape;
use tn_detect::detector::Detector;
use tn_host::host::Host;
use tn_link::plain::PlainLink;
use tn_part::part::Part;
use tn_router::router::Router;
use tn_tile::tile::Tile;
use tn_world::world::World;

/// A tile over its code and its threads.
fn tile_of(
    alloc: Global,
    job: &Job,
    shape: &Shape,
    asms: &[CodeSection],
    origin: &Origin,
    tile: TileId,
) -> Result<Tile, AllocError>
    requires tile { IsTrue (has_tile shape.now tile.0) }
    requires made { IsMadeOf job.now shape.now asms.now origin.now }
    ensures { IfOk result (λ t. t ≡ tile_start job.now tile.0) }
{
    let TileThreads { threads, switches } = TileThreads::of(alloc, job, shape, origin, tile)?;
    let code = code_of(job.codes.as_slice(), asms, tile);
    Tile::of(alloc, shape, tile, code, threads, switches)
}

/// A part of this kind.
fn part_of(
    alloc: Global,
    job: &Job,
    shape: &Shape,
    asms: &[CodeSection],
    origin: &Origin,
    kind: Kind,
) -> Result<Part<PlainLink>, AllocError>
    requires kind { IsThere shape.now kind }
    requires made { IsMadeOf job.now shape.now asms.now origin.now }
    ensures { IfOk result (λ part. part ≡ part_start job.now kind) }
{
    match kind {
        Kind::Tile(tile) => {
            let tile = tile_of(alloc, job, shape, asms, origin, tile)?;
            Ok(Part::tile(tile))
        }
        Kind::Link { .. } => Ok(Part::link(PlainLink::of(alloc, shape.numbers().link)?)),
        Kind::Router(board) => {
            let beats = origin.table(alloc, job, shape, board)?;
            Ok(Part::router(Router::of(shape, board, beats)))
        }
        Kind::Host => {
            let script = script_of(alloc, job)?;
            Ok(Part::host(Host::of(alloc, script)))
        }
        Kind::Detector => Ok(Part::detector(Detector::of(alloc, shape.visited())?)),
    }
}

/// One part for each part of the shape.
fn parts_of(
    alloc: Global,
    job: &Job,
    shape: &Shape,
    asms: &[CodeSection],
    origin: &Origin,
) -> Result<Vec<Part<PlainLink>>, AllocError>
    requires made { IsMadeOf job.now shape.now asms.now origin.now }
    ensures { IfOk result (λ all. all.items ≡ map (part_start job.now) (parts shape.now)) }
{
    law_tiles(shape);
    let count = shape.part_count();
    let mut all = Vec::with_capacity(alloc, count as usize)?;
    for p in 0..count {
        let part = part_of(alloc, job, shape, asms, origin, shape.kind(PartId(p)))?;
        all.push(part)?;
    }
    Ok(all)
}

/// The machine at its start, of a job without a fault.
pub(crate) fn start_of(
    alloc: Global,
    job: &Job,
    checked: Checked,
) -> Result<World<PlainLink>, AllocError>
    requires { IsChecked job.now checked }
    ensures { IfOk result (λ world. world ≡ start_of job.now) }
{
    let Checked { shape, read } = checked;
    let Read {
        asms,
        labels,
        tables,
        mapped,
    } = read;
    let origin = Origin::of(alloc, job, &shape, &labels, tables, mapped)?;
    let parts = parts_of(alloc, job, &shape, asms.as_slice(), &origin)?;
    World::of(shape, parts)
}
