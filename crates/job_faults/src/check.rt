//! The faults of a job, in the order in which they refuse it.

ghost use Rattle.std.specs.Prelude.{◌≡◌, IfOk};
ghost use Rattle.job_text.specs.Numbered.{AreNumbered};
ghost use Rattle.job_text.specs.WellFormed.{IsWellFormed};
ghost use Rattle.job_faults.specs.Checked.{Checks, IsRead, Reads};
ghost use Rattle.job_faults.specs.Order.{later_fault};

use crate::assembly::{Assembled, assemble_all};
use crate::code::missing_fault;
use crate::fault::{LoadFault, LoadStop};
use crate::handlers::labelled_fault;
use crate::map::Mapped;
use crate::mapping::map_job;
use crate::mixed::mixed_fault;
use crate::numbers::shape_of;
use crate::room::room_fault;
use crate::routed::routed_fault;
use crate::sections::section_fault;
use crate::tables::{ReadTable, read_tables, table_fault};
use asm_build::labels::Labels;
use job_text::job::{CodeSection, Job};
use std::alloc::{AllocError, Global};
use tn_base::shape::Shape;
use tn_text::items::Items;

/// What is read of a job: its sections of assembly as sections that give words, the labels of the first of them, its tables,
/// and its graph with places and routes.
#[derive(Drop)]
pub struct Read {
    pub asms: Items<CodeSection>,
    pub labels: Labels,
    pub tables: Items<ReadTable>,
    pub mapped: Option<Mapped>,
}

/// What is known of a job that has no fault.
#[derive(Drop)]
pub struct Checked {
    pub shape: Shape,
    pub read: Read,
}

/// Reads the assembly, the graph and the tables of a job, or finds the first fault of assembly or graph.
fn read_all(alloc: Global, shape: &Shape, job: &Job) -> Result<Read, LoadStop>
    requires numbers { shape.now ≡ job.now.numbers }
    requires formed { IsWellFormed job.now }
    requires numbered { AreNumbered job.now }
    ensures { Reads result job.now }
{
    let Assembled {
        codes: asms,
        labels,
    } = assemble_all(alloc, job.asms.as_slice())?;
    let mapped = map_job(alloc, shape, &job.graph)?;
    let tables = read_tables(alloc, job.version, job.tables.as_slice())?;
    Ok(Read {
        asms,
        labels,
        tables,
        mapped,
    })
}

/// The first fault of a job that was read.
fn later_fault(
    alloc: Global,
    shape: &Shape,
    job: &Job,
    read: &Read,
) -> Result<Option<LoadFault>, AllocError>
    requires numbers { shape.now ≡ job.now.numbers }
    requires formed { IsWellFormed job.now }
    requires read { IsRead job.now read.now }
    ensures { IfOk result (λ found. found ≡ later_fault job.now) }
{
    let asms = read.asms.as_slice();
    let tables = read.tables.as_slice();
    if let Some(fault) = section_fault(shape, job, asms, tables) {
        return Ok(Some(fault));
    }
    if let Some(fault) = missing_fault(shape, job, asms) {
        return Ok(Some(fault));
    }
    if let Some(fault) = labelled_fault(alloc, &read.labels, &read.mapped)? {
        return Ok(Some(fault));
    }
    if let Some(fault) = room_fault(alloc, shape, &job.graph, &read.mapped)? {
        return Ok(Some(fault));
    }
    if let Some(fault) = table_fault(alloc, shape, job, tables)? {
        return Ok(Some(fault));
    }
    routed_fault(alloc, shape, &job.graph, &read.mapped)
}

/// Looks for the first fault of a job.
pub fn check(alloc: Global, job: &Job) -> Result<Checked, LoadStop>
    requires formed { IsWellFormed job.now }
    requires numbered { AreNumbered job.now }
    ensures { Checks result job.now }
{
    let shape = match shape_of(job) {
        Ok(shape) => shape,
        Err(fault) => return Err(LoadStop::Fault(fault)),
    };
    if let Some(fault) = mixed_fault(job) {
        return Err(LoadStop::Fault(fault));
    }
    let read = read_all(alloc, &shape, job)?;
    if let Some(fault) = later_fault(alloc, &shape, job, &read)? {
        return Err(LoadStop::Fault(fault));
    }
    Ok(Checked { shape, read })
}
