//! Tests of a graph whose vertices have places and whose pins have routes.

ghost use Rattle.std.specs.Prelude.{◌≡◌, IfOk, IfSome, length};
ghost use Rattle.tn_base.specs.Parts.{board_count};
ghost use Rattle.job_faults.specs.Routed.{routed_fault, tables_fault};

use crate::fault::{FaultName, LoadFault};
use crate::map::Mapped;
use crate::numbers::fault_at;
use job_text::job::TextSection;
use std::alloc::{AllocError, Global};
use tn_base::shape::Shape;
use tn_keys::tables::Tables;
use tn_reach::check::{TableStop, check_tables};

/// The first fault of tables, at this line.
fn tables_fault(
    alloc: Global,
    line: u32,
    shape: &Shape,
    tables: &Tables,
) -> Result<Option<LoadFault>, AllocError>
    requires { length tables.now ≡ board_count shape.now }
    ensures { IfOk result (λ found. found ≡ tables_fault line shape.now tables.now) }
{
    match check_tables(alloc, shape, tables) {
        Ok(()) => Ok(None),
        Err(TableStop::Memory) => Err(AllocError),
        Err(TableStop::Fault { fault, .. }) => {
            Ok(Some(fault_at(line, FaultName::of_table(fault))))
        }
    }
}

/// The first fault of the tables of a graph's routes, at the graph's line.
pub(crate) fn routed_fault(
    alloc: Global,
    shape: &Shape,
    graph: &Option<TextSection>,
    mapped: &Option<Mapped>,
) -> Result<Option<LoadFault>, AllocError>
    requires { IfSome mapped.now (λ m. length m.routes.tables ≡ board_count shape.now) }
    ensures { IfOk result (λ found. found ≡ routed_fault shape.now graph.now mapped.now) }
{
    let Some(section) = graph else {
        return Ok(None);
    };
    let Some(mapped) = mapped else {
        return Ok(None);
    };
    tables_fault(alloc, section.line, shape, &mapped.routes.tables)
}
