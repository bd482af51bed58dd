//! The check of all tables.

ghost use Rattle.std.specs.Prelude.{◌≡◌, length};
ghost use Rattle.tn_base.specs.Parts.{board_count};
ghost use Rattle.tn_reach.specs.Check.{Checks, table_stop};
ghost use Rattle.tn_reach.specs.Marks.{Marked};
ghost use Rattle.tn_reach.specs.declared.measure.Measure.TheVariants.{Chains, Weights};

use crate::kinds::find_fault;
use crate::measure::Measure;
use crate::rounds::{board_at, gather};
use crate::running::Running;
use std::alloc::{AllocError, Global};
use tn_base::shape::Shape;
use tn_keys::fault::TableFault;
use tn_keys::tables::Tables;

/// Why tables are not accepted.
#[derive(Clone, Copy, PartialEq, Eq, Debug)]
pub enum TableStop {
    /// The first board at fault, by its place among the boards, and there the first kind.
    Fault { board: u32, fault: TableFault },
    Memory,
}

impl From<AllocError> for TableStop {
    ghost use Rattle.std.specs.Prelude.{◌≡◌};
    ghost use Rattle.tn_reach.specs.declared.check.TableStop.TheVariants.{Memory};

    ghost from_gives = { λ _ e. e ≡ Memory };

    fn from(_: AllocError) -> TableStop {
        TableStop::Memory
    }
}

/// The first fault of tables whose beats gather these chains and weights.
fn find_stop(
    shape: &Shape,
    tables: &Tables,
    chains: &[Running],
    weights: &[Running],
) -> Option<TableStop>
    requires boards { length tables.now ≡ board_count shape.now }
    requires chains { Marked Chains 64 shape.now tables.now chains.now }
    requires weights { Marked Weights 64 shape.now tables.now weights.now }
    ensures { result ≡ table_stop shape.now tables.now }
{
    for place in 0..tables.boards() {
        let board = board_at(shape, place);
        let beats = tables.table(place);
        let chains = &chains[place as usize];
        let weights = &weights[place as usize];
        if let Some(fault) = find_fault(shape, tables, board, beats, chains, weights) {
            return Some(TableStop::Fault {
                board: place,
                fault,
            });
        }
    }
    None
}

/// Whether the tables are those of a machine: one for each of its boards by y, then x. The work grows with the records of
/// all tables, and not with the ways that a message may take.
pub fn check_tables(alloc: Global, shape: &Shape, tables: &Tables) -> Result<(), TableStop>
    requires { length tables.now ≡ board_count shape.now }
    ensures { Checks result shape.now tables.now }
{
    let chains = gather(alloc, shape, Measure::Chains, tables)?;
    let weights = gather(alloc, shape, Measure::Weights, tables)?;
    match find_stop(shape, tables, chains.as_slice(), weights.as_slice()) {
        Some(stop) => Err(stop),
        None => Ok(()),
    }
}
