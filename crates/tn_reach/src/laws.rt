//! Laws of the check of tables. A law answers nothing: its contract is what it says.

ghost use Rattle.std.specs.Prelude.{◌≡◌, ◌↔◌, IsTrue, Some};
ghost use Rattle.std.specs.List.{list_any};
ghost use Rattle.tn_base.specs.declared.ids.Board.{Board};
ghost use Rattle.tn_keys.specs.declared.fault.TableFault.TheVariants as fault;
ghost use Rattle.tn_keys.specs.Accepted.{board_fault, loops};
ghost use Rattle.tn_keys.specs.Tables.{joined, table_of};
ghost use Rattle.tn_reach.specs.Chains.{HasChain, ShowsNone};

use tn_base::shape::Shape;
use tn_keys::tables::Tables;

/// The test for Loop finds a record in a board's table if and only if a list of 65 records exists. The first record of the
/// list is in that table. Each record of the list is an RR or an IND. Each record after the first is in a beat of the key to
/// which the record before it leads, at the board to which it leads.
///
/// The fault of the board is Loop if and only if such a list exists, and no record of the board shows a kind of fault that is
/// tested before Loop.
pub fn law_chains(shape: &Shape, tables: &Tables)
    ensures found { (b : Board) →
        IsTrue (list_any (loops shape.now tables.now b) (joined (table_of shape.now tables.now b))) ↔ HasChain shape.now tables.now b 65 }
    ensures told { (b : Board) →
        (board_fault shape.now tables.now b ≡ Some fault.Loop) ↔ (ShowsNone shape.now tables.now b × HasChain shape.now tables.now b 65) }
{}
