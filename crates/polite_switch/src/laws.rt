//! Laws of the table alone, for the crates above.

ghost use Rattle.polite_switch.specs.Laws.{DispatchesKeep, DoesItsRow, EachRowHolds, RowsKeep, StartsKept};

/// The row that is chosen holds, and a dispatch without a fault does it.
pub fn law_rows()
    ensures holds { EachRowHolds }
    ensures does { DoesItsRow }
{}

/// What holds of every softswitch holds at its start, and each dispatch and each row keeps it.
pub fn law_kept()
    ensures start { StartsKept }
    ensures dispatch { DispatchesKeep }
    ensures rows { RowsKeep }
{}
