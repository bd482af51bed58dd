//! What it means that journals agree, as a law.

ghost use Rattle.std.specs.Prelude.{List};
ghost use Rattle.tn_stamp.specs.declared.entry.Entry.{Entry};
ghost use Rattle.tn_stamp.specs.Merging.{ArePaired};
ghost use Rattle.tn_stamp.specs.Standing.{StandsInBoth, StandsInNoOther};

/// If journals agree on every pair, each entry on two parts stands in the journals of both, and in no other journal.
pub fn law_pairs()
    ensures both { (js : List (List Entry)) → ArePaired js → StandsInBoth js }
    ensures no_other { (js : List (List Entry)) → ArePaired js → StandsInNoOther js }
{}
