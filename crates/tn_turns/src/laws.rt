//! What the rule says, as laws.

ghost use Rattle.std.specs.Prelude.{List, Option};
ghost use Rattle.atomic_table.specs.Table.{State};
ghost use Rattle.tn_turns.specs.declared.view.View.{View};
ghost use Rattle.tn_turns.specs.Numbers.{InWords};
ghost use Rattle.tn_turns.specs.Rule.{Stands};

/// One view is the kept one. Each number that was given has either been joined or is the number of exactly one other view. A turn
/// whose word is 0 is out in no view; any other word is one above the number of a view, and this view alone has the turn.
pub fn law_seats<T>()
    ensures { (shown : List T) (s : State (Option T) (View T)) → Stands shown s → InWords shown s }
{}
