//! Laws of what is told of a send.

ghost use Rattle.std.specs.Prelude.{ℕ, ◌≡◌, List, []};
ghost use Rattle.tn_follow.specs.Apart.{NewInEach};
ghost use Rattle.tn_follow.specs.Elsewhere.{LeavesOthers};
ghost use Rattle.tn_follow.specs.Follow.{new_spots, sightings};
ghost use Rattle.tn_follow.specs.Parts.{NewAtItsParts, NewByPart, StandOnTheirPart};
ghost use Rattle.tn_follow.specs.declared.spots.Spot.{Spot};
ghost use Rattle.tn_rows.specs.WorldView.{WorldView};

/// An event leaves what stands on each part that it is not on, and what stays is not told again. Places that share no spot may be looked
/// at one after the other.
pub fn law_elsewhere()
    ensures parts { LeavesOthers }
    ensures each { NewInEach }
    ensures spots { (spots : List Spot) → new_spots spots spots ≡ [] }
{}

/// Without an event nothing is told of a send.
pub fn law_nothing()
    ensures { (start : WorldView) (origin number : ℕ) → sightings start [] origin number ≡ [] }
{}

/// Each letter that is listed on a part is in a place on this part. So what is new in a machine is what is new on each part, and an event
/// makes nothing new but on its own parts.
pub fn law_apart()
    ensures places { StandOnTheirPart }
    ensures parts { NewByPart }
    ensures event { NewAtItsParts }
{}
