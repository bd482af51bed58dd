//! What the forms mean.

ghost use Rattle.tn_words.specs.Laws.{Apart, Joined, LeftOut, Lone};

/// Where the option may be: before, between or after the other words, in both spellings; it may be left out, but not without its number.
pub fn law_option()
    ensures apart { Apart }
    ensures joined { Joined }
    ensures absent { LeftOut }
    ensures lone { Lone }
{}
