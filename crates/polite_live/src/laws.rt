//! Laws of the tiles of a graph's machine. A law answers nothing: its contract is what it says.

ghost use Rattle.polite_live.specs.Live.{FullTilesStep, NoLettersComeAfterTwo};

/// In each run of the machine of a graph, from its start: if the last announcement was of 2, each letter that stands anywhere is for the
/// host. No letter comes to a thread any more.
pub fn law_letters()
    ensures { NoLettersComeAfterTwo }
{}

/// At the end of each run of the machine of a graph, from its start, a tile without a free slot has a thread that can make a step. The law
/// asks of each thread of the tile that it has not trapped, has steps left, and has no letters when it is dead.
pub fn law_served()
    ensures { FullTilesStep }
{}
