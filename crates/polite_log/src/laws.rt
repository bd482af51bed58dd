//! Laws of deeds. A law answers nothing: its contract is what it says.

ghost use Rattle.polite_log.specs.TileDeeds.{DeedsAreOfTiles};

/// The deeds of a run are those that are read at its tiles: each turn gives the deeds of its single steps, as the tile shows them to the
/// thread, and each announcement is a deed.
pub fn law_tiles()
    ensures { DeedsAreOfTiles }
{}
