//! Whether a part is what a shape names at a place.

ghost use Rattle.std.specs.Prelude.{◌<◌, ◌↔◌, IsTrue};
ghost use Rattle.tn_base.specs.declared.part.Kind.TheVariants as kind;
ghost use Rattle.tn_base.specs.Parts.{kind_of, part_count};
ghost use Rattle.tn_rows.specs.Events.{FitsKind};
ghost use Rattle.tn_rows.specs.PartView.{DetectorV, RouterV, TileV};

use crate::part::{Contents, Part};
use tn_base::ids::{Board, PartId, TileId};
use tn_base::part::Kind;
use tn_base::shape::Shape;
use tn_detect::detector::Detector;
use tn_link::link::Link;
use tn_router::router::Router;
use tn_tile::tile::Tile;

/// Whether a tile is of this shape and has this name.
fn is_tile(tile: &Tile, shape: &Shape, name: TileId) -> bool
    ensures { IsTrue result ↔ FitsKind shape.now (kind.Tile name) (TileV tile.now) }
{
    tile.shape() == *shape && tile.name() == name
}

/// Whether a router is of this shape and on this board.
fn is_router(router: &Router, shape: &Shape, board: Board) -> bool
    ensures { IsTrue result ↔ FitsKind shape.now (kind.Router board) (RouterV router.now) }
{
    router.shape() == *shape && router.board() == board
}

/// Whether a detector visits as many parts as the shape has.
fn is_detector(detector: &Detector, shape: &Shape) -> bool
    ensures { IsTrue result ↔ FitsKind shape.now kind.Detector (DetectorV detector.now) }
{
    detector.kept();
    detector.visited() == shape.visited()
}

impl<L: Link> Part<L> {
    /// Whether the part is what the shape names at this place. No event changes the answer.
    pub fn fits(&self, shape: &Shape, p: PartId) -> bool
        requires { p.0 < part_count shape.now }
        ensures { IsTrue result ↔ FitsKind shape.now (kind_of shape.now p.0) self.now }
    {
        match (shape.kind(p), &self.contents) {
            (Kind::Host, Contents::Host(_)) => true,
            (Kind::Tile(name), Contents::Tile(tile)) => is_tile(tile, shape, name),
            (Kind::Router(board), Contents::Router(router)) => is_router(router, shape, board),
            (Kind::Link { .. }, Contents::Link(link)) => { link.capacity() == shape.numbers().link }
            (Kind::Detector, Contents::Detector(detector)) => is_detector(detector, shape),
            _ => false,
        }
    }
}
