//! Where records lead.

ghost use Rattle.std.specs.Prelude.{◌≡◌, ◌<◌, IfSome};
ghost use Rattle.tn_base.specs.Shape.{WithinLimits};
ghost use Rattle.tn_keys.specs.Copies.{neighbour, onward};
ghost use Rattle.tn_keys.specs.Tables.{HasBoard};

use crate::record::RouteRec;
use tn_base::ids::Board;
use tn_base::shape::Shape;

/// Where a record leads: the router of a board, and the key there.
#[derive(Clone, Copy, PartialEq, Eq, Debug)]
pub struct Onward {
    pub board: Board,
    pub key: u32,
}

/// The neighbour of a board: 0 East, 1 West, 2 South, any other number North. None where the machine ends there.
pub fn neighbour(shape: &Shape, dir: u8, board: Board) -> Option<Board>
    requires x { board.x < 4 }
    requires y { board.y < 4 }
    ensures value { result ≡ neighbour shape.now dir board }
    ensures x { IfSome result (λ b. b.x < 4) }
    ensures y { IfSome result (λ b. b.y < 4) }
    ensures there { HasBoard shape.now board → IfSome result (λ b. HasBoard shape.now b) }
{
    let n = shape.numbers();
    match dir {
        0 if board.x + 1 < n.boards_x => Some(Board {
            x: board.x + 1,
            y: board.y,
        }),
        1 if board.x > 0 => Some(Board {
            x: board.x - 1,
            y: board.y,
        }),
        2 if board.y + 1 < n.boards_y => Some(Board {
            x: board.x,
            y: board.y + 1,
        }),
        0..=2 => None,
        _ if board.y > 0 => Some(Board {
            x: board.x,
            y: board.y - 1,
        }),
        _ => None,
    }
}

impl RouteRec {
    /// Where a record of a board leads: an RR to a neighbour, unless it is off the machine, an IND on at the same board.
    pub fn onward(self, shape: &Shape, board: Board) -> Option<Onward>
        requires { HasBoard shape.now board }
        ensures value { result ≡ onward shape.now board self }
        ensures there { IfSome result (λ o. HasBoard shape.now o.board) }
    {
        let _numbers = shape.numbers();
        match self {
            RouteRec::Rr { dir, key } => {
                let board = neighbour(shape, dir, board)?;
                Some(Onward { board, key })
            }
            RouteRec::Ind { key } => Some(Onward { board, key }),
            _ => None,
        }
    }
}
