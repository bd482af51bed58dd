//! Laws of routers. A law answers nothing: its contract is what it says.

ghost use Rattle.std.specs.Prelude.{◌≡◌};
ghost use Rattle.tn_base.specs.declared.ids.Board.{Board};
ghost use Rattle.tn_base.specs.declared.message.Packet.{Packet};
ghost use Rattle.tn_base.specs.declared.port.Port.{Port};
ghost use Rattle.tn_keys.specs.Accepted.{Accepted};
ghost use Rattle.tn_keys.specs.Reach.{reach};
ghost use Rattle.tn_keys.specs.Tables.{HasBoard, table_of};
ghost use Rattle.tn_router.specs.Kept.{FitsWork};
ghost use Rattle.tn_router.specs.Left.{KeepsCopies, copies_left, copies_to};
ghost use Rattle.tn_router.specs.Moves.{move_of};
ghost use Rattle.tn_router.specs.Rest.{started};
ghost use Rattle.tn_router.specs.declared.work.Work.{Work};

use tn_base::shape::Shape;
use tn_keys::tables::Tables;

/// In accepted tables a Route loses no copy and makes none twice: the copies still to come of its packet are those of what it
/// sends on, and then those of what stays in process. Of a packet that comes into process all copies are still to come: what
/// its key reaches here, or the receivers that it names.
pub fn law_route(shape: &Shape, tables: &Tables)
    requires { Accepted shape.now tables.now }
    ensures moved { (b : Board) (side : Port) (w : Work) →
        let on = reach shape.now tables.now in
        let table = table_of shape.now tables.now b in
        HasBoard shape.now b → FitsWork shape.now table w →
        KeepsCopies on shape.now b table w (move_of shape.now b table side w) }
    ensures started { (b : Board) (p : Packet) →
        let on = reach shape.now tables.now in
        let table = table_of shape.now tables.now b in
        HasBoard shape.now b →
        copies_left on shape.now b table (started table p) ≡ copies_to (λ key. on b key p.bytes) p.bytes p.dest }
{
    let _numbers = shape.numbers();
}
