//! The receivers of a message on their tile.

ghost use Rattle.std.specs.Prelude.{◌≡◌, ◌<◌, ◌^◌, IsTrue};
ghost use Rattle.tn_base.specs.Address.{tile_threads};
ghost use Rattle.tn_base.specs.Mask.{names_threads};
ghost use Rattle.tn_base.specs.Message.{has_dest};
ghost use Rattle.tn_tile.specs.Receivers.{core_bits, packed, receivers};

use tn_base::mask::Mask;
use tn_base::message::Dest;
use tn_base::shape::Shape;

/// The bits of one core in a mask whose bit core * 16 + thread names a thread.
fn core_bits_of(mask: Mask, core: u32) -> u64
    requires { core < 4 }
    ensures value { result ≡ core_bits mask core }
    ensures small { result < 65536 }
{
    (mask.bits() >> (16 * core)) % 65536
}

/// The same threads by their places.
fn pack(shape: &Shape, mask: Mask) -> Mask
    requires { IsTrue (names_threads shape.now mask) }
    ensures value { result ≡ packed shape.now mask }
    ensures below { result < 2 ^ tile_threads shape.now }
{
    let threads = shape.numbers().threads;
    Mask::of(
        core_bits_of(mask, 0)
            + (core_bits_of(mask, 1) << threads)
            + (core_bits_of(mask, 2) << (2 * threads))
            + (core_bits_of(mask, 3) << (3 * threads)),
    )
}

/// The places of a message's receivers on their tile; none where it goes to the host or by a key.
pub(crate) fn receivers_of(shape: &Shape, dest: &Dest) -> Mask
    requires { IsTrue (has_dest shape.now dest.now) }
    ensures value { result ≡ receivers shape.now dest.now }
    ensures below { result < 2 ^ tile_threads shape.now }
{
    let _numbers = shape.numbers();
    match *dest {
        Dest::Thread(t) => Mask::of(1 << shape.place_in_tile(t)),
        Dest::Mask(_, mask) => pack(shape, mask),
        Dest::Host | Dest::Key(_) => Mask::of(0),
    }
}
