//! The letters of packets.

ghost use Rattle.std.specs.Prelude.{◌≡◌, ◌∷◌, [], IfOk, IsTrue};
ghost use Rattle.tn_base.specs.Address.{has_tile};
ghost use Rattle.tn_base.specs.Message.{has_packet};
ghost use Rattle.tn_letters.specs.Letters.{IsPlain, masked_letters};

use std::alloc::{AllocError, Global};
use tn_base::ids::TileId;
use tn_base::mask::Mask;
use tn_base::message::{Dest, HOST, Letter, Packet};
use tn_base::shape::Shape;

/// What a packet is for one receiver.
pub(crate) fn letter_for(packet: &Packet, receiver: u32) -> Letter
    ensures { result ≡ record { origin = packet.now.origin; number = packet.now.number; receiver = receiver; bytes = packet.now.bytes } }
{
    Letter {
        origin: packet.origin,
        number: packet.number,
        receiver,
        bytes: packet.bytes.copy(),
    }
}

/// The letters of a packet without a key: one for a thread or the host, one for each thread that a mask names, ascending.
/// They are the same wherever keys lead.
pub(crate) fn plain_letters(
    alloc: Global,
    shape: &Shape,
    packet: &Packet,
) -> Result<Vec<Letter>, AllocError>
    requires { IsTrue (has_packet shape.now packet.now) }
    ensures { IfOk result (λ all. IsPlain shape.now packet.now all.items) }
{
    match packet.dest {
        Dest::Thread(t) => one_letter(alloc, letter_for(packet, t.0)),
        Dest::Host => one_letter(alloc, letter_for(packet, HOST)),
        Dest::Mask(tile, mask) => masked(alloc, shape, packet, tile, mask),
        Dest::Key(_) => Ok(Vec::new(alloc)),
    }
}

/// One letter alone.
fn one_letter(alloc: Global, letter: Letter) -> Result<Vec<Letter>, AllocError>
    ensures { IfOk result (λ all. all.items ≡ letter ∷ []) }
{
    let mut all = Vec::new(alloc);
    all.push(letter)?;
    Ok(all)
}

/// A letter for each thread of a tile that the mask names.
fn masked(
    alloc: Global,
    shape: &Shape,
    packet: &Packet,
    tile: TileId,
    mask: Mask,
) -> Result<Vec<Letter>, AllocError>
    requires { IsTrue (has_tile shape.now tile.0) }
    ensures { IfOk result (λ all. all.items ≡ masked_letters shape.now packet.now.origin packet.now.number tile.0 mask packet.now.bytes) }
{
    let mut all = Vec::new(alloc);
    for place in 0..shape.tile_threads() {
        let thread = shape.thread_in_tile(tile, place);
        if mask.has(thread.0 % 64) {
            all.push(letter_for(packet, thread.0))?;
        }
    }
    Ok(all)
}
