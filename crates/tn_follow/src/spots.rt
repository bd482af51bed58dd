//! Where the letters of one send are.

ghost use Rattle.std.specs.Prelude.{◌≡◌, ◌++◌, IfOk, None, OnOk, Some};
ghost use Rattle.std.specs.Bool.{MatchBool};
ghost use Rattle.tn_follow.specs.Follow.{is_sent_by, new_spots, same_spot, spots_in, without};

use std::alloc::{AllocError, Global};
use tn_base::message::Letter;
use tn_letters::place::Place;

/// A letter of a send, in a place.
#[derive(Clone, Copy, PartialEq, Eq, Debug)]
pub struct Spot {
    pub place: Place,
    pub receiver: u32,
}

/// Whether a letter is of the send of this number by this origin.
pub(crate) fn is_sent_by(origin: u32, number: u32, letter: &Letter) -> bool
    ensures { result ≡ is_sent_by origin number letter.now }
{
    letter.origin == origin && letter.number == number
}

/// Whether two letters of a send are in one place, for one receiver.
fn same_spot(a: Spot, b: Spot) -> bool
    ensures { result ≡ same_spot a b }
{
    a == b
}

/// Where the letters of a send are among these letters in their places.
pub fn spots_in(
    alloc: Global,
    origin: u32,
    number: u32,
    all: &[(Place, Letter)],
) -> Result<Vec<Spot>, AllocError>
    ensures { IfOk result (λ spots. spots.items ≡ spots_in origin number all.now) }
{
    let mut spots = Vec::new(alloc);
    for (place, letter) in all {
        if is_sent_by(origin, number, letter) {
            spots.push(Spot {
                place: *place,
                receiver: letter.receiver,
            })?;
        }
    }
    Ok(spots)
}

/// Takes the first spot that is the same as this one out of a list, if the list has one.
fn take_out(spot: Spot, spots: &mut Vec<Spot>) -> bool
    ensures { MatchBool result (without spot spots.old.items ≡ Some spots.new.items) ((without spot spots.old.items ≡ None) × (spots.new.items ≡ spots.old.items)) }
{
    for place in 0..spots.len() {
        if same_spot(spot, spots[place]) {
            spots.remove(place);
            return true;
        }
    }
    false
}

/// The spots of a list that another list does not have, each as often as it is missing there.
pub fn new_spots(alloc: Global, spots: &[Spot], old: Vec<Spot>) -> Result<Vec<Spot>, AllocError>
    ensures { IfOk result (λ all. all.items ≡ new_spots spots.now old.items) }
{
    let mut left = old;
    let mut all = Vec::new(alloc);
    for spot in spots {
        if !take_out(*spot, &mut left) {
            all.push(*spot)?;
        }
    }
    Ok(all)
}
