//! The letters of one send that steps of the bag machine hand or drop.

ghost use Rattle.std.specs.Prelude.{◌≡◌, ◌++◌, IfOk, OnOk, option_copied};
ghost use Rattle.std.specs.List.{filter_map};
ghost use Rattle.tn_follow.specs.Follow.{letter_dropped, letter_handed, receivers, received_by};

use crate::spots::is_sent_by;
use std::alloc::{AllocError, Global};
use tn_base::message::Letter;
use tn_letters::steps::BagStep;

/// The letter that a step hands.
fn letter_handed(step: &BagStep) -> Option<&Letter>
    ensures { option_copied result ≡ letter_handed step.now }
{
    match step {
        BagStep::Hand { letter, .. } => Some(letter),
        BagStep::HostHand { letter } => Some(letter),
        BagStep::Private { .. } => None,
        BagStep::Send { .. } => None,
        BagStep::Free { .. } => None,
        BagStep::Idle { .. } => None,
        BagStep::Announce => None,
        BagStep::HostSend { .. } => None,
        BagStep::Discard { .. } => None,
    }
}

/// The letter that a step drops.
fn letter_dropped(step: &BagStep) -> Option<&Letter>
    ensures { option_copied result ≡ letter_dropped step.now }
{
    match step {
        BagStep::Discard { letter } => Some(letter),
        BagStep::Hand { .. } => None,
        BagStep::HostHand { .. } => None,
        BagStep::Private { .. } => None,
        BagStep::Send { .. } => None,
        BagStep::Free { .. } => None,
        BagStep::Idle { .. } => None,
        BagStep::Announce => None,
        BagStep::HostSend { .. } => None,
    }
}

/// Appends the receiver of a letter, if there is a letter and it is of the send.
fn push_receiver(
    all: &mut Vec<u32>,
    origin: u32,
    number: u32,
    letter: Option<&Letter>,
) -> Result<(), AllocError>
    ensures { OnOk result (all.new.items ≡ all.old.items ++ received_by origin number (option_copied letter.entry)) }
{
    let Some(letter) = letter else {
        return Ok(());
    };
    if is_sent_by(origin, number, letter) {
        all.push(letter.receiver)?;
    }
    Ok(())
}

/// The receivers of the send's letters that steps hand, in order.
pub fn receivers_handed(
    alloc: Global,
    origin: u32,
    number: u32,
    steps: &[BagStep],
) -> Result<Vec<u32>, AllocError>
    ensures { IfOk result (λ all. all.items ≡ receivers origin number (filter_map letter_handed steps.now)) }
{
    let mut all = Vec::new(alloc);
    for step in steps {
        push_receiver(&mut all, origin, number, letter_handed(step))?;
    }
    Ok(all)
}

/// The receivers of the send's letters that steps drop, in order.
pub fn receivers_dropped(
    alloc: Global,
    origin: u32,
    number: u32,
    steps: &[BagStep],
) -> Result<Vec<u32>, AllocError>
    ensures { IfOk result (λ all. all.items ≡ receivers origin number (filter_map letter_dropped steps.now)) }
{
    let mut all = Vec::new(alloc);
    for step in steps {
        push_receiver(&mut all, origin, number, letter_dropped(step))?;
    }
    Ok(all)
}
