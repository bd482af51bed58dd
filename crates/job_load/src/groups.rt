//! Which fills are those of each thread.

ghost use Rattle.std.specs.Prelude.{◌≡◌, ◌<◌, ◌^◌, ◌==◌, ◌++◌, ◌∷◌, [], ℕ, IfOk, length, if◌then◌else◌};
ghost use Rattle.job_load.specs.Groups.{AreGroups, group_at};

use job_text::job::FillLine;
use std::alloc::{AllocError, Global};
use std::marker::Model;
use tn_base::ids::ThreadId;
use tn_text::items::Items;

/// Puts empty groups behind these, so that there is a group at this place.
fn reach(alloc: Global, groups: &mut Vec<Items<usize>>, place: usize) -> Result<(), AllocError>
    requires { place < 2 ^ 32 }
    ensures there { IfOk result (λ _. place < length groups.new.items) }
    ensures same { IfOk result (λ _. (k : ℕ) → group_at groups.new.items k ≡ group_at groups.old.items k) }
{
    while groups.len() <= place {
        groups.push(Items::new(alloc))?;
    }
    Ok(())
}

/// Puts the place of a fill into the group of its thread.
fn put_in(
    alloc: Global,
    groups: &mut Vec<Items<usize>>,
    thread: u32,
    place: usize,
) -> Result<(), AllocError>
    ensures { IfOk result (λ _. (k : ℕ) → group_at groups.new.items k
        ≡ (if thread == k then group_at groups.old.items k ++ place ∷ [] else group_at groups.old.items k)) }
{
    reach(alloc, groups, thread as usize)?;
    let group = &mut groups[thread as usize];
    group.push(place)
}

/// The groups of fills, each at its thread's address. The group of a thread behind them is empty.
fn collect(alloc: Global, fills: &[FillLine]) -> Result<Vec<Items<usize>>, AllocError>
    ensures { IfOk result (λ groups. AreGroups fills.now groups.items) }
{
    let mut groups = Vec::new(alloc);
    for place in 0..fills.len() {
        put_in(alloc, &mut groups, fills[place].thread, place)?;
    }
    Ok(groups)
}

/// For each thread the places of its fills among all fills, in order. A contract sees the places by the threads' addresses.
#[derive(Drop)]
pub(crate) struct FillGroups {
    groups: Vec<Items<usize>>,
}

impl Model for FillGroups {
    ghost use Rattle.std.specs.Prelude.{ℕ, List};

    ghost Value = { List (List ℕ) };

    ghost view = { λ s. s.groups.items };
}

impl FillGroups {
    /// The groups of these fills.
    pub(crate) fn of(alloc: Global, fills: &[FillLine]) -> Result<FillGroups, AllocError>
        ensures { IfOk result (λ groups. AreGroups fills.now groups) }
    {
        let groups = collect(alloc, fills)?;
        Ok(FillGroups { groups })
    }

    /// The places of a thread's fills.
    pub(crate) fn places(&self, thread: ThreadId) -> &[usize]
        ensures { result.now ≡ group_at self.now thread.0 }
    {
        match self.groups.as_slice().get(thread.0 as usize) {
            Some(group) => group.as_slice(),
            None => &[],
        }
    }
}
