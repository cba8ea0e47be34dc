//! The deques, when all workers have ended: their ends are taken back, and what is left in them.
ghost use Rattle.std.specs.Prelude.{◌≡◌, ℕ, ◌+◌, [], ◌∷◌, ◌++◌, length, IfOk, OnOk};
ghost use Rattle.res_base.specs.Lists.{Each, total};
ghost use Rattle.path_deque.specs.Ends.{owner_tally, owner_deque, thief_deque};
ghost use Rattle.steal_worker.specs.Jobs.{stolen, IsThief};
ghost use Rattle.steal_pool.specs.Crews.{owner_deques, IsOwner, IsRow};
ghost use Rattle.steal_pool.specs.Joined.{put_by, got_by, stolen_by};

use path_deque::{Owner, Thief};
use res_base::OutOfMemory;
use std::alloc::Global;
use std::sync::Wait;

/// Closes all deques, the last one first, and adds what was left in them.
pub(crate) fn close_all<R: Wait>(
    rt: &R,
    alloc: Global,
    mut owners: Vec<Owner>,
    mut rows: Vec<Vec<Thief>>,
    left: &mut Vec<u128>,
) -> Result<(), OutOfMemory>
    requires owners { Each (IsOwner (length rows.items)) owners.items }
    requires rows { Each (IsRow (owner_deques owners.items)) rows.items }
    ensures { OnOk result ((h : ℕ → ℕ) → put_by h owners.items + total h left.old.items ≡ got_by h owners.items + stolen_by h rows.items + total h left.new.items) }
{
    while let Some(owner) = owners.pop() {
        let thieves = column(alloc, &owner, owners.as_slice(), rows.as_mut_slice())?;
        close_deque(rt, owner, thieves, left)?;
    }
    Ok(())
}

/// The ends of the last deque, out of each worker's.
fn column(
    alloc: Global,
    owner: &Owner,
    owners: &[Owner],
    rows: &mut [Vec<Thief>],
) -> Result<Vec<Thief>, OutOfMemory>
    requires rows { Each (IsRow (owner_deques owners.now ++ owner_deque owner.now ∷ [])) rows.old }
    ensures rows { OnOk result ((length rows.new ≡ length rows.old) × Each (IsRow (owner_deques owners.now)) rows.new) }
    ensures ends { IfOk result (λ v. (length v.items ≡ length rows.old) × Each IsThief v.items × Each (λ t. thief_deque t ≡ owner_deque owner.now) v.items) }
    ensures got { IfOk result (λ v. (h : ℕ → ℕ) → stolen_by h rows.old ≡ stolen_by h rows.new + stolen h v.items) }
{
    let mut all = Vec::new(alloc);
    for k in 0..rows.len() {
        let row = &mut rows[k];
        let Some(thief) = row.pop() else {
            unreachable!()
        };
        all.push(thief)?;
    }
    Ok(all)
}

/// Takes the ends of a deque back, and adds what is left in it.
fn close_deque<R: Wait>(
    rt: &R,
    owner: Owner,
    thieves: Vec<Thief>,
    left: &mut Vec<u128>,
) -> Result<(), OutOfMemory>
    requires ends { Each IsThief thieves.items × Each (λ t. thief_deque t ≡ owner_deque owner) thieves.items }
    requires owner { IsOwner (length thieves.items) owner }
    ensures { OnOk result ((h : ℕ → ℕ) → total h (owner_tally owner).put + total h left.old.items ≡ total h (owner_tally owner).got + stolen h thieves.items + total h left.new.items) }
{
    drain(rt, take_back(owner, thieves), left)
}

/// Takes all ends of a deque back.
fn take_back(mut owner: Owner, mut thieves: Vec<Thief>) -> Owner
    requires ends { Each IsThief thieves.items × Each (λ t. thief_deque t ≡ owner_deque owner) thieves.items }
    requires owner { IsOwner (length thieves.items) owner }
    ensures owner { IsOwner 0 result }
    ensures put { (owner_tally result).put ≡ (owner_tally owner).put }
    ensures got { (h : ℕ → ℕ) → total h (owner_tally result).got ≡ total h (owner_tally owner).got + stolen h thieves.items }
{
    while let Some(thief) = thieves.pop() {
        owner.take_back(thief);
    }
    owner
}

/// Takes all paths that are left.
fn drain<R: Wait>(rt: &R, mut owner: Owner, left: &mut Vec<u128>) -> Result<(), OutOfMemory>
    requires { IsOwner 0 owner }
    ensures { OnOk result ((h : ℕ → ℕ) → total h (owner_tally owner).put + total h left.old.items ≡ total h (owner_tally owner).got + total h left.new.items) }
{
    for _ in rt.forever() {
        left.reserve(1)?;
        match owner.pop() {
            Some(path) => left.push_reserved(path),
            None => return Ok(()),
        }
    }
    unreachable!()
}
