//! Reading and writing one hand, and the two ends of a deque.
ghost use Rattle.std.specs.Prelude.{◌≡◌, ℕ, ◌-◌, ◌<◌, ◌≤◌, [], ◌∷◌, ◌++◌, length, set, take, replicate, slice_get, IfOk, OnErr, OnOk, MatchOption};
ghost use Rattle.search_core.specs.Ends.{IsEmptyAt, PutsLast, TakesFirst, TakesLast};
ghost use Rattle.search_core.specs.Events.{empty_hand};

use crate::state::Hand;
use res_base::{Items, OutOfMemory};
use std::alloc::Global;

/// So many empty hands.
pub(crate) fn hands_of(alloc: Global, workers: usize) -> Result<Vec<Hand>, OutOfMemory>
    ensures { IfOk result (λ hands. hands.items ≡ replicate workers empty_hand) }
{
    let empty = Hand {
        path: None,
        seen: None,
        owed: None,
    };
    Ok(vec![in alloc; empty; workers]?)
}

/// So many deques, the first with path 1 and the others empty.
pub(crate) fn deques_of(alloc: Global, workers: usize) -> Result<Vec<Items<u128>>, OutOfMemory>
    requires { 1 ≤ workers }
    ensures { IfOk result (λ deques. deques.items ≡ (1 ∷ []) ∷ replicate (workers - 1) []) }
{
    let mut deques = Vec::new(alloc);
    deques.push(Items::of(Vec::from_slice(alloc, &[1])?))?;
    for _ in 0..workers - 1 {
        deques.push(Items::of(Vec::new(alloc)))?;
    }
    Ok(deques)
}

/// A worker's hand. None where there is no such worker.
pub(crate) fn hand_at(hands: &Items<Hand>, w: u32) -> Option<Hand>
    ensures { result ≡ slice_get hands.now w }
{
    hands.as_slice().get(w as usize).copied()
}

/// Writes a worker's hand.
pub(crate) fn put_hand(hands: &mut Items<Hand>, w: u32, hand: Hand)
    requires { w < length hands.old }
    ensures { hands.new ≡ set hands.old w hand }
{
    hands.as_vec_mut()[w as usize] = hand;
}

/// Takes the last path of a deque.
pub(crate) fn take_last(deques: &mut Items<Items<u128>>, w: u32) -> Option<u128>
    ensures { MatchOption result ((deques.new ≡ deques.old) × IsEmptyAt deques.old w) (λ path. TakesLast deques.old w path deques.new) }
{
    if w as usize >= deques.len() {
        return None;
    }
    pop_last(&mut deques.as_vec_mut()[w as usize])
}

fn pop_last(deque: &mut Items<u128>) -> Option<u128>
    ensures { MatchOption result ((deque.old ≡ []) × (deque.new ≡ [])) (λ path. deque.old ≡ deque.new ++ path ∷ []) }
{
    deque.as_vec_mut().pop()
}

/// Takes the first path of a deque.
pub(crate) fn take_first(deques: &mut Items<Items<u128>>, w: u32) -> Option<u128>
    ensures { MatchOption result ((deques.new ≡ deques.old) × IsEmptyAt deques.old w) (λ path. TakesFirst deques.old w path deques.new) }
{
    if w as usize >= deques.len() {
        return None;
    }
    pop_first(&mut deques.as_vec_mut()[w as usize])
}

fn pop_first(deque: &mut Items<u128>) -> Option<u128>
    ensures { MatchOption result ((deque.old ≡ []) × (deque.new ≡ [])) (λ path. deque.old ≡ path ∷ deque.new) }
{
    if deque.len() == 0 {
        return None;
    }
    Some(deque.as_vec_mut().remove(0))
}

/// Puts a path last into a deque.
pub(crate) fn put_last(
    deques: &mut Items<Items<u128>>,
    w: u32,
    path: u128,
) -> Result<(), OutOfMemory>
    requires { w < length deques.old }
    ensures put { OnOk result (PutsLast deques.old w path deques.new) }
    ensures err { OnErr result (deques.new ≡ deques.old) }
{
    deques.as_vec_mut()[w as usize].push(path)
}

/// Takes the last number away.
pub(crate) fn drop_last(kept: &mut Items<u64>)
    ensures { kept.new ≡ take (length kept.old - 1) kept.old }
{
    let _ = kept.as_vec_mut().pop();
}
