//! Values of a single form: a text, a flag, a number, a pair.
ghost use Rattle.std.specs.Prelude.{◌≡◌, ◌≤◌, ◌<◌, ◌==◌, List, [], ◌∷◌, Some, map, length, option_map, find, IfOk, IfSome};
ghost use Rattle.table_members.specs.Json.{is_object};
ghost use Rattle.table_members.specs.Forms.{text, flag, object, number_within, number_among, pair_within};
ghost use Rattle.serde_json.specs.View.{view};
ghost use Rattle.table_members.specs.Places.{spelled, path_of, Reads};

use crate::json::{number_of, two_of, word_of};
use crate::place::{Flaw, Place, Spot};
use refusal::Refusal;
use res_base::Text;
use serde_json::Value;
use std::alloc::Global;

/// A text of 1 to 64 printing bytes.
#[tactic(auto, unfolding(crate::specs::Forms::text))]
pub fn text_at<'v>(at: Place, value: &'v Value) -> Result<&'v str, Refusal<Flaw>>
    ensures { Reads (λ s. s.now) result (text (spelled at) (view value.now)) }
{
    match word_of(value) {
        Some(word) => Ok(word),
        None => Err(Refusal::Fault(Flaw::BadField(at))),
    }
}

/// A flag.
#[tactic(auto, unfolding(crate::specs::Forms::flag))]
pub fn flag_at(at: Place, value: &Value) -> Result<bool, Refusal<Flaw>>
    ensures { Reads (λ b. b) result (flag (spelled at) (view value.now)) }
{
    match value.as_bool() {
        Some(flag) => Ok(flag),
        None => Err(Refusal::Fault(Flaw::BadField(at))),
    }
}

/// The value has to be an object.
#[tactic(auto, unfolding(crate::specs::Forms::object))]
pub fn check_object(at: Place, value: &Value) -> Result<(), Refusal<Flaw>>
    ensures { Reads (λ _. view value.now) result (object (spelled at) (view value.now)) }
{
    match value.as_object() {
        Some(_) => Ok(()),
        None => Err(Refusal::Fault(Flaw::BadField(at))),
    }
}

/// A number from low to high.
#[tactic(auto, unfolding(crate::specs::Forms::number_within))]
pub fn number_at(low: u64, high: u64, at: Place, value: &Value) -> Result<u64, Refusal<Flaw>>
    ensures reads { Reads (λ n. n) result (number_within low high (spelled at) (view value.now)) }
    ensures within { IfOk result (λ n. n ≤ high) }
{
    let Some(n) = number_of(value) else {
        return Err(Refusal::Fault(Flaw::BadField(at)));
    };
    if low <= n && n <= high {
        Ok(n)
    } else {
        Err(Refusal::Fault(Flaw::BadField(at)))
    }
}

/// A least and a greatest number, both from low to high.
#[tactic(auto, unfolding(crate::specs::Forms::pair_within))]
pub fn pair_at(low: u64, high: u64, at: Place, value: &Value) -> Result<(u64, u64), Refusal<Flaw>>
    ensures reads { Reads (λ p. p) result (pair_within low high (spelled at) (view value.now)) }
    ensures within { IfOk result (λ p. (p.0 ≤ high) × (p.1 ≤ high)) }
{
    let Some((first, second)) = two_of(value) else {
        return Err(Refusal::Fault(Flaw::BadField(at)));
    };
    let Some(least) = number_of(first) else {
        return Err(Refusal::Fault(Flaw::BadField(at)));
    };
    let Some(greatest) = number_of(second) else {
        return Err(Refusal::Fault(Flaw::BadField(at)));
    };
    if low <= least && least <= greatest && greatest <= high {
        Ok((least, greatest))
    } else {
        Err(Refusal::Fault(Flaw::BadField(at)))
    }
}

fn same_of(these: &[u16], n: u64) -> Option<u16>
    ensures { result ≡ find (λ x. x == n) these.now }
{
    these.iter().copied().find(|x| u64::from(*x) == n)
}

/// One of these numbers.
#[tactic(auto, unfolding(crate::specs::Forms::number_among))]
pub fn among_at(these: &[u16], at: Place, value: &Value) -> Result<u16, Refusal<Flaw>>
    ensures { Reads (λ n. n) result (number_among these.now (spelled at) (view value.now)) }
{
    let Some(n) = number_of(value) else {
        return Err(Refusal::Fault(Flaw::BadField(at)));
    };
    match same_of(these, n) {
        Some(same) => Ok(same),
        None => Err(Refusal::Fault(Flaw::BadField(at))),
    }
}
