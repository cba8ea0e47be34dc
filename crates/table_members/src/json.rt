//! A JSON value and its members.
ghost use Rattle.std.specs.Prelude.{◌≡◌, ◌≤◌, List, [], ◌∷◌, Some, map, length, option_map, codes, IfSome};
ghost use Rattle.std.specs.List.{list_all};
ghost use Rattle.table_members.specs.Json.{json_of, is_object, inside, entries, two, number, is_printing, is_word, word};
ghost use Rattle.table_members.specs.Forms.{due};
ghost use Rattle.serde_json.specs.Find.{get, as_str, as_bool};
ghost use Rattle.serde_json.specs.View.{view};
ghost use Rattle.table_members.specs.declared.fault.TableFault.TheVariants as fault;
ghost use Rattle.table_members.specs.Places.{spelling, spelled, path_of, Reads};

use crate::place::{Flaw, Key, Place, Spot};
use refusal::Refusal;
use serde_json::Value;
use std::alloc::Global;

/// The value of the bytes, which have to be JSON.
#[tactic(auto, unfolding(crate::specs::Json::json_of))]
pub fn value_of(alloc: Global, bytes: &[u8]) -> Result<Value, Refusal<Flaw>>
    ensures { Reads (λ v. view v) result (due fault.NotJson (json_of bytes.now)) }
{
    let Ok(text) = std::str::from_utf8(bytes) else {
        return Err(Refusal::Fault(Flaw::NotJson));
    };
    match Value::from_str(alloc, text) {
        Ok(value) => Ok(value),
        Err(e) => {
            if e.is_memory() {
                Err(Refusal::OutOfMemory)
            } else {
                Err(Refusal::Fault(Flaw::NotJson))
            }
        }
    }
}

/// The member of this name, where the value is an object that has it.
pub fn member_of(value: &Value, key: Key) -> Option<&Value>
    ensures { option_map (λ v. view v.now) result ≡ get (spelling key) (view value.now) }
{
    value.get(key.spelling())
}

#[tactic(auto, unfolding(crate::specs::Json::inside))]
pub fn inside_of(value: &Value, group: Key, key: Key) -> Option<&Value>
    ensures { option_map (λ v. view v.now) result ≡ inside (spelling group) (spelling key) (view value.now) }
{
    match member_of(value, group) {
        Some(outer) => member_of(outer, key),
        None => None,
    }
}

/// The member, which has to be there.
pub fn needed(found: Option<&Value>, at: Spot) -> Result<&Value, Refusal<Flaw>>
    ensures { Reads (λ v. view v.now) result (due (fault.Missing (path_of at)) (option_map (λ v. view v.now) found.entry)) }
{
    match found {
        Some(value) => Ok(value),
        None => Err(Refusal::Fault(Flaw::Missing(Place::Member(at)))),
    }
}

/// A member of a member, which has to be there.
pub fn nested(root: &Value, group: Key, key: Key) -> Result<&Value, Refusal<Flaw>>
    ensures { Reads (λ v. view v.now) result (due (fault.Missing (path_of (Spot.Nested group key))) (inside (spelling group) (spelling key) (view root.now))) }
{
    needed(inside_of(root, group, key), Spot::Nested(group, key))
}

pub fn entries_of(value: &Value) -> Option<&Vec<Value>>
    ensures { option_map (λ v. map view v.now.items) result ≡ entries (view value.now) }
{
    value.as_array()
}

/// The entries of a list of two.
#[tactic(auto, unfolding(crate::specs::Json::two))]
pub fn two_of(value: &Value) -> Option<(&Value, &Value)>
    ensures { option_map (λ p. (view p.0.now, view p.1.now)) result ≡ two (view value.now) }
{
    let first = value.get(0usize)?;
    let second = value.get(1usize)?;
    match value.get(2usize) {
        Some(_) => None,
        None => Some((first, second)),
    }
}

/// A number from 0 to 2^64 - 1.
pub fn number_of(value: &Value) -> Option<u64>
    ensures { result ≡ number (view value.now) }
{
    value.as_u64()
}

fn is_printing(b: u8) -> bool
    ensures { result ≡ is_printing b }
{
    33 <= b && b <= 126
}

fn are_printing(bytes: &[u8]) -> bool
    ensures { result ≡ list_all is_printing bytes.now }
{
    bytes.iter().all(|b| is_printing(*b))
}

#[tactic(auto, unfolding(crate::specs::Json::is_word))]
fn is_word(text: &str) -> bool
    ensures { result ≡ is_word text.now }
{
    if text.is_empty() {
        return false;
    }
    if text.len() > 64 {
        return false;
    }
    are_printing(text.as_bytes())
}

/// A text of 1 to 64 printing bytes of ASCII, none of them a blank.
#[tactic(auto, unfolding(crate::specs::Json::word))]
pub fn word_of(value: &Value) -> Option<&str>
    ensures { option_map (λ s. s.now) result ≡ word (view value.now) }
{
    match value.as_str() {
        Some(text) if is_word(text) => Some(text),
        _ => None,
    }
}
