//! An index of lines by their keys: marks that are sorted once.
ghost use Rattle.std.specs.Prelude.{◌≡◌, ◌<◌, ◌∷◌, None, MatchOption, IfOk, length, option_copied, slice_get};
ghost use Rattle.std.specs.Cmp.Lexicographic.{slice_cmp};
ghost use Rattle.std.specs.Ordering.{nat_cmp};
ghost use Rattle.std.specs.Str.{bytes_eq};
ghost use Rattle.ioc_text.specs.Lines.{line_at};
ghost use Rattle.ioc_text.specs.Index.{next_sum, sum_of, key_at, ranked, mark_cmp, AreMarks, IsIndex, IsEachOnce, IsFirstRepeat};

use crate::line::Line;
use std::alloc::{AllocError, Global};
use std::cmp::Ordering;

/// The sum of a line's key, and where the line stands among all.
#[derive(Debug, Clone, Copy)]
pub(crate) struct Mark {
    sum: u64,
    place: usize,
}

/// Odd, so that each byte before has its part in the sum, and with bits set all over, so that keys of one form differ.
const FACTOR: u64 = 6364136223846793005;

#[tactic(auto, unfolding(crate::specs::Index::next_sum))]
fn next_sum(sum: u64, b: u8) -> u64
    ensures { result ≡ next_sum sum b }
{
    sum.wrapping_mul(FACTOR).wrapping_add(u64::from(b))
}

/// A number that keys mostly differ in, so that few comparisons look at the keys.
#[tactic(auto, unfolding(crate::specs::Index::sum_of, crate::specs::Index::sum_from))]
fn sum_of(key: &[u8]) -> u64
    ensures { result ≡ sum_of key.now }
{
    let mut sum = 0;
    for b in key {
        sum = next_sum(sum, *b);
    }
    sum
}

/// The key of the line at a place, and an empty one past the end.
fn key_at(lines: &[Line], place: usize) -> &[u8]
    ensures { result.now ≡ key_at lines.now place }
{
    match lines.get(place) {
        Some(line) => line.key.as_slice(),
        None => &[],
    }
}

/// By the sum, then by the key, and lines of one key as they stand.
#[tactic(auto, unfolding(crate::specs::Index::mark_cmp, crate::specs::Index::ranked))]
fn order(lines: &[Line], a: &Mark, b: &Mark) -> Ordering
    ensures { result ≡ mark_cmp lines.now a.now b.now }
{
    a.sum
        .cmp(&b.sum)
        .then_with(|| key_at(lines, a.place).cmp(key_at(lines, b.place)))
        .then_with(|| a.place.cmp(&b.place))
}

/// The marks of these lines, as they stand.
fn marks_of(alloc: Global, lines: &[Line]) -> Result<Vec<Mark>, AllocError>
    ensures { IfOk result (λ marks. AreMarks lines.now marks.items (length lines.now)) }
{
    let mut marks = Vec::with_capacity(alloc, lines.len())?;
    for place in 0..lines.len() {
        let sum = sum_of(key_at(lines, place));
        marks.push(Mark { sum, place })?;
    }
    Ok(marks)
}

/// The index of these lines. Whatever the keys are, it takes no more than n log n comparisons.
pub(crate) fn sorted_marks(alloc: Global, lines: &[Line]) -> Result<Vec<Mark>, AllocError>
    ensures { IfOk result (λ marks. IsIndex marks.items lines.now) }
{
    let mut marks = marks_of(alloc, lines)?;
    marks.sort_unstable_by(|a, b| order(lines, a, b));
    Ok(marks)
}

#[tactic(auto, unfolding(crate::specs::Index::ranked))]
fn same_key(lines: &[Line], a: &Mark, b: &Mark) -> bool
    ensures { result ≡ bytes_eq (ranked lines.now a.now) (ranked lines.now b.now) }
{
    a.sum == b.sum && key_at(lines, a.place) == key_at(lines, b.place)
}

/// The place of the first line whose key stood before, or the number of lines.
///
/// Lines of one key stand together in the index, so that each but the first of them has a neighbour before it.
pub(crate) fn first_repeat(lines: &[Line], marks: &[Mark]) -> usize
    requires { IsIndex marks.now lines.now }
    ensures { IsFirstRepeat lines.now result }
{
    let mut first = lines.len();
    for at in 1..marks.len() {
        if same_key(lines, &marks[at - 1], &marks[at]) {
            first = first.min(marks[at].place);
        }
    }
    first
}

#[tactic(auto, unfolding(crate::specs::Index::ranked))]
fn order_to(lines: &[Line], mark: &Mark, sum: u64, key: &[u8]) -> Ordering
    ensures { result ≡ slice_cmp nat_cmp (ranked lines.now mark.now) (sum ∷ key.now) }
{
    mark.sum
        .cmp(&sum)
        .then_with(|| key_at(lines, mark.place).cmp(key))
}

/// The place of the line that has this key.
fn place_of(lines: &[Line], marks: &[Mark], key: &[u8]) -> Option<usize>
    requires index { IsIndex marks.now lines.now }
    requires once { IsEachOnce lines.now }
    ensures { MatchOption result (line_at lines.now key.now ≡ None) (λ place. (place < length lines.now) × (line_at lines.now key.now ≡ slice_get lines.now place)) }
{
    let sum = sum_of(key);
    match marks.binary_search_by(|mark| order_to(lines, mark, sum, key)) {
        Ok(at) => Some(marks[at].place),
        Err(_) => None,
    }
}

/// The line that has this key.
pub(crate) fn line_of<'l>(lines: &'l [Line], marks: &[Mark], key: &[u8]) -> Option<&'l Line>
    requires index { IsIndex marks.now lines.now }
    requires once { IsEachOnce lines.now }
    ensures { option_copied result ≡ line_at lines.now key.now }
{
    let place = place_of(lines, marks, key)?;
    Some(&lines[place])
}
