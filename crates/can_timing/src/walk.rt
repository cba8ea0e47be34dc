//! The walk over the boxes of a request's canonical tree, to the first timing that serves.
ghost use Rattle.std.specs.Prelude.{◌≡◌, ◌<◌, ◌++◌, [], ◌∷◌, decimal, None, Some, IfOk, OnOk};
ghost use Rattle.box_split.specs.Boxes.{IsBox, whole};
ghost use Rattle.box_split.specs.BoxIn.{box_in};
ghost use Rattle.refutation.specs.Forms.{LimitForm, SplitForm};
ghost use Rattle.refutation.specs.Spelling.{form_text};
ghost use Rattle.can_timing.specs.Timings.{can_shape};
ghost use Rattle.can_timing.specs.Judged.{can_meaning};
ghost use Rattle.can_timing.specs.Walk.{IsWalked};

use crate::corners::{greatest_in, least_in};
use crate::request::Request;
use crate::rules::{is_outside, misses_point};
use box_split::{BoxBuf, keep_lower, keep_upper, low, of_path, split_at};
use choice_rank::Shape;
use itoa::Buffer;
use res_base::{OutOfMemory, put_line};
use std::alloc::AllocError;

/// The box of all timings.
pub(crate) fn all_timings(s: &Shape) -> BoxBuf
    requires { s.now ≡ can_shape }
    ensures { box_in can_shape result ≡ whole can_shape }
{
    let mut b = BoxBuf::new();
    of_path(s, 1, &mut b);
    b
}

/// The rank of the first timing of a box that serves, or none.
///
/// It appends the lines of the canonical tree of the box up to there: all of them, where none
/// serves.
pub(crate) fn first_in(
    q: &Request,
    s: &Shape,
    b: &BoxBuf,
    out: &mut Vec<u8>,
) -> Result<Option<u64>, OutOfMemory>
    requires shape { s.now ≡ can_shape }
    requires is_box { IsBox can_shape (box_in can_shape b.now) }
    ensures { IfOk result (IsWalked (can_meaning q.now) (box_in can_shape b.now) out.old.items out.new.items) }
{
    let least = least_in(b);
    let greatest = greatest_in(b);
    if is_outside(q, least, greatest) {
        put_limit(out, 3)?;
        return Ok(None);
    }
    if misses_point(q, least, greatest) {
        put_limit(out, 4)?;
        return Ok(None);
    }
    let Some((variable, after)) = split_at(s, b) else {
        return Ok(Some(low(s, b)));
    };
    put_split(out, variable, after)?;
    let mut lower = *b;
    keep_lower(s, &mut lower, variable, after);
    let found = first_in(q, s, &lower, out)?;
    if found.is_some() {
        return Ok(found);
    }
    let mut upper = *b;
    keep_upper(s, &mut upper, variable, after);
    first_in(q, s, &upper, out)
}

/// Appends the line of a limit.
fn put_limit(out: &mut Vec<u8>, limit: u8) -> Result<(), OutOfMemory>
    ensures { OnOk result (out.new.items ≡ out.old.items ++ form_text (LimitForm limit) ++ 10 ∷ []) }
{
    out.push(b'L')?;
    put_spaced(out, u16::from(limit))?;
    out.push(b'\n')?;
    Ok(())
}

/// Appends the line of a split.
fn put_split(out: &mut Vec<u8>, variable: u16, after: u16) -> Result<(), OutOfMemory>
    ensures { OnOk result (out.new.items ≡ out.old.items ++ form_text (SplitForm variable after) ++ 10 ∷ []) }
{
    out.push(b'S')?;
    put_spaced(out, variable)?;
    put_spaced(out, after)?;
    out.push(b'\n')?;
    Ok(())
}

/// Appends a number after a space.
fn put_spaced(out: &mut Vec<u8>, n: u16) -> Result<(), AllocError>
    ensures { OnOk result (out.new.items ≡ out.old.items ++ 32 ∷ decimal n) }
{
    let mut digits = Buffer::new();
    out.push(b' ')?;
    out.extend_from_slice(digits.format(n).as_bytes())
}
