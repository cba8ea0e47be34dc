//! The marks of the pins that hold no place.
ghost use Rattle.std.specs.Prelude.{◌≡◌, ◌++◌, ◌↔◌, codes, map, IfOk, IfSome, IsSome, IsTrue, is_some};
ghost use Rattle.std.specs.List.{list_any};
ghost use Rattle.std.specs.Str.{bytes_eq};
ghost use Rattle.ioc_project.specs.Project.{is_mark, mark_of, mark_given, marks_of, pin_line_at};

use crate::signals::{is_virtual, pin_key};
use ioc_text::{Ioc, Line};
use res_base::{OutOfMemory, Text};
use res_model::{Ip, TableParts};
use std::alloc::Global;

fn mark_among<'t>(marks: &'t [Text], text: &[u8]) -> Option<&'t Text>
    ensures found { is_some result ≡ list_any (bytes_eq text.now) marks.now }
    ensures same { IfSome result (λ mark. mark.now ≡ text.now) }
{
    for mark in marks {
        if text == mark.as_str().as_bytes() {
            return Some(mark);
        }
    }
    None
}

/// The mark of an IP that has this text.
#[tactic(auto, unfolding(crate::specs::Project::is_mark))]
fn mark_named<'t>(t: &'t TableParts, text: &[u8]) -> Option<&'t Text>
    ensures found { is_some result ≡ is_mark t.now text.now }
    ensures same { IfSome result (λ mark. mark.now ≡ text.now) }
{
    for ip in t.ips.as_slice() {
        if let Some(mark) = mark_among(ip.marks.as_slice(), text) {
            return Some(mark);
        }
    }
    None
}

/// Appends the mark that a pin's line adds.
#[tactic(auto, unfolding(crate::specs::Project::mark_of))]
fn push_mark(
    alloc: Global,
    t: &TableParts,
    ioc: &Ioc,
    marks: &mut Vec<Text>,
    line: &Line,
) -> Result<(), OutOfMemory>
    ensures { IfOk result (λ _. marks.new.items ≡ marks.old.items ++ mark_of t.now ioc.now line.now) }
{
    let pin = line.value.as_slice();
    if !is_virtual(pin) {
        return Ok(());
    }
    let key = pin_key(alloc, pin, b".Signal")?;
    let Some(given) = ioc.get(key.as_slice()) else {
        return Ok(());
    };
    if let Some(mark) = mark_named(t, given.value.as_slice()) {
        marks.push(Text::copy(alloc, mark.as_str())?)?;
    }
    Ok(())
}

/// The marks that the pins' lines add.
pub(crate) fn marks_of(
    alloc: Global,
    t: &TableParts,
    ioc: &Ioc,
    pins: &[&Line],
) -> Result<Vec<Text>, OutOfMemory>
    ensures { IfOk result (λ v. v.items ≡ marks_of t.now ioc.now (map (λ line. line.now) pins.now)) }
{
    let mut marks = Vec::new(alloc);
    for line in pins {
        push_mark(alloc, t, ioc, &mut marks, *line)?;
    }
    Ok(marks)
}
