//! The lines of a text, found by their keys.
ghost use Rattle.std.specs.Prelude.{◌≡◌, IfOk, map};
ghost use Rattle.std.specs.Option.{option_copied};

use crate::fault::IocFault;
use crate::line::Line;
use crate::marks::{Mark, first_repeat, line_of, sorted_marks};
use crate::outs::{kept, unless_out, with_out};
use refusal::Refusal;
use res_base::OutOfMemory;
use std::alloc::{AllocError, Global};
use std::marker::Model;
use std::rc::Rc;

/// What was read of a text: its lines that have a named key, and an index of them.
#[derive(Debug, Drop)]
struct Read {
    lines: Vec<Line>,
    marks: Vec<Mark>,
}

/// The lines of a project's text that have a named key, in the order of the text.
///
/// What was read is shared by those from which lines are left out.
#[derive(Debug, Drop)]
pub struct Ioc {
    read: Rc<Read>,
    outs: Vec<u32>,
}

impl Model for Ioc {
    ghost use Rattle.std.specs.Prelude.{List};
    ghost use Rattle.ioc_text.specs.declared.line.Line.{Line};

    ghost Value = { List Line };

    ghost use Rattle.ioc_text.specs.Index.{IsIndex, IsEachOnce};
    ghost use Rattle.ioc_text.specs.Outs.{kept};

    ghost view = { λ i. kept i.outs.items i.read.value.lines.items };

    ghost invariant = { λ i. IsIndex i.read.value.marks.items i.read.value.lines.items × IsEachOnce i.read.value.lines.items };
}

impl Ioc {
    ghost use Rattle.refusal.specs.Refusals.{Gives};
    ghost use Rattle.ioc_text.specs.Lines.{line_at};
    ghost use Rattle.ioc_text.specs.Index.{each_once};
    ghost use Rattle.ioc_text.specs.Without.{without};

    /// These lines, unless a key stands twice.
    pub(crate) fn of(alloc: Global, lines: Vec<Line>) -> Result<Ioc, Refusal<IocFault>>
        ensures { Gives (λ ioc. ioc) result (each_once lines.items) }
    {
        let marks = sorted_marks(alloc, lines.as_slice())?;
        let first = first_repeat(lines.as_slice(), marks.as_slice());
        if first < lines.len() {
            return Err(Refusal::Fault(IocFault::TwiceKey {
                line: lines[first].number,
            }));
        }
        let read = Rc::new(alloc, Read { lines, marks })?;
        let outs = Vec::new(alloc);
        Ok(Ioc { read, outs })
    }

    /// The lines, in the order of the text.
    pub fn lines(&self, alloc: Global) -> Result<Vec<&Line>, AllocError>
        ensures { IfOk result (λ v. map (λ line. line.now) v.items ≡ self.now) }
    {
        kept(alloc, self.outs.as_slice(), self.read.lines.as_slice())
    }

    /// The line that has this key.
    pub fn get(&self, key: &[u8]) -> Option<&Line>
        ensures { option_copied result ≡ line_at self.now key.now }
    {
        let lines = self.read.lines.as_slice();
        let found = line_of(lines, self.read.marks.as_slice(), key);
        unless_out(self.outs.as_slice(), found)
    }

    /// The lines but the one of this number. They share what was read, so that no line is read or copied again.
    pub fn without(&self, alloc: Global, number: u32) -> Result<Ioc, OutOfMemory>
        ensures { IfOk result (λ left. left ≡ without number self.now) }
    {
        let outs = with_out(alloc, self.outs.as_slice(), number)?;
        let read = self.read.clone()?;
        Ok(Ioc { read, outs })
    }
}
