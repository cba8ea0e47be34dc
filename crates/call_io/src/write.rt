//! The answer of a call, written as one.
ghost use Rattle.std.specs.Prelude.{◌≡◌, IfOk};
ghost use Rattle.call_io.specs.Inputs.{wrote};
ghost use Rattle.call_io.specs.Ran.{IsWritten, WroteText};

use answers::{Answer, Status};
use res_base::OutOfMemory;
use res_io::{Sink, write_all};

/// Writes the text of an answer.
fn write_text<K: Sink>(out: &mut K, answer: &Answer) -> Status
    ensures { WroteText answer.now (wrote (K.written out.old) (K.faults out.old)) (wrote (K.written out.new) (K.faults out.new)) result }
{
    match write_all(out, answer.text.as_slice()) {
        Ok(()) => answer.status,
        Err(_) => Status::WriteFailed,
    }
}

/// Writes the text of an answer, if there is one, and says how the call ended. The whole text is there before its first
/// byte is written.
pub fn write_answer<K: Sink>(out: &mut K, answer: &Result<Answer, OutOfMemory>) -> Status
    ensures { IsWritten answer.now (wrote (K.written out.old) (K.faults out.old)) (wrote (K.written out.new) (K.faults out.new)) result }
{
    match answer {
        Ok(answer) => write_text(out, answer),
        Err(_) => Status::OutOfMemory,
    }
}
