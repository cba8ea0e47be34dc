//! Laws of C texts: functions that do nothing, whose contracts are the laws.
ghost use Rattle.std.specs.Prelude.{◌≡◌, ℕ, List, Result, Ok};
ghost use Rattle.res_base.specs.Lists.{Each};
ghost use Rattle.reg_machine.specs.declared.op.Op.{Op};
ghost use Rattle.c_print.specs.Text.{c_text_of};
ghost use Rattle.c_print.specs.Reading.{FitsLine, Reads};

/// A text has one reading. So each list of ops has a text of its own.
pub fn one_reading()
    ensures { (text : List ℕ) (read other : Result (List Op) ℕ) → Reads text read → Reads text other → read ≡ other }
{}

/// What was printed is read again.
pub fn written_is_read()
    ensures read { (ops : List Op) → Each FitsLine ops → Reads (c_text_of ops) (Ok ops) }
    ensures alone { (ops : List Op) (read : Result (List Op) ℕ) → Each FitsLine ops → Reads (c_text_of ops) read → read ≡ Ok ops }
{}
