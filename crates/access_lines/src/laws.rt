//! Laws of the accesses of a setting: functions that do nothing, whose contracts are the laws.
ghost use Rattle.std.specs.Prelude.{◌≡◌, ℕ, List, Result, Ok};
ghost use Rattle.res_base.specs.Lists.{Each};
ghost use Rattle.reg_machine.specs.declared.op.Op.{Op};
ghost use Rattle.init_gen.specs.declared.setting.Setting.{Setting};
ghost use Rattle.init_gen.specs.Good.{IsSettable};
ghost use Rattle.init_gen.specs.Writes.{writes_of};
ghost use Rattle.c_print.specs.Text.{c_text_of};
ghost use Rattle.c_print.specs.Reading.{FitsLine, Reads};

use c_print::written_is_read;

/// The accesses of a setting fit their lines. So the C text of them is read as these very accesses, and as nothing else.
pub fn accesses_are_read()
    ensures fit { (s : Setting) → IsSettable s → Each FitsLine (writes_of s) }
    ensures read { (s : Setting) → IsSettable s → Reads (c_text_of (writes_of s)) (Ok (writes_of s)) }
    ensures alone { (s : Setting) (read : Result (List Op) ℕ) → IsSettable s → Reads (c_text_of (writes_of s)) read → read ≡ Ok (writes_of s) }
{
    written_is_read();
}
