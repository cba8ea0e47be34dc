//! The text of a placement and of the clocks beside it.
ghost use Rattle.std.specs.Prelude.{◌≡◌, ◌≢◌, ◌+◌, ◌++◌, true, IfOk, OnOk};
ghost use Rattle.c_print.specs.Text.{c_text_of};
ghost use Rattle.choice_rank.specs.Choices.{IsChoice, cost_of};
ghost use Rattle.choice_setup.specs.SetUp.{setting_of};
ghost use Rattle.init_gen.specs.Good.{IsSettable};
ghost use Rattle.init_gen.specs.Writes.{writes_of};
ghost use Rattle.problem.specs.Meets.{meets};
ghost use Rattle.reg_machine.specs.Words.{IsOp};
ghost use Rattle.res_base.specs.Lists.{Each};
ghost use Rattle.solver.specs.Owed.{AreReadBack, AreSound};
ghost use Rattle.board_fit.specs.Texts.{cost_line, parts_text};

use access_lines::accesses_are_read;
use c_print::c_text;
use choice_setup::{choices_are_allowed, generate};
use problem::Problem;
use reg_machine::Op;
use report::{clocks_text, pins_text};
use res_base::{OutOfMemory, put_dec};
use std::alloc::Global;

/// Appends the line of a cost.
#[tactic(auto, unfolding(crate::specs::Texts::cost_line))]
fn put_cost(alloc: Global, out: &mut Vec<u8>, cost: u64) -> Result<(), OutOfMemory>
    ensures { OnOk result (out.new.items ≡ out.old.items ++ cost_line cost) }
{
    out.extend_from_slice(b"cost ")?;
    put_dec(alloc, out, cost)?;
    out.push(b'\n')?;
    Ok(())
}

/// What a choice costs.
fn cost_of(p: &Problem, at: &[u16]) -> u32
    requires { IsChoice p.now.shape at.now }
    ensures { result ≡ cost_of p.now.shape at.now }
{
    p.parts().shape.cost(at)
}

/// What two choices cost together.
fn both_cost(q: &Problem, at: &[u16], one: &Problem, k: &[u16]) -> u64
    requires placement { IsChoice q.now.shape at.now }
    requires clocks { IsChoice one.now.shape k.now }
    ensures { result ≡ cost_of q.now.shape at.now + cost_of one.now.shape k.now }
{
    u64::from(cost_of(q, at)) + u64::from(cost_of(one, k))
}

/// That the accesses of a choice are to registers that there are.
fn are_registers(p: &Problem, at: &[u16], ops: &[Op])
    requires { ops.now ≡ writes_of (setting_of p.now at.now) }
    ensures { Each IsOp ops.now }
{
    let _ = p.parts();
    let _ = at;
}

/// That the setting of a choice can be set up.
fn is_settable(p: &Problem, at: &[u16])
    requires choice { IsChoice p.now.shape at.now }
    requires whole { p.now.first ≢ 0 }
    ensures { IsSettable (setting_of p.now at.now) }
{
    p.parts_agree();
    p.parts().tables.keeps_rules();
    choices_are_allowed();
    let _ = at;
}

/// That the C text of the accesses of a choice is read as these.
fn are_read_back(p: &Problem, at: &[u16])
    requires choice { IsChoice p.now.shape at.now }
    requires whole { p.now.first ≢ 0 }
    ensures { AreReadBack (writes_of (setting_of p.now at.now)) }
{
    is_settable(p, at);
    accesses_are_read();
}

/// The C text of the accesses of a choice that meets every limit.
fn code_of(alloc: Global, p: &Problem, at: &[u16]) -> Result<Vec<u8>, OutOfMemory>
    requires choice { IsChoice p.now.shape at.now }
    requires whole { p.now.first ≢ 0 }
    requires meets { meets p.now at.now ≡ true }
    ensures code { IfOk result (λ x. x.items ≡ c_text_of (writes_of (setting_of p.now at.now))) }
    ensures sound { OnOk result (AreSound p.now at.now) }
    ensures read_back { OnOk result (AreReadBack (writes_of (setting_of p.now at.now))) }
{
    are_read_back(p, at);
    let ops = generate(alloc, p, at)?;
    are_registers(p, at, ops.as_slice());
    let text = c_text(alloc, ops.as_slice())?;
    Ok(text)
}

/// The text of a placement and of the clocks of the problem in which each signal stays where the placement has it: what
/// both cost together, a line for each signal, the clocks, and the C text of the accesses, which are sound.
#[tactic(auto, unfolding(crate::specs::Texts::parts_text))]
pub fn choice_text(
    alloc: Global,
    q: &Problem,
    at: &[u16],
    one: &Problem,
    k: &[u16],
) -> Result<Vec<u8>, OutOfMemory>
    requires placement { IsChoice q.now.shape at.now }
    requires clocks { IsChoice one.now.shape k.now }
    requires whole { one.now.first ≢ 0 }
    requires meets { meets one.now k.now ≡ true }
    ensures text { IfOk result (λ x. x.items ≡ parts_text q.now at.now one.now k.now) }
    ensures sound { OnOk result (AreSound one.now k.now) }
    ensures read_back { OnOk result (AreReadBack (writes_of (setting_of one.now k.now))) }
{
    let mut out = Vec::new(alloc);
    put_cost(alloc, &mut out, both_cost(q, at, one, k))?;
    let pins = pins_text(alloc, q, at)?;
    out.extend_from_slice(pins.as_slice())?;
    let clocks = clocks_text(alloc, one, k)?;
    out.extend_from_slice(clocks.as_slice())?;
    let code = code_of(alloc, one, k)?;
    out.extend_from_slice(code.as_slice())?;
    Ok(out)
}
