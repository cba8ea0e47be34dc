//! Laws of a step.
ghost use Rattle.std.specs.Prelude.{◌≡◌};
ghost use Rattle.reg_machine.specs.declared.op.Answer.{Answer};
ghost use Rattle.reg_machine.specs.declared.op.Op.{Op};
ghost use Rattle.reg_machine.specs.declared.state.State.{State};
ghost use Rattle.reg_machine.specs.Step.{flags, step_of};

/// What an answer names comes once: behind it, the same answer changes nothing, and a step goes as it would have gone.
pub fn flags_come_once()
    ensures same { (a : Answer) (s : State) → flags a (flags a s) ≡ flags a s }
    ensures step { (s : State) (op : Op) (a : Answer) → step_of (flags a s) op a ≡ step_of s op a }
{}
