//! Sums and digits over the places of a choice.
ghost use Rattle.std.specs.Prelude.{◌≡◌, ◌%◌, ◌≤◌, length};
ghost use Rattle.choice_rank.specs.Choices.{IsChoice, IsShape, choices_of, cost_of, index_of};
ghost use Rattle.choice_rank.specs.Weights.{weights_of};

use crate::variable::VarShape;

/// What a choice costs.
pub(crate) fn cost_in(vars: &[VarShape], at: &[u16]) -> u32
    requires few { length vars.now ≤ 170 }
    requires choice { IsChoice vars.now at.now }
    ensures cost { result ≡ cost_of vars.now at.now }
    ensures most { result ≤ length vars.now }
{
    let mut cost = 0;
    for i in 0..vars.len() {
        cost += vars[i].cost(at[i]);
    }
    cost
}

/// The index of a choice, by the weight of each place.
pub(crate) fn index_in(vars: &[VarShape], weights: &[u64], at: &[u16]) -> u64
    requires shape { IsShape vars.now }
    requires weights { weights.now ≡ weights_of vars.now }
    requires choice { IsChoice vars.now at.now }
    ensures { result ≡ index_of vars.now at.now }
{
    let mut index = 0;
    for i in 0..vars.len() {
        index += u64::from(at[i]) * weights[i];
    }
    index
}

/// Writes the choice whose index is the remainder of a number, a digit at a time from the last place on.
pub(crate) fn choice_of(vars: &[VarShape], number: u64, at: &mut [u16])
    requires shape { IsShape vars.now }
    requires places { length at.old ≡ length vars.now }
    ensures choice { IsChoice vars.now at.new }
    ensures index { index_of vars.now at.new ≡ number % choices_of vars.now }
{
    let mut rest = number;
    for i in (0..vars.len()).rev() {
        let size = u64::from(vars[i].size);
        at[i] = (rest % size) as u16;
        rest /= size;
    }
}
