//! Shapes: the ranks of their choices, and the choice of a rank.
ghost use Rattle.std.specs.Prelude.{◌≡◌, ◌%◌, ◌≤◌, ◌↔◌, IsTrue, length, IfOk, IfErr, OnOk};
ghost use Rattle.choice_rank.specs.Choices.{IsChoice, IsNarrow, IsShape, HasPositions, HasSmallSizes, choices_of, cost_of, index_of, rank_of};
ghost use Rattle.choice_rank.specs.Faults.{IsShapeRefusal};
ghost use Rattle.choice_rank.specs.Weights.{weights_of};

use crate::places::{choice_of, cost_in, index_in};
use crate::variable::VarShape;
use refusal::Refusal;
use res_base::OutOfMemory;
use std::alloc::Global;
use std::marker::Model;

/// The variables of a problem, at most 170 of 1 to 512 positions each, whose ranks are below 2^63.
#[derive(Drop)]
pub struct Shape {
    vars: Vec<VarShape>,
    weights: Vec<u64>,
    choices: u64,
}

impl Model for Shape {
    ghost use Rattle.std.specs.Prelude.{List, ◌≡◌};
    ghost use Rattle.choice_rank.specs.declared.variable.VarShape.{VarShape};

    ghost Value = { List VarShape };

    ghost use Rattle.choice_rank.specs.Choices.{IsShape, choices_of};
    ghost use Rattle.choice_rank.specs.Weights.{weights_of};

    ghost view = { λ s. s.vars.items };

    ghost invariant = { λ s. IsShape s.vars.items × (s.weights.items ≡ weights_of s.vars.items) × (s.choices ≡ choices_of s.vars.items) };
}

/// Why variables make no shape.
#[derive(Clone, Copy, Debug, PartialEq, Eq)]
pub enum ShapeFault {
    /// The first variable with which ranks reach 2^63.
    TooWide { variable: u16 },
}

/// The number of choices, where each rank is below 2^63; else the first variable with which one is not.
fn measured(vars: &[VarShape]) -> Result<u64, Refusal<ShapeFault>>
    requires few { length vars.now ≤ 170 }
    requires positions { HasPositions vars.now }
    requires sizes { HasSmallSizes vars.now }
    ensures choices { IfOk result (λ n. n ≡ choices_of vars.now) }
    ensures narrow { OnOk result (IsNarrow vars.now) }
    ensures wide { IfErr result (IsShapeRefusal vars.now) }
{
    let mut product: u128 = 1;
    let mut most: u128 = 0;
    for i in 0..vars.len() {
        let v = vars[i];
        product *= u128::from(v.size);
        most += u128::from(v.most());
        if (1 + most) * product > 1 << 63 {
            return Err(Refusal::Fault(ShapeFault::TooWide { variable: i as u16 }));
        }
    }
    Ok(product as u64)
}

/// For each variable, what one position more adds to the index.
fn weigh(alloc: Global, vars: &[VarShape], choices: u64) -> Result<Vec<u64>, OutOfMemory>
    requires positions { HasPositions vars.now }
    requires choices { choices ≡ choices_of vars.now }
    ensures { IfOk result (λ ws. ws.items ≡ weights_of vars.now) }
{
    let mut weights = Vec::with_capacity(alloc, vars.len())?;
    let mut weight = choices;
    for v in vars {
        weight /= u64::from(v.size);
        weights.push(weight)?;
    }
    Ok(weights)
}

impl Shape {
    /// The shape of these variables.
    ///
    /// `TooWide` names the first variable with which a rank can reach 2^63.
    pub fn new(alloc: Global, vars: Vec<VarShape>) -> Result<Shape, Refusal<ShapeFault>>
        requires few { length vars.items ≤ 170 }
        requires positions { HasPositions vars.items }
        requires sizes { HasSmallSizes vars.items }
        ensures vars { IfOk result (λ s. s ≡ vars.items) }
        ensures narrow { OnOk result (IsNarrow vars.items) }
        ensures fault { IfErr result (IsShapeRefusal vars.items) }
    {
        let choices = measured(vars.as_slice())?;
        match weigh(alloc, vars.as_slice(), choices) {
            Ok(weights) => Ok(Shape {
                vars,
                weights,
                choices,
            }),
            Err(_) => Err(Refusal::OutOfMemory),
        }
    }

    pub fn vars(&self) -> &[VarShape]
        ensures vars { result.now ≡ self.now }
        ensures shape { IsShape self.now }
    {
        self.vars.as_slice()
    }

    /// How many choices there are.
    pub fn choices(&self) -> u64
        ensures { result ≡ choices_of self.now }
    {
        self.choices
    }

    /// What a choice costs.
    pub fn cost(&self, at: &[u16]) -> u32
        requires { IsChoice self.now at.now }
        ensures { result ≡ cost_of self.now at.now }
    {
        cost_in(self.vars.as_slice(), at)
    }

    /// The rank of a choice: by its cost first, and then by its index.
    pub fn rank(&self, at: &[u16]) -> u64
        requires { IsChoice self.now at.now }
        ensures { result ≡ rank_of self.now at.now }
    {
        let vars = self.vars.as_slice();
        let cost = u64::from(cost_in(vars, at));
        cost * self.choices + index_in(vars, self.weights.as_slice(), at)
    }

    /// Writes the choice whose index is the remainder of a rank by the number of choices.
    ///
    /// The answer is whether that choice has this rank.
    pub fn unrank_into(&self, rank: u64, at: &mut [u16]) -> bool
        requires { length at.old ≡ length self.now }
        ensures choice { IsChoice self.now at.new }
        ensures index { index_of self.now at.new ≡ rank % choices_of self.now }
        ensures ranked { IsTrue result ↔ (rank_of self.now at.new ≡ rank) }
    {
        choice_of(self.vars.as_slice(), rank, at);
        self.rank(at) == rank
    }
}
