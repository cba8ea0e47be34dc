//! A variable of a shape, and what its positions cost.
ghost use Rattle.choice_rank.specs.Choices.{cost_at, cost_most};
ghost use Rattle.std.specs.Prelude.{◌≡◌};

/// What the positions of a variable cost.
#[derive(Clone, Copy, Debug, PartialEq, Eq)]
pub enum Costs {
    /// The first position costs nothing, and each other costs 1.
    HomeFirst,
    AllZero,
    AllOne,
}

/// A variable of a shape: how many positions it has, and what they cost.
#[derive(Clone, Copy, Debug, PartialEq, Eq)]
pub struct VarShape {
    pub size: u16,
    pub costs: Costs,
}

impl VarShape {
    /// What a position costs.
    pub(crate) fn cost(self, position: u16) -> u32
        ensures { result ≡ cost_at self.costs position }
    {
        match self.costs {
            Costs::HomeFirst => if position == 0 { 0 } else { 1 },
            Costs::AllZero => 0,
            Costs::AllOne => 1,
        }
    }

    /// The greatest cost of a position.
    pub(crate) fn most(self) -> u32
        ensures { result ≡ cost_most self.costs self.size }
    {
        match self.costs {
            Costs::HomeFirst => if 1 < self.size { 1 } else { 0 },
            Costs::AllZero => 0,
            Costs::AllOne => 1,
        }
    }
}
