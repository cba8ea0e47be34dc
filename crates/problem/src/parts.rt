//! The plain data of a problem.
ghost use Rattle.std.specs.Prelude.{◌≡◌, ◌<◌, Some, length};
ghost use Rattle.choice_rank.specs.Choices.{IsChoice};
ghost use Rattle.problem.specs.Wishes.{low_wish};

use choice_rank::Shape;
use res_base::Items;
use res_model::{Facts, PinUse, Signal, Tables};
use std::marker::Model;

/// Which variables a problem has.
#[derive(Clone, Copy, Debug, PartialEq, Eq)]
pub enum Part {
    /// The signals alone.
    PinsOnly,
    /// The clock variables, and then the signals.
    Whole,
}

/// The variables of a problem with their values, and what decides which choices meet the limits.
///
/// `first` is the number of the first signal, 0 or 10. `clock` has the values of the clock variables in the order
/// src, psrc, hpre, p, m, n, q, ppre1, ppre2, vos, with HSI 0, HSE 1 and PLL 2; it is empty where there are none.
/// `uses` has the values of each of the `signals`.
#[derive(Drop)]
pub struct ProblemParts {
    pub shape: Shape,
    pub first: u16,
    pub clock: Items<Items<u16>>,
    pub uses: Items<Items<PinUse>>,
    pub signals: Items<Signal>,
    pub facts: Facts,
    pub tables: Tables,
}

/// The numbers of the clock variables that divide HCLK for the two buses.
const PPRE1: usize = 7;

const PPRE2: usize = 8;

/// A wish from which on it is not multiplied by a divider of 16 bits.
const HIGH: u64 = 1 << 48;

fn low_wish(wish: u64, variable: usize) -> Option<(u64, usize)>
    ensures { result ≡ low_wish wish variable }
{
    if wish < HIGH {
        Some((wish, variable))
    } else {
        None
    }
}

/// A problem whose parts agree. Contracts see the parts.
#[derive(Drop)]
pub struct Problem {
    parts: ProblemParts,
}

impl Model for Problem {
    ghost use Rattle.problem.specs.declared.parts.ProblemParts.{ProblemParts};

    ghost Value = { ProblemParts };

    ghost use Rattle.problem.specs.Problem.{IsProblem};

    ghost view = { λ p. p.parts };

    ghost invariant = { λ p. IsProblem p.parts };
}

impl Problem {
    ghost use Rattle.problem.specs.Problem.{IsProblem};
    ghost use Rattle.problem.specs.Wishes.{bus_wish, with_hclk};

    /// The problem of these parts.
    pub(crate) fn of(parts: ProblemParts) -> Problem
        requires { IsProblem parts }
        ensures { result ≡ parts }
    {
        Problem { parts }
    }

    /// The same problem under another wish for HCLK, in hertz, or under none.
    pub fn with_hclk(self, hclk: Option<u64>) -> Problem
        ensures { result ≡ with_hclk hclk self }
    {
        let mut parts = self.parts;
        parts.facts.hclk = hclk;
        Problem::of(parts)
    }

    /// The wish for PCLK1, or else for PCLK2, in hertz, with the number of the clock variable of its divider (7 or 8), where
    /// HCLK is not wished. A wish of 2^48 hertz or more is not told.
    pub fn bus_wish(&self) -> Option<(u64, usize)>
        ensures { result ≡ bus_wish self.now.facts }
    {
        let facts = &self.parts.facts;
        match (facts.hclk, facts.pclk1, facts.pclk2) {
            (None, Some(wish), _) => low_wish(wish, PPRE1),
            (None, None, Some(wish)) => low_wish(wish, PPRE2),
            _ => None,
        }
    }

    pub fn parts(&self) -> &ProblemParts
        ensures { result.now ≡ self.now }
    {
        &self.parts
    }

    /// That the parts agree. It stands apart, so that a proof that asks for none carries none.
    pub fn parts_agree(&self)
        ensures { IsProblem self.now }
    {
        let _ = &self.parts;
    }
}
