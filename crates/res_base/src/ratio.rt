//! Exact fractions.
ghost use Rattle.std.specs.Prelude.{◌≡◌, ℕ, ◌*◌, ◌^◌, ◌<◌, ◌≤◌, ◌/◌, ◌↔◌, IsTrue};
ghost use Rattle.res_base.specs.Fraction.{Equals, IsAtMost, at_most, whole, times, over};

use std::marker::Model;

/// A fraction of whole numbers, kept as it was made and never reduced.
///
/// Its numerator is below 2^63, and its denominator is at least 1 and below 2^31,
/// so that two of them compare by cross multiplication in 128 bits.
#[derive(Clone, Copy, Debug)]
pub struct Ratio {
    num: u128,
    den: u128,
}

impl Model for Ratio {
    ghost use Rattle.res_base.specs.Fraction.{Fraction, IsSmall};

    ghost Value = { Fraction };

    ghost view = { λ r. record { num = r.num; den = r.den } };

    ghost invariant = { λ r. IsSmall r.num r.den };

    ghost inverse = { λ f. record { num = f.num; den = f.den } };
}

impl Ratio {
    /// A whole number.
    pub fn whole(n: u64) -> Ratio
        requires { n < 2 ^ 63 }
        ensures { result ≡ whole n }
    {
        Ratio {
            num: u128::from(n),
            den: 1,
        }
    }

    /// Whether this is at most the other.
    pub fn at_most(&self, other: &Ratio) -> bool
        ensures test { result ≡ at_most self.now other.now }
        ensures means { IsTrue result ↔ IsAtMost self.now other.now }
    {
        self.num * other.den <= other.num * self.den
    }

    /// Whether this is at most a whole number of any size.
    pub fn at_most_whole(&self, n: u64) -> bool
        ensures { result ≡ at_most self.now (whole n) }
    {
        self.num <= u128::from(n) * self.den
    }

    /// Whether this is at least a whole number of any size.
    pub fn at_least_whole(&self, n: u64) -> bool
        ensures { result ≡ at_most (whole n) self.now }
    {
        u128::from(n) * self.den <= self.num
    }

    /// Whether both are the same number.
    pub fn equals(&self, other: &Ratio) -> bool
        ensures { IsTrue result ↔ Equals self.now other.now }
    {
        self.num * other.den == other.num * self.den
    }

    /// The greatest whole number that is at most this.
    pub fn floor(&self) -> u64
        ensures { result ≡ self.now.num / self.now.den }
    {
        (self.num / self.den) as u64
    }

    /// This many times as much.
    pub fn times(self, n: u16) -> Ratio
        requires { self.num * n < 2 ^ 63 }
        ensures { result ≡ times self n }
    {
        Ratio {
            num: self.num * u128::from(n),
            den: self.den,
        }
    }

    /// This many times less.
    pub fn over(self, n: u16) -> Ratio
        requires positive { 0 < n }
        requires small { self.den * n < 2 ^ 31 }
        ensures { result ≡ over self n }
    {
        Ratio {
            num: self.num,
            den: self.den * u128::from(n),
        }
    }
}
