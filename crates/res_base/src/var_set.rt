//! A set of numbers below 192.
ghost use Rattle.res_base.specs.declared.var_set.VarSet.{VarSet};
ghost use Rattle.std.specs.Prelude.{◌≡◌, ℕ, ◌<◌, ◌≤◌, true, false, cond, slice_index_or, length, MatchOption};
ghost use Rattle.std.proofs.Math.Dec.{eqb};
ghost use Rattle.res_base.specs.VarSet.{in_set, set_size, NoneFrom, IsNext, IsWords};

/// A set of numbers below 192, in three words of 64 bits.
#[derive(Clone, Copy, Debug, PartialEq, Eq)]
pub struct VarSet {
    words: [u64; 3],
}

impl VarSet {
    /// The empty set.
    pub fn new() -> VarSet
        ensures { (v : ℕ) → in_set result v ≡ false }
    {
        VarSet { words: [0; 3] }
    }

    /// Puts a number in.
    pub fn put(&mut self, v: u8)
        requires { v < 192 }
        ensures { (w : ℕ) → in_set self.new w ≡ cond (eqb w v) true (in_set self.old w) }
    {
        let word = (v / 64) as usize;
        self.words[word] |= 1u64 << (v % 64);
    }

    /// Whether a number is in.
    pub fn has(&self, v: u8) -> bool
        requires { v < 192 }
        ensures { result ≡ in_set self.now v }
    {
        let word = (v / 64) as usize;
        (self.words[word] >> (v % 64)) & 1 == 1
    }

    /// The least member at or above a number.
    pub fn next_from(&self, from: u8) -> Option<u8>
        requires { from ≤ 192 }
        ensures { MatchOption result (NoneFrom (in_set self.now) from) (λ r. IsNext (in_set self.now) from r) }
    {
        let mut at = from;
        while at < 192 {
            let rest = self.words[(at / 64) as usize] >> (at % 64);
            if rest != 0 {
                return Some(at + rest.trailing_zeros() as u8);
            }
            at = (at / 64 + 1) * 64;
        }
        None
    }

    /// How many numbers are in.
    pub fn len(&self) -> usize
        ensures { result ≡ set_size self.now }
    {
        let mut count = 0usize;
        for v in 0..192u8 {
            if self.has(v) {
                count += 1;
            }
        }
        count
    }
}

/// Sets with the same members are the same.
pub fn same_set()
    ensures { (s t : VarSet) → IsWords s → IsWords t → ((v : ℕ) → v < 192 → in_set s v ≡ in_set t v) → s ≡ t }
{}
