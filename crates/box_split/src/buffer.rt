//! A box in memory.
ghost use Rattle.std.specs.Prelude.{◌≡◌, replicate};

/// A run of positions for each of at most 170 variables: those from `lo` to `hi`.
///
/// It holds a box of a shape where each variable of the shape has `lo <= hi`, and `hi` below its size.
#[derive(Clone, Copy, Debug, PartialEq, Eq)]
pub struct BoxBuf {
    pub lo: [u16; 170],
    pub hi: [u16; 170],
}

impl BoxBuf {
    /// Position 0 for each variable.
    pub fn new() -> BoxBuf
        ensures lo { result.lo ≡ replicate 170 0 }
        ensures hi { result.hi ≡ replicate 170 0 }
    {
        BoxBuf {
            lo: [0; 170],
            hi: [0; 170],
        }
    }
}
