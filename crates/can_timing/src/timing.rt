//! Bit timings.
ghost use Rattle.std.specs.Prelude.{◌≡◌, ◌<◌, ◌∷◌, []};
ghost use Rattle.choice_rank.specs.Choices.{IsChoice};
ghost use Rattle.can_timing.specs.Timings.{can_shape, clocks, quanta, timing_of};

/// A bit timing (RM0090, bxCAN): the prescaler, 1 to 1024, and the time quanta of the two
/// segments, 1 to 16 before the sample point and 1 to 8 behind it.
#[derive(Clone, Copy, Debug, PartialEq, Eq)]
pub struct Timing {
    pub brp: u16,
    pub bs1: u8,
    pub bs2: u8,
}

/// How many time quanta a bit has: one for synchronisation, and those of the segments.
pub(crate) fn quanta(t: Timing) -> u64
    ensures { result ≡ quanta t }
{
    1 + t.bs1 as u64 + t.bs2 as u64
}

/// How many periods of the clock a bit has.
pub(crate) fn clocks(t: Timing) -> u64
    ensures count { result ≡ clocks t }
    ensures few { result < 67108864 }
{
    t.brp as u64 * quanta(t)
}

/// The timing at four positions.
fn timing_at(upper: u16, lower: u16, first: u16, second: u16) -> Timing
    requires upper { upper < 2 }
    requires lower { lower < 512 }
    requires first { first < 16 }
    requires second { second < 8 }
    ensures { result ≡ timing_of (upper ∷ lower ∷ first ∷ second ∷ []) }
{
    Timing {
        brp: 512 * upper + lower + 1,
        bs1: first as u8 + 1,
        bs2: second as u8 + 1,
    }
}

/// The timing of a choice.
///
/// A choice has four positions: the upper and the lower part of the prescaler less one, and each
/// segment less one.
pub fn timing_of(at: &[u16]) -> Timing
    requires { IsChoice can_shape at.now }
    ensures { result ≡ timing_of at.now }
{
    timing_at(at[0], at[1], at[2], at[3])
}
