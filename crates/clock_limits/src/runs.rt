//! The values at the positions of a box.
ghost use Rattle.std.specs.Prelude.{◌≡◌, ◌<◌, ◌==◌, length};
ghost use Rattle.std.specs.List.{list_all, list_any};
ghost use Rattle.clock_limits.specs.Ranges.{IsRun, IsClockBox, run_of, allowed, least_of, greatest_of};
ghost use Rattle.clock_limits.specs.Runs.{seen};

use res_base::Items;
use res_model::ClockBox;

/// For each clock variable some of its values, with HSI 0, HSE 1 and PLL 2.
#[derive(Clone, Copy)]
pub struct Runs<'v> {
    pub src: &'v [u16],
    pub psrc: &'v [u16],
    pub hpre: &'v [u16],
    pub p: &'v [u16],
    pub m: &'v [u16],
    pub n: &'v [u16],
    pub q: &'v [u16],
    pub ppre1: &'v [u16],
    pub ppre2: &'v [u16],
    pub vos: &'v [u16],
}

/// The values of the clock variable of this number.
fn run<'v>(values: &'v [Items<u16>], b: &ClockBox, k: usize) -> &'v [u16]
    requires place { k < 10 }
    requires ten { length values.now ≡ 10 }
    requires inside { IsRun values.now b.now k }
    ensures { result.now ≡ run_of values.now b.now k }
{
    let low = b.lo[k] as usize;
    let high = b.hi[k] as usize;
    &values[k].as_slice()[low..high + 1]
}

impl<'v> Runs<'v> {
    /// The values of each clock variable.
    pub(crate) fn of(values: &'v [Items<u16>], b: &ClockBox) -> Runs<'v>
        requires { IsClockBox values.now b.now }
        ensures { seen result ≡ allowed values.now b.now }
    {
        Runs {
            src: run(values, b, 0),
            psrc: run(values, b, 1),
            hpre: run(values, b, 2),
            p: run(values, b, 3),
            m: run(values, b, 4),
            n: run(values, b, 5),
            q: run(values, b, 6),
            ppre1: run(values, b, 7),
            ppre2: run(values, b, 8),
            vos: run(values, b, 9),
        }
    }
}

/// The least and the greatest of some values.
#[derive(Clone, Copy)]
pub(crate) struct Span {
    pub(crate) least: u16,
    pub(crate) most: u16,
}

impl Span {
    pub(crate) fn of(values: &[u16]) -> Span
        requires { 0 < length values.now }
        ensures least { result.least ≡ least_of values.now }
        ensures most { result.most ≡ greatest_of values.now }
    {
        let mut least = values[0];
        let mut most = values[0];
        for v in values {
            least = least.min(*v);
            most = most.max(*v);
        }
        Span { least, most }
    }
}

pub(crate) fn all_are(values: &[u16], source: u16) -> bool
    ensures { result ≡ list_all (λ s. s == source) values.now }
{
    values.iter().all(|s| *s == source)
}

pub(crate) fn any_is(values: &[u16], source: u16) -> bool
    ensures { result ≡ list_any (λ s. s == source) values.now }
{
    values.iter().any(|s| *s == source)
}
