//! The greatest HCLK at a power step.
ghost use Rattle.std.specs.Prelude.{◌≡◌, Some, IsSome};
ghost use Rattle.res_model.specs.Power.{scale_limit, is_within_max};

use res_base::Ratio;
use res_model::{TableParts, Tables, scale_limit};

/// The greatest HCLK in hertz at a power step.
pub fn scale_max(t: &Tables, vos: u8) -> u64
    requires { IsSome (scale_limit t.now vos) }
    ensures { scale_limit t.now vos ≡ Some result }
{
    match scale_limit(t.parts(), u16::from(vos)) {
        Some(max) => max,
        None => unreachable!(),
    }
}

/// Whether the table has the power step, and HCLK is at most its greatest.
pub fn is_within_scale(t: &TableParts, hclk: &Ratio, vos: u16) -> bool
    ensures { result ≡ is_within_max hclk.now (scale_limit t.now vos) }
{
    match scale_limit(t, vos) {
        None => false,
        Some(max) => hclk.at_most_whole(max),
    }
}
