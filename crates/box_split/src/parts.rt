//! Reads and writes of the runs in two slices.
ghost use Rattle.std.specs.Prelude.{◌≡◌, ◌+◌, ◌^◌, ◌≤◌, ◌<◌, length, IfSome};
ghost use Rattle.choice_rank.specs.Choices.{HasPositions};
ghost use Rattle.box_split.specs.Boxes.{whole};
ghost use Rattle.box_split.specs.Paths.{cut_of, split_from};
ghost use Rattle.box_split.specs.BoxIn.{runs_in, AreSingle};

use choice_rank::VarShape;

/// Writes the box of all positions.
pub(crate) fn make_whole(vars: &[VarShape], lo: &mut [u16], hi: &mut [u16])
    requires lows { length vars.now ≤ length lo.old }
    requires highs { length vars.now ≤ length hi.old }
    requires positions { HasPositions vars.now }
    ensures { runs_in (length vars.now) lo.new hi.new ≡ whole vars.now }
{
    for i in 0..vars.len() {
        lo[i] = 0;
        hi[i] = vars[i].size - 1;
    }
}

/// The first variable with two positions, and the last position of its lower half.
///
/// The search begins at a variable before which none has two.
pub(crate) fn split_in(count: usize, from: usize, lo: &[u16], hi: &[u16]) -> Option<(usize, u16)>
    requires lows { count ≤ length lo.now }
    requires highs { count ≤ length hi.now }
    requires from { from ≤ count }
    requires single { AreSingle from lo.now hi.now }
    ensures split { result ≡ split_from 0 (runs_in count lo.now hi.now) }
    ensures within { IfSome result (λ found. found.0 < count) }
    ensures small { IfSome result (λ found. found.1 + 1 < 2 ^ 16) }
    ensures single { IfSome result (λ found. AreSingle found.0 lo.now hi.now) }
{
    for i in from..count {
        if lo[i] < hi[i] {
            return Some((i, cut(lo[i], hi[i])));
        }
    }
    None
}

/// The last position of the lower half of a run.
fn cut(low: u16, high: u16) -> u16
    requires { low < high }
    ensures cut { result ≡ cut_of (record { low = low; high = high }) }
    ensures below { result < high }
{
    if low == 0 {
        0
    } else {
        low + (high - low - 1) / 2
    }
}
