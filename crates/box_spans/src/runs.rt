//! The values of the clock variables.
ghost use Rattle.std.specs.Prelude.{◌≡◌, ◌<◌, length};
ghost use Rattle.clock_limits.specs.Ranges.{values_at};
ghost use Rattle.clock_limits.specs.Runs.{seen};
ghost use Rattle.box_spans.specs.Every.{AreFilled, every};

use clock_limits::Runs;
use res_base::Items;

/// The values of the clock variable of this number.
fn run(values: &[Items<u16>], k: usize) -> &[u16]
    requires place { k < 10 }
    requires ten { length values.now ≡ 10 }
    ensures { result.now ≡ values_at values.now k }
{
    values[k].as_slice()
}

/// All values of each clock variable.
pub(crate) fn all_runs(values: &[Items<u16>]) -> Runs<'_>
    requires { AreFilled values.now }
    ensures { seen result ≡ every values.now }
{
    Runs {
        src: run(values, 0),
        psrc: run(values, 1),
        hpre: run(values, 2),
        p: run(values, 3),
        m: run(values, 4),
        n: run(values, 5),
        q: run(values, 6),
        ppre1: run(values, 7),
        ppre2: run(values, 8),
        vos: run(values, 9),
    }
}
