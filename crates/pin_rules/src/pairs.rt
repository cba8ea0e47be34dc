//! Two uses that clash.
ghost use Rattle.std.specs.Prelude.{◌≡◌, ◌↔◌, ℕ, List, true, false, length, IfSome, IfNone, IsTrue, AllPairs, slice_get};
ghost use Rattle.std.specs.Option.{option_map_or};
ghost use Rattle.res_model.specs.declared.table.TableParts.{TableParts};
ghost use Rattle.res_model.specs.declared.table.PinUse.{PinUse};
ghost use Rattle.res_model.specs.Placement.{number_of, is_exti, shares_pin, shares_line, clashes, fits, Fits};
ghost use Rattle.pin_rules.specs.Clash.{IsFirstClash};

use res_model::{Mode, PinUse, TableParts, Tables, number_on_port};

fn is_exti(mode: Mode) -> bool
    ensures { result ≡ is_exti mode }
{
    matches!(mode, Mode::Exti)
}

fn shares_line(t: &TableParts, u: PinUse, w: PinUse) -> bool
    ensures { result ≡ shares_line t.now u w }
{
    is_exti(u.mode) && is_exti(w.mode) && number_on_port(t, u.pin) == number_on_port(t, w.pin)
}

fn clashes(t: &TableParts, u: PinUse, w: PinUse) -> bool
    ensures { result ≡ clashes t.now u w }
{
    u.pin == w.pin || shares_line(t, u, w)
}

/// The first pair of uses, by their places in order, that share a pin, or that are both interrupts at pins
/// of one number.
pub fn clash(uses: &[PinUse], t: &Tables) -> Option<(usize, usize)>
    ensures none { IfNone result (AllPairs (λ u w. clashes t.now u w ≡ false) uses.now) }
    ensures pair { IfSome result (λ p. IsFirstClash t.now uses.now p.0 p.1) }
{
    let t = t.parts();
    for i in 0..uses.len() {
        for j in i + 1..uses.len() {
            if clashes(t, uses[i], uses[j]) {
                return Some((i, j));
            }
        }
    }
    None
}

/// Whether no two uses clash.
pub fn fits(uses: &[PinUse], t: &Tables) -> bool
    ensures { result ≡ fits t.now uses.now }
{
    match clash(uses, t) {
        None => true,
        Some(_) => false,
    }
}

/// That uses fit says that each has a pin of its own and each interrupt a number of its own.
pub fn fits_means()
    ensures { (t : TableParts) (us : List PinUse) → (fits t us ≡ true) ↔ Fits t us }
{}
