//! The limit that the state after reset would break.
ghost use Rattle.std.specs.Prelude.{◌≡◌, ◌≤◌, ◌<◌, ◌||◌, List, [], ◌∷◌, length, nat_lt, slice_index};
ghost use Rattle.std.specs.List.{list_any};
ghost use Rattle.res_model.specs.ClockValues.{hsi};
ghost use Rattle.mcu_tables.specs.Table.{reset_fault};

use res_model::{FlashRange, Limit, Scale, TableParts, speeds_at};

/// The HSI in hertz (RM0090, RCC), which is the system clock after reset.
const HSI: u64 = 16000000;

/// Whether a limit is below the HSI, without over-drive or with it.
fn is_low(plain: u64, over: u64) -> bool
    ensures { result ≡ (nat_lt plain hsi || nat_lt over hsi) }
{
    plain < HSI || over < HSI
}

fn has_low_scale(scales: &[Scale]) -> bool
    ensures { result ≡ list_any (λ s. nat_lt s.max hsi) scales.now }
{
    scales.iter().any(|scale| scale.max < HSI)
}

fn first_row(rows: &[u64]) -> u64
    ensures { result ≡ slice_index rows.now 0 }
{
    match rows {
        [first, ..] => *first,
        [] => 0,
    }
}

fn has_low_row(ranges: &[FlashRange]) -> bool
    ensures { result ≡ list_any (λ r. nat_lt (slice_index r.rows 0) hsi) ranges.now }
{
    ranges
        .iter()
        .any(|range| first_row(range.rows.as_slice()) < HSI)
}

/// The least limit that the state after reset would break.
#[tactic(auto, unfolding(crate::specs::Table::reset_fault))]
pub fn reset_fault(parts: &TableParts) -> Option<Limit>
    ensures { result ≡ reset_fault parts.now }
{
    let plain = speeds_at(parts, 1);
    let over = speeds_at(parts, 4);
    if is_low(plain.sysclk, over.sysclk) {
        Some(Limit::Sysclk)
    } else if has_low_scale(parts.scales.as_slice()) {
        Some(Limit::Hclk)
    } else if is_low(plain.pclk1, over.pclk1) {
        Some(Limit::Pclk1)
    } else if is_low(plain.pclk2, over.pclk2) {
        Some(Limit::Pclk2)
    } else if has_low_row(parts.flash.as_slice()) {
        Some(Limit::FlashRow)
    } else {
        None
    }
}
