//! Flash rows.
ghost use Rattle.std.specs.Prelude.{◌≡◌, ℕ, ◌≤◌, ◌&&◌, find, length, nat_lt, slice_index, IfSome, IfNone, option_copied};
ghost use Rattle.res_base.specs.Fraction.{at_most, whole};
ghost use Rattle.std.specs.List.{list_any, position_from};
ghost use Rattle.res_model.specs.Clock.{AreFacts, IsInRange, hclk_of};
ghost use Rattle.res_model.specs.Power.{has_supply, range_at, rows_of_range, flash_rows, range_prefetches, is_covered_by, is_covered, wait_of, RowCovers};

use clock_tree::nodes;
use res_base::Ratio;
use res_model::{ClockChoice, Facts, FlashRange, TableParts, Tables};

fn has_supply(vdd: u32, range: &FlashRange) -> bool
    ensures { result ≡ has_supply vdd range.now }
{
    range.from <= u64::from(vdd) && u64::from(vdd) <= range.to
}

/// The flash range of a supply voltage in millivolts.
fn range_at(flash: &[FlashRange], vdd: u32) -> Option<&FlashRange>
    ensures { option_copied result ≡ find (has_supply vdd) flash.now }
{
    for range in flash {
        if has_supply(vdd, range) {
            return Some(range);
        }
    }
    None
}

fn rows_of_range(range: Option<&FlashRange>) -> &[u64]
    ensures { result.now ≡ rows_of_range (option_copied range.entry) }
{
    match range {
        None => &[],
        Some(range) => range.rows.as_slice(),
    }
}

/// The rows under a supply voltage.
#[tactic(auto, unfolding(res_model::specs::Power::range_at))]
fn flash_rows(t: &TableParts, vdd: u32) -> &[u64]
    ensures { result.now ≡ flash_rows t.now vdd }
{
    rows_of_range(range_at(t.flash.as_slice(), vdd))
}

fn first_row(rows: &[u64], hclk: &Ratio) -> Option<u8>
    requires { length rows.now ≤ 8 }
    ensures { result ≡ position_from (is_covered_by hclk.now) 0 rows.now }
{
    for w in 0..rows.len() {
        if hclk.at_most_whole(rows[w]) {
            return Some(w as u8);
        }
    }
    None
}

fn some_row(rows: &[u64], hclk: &Ratio) -> bool
    ensures { result ≡ list_any (is_covered_by hclk.now) rows.now }
{
    rows.iter().any(|row| hclk.at_most_whole(*row))
}

/// The least wait states whose row covers HCLK at this supply voltage in millivolts.
#[tactic(auto, using(crate::proofs::FlashLemmas::rows_few))]
pub fn least_wait(t: &Tables, vdd: u32, hclk: &Ratio) -> Option<u8>
    ensures value { result ≡ wait_of t.now vdd hclk.now }
    ensures covers { IfSome result (λ w. RowCovers t.now vdd w hclk.now) }
    ensures least { IfSome result (λ w. (v : ℕ) → RowCovers t.now vdd v hclk.now → w ≤ v) }
    ensures none { IfNone result ((v : ℕ) → RowCovers t.now vdd v hclk.now → ⊥) }
{
    t.keeps_rules();
    first_row(flash_rows(t.parts(), vdd), hclk)
}

/// The least wait states under which the flash keeps up with the HCLK of a choice, at the supply voltage of the facts.
#[tactic(auto, unfolding(res_model::specs::Clock::nodes_of))]
pub fn wait_at(t: &Tables, f: &Facts, c: &ClockChoice) -> Option<u8>
    requires facts { AreFacts f.now }
    requires choice { IsInRange c.now }
    ensures { result ≡ wait_of t.now f.now.vdd (hclk_of f.now c.now) }
{
    let hclk = nodes(f, c).hclk;
    least_wait(t, f.vdd, &hclk)
}

/// Whether some row covers HCLK at this supply voltage in millivolts.
pub fn is_covered(t: &TableParts, vdd: u32, hclk: &Ratio) -> bool
    ensures { result ≡ is_covered t.now vdd hclk.now }
{
    some_row(flash_rows(t, vdd), hclk)
}

/// Whether the row of these wait states is there, and covers HCLK at this supply voltage in millivolts.
pub fn row_covers(t: &Tables, vdd: u32, wait: u8, hclk: &Ratio) -> bool
    ensures { result ≡ (nat_lt wait (length (flash_rows t.now vdd)) && at_most hclk.now (whole (slice_index (flash_rows t.now vdd) wait))) }
{
    let rows = flash_rows(t.parts(), vdd);
    let wait = usize::from(wait);
    wait < rows.len() && hclk.at_most_whole(rows[wait])
}

/// Whether the supply voltage in millivolts is in a flash range that allows prefetch.
#[tactic(auto, unfolding(res_model::specs::Power::range_at))]
pub fn prefetch(t: &Tables, vdd: u32) -> bool
    ensures { result ≡ range_prefetches (range_at t.now vdd) }
{
    match range_at(t.parts().flash.as_slice(), vdd) {
        None => false,
        Some(range) => range.prefetch,
    }
}
