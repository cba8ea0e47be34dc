//! The line of a limit that nothing can meet.
ghost use Rattle.std.specs.Prelude.{◌≡◌, ◌≢◌, ◌<◌, ◌++◌, IfOk, codes, string_bytes, length};
ghost use Rattle.box_spans.specs.Every.{AreFilled};
ghost use Rattle.clock_limits.specs.Ranges.{AreInRange, values_at};
ghost use Rattle.res_model.specs.Clock.{AreFacts};
ghost use Rattle.explain_text.specs.LimitNames.{limit_named};
ghost use Rattle.explain_text.specs.Figures.{figures, figures_part, limit_line, limit_words};

use crate::figures::figures_by;
use crate::hertz::put_number;
use box_spans::spans;
use problem::Problem;
use res_base::Items;
use res_model::Limit;
use std::alloc::{AllocError, Global};

/// The limit of a number, 3 to 17.
#[tactic(auto, unfolding(crate::specs::LimitNames::limit_named))]
pub(crate) fn limit_named(number: u8) -> Limit
    ensures { result ≡ limit_named number }
{
    match number {
        3 => Limit::Hse,
        4 => Limit::VcoIn,
        5 => Limit::Vco,
        6 => Limit::Sysclk,
        7 => Limit::Hclk,
        8 => Limit::Pclk1,
        9 => Limit::Pclk2,
        10 => Limit::Exact48,
        11 => Limit::Most48,
        12 => Limit::Floor,
        13 => Limit::FlashRow,
        14 => Limit::HclkWish,
        15 => Limit::Pclk1Wish,
        16 => Limit::Pclk2Wish,
        _ => Limit::OverDrive,
    }
}

/// What is wrong where a limit is not met.
pub(crate) fn limit_words(limit: Limit) -> &'static str
    ensures { result.now ≡ limit_words limit }
{
    match limit {
        Limit::Hse => "HSE can not be used",
        Limit::VcoIn => "VCO_IN out of range",
        Limit::Vco => "VCO out of range",
        Limit::Sysclk => "SYSCLK too high",
        Limit::Hclk => "HCLK too high for the voltage scale",
        Limit::Pclk1 => "PCLK1 too high",
        Limit::Pclk2 => "PCLK2 too high",
        Limit::Exact48 => "CLK48 not 48000000",
        Limit::Most48 => "CLK48 too high",
        Limit::Floor => "HCLK too low for a peripheral",
        Limit::FlashRow => "no flash row for HCLK",
        Limit::HclkWish => "HCLK not as wished",
        Limit::Pclk1Wish => "PCLK1 not as wished",
        Limit::Pclk2Wish => "PCLK2 not as wished",
        Limit::OverDrive => "over-drive without the PLL",
    }
}

/// That the clock variables of a whole problem have values, within the widest.
fn have_values(p: &Problem)
    requires { p.now.first ≢ 0 }
    ensures facts { AreFacts p.now.facts }
    ensures in_range { AreInRange p.now.clock }
    ensures filled { AreFilled p.now.clock }
{
    p.parts_agree();
}

/// The values of the clock variable of this number.
fn values_at(values: &[Items<u16>], k: usize) -> &[u16]
    requires { k < length values.now }
    ensures { result.now ≡ values_at values.now k }
{
    values[k].as_slice()
}

/// The figures of a limit over all values of the clock variables.
#[tactic(auto, unfolding(crate::specs::Figures::figures))]
fn figures(alloc: Global, p: &Problem, limit: Limit) -> Result<String, AllocError>
    requires { p.now.first ≢ 0 }
    ensures { IfOk result (λ x. string_bytes x ≡ figures p.now limit) }
{
    have_values(p);
    let parts = p.parts();
    let values = parts.clock.as_slice();
    let ranges = spans(&parts.facts, values);
    figures_by(
        alloc,
        parts.tables.parts(),
        &parts.facts,
        values_at(values, 9),
        &ranges,
        limit,
    )
}

/// The figures of a limit that has any.
fn put_figures(alloc: Global, p: &Problem, limit: Limit) -> Result<String, AllocError>
    requires { p.now.first ≢ 0 }
    ensures { IfOk result (λ x. string_bytes x ≡ codes ", " ++ figures p.now limit) }
{
    let mut text = String::from_str(alloc, ", ")?;
    let figures = figures(alloc, p, limit)?;
    text.push_str(figures.as_str())?;
    Ok(text)
}

/// The figures of a limit that has any, behind its words.
fn figures_part(alloc: Global, p: &Problem, limit: Limit) -> Result<String, AllocError>
    requires { p.now.first ≢ 0 }
    ensures { IfOk result (λ x. string_bytes x ≡ figures_part p.now limit) }
{
    match limit {
        Limit::OverDrive => Ok(String::new(alloc)),
        _ => put_figures(alloc, p, limit),
    }
}

/// The line of the limit of a number that nothing can meet: what it asks, and by how much it is missed.
#[tactic(auto, unfolding(crate::specs::Figures::limit_line))]
pub(crate) fn limit_line(alloc: Global, p: &Problem, number: u8) -> Result<String, AllocError>
    requires { p.now.first ≢ 0 }
    ensures { IfOk result (λ x. string_bytes x ≡ limit_line p.now number) }
{
    let mut line = String::new(alloc);
    put_number(alloc, &mut line, "limit ", u64::from(number))?;
    line.push_str(": ")?;
    let limit = limit_named(number);
    line.push_str(limit_words(limit))?;
    let figures = figures_part(alloc, p, limit)?;
    line.push_str(figures.as_str())?;
    line.push_str("\n")?;
    Ok(line)
}
