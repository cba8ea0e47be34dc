//! What the value of a key says.
ghost use Rattle.std.specs.Prelude.{◌≡◌, false};
ghost use Rattle.ioc_text.specs.Lines.{line_at};
ghost use Rattle.res_model.specs.Numbers.{number_of, number_up_to};
ghost use Rattle.ioc_project.specs.Project.{truth_of, pull_of, speed_of, hertz_of, number_after, system_source_of, pll_source_of, value_or};
ghost use Rattle.refusal.specs.Refusals.{Tells};

use crate::fault::ProjectFault;
use ioc_text::Ioc;
use refusal::Refusal;
use res_base::parse_dec;
use res_model::{Pull, Speed};

pub(crate) fn number_of(text: &[u8]) -> Option<u64>
    ensures { result ≡ number_of text.now }
{
    parse_dec(text)
}

#[tactic(auto, unfolding(res_model::specs::Numbers::number_up_to))]
fn number_up_to(most: u64, text: &[u8]) -> Option<u64>
    ensures { result ≡ number_up_to most text.now }
{
    let number = number_of(text)?;
    if number <= most { Some(number) } else { None }
}

fn truth_of(value: &[u8]) -> Option<bool>
    ensures { result ≡ truth_of value.now }
{
    if value == b"true".as_slice() {
        Some(true)
    } else if value == b"false".as_slice() {
        Some(false)
    } else {
        None
    }
}

#[tactic(auto, unfolding(crate::specs::Project::pull_of))]
pub(crate) fn pull_of(value: &[u8]) -> Option<Pull>
    ensures { result ≡ pull_of value.now }
{
    if value == b"GPIO_NOPULL".as_slice() {
        Some(Pull::None)
    } else if value == b"GPIO_PULLUP".as_slice() {
        Some(Pull::Up)
    } else if value == b"GPIO_PULLDOWN".as_slice() {
        Some(Pull::Down)
    } else {
        None
    }
}

#[tactic(auto, unfolding(crate::specs::Project::speed_of))]
pub(crate) fn speed_of(value: &[u8]) -> Option<Speed>
    ensures { result ≡ speed_of value.now }
{
    if value == b"GPIO_SPEED_FREQ_LOW".as_slice() {
        Some(Speed::Low)
    } else if value == b"GPIO_SPEED_FREQ_MEDIUM".as_slice() {
        Some(Speed::Medium)
    } else if value == b"GPIO_SPEED_FREQ_HIGH".as_slice() {
        Some(Speed::High)
    } else if value == b"GPIO_SPEED_FREQ_VERY_HIGH".as_slice() {
        Some(Speed::VeryHigh)
    } else {
        None
    }
}

#[tactic(auto, unfolding(crate::specs::Project::hertz_of))]
pub(crate) fn hertz_of(value: &[u8]) -> Option<u64>
    ensures { result ≡ hertz_of value.now }
{
    number_up_to(4294967295, value)
}

/// A number up to 65,535 after a beginning.
#[tactic(auto, unfolding(crate::specs::Project::number_after))]
pub(crate) fn number_after(beginning: &[u8], value: &[u8]) -> Option<u64>
    ensures { result ≡ number_after beginning.now value.now }
{
    if value.starts_with(beginning) {
        number_up_to(65535, &value[beginning.len()..])
    } else {
        None
    }
}

#[tactic(auto, unfolding(crate::specs::Project::system_source_of))]
pub(crate) fn system_source_of(value: &[u8]) -> Option<u64>
    ensures { result ≡ system_source_of value.now }
{
    if value == b"RCC_SYSCLKSOURCE_HSI".as_slice() {
        Some(0)
    } else if value == b"RCC_SYSCLKSOURCE_HSE".as_slice() {
        Some(1)
    } else if value == b"RCC_SYSCLKSOURCE_PLLCLK".as_slice() {
        Some(2)
    } else {
        None
    }
}

#[tactic(auto, unfolding(crate::specs::Project::pll_source_of))]
pub(crate) fn pll_source_of(value: &[u8]) -> Option<u64>
    ensures { result ≡ pll_source_of value.now }
{
    if value == b"RCC_PLLSOURCE_HSI".as_slice() {
        Some(0)
    } else if value == b"RCC_PLLSOURCE_HSE".as_slice() {
        Some(1)
    } else {
        None
    }
}

/// Whether a key's value is `true`, where an absent key means `false`.
pub(crate) fn truth_at(ioc: &Ioc, key: &[u8]) -> Result<bool, Refusal<ProjectFault>>
    ensures { Tells (λ truth. truth) result (value_or false truth_of (line_at ioc.now key.now)) }
{
    let Some(line) = ioc.get(key) else {
        return Ok(false);
    };
    truth_of(line.value.as_slice()).ok_or(Refusal::Fault(ProjectFault::BadValue {
        line: line.number,
    }))
}
