//! The homes of the clock variables, and the frequency of the HSE.
ghost use Rattle.std.specs.Prelude.{◌≡◌, ◌<◌, [], codes};
ghost use Rattle.ioc_text.specs.Lines.{line_at};
ghost use Rattle.ioc_project.specs.Project.{number_after, default_home, home_of, m_home, n_home, q_home, p_home, src_home, psrc_home, hpre_home, ppre1_home, ppre2_home, hse_of, homes_of};
ghost use Rattle.refusal.specs.Refusals.{Tells};

use crate::fault::ProjectFault;
use crate::values::{hertz_of, number_after, pll_source_of, system_source_of};
use ioc_text::{Ioc, Line};
use refusal::Refusal;
use res_model::{Home, TableParts};

/// The frequency of the HSE in hertz.
#[tactic(auto, unfolding(crate::specs::Project::hse_of))]
pub(crate) fn hse_of(t: &TableParts, ioc: &Ioc) -> Result<u64, Refusal<ProjectFault>>
    ensures { Tells (λ hertz. hertz) result (hse_of t.now ioc.now) }
{
    let Some(line) = ioc.get(b"RCC.HSE_VALUE") else {
        return Ok(t.hse_hz);
    };
    hertz_of(line.value.as_slice()).ok_or(Refusal::Fault(ProjectFault::BadValue {
        line: line.number,
    }))
}

fn default_home(t: &TableParts, place: usize) -> Home
    requires { place < 10 }
    ensures { result ≡ default_home t.now place }
{
    Home {
        value: t.defaults[place],
        line: 0,
    }
}

/// The home of the clock variable at this place, whose key's value is a number after a beginning.
fn number_home(
    t: &TableParts,
    place: usize,
    ioc: &Ioc,
    key: &[u8],
    beginning: &[u8],
) -> Result<Home, Refusal<ProjectFault>>
    requires { place < 10 }
    ensures { Tells (λ home. home) result (home_of t.now place (number_after beginning.now) (line_at ioc.now key.now)) }
{
    let Some(line) = ioc.get(key) else {
        return Ok(default_home(t, place));
    };
    match number_after(beginning, line.value.as_slice()) {
        None => Err(Refusal::Fault(ProjectFault::BadValue { line: line.number })),
        Some(value) => Ok(Home {
            value,
            line: line.number,
        }),
    }
}

#[tactic(auto, unfolding(crate::specs::Project::m_home))]
fn m_home(t: &TableParts, ioc: &Ioc) -> Result<Home, Refusal<ProjectFault>>
    ensures { Tells (λ home. home) result (m_home t.now ioc.now) }
{
    number_home(t, 4, ioc, b"RCC.PLLM", b"")
}

#[tactic(auto, unfolding(crate::specs::Project::n_home))]
fn n_home(t: &TableParts, ioc: &Ioc) -> Result<Home, Refusal<ProjectFault>>
    ensures { Tells (λ home. home) result (n_home t.now ioc.now) }
{
    number_home(t, 5, ioc, b"RCC.PLLN", b"")
}

#[tactic(auto, unfolding(crate::specs::Project::q_home))]
fn q_home(t: &TableParts, ioc: &Ioc) -> Result<Home, Refusal<ProjectFault>>
    ensures { Tells (λ home. home) result (q_home t.now ioc.now) }
{
    number_home(t, 6, ioc, b"RCC.PLLQ", b"")
}

#[tactic(auto, unfolding(crate::specs::Project::p_home))]
fn p_home(t: &TableParts, ioc: &Ioc) -> Result<Home, Refusal<ProjectFault>>
    ensures { Tells (λ home. home) result (p_home t.now ioc.now) }
{
    number_home(t, 3, ioc, b"RCC.PLLP", b"RCC_PLLP_DIV")
}

#[tactic(auto, unfolding(crate::specs::Project::src_home))]
fn src_home(t: &TableParts, ioc: &Ioc) -> Result<Home, Refusal<ProjectFault>>
    ensures { Tells (λ home. home) result (src_home t.now ioc.now) }
{
    let Some(line) = ioc.get(b"RCC.SYSCLKSource") else {
        return Ok(default_home(t, 0));
    };
    match system_source_of(line.value.as_slice()) {
        None => Err(Refusal::Fault(ProjectFault::BadValue { line: line.number })),
        Some(value) => Ok(Home {
            value,
            line: line.number,
        }),
    }
}

#[tactic(auto, unfolding(crate::specs::Project::psrc_home))]
fn psrc_home(t: &TableParts, ioc: &Ioc) -> Result<Home, Refusal<ProjectFault>>
    ensures { Tells (λ home. home) result (psrc_home t.now ioc.now) }
{
    let Some(line) = ioc.get(b"RCC.PLLSourceVirtual") else {
        return Ok(default_home(t, 1));
    };
    match pll_source_of(line.value.as_slice()) {
        None => Err(Refusal::Fault(ProjectFault::BadValue { line: line.number })),
        Some(value) => Ok(Home {
            value,
            line: line.number,
        }),
    }
}

#[tactic(auto, unfolding(crate::specs::Project::hpre_home))]
fn hpre_home(t: &TableParts, ioc: &Ioc) -> Result<Home, Refusal<ProjectFault>>
    ensures { Tells (λ home. home) result (hpre_home t.now ioc.now) }
{
    number_home(t, 2, ioc, b"RCC.AHBCLKDivider", b"RCC_SYSCLK_DIV")
}

#[tactic(auto, unfolding(crate::specs::Project::ppre1_home))]
fn ppre1_home(t: &TableParts, ioc: &Ioc) -> Result<Home, Refusal<ProjectFault>>
    ensures { Tells (λ home. home) result (ppre1_home t.now ioc.now) }
{
    number_home(t, 7, ioc, b"RCC.APB1CLKDivider", b"RCC_HCLK_DIV")
}

#[tactic(auto, unfolding(crate::specs::Project::ppre2_home))]
fn ppre2_home(t: &TableParts, ioc: &Ioc) -> Result<Home, Refusal<ProjectFault>>
    ensures { Tells (λ home. home) result (ppre2_home t.now ioc.now) }
{
    number_home(t, 8, ioc, b"RCC.APB2CLKDivider", b"RCC_HCLK_DIV")
}

/// The homes of src, psrc, hpre, p, m, n, q, ppre1, ppre2 and vos.
#[tactic(auto, unfolding(crate::specs::Project::homes_of))]
pub(crate) fn homes_of(t: &TableParts, ioc: &Ioc) -> Result<[Home; 10], Refusal<ProjectFault>>
    ensures { Tells (λ homes. homes) result (homes_of t.now ioc.now) }
{
    let m = m_home(t, ioc)?;
    let n = n_home(t, ioc)?;
    let q = q_home(t, ioc)?;
    let p = p_home(t, ioc)?;
    let src = src_home(t, ioc)?;
    let psrc = psrc_home(t, ioc)?;
    let hpre = hpre_home(t, ioc)?;
    let ppre1 = ppre1_home(t, ioc)?;
    let ppre2 = ppre2_home(t, ioc)?;
    let vos = default_home(t, 9);
    Ok([src, psrc, hpre, p, m, n, q, ppre1, ppre2, vos])
}
