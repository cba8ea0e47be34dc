//! The clock variables that have keys.
ghost use Rattle.std.specs.Prelude.{◌≡◌, ◌<◌, ◌++◌, ◌==◌, not, OnOk};
ghost use Rattle.choice_rank.specs.Choices.{cost_at};
ghost use Rattle.ioc_write.specs.WriteBack.{number_of, clock_key, variable_of, source_text, beginning, plain, spelled};

use choice_rank::{Costs, VarShape};
use res_base::{OutOfMemory, put_dec};
use res_model::{ClockChoice, Src};
use std::alloc::Global;

/// A clock variable that has a key.
#[derive(Clone, Copy, Debug, PartialEq, Eq)]
pub(crate) enum Variable {
    /// The source of SYSCLK.
    System,
    /// The source of the PLL.
    Input,
    Ahb,
    P,
    M,
    N,
    Q,
    Apb1,
    Apb2,
}

/// All of them, in their order.
pub(crate) const VARIABLES: [Variable; 9] = [
    Variable::System,
    Variable::Input,
    Variable::Ahb,
    Variable::P,
    Variable::M,
    Variable::N,
    Variable::Q,
    Variable::Apb1,
    Variable::Apb2,
];

impl Variable {
    /// Its number among the variables of a problem.
    pub(crate) fn number(self) -> usize
        ensures number { result ≡ number_of self }
        ensures few { result < 9 }
    {
        match self {
            Variable::System => 0,
            Variable::Input => 1,
            Variable::Ahb => 2,
            Variable::P => 3,
            Variable::M => 4,
            Variable::N => 5,
            Variable::Q => 6,
            Variable::Apb1 => 7,
            Variable::Apb2 => 8,
        }
    }

    pub(crate) fn key(self) -> &'static [u8]
        ensures { result.now ≡ clock_key self }
    {
        match self {
            Variable::System => b"RCC.SYSCLKSource",
            Variable::Input => b"RCC.PLLSourceVirtual",
            Variable::Ahb => b"RCC.AHBCLKDivider",
            Variable::P => b"RCC.PLLP",
            Variable::M => b"RCC.PLLM",
            Variable::N => b"RCC.PLLN",
            Variable::Q => b"RCC.PLLQ",
            Variable::Apb1 => b"RCC.APB1CLKDivider",
            Variable::Apb2 => b"RCC.APB2CLKDivider",
        }
    }

    /// What stands before the value in a project's spelling.
    fn beginning(self) -> &'static [u8]
        ensures { result.now ≡ beginning self }
    {
        match self {
            Variable::System => b"RCC_SYSCLKSOURCE_",
            Variable::Input => b"RCC_PLLSOURCE_",
            Variable::Ahb => b"RCC_SYSCLK_DIV",
            Variable::P => b"RCC_PLLP_DIV",
            Variable::M | Variable::N | Variable::Q => b"",
            Variable::Apb1 | Variable::Apb2 => b"RCC_HCLK_DIV",
        }
    }
}

/// The variable of a key.
#[tactic(auto, unfolding(crate::specs::WriteBack::variable_of))]
pub(crate) fn variable_of(key: &[u8]) -> Option<Variable>
    ensures { result ≡ variable_of key.now }
{
    if key == b"RCC.SYSCLKSource".as_slice() {
        Some(Variable::System)
    } else if key == b"RCC.PLLSourceVirtual".as_slice() {
        Some(Variable::Input)
    } else if key == b"RCC.AHBCLKDivider".as_slice() {
        Some(Variable::Ahb)
    } else if key == b"RCC.PLLP".as_slice() {
        Some(Variable::P)
    } else if key == b"RCC.PLLM".as_slice() {
        Some(Variable::M)
    } else if key == b"RCC.PLLN".as_slice() {
        Some(Variable::N)
    } else if key == b"RCC.PLLQ".as_slice() {
        Some(Variable::Q)
    } else if key == b"RCC.APB1CLKDivider".as_slice() {
        Some(Variable::Apb1)
    } else if key == b"RCC.APB2CLKDivider".as_slice() {
        Some(Variable::Apb2)
    } else {
        None
    }
}

fn source_text(source: Src) -> &'static [u8]
    ensures { result.now ≡ source_text source }
{
    match source {
        Src::Hsi => b"HSI",
        Src::Hse => b"HSE",
        Src::Pll => b"PLLCLK",
    }
}

/// The value of a variable in a choice, without its beginning.
fn put_plain(
    alloc: Global,
    out: &mut Vec<u8>,
    c: &ClockChoice,
    v: Variable,
) -> Result<(), OutOfMemory>
    ensures { OnOk result (out.new.items ≡ out.old.items ++ plain c.now v) }
{
    match v {
        Variable::System => Ok(out.extend_from_slice(source_text(c.src))?),
        Variable::Input => Ok(out.extend_from_slice(source_text(c.psrc))?),
        Variable::Ahb => put_dec(alloc, out, u64::from(c.hpre)),
        Variable::P => put_dec(alloc, out, u64::from(c.p)),
        Variable::M => put_dec(alloc, out, u64::from(c.m)),
        Variable::N => put_dec(alloc, out, u64::from(c.n)),
        Variable::Q => put_dec(alloc, out, u64::from(c.q)),
        Variable::Apb1 => put_dec(alloc, out, u64::from(c.ppre1)),
        Variable::Apb2 => put_dec(alloc, out, u64::from(c.ppre2)),
    }
}

/// Appends the value of a variable in a choice, as a project spells it.
#[tactic(auto, unfolding(crate::specs::WriteBack::spelled))]
pub(crate) fn put_value(
    alloc: Global,
    out: &mut Vec<u8>,
    c: &ClockChoice,
    v: Variable,
) -> Result<(), OutOfMemory>
    ensures { OnOk result (out.new.items ≡ out.old.items ++ spelled c.now v) }
{
    out.extend_from_slice(v.beginning())?;
    put_plain(alloc, out, c, v)
}

/// Whether a position costs something.
pub(crate) fn costs(variable: VarShape, position: u16) -> bool
    ensures { result ≡ not (cost_at variable.costs position == 0) }
{
    match variable.costs {
        Costs::HomeFirst => position != 0,
        Costs::AllZero => false,
        Costs::AllOne => true,
    }
}
