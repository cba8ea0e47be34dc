//! Accesses, and what a step of one may answer.
use reg_map::Reg;

/// What an await waits for: the HSE or the PLL to be ready, the latency of the flash, the switch of SYSCLK, over-drive to be
/// ready, or its switch.
#[derive(Clone, Copy, Debug, PartialEq, Eq)]
pub enum Timeout {
    Hse,
    Pll,
    Latency,
    Switch,
    Over,
    OverSwitch,
}

/// An access to a register.
#[derive(Clone, Copy, Debug, PartialEq, Eq)]
pub enum Op {
    Write {
        reg: Reg,
        value: u32,
    },
    /// Writes the word with the bits of `clear` cleared and then those of `set` set.
    Modify {
        reg: Reg,
        clear: u32,
        set: u32,
    },
    Read {
        reg: Reg,
    },
    /// Reads until the word under the mask is `want`, at most `polls` times.
    Await {
        reg: Reg,
        mask: u32,
        want: u32,
        polls: u32,
        name: Timeout,
    },
}

/// Which of the pending flags come: HSERDY, PLLRDY, the latency that was asked for, the source that SW asks for, ODRDY, and
/// ODSWRDY.
#[derive(Clone, Copy, Debug, PartialEq, Eq)]
pub struct Answer {
    pub hse: bool,
    pub pll: bool,
    pub latency: bool,
    pub switch: bool,
    pub over: bool,
    pub over_switch: bool,
}

/// What is forbidden, by this project's own rules, after RM0090. A source is in use where it is in effect, or SW asks for
/// it, or PLLON is set and SRC names it.
#[derive(Clone, Copy, Debug, PartialEq, Eq)]
pub enum Rule {
    /// RCC_CR: HSION cleared while HSI is in use.
    HsiOffInUse,
    /// RCC_CR: HSEBYP changed while HSEON is set.
    BypassChangedWithHseOn,
    /// RCC_CR: HSEON set where the target has no input for it, or HSEBYP after the write is not as the target has it.
    HseOnUnlikeTarget,
    /// RCC_CR: HSEON cleared while HSE is in use.
    HseOffInUse,
    /// RCC_CR: PLLON set while the source that SRC names is not ready, or M, N or Q is none that the PLL takes.
    PllOnUnfit,
    /// RCC_CR: PLLON cleared while the PLL is in effect or asked for, or ODEN is set, or a bit changed that is none of its
    /// fields.
    PllOffInUseOrOtherBit,
    /// RCC_PLLCFGR written while PLLON is set.
    PllcfgrWithPllOn,
    /// RCC_PLLCFGR: M, N or Q that the PLL does not take.
    PllcfgrOutOfRange,
    /// RCC_CFGR: SW is 3, or asks for a source that is not ready.
    SwitchToUnready,
    /// RCC_CFGR: a bit changed that is none of its fields.
    CfgrOtherBit,
    /// RCC_AHB1ENR: the enable of a port cleared, or another bit changed.
    PortDisabledOrOtherBit,
    /// RCC_APB1ENR: PWREN cleared, or another bit changed.
    PowerDisabledOrOtherBit,
    /// PWR_CR written while PWREN is 0, or was not read since it was set.
    PwrCrBeforeEnable,
    /// PWR_CR: VOS changed while PLLON is set, or naming no scale, or a bit changed that is none of its fields.
    ScaleWithPllOnOrOtherBit,
    /// FLASH_ACR by a modify, or a bit set that is none of its fields.
    AcrModifiedOrOtherBit,
    /// FLASH_ACR: PRFTEN set where the supply allows no prefetch.
    PrefetchAtLowSupply,
    /// A GPIO register written while its port's enable is 0, or was not read since it was set.
    GpioBeforeEnable,
    /// An await without polls, or one that waits for what does not come.
    AwaitUnlawful,
    /// PWR_CR: ODEN set while PLLON is 0, or the PLL is in effect or asked for, or VOS names scale 3; or ODEN cleared.
    OverOnUnfit,
    /// PWR_CR: ODSWEN set while over-drive is not ready, or the PLL is in effect or asked for; or ODSWEN cleared.
    OverSwitchUnfit,
    /// PWR_CSR written.
    PwrCsrWritten,
}

impl Rule {
    ghost use Rattle.std.specs.Prelude.{◌≡◌};
    ghost use Rattle.reg_machine.specs.Rules.{number_of};

    /// The number by which it is printed, 1 to 21.
    pub fn number(self) -> u8
        ensures { result ≡ number_of self }
    {
        match self {
            Rule::HsiOffInUse => 1,
            Rule::BypassChangedWithHseOn => 2,
            Rule::HseOnUnlikeTarget => 3,
            Rule::HseOffInUse => 4,
            Rule::PllOnUnfit => 5,
            Rule::PllOffInUseOrOtherBit => 6,
            Rule::PllcfgrWithPllOn => 7,
            Rule::PllcfgrOutOfRange => 8,
            Rule::SwitchToUnready => 9,
            Rule::CfgrOtherBit => 10,
            Rule::PortDisabledOrOtherBit => 11,
            Rule::PowerDisabledOrOtherBit => 12,
            Rule::PwrCrBeforeEnable => 13,
            Rule::ScaleWithPllOnOrOtherBit => 14,
            Rule::AcrModifiedOrOtherBit => 15,
            Rule::PrefetchAtLowSupply => 16,
            Rule::GpioBeforeEnable => 17,
            Rule::AwaitUnlawful => 18,
            Rule::OverOnUnfit => 19,
            Rule::OverSwitchUnfit => 20,
            Rule::PwrCsrWritten => 21,
        }
    }
}

/// What one step of an access did.
#[derive(Clone, Copy, Debug, PartialEq, Eq)]
pub enum Stepped {
    Went,
    Waiting,
    /// By the rule with the least number that forbids it; nothing changed.
    Forbidden { rule: Rule },
    TimedOut { name: Timeout },
}
