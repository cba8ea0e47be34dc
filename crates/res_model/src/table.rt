//! The plain data of a table, and its type, which keeps the table's rules.
ghost use Rattle.std.specs.Prelude.{◌≡◌, ◌≢◌, ◌<◌, Some, length, slice_get, option_map, IfSome, IfNone, IfOk};
ghost use Rattle.res_model.specs.PinNames.{place};

use crate::copy::copy_parts;
use crate::names::{name_order, signal_in};
use crate::power::{hclk_at, speeds_at};
use res_base::{Items, OutOfMemory, Text};
use std::alloc::Global;
use std::marker::Model;

/// A pin of the package: its name, its port (0 for A to 8 for I) and its number on the port (0 to 15).
#[derive(Debug, Drop)]
pub struct Pin {
    pub name: Text,
    pub port: u8,
    pub number: u8,
}

/// How a signal of the table makes use of a pin.
#[derive(Clone, Copy, Debug, PartialEq, Eq)]
pub enum Role {
    /// By an alternate function.
    Alt,
    Input,
    Output,
    Analog,
    /// An input that raises an interrupt.
    Exti,
    /// A pin of the oscillator.
    Osc,
}

/// What a signal makes of its pin.
#[derive(Clone, Copy, Debug, PartialEq, Eq)]
pub enum Mode {
    /// The alternate function of this number, 0 to 15.
    Alt(u8),
    Input,
    Output,
    Analog,
    /// An input that raises an interrupt.
    Exti,
    /// A pin of the oscillator.
    Osc,
    /// A pin that is only held.
    Held,
}

/// A pin, by its place in the table's list of pins, and the mode that it has there.
#[derive(Clone, Copy, Debug, PartialEq, Eq)]
pub struct PinUse {
    pub pin: u8,
    pub mode: Mode,
}

/// A signal of the table. Its rows say where it can be, and with which mode.
#[derive(Debug, Drop)]
pub struct TableSignal {
    pub name: Text,
    pub role: Role,
    pub ip: Option<Text>,
    pub drain: bool,
    pub at: Items<PinUse>,
}

/// What an IP needs of the 48 MHz output.
#[derive(Clone, Copy, Debug, PartialEq, Eq)]
pub enum Need48 {
    Nothing,
    /// Exactly 48,000,000 Hz.
    Exact,
    /// At most 48,000,000 Hz.
    Most,
}

/// An IP: its need of the 48 MHz output, the least HCLK in hertz, and the signals of `VP_` pins that use it.
#[derive(Debug, Drop)]
pub struct Ip {
    pub name: Text,
    pub clock48: Need48,
    pub floor: u64,
    pub marks: Items<Text>,
}

/// The values that the clock variables can have: lists, or the least and the greatest.
#[derive(Debug, Drop)]
pub struct Domains {
    pub hpre: Items<u16>,
    pub p: Items<u16>,
    pub m: (u16, u16),
    pub n: (u16, u16),
    pub q: (u16, u16),
    pub ppre1: Items<u16>,
    pub ppre2: Items<u16>,
    pub vos: Items<u16>,
}

/// The limits of the clock tree in hertz: ranges from the least to the greatest, and greatest values without over-drive.
#[derive(Clone, Copy, Debug, PartialEq, Eq)]
pub struct Bounds {
    pub crystal: (u64, u64),
    pub bypass: (u64, u64),
    pub vco_in: (u64, u64),
    pub vco: (u64, u64),
    pub sysclk: u64,
    pub pclk1: u64,
    pub pclk2: u64,
}

/// The greatest SYSCLK, PCLK1 and PCLK2 in hertz, with over-drive or without.
#[derive(Clone, Copy, Debug, PartialEq, Eq)]
pub struct Over {
    pub sysclk: u64,
    pub pclk1: u64,
    pub pclk2: u64,
}

/// The greatest SYSCLK, HCLK, PCLK1 and PCLK2 in hertz at a power step.
#[derive(Clone, Copy, Debug, PartialEq, Eq)]
pub struct StepLimits {
    pub sysclk: u64,
    pub hclk: u64,
    pub pclk1: u64,
    pub pclk2: u64,
}

/// A power step, and the greatest HCLK at it in hertz. Steps 1 to 3 are the scales of the voltage regulator, and 4 and 5
/// are scale 1 and scale 2 with over-drive (RM0090, PWR_CR).
#[derive(Clone, Copy, Debug, PartialEq, Eq)]
pub struct Scale {
    pub vos: u8,
    pub max: u64,
}

/// A range of the supply voltage in millivolts, both ends within it. Row i is the greatest HCLK
/// in hertz under i wait states.
#[derive(Debug, Drop)]
pub struct FlashRange {
    pub from: u64,
    pub to: u64,
    pub prefetch: bool,
    pub rows: Items<u64>,
}

/// What a table says, member by member. `over` has the limits with over-drive, which parts of version 1 do not have.
///
/// `defaults` stands in the order of the clock variables src, psrc, hpre, p, m, n, q, ppre1, ppre2, vos,
/// with HSI 0, HSE 1 and PLL 2.
#[derive(Debug, Drop)]
pub struct TableParts {
    pub version: u8,
    pub names: Items<Text>,
    pub package: Text,
    pub pins: Items<Pin>,
    pub signals: Items<TableSignal>,
    pub hse_in: Text,
    pub hse_out: Text,
    pub ips: Items<Ip>,
    pub clock: Domains,
    pub limits: Bounds,
    pub over: Option<Over>,
    pub scales: Items<Scale>,
    pub flash: Items<FlashRange>,
    pub defaults: [u64; 10],
    pub hse_hz: u64,
}

/// A table that keeps every rule of the table form. Contracts see what it says.
#[derive(Debug, Drop)]
pub struct Tables {
    parts: TableParts,
    by_name: Items<usize>,
}

impl Model for Tables {
    ghost use Rattle.res_model.specs.declared.table.TableParts.{TableParts};

    ghost Value = { TableParts };

    ghost use Rattle.res_model.specs.NameOrder.{IsNameOrder};
    ghost use Rattle.res_model.specs.Valid.{IsValid};

    ghost view = { λ t. t.parts };

    ghost invariant = { λ t. IsValid t.parts × IsNameOrder t.by_name t.parts.signals };
}

impl Tables {
    ghost use Rattle.std.specs.Prelude.{IsSome};
    ghost use Rattle.res_base.specs.Lists.{Each};
    ghost use Rattle.res_model.specs.PinNames.{place};
    ghost use Rattle.std.specs.Option.{option_copied};
    ghost use Rattle.res_model.specs.Power.{scale_limit, speeds_at};
    ghost use Rattle.res_model.specs.Signals.{signal_named};
    ghost use Rattle.res_model.specs.Valid.{IsValid};

    /// The table that says this.
    pub fn of(alloc: Global, parts: TableParts) -> Result<Tables, OutOfMemory>
        requires { IsValid parts }
        ensures { IfOk result (λ t. t ≡ parts) }
    {
        let by_name = name_order(alloc, parts.signals.as_slice())?;
        Ok(Tables { parts, by_name })
    }

    /// What the table says.
    pub fn parts(&self) -> &TableParts
        ensures { result.now ≡ self.now }
    {
        &self.parts
    }

    /// That the table keeps every rule. It stands apart, so that a proof that asks for none carries none.
    pub fn keeps_rules(&self)
        ensures { IsValid self.now }
    {
        let _ = &self.parts;
    }

    /// An equal table.
    pub fn copy(&self, alloc: Global) -> Result<Tables, OutOfMemory>
        ensures { IfOk result (λ t. t ≡ self.now) }
    {
        self.keeps_rules();
        let parts = copy_parts(alloc, self.parts())?;
        Tables::of(alloc, parts)
    }

    /// The version of the table's form: 1 for parts without over-drive, 2 for parts with it.
    pub fn version(&self) -> u8
        ensures { result ≡ self.now.version }
    {
        self.parts().version
    }

    /// The limits at a power step that the table has.
    pub fn limits_at(&self, step: u8) -> StepLimits
        requires { IsSome (scale_limit self.now step) }
        ensures hclk { scale_limit self.now step ≡ Some result.hclk }
        ensures sysclk { result.sysclk ≡ (speeds_at self.now step).sysclk }
        ensures pclk1 { result.pclk1 ≡ (speeds_at self.now step).pclk1 }
        ensures pclk2 { result.pclk2 ≡ (speeds_at self.now step).pclk2 }
    {
        let hclk = hclk_at(self.parts(), u16::from(step));
        let speeds = speeds_at(self.parts(), u16::from(step));
        StepLimits {
            sysclk: speeds.sysclk,
            hclk,
            pclk1: speeds.pclk1,
            pclk2: speeds.pclk2,
        }
    }

    /// The signal of this name; None where the table has none.
    #[tactic(auto, unfolding(crate::specs::Signals::signal_named))]
    pub fn signal_named(&self, name: &[u8]) -> Option<&TableSignal>
        ensures { option_copied result ≡ signal_named self.now name.now }
    {
        signal_in(self.parts.signals.as_slice(), self.by_name.as_slice(), name)
    }

    /// The place of the pin of this name in the list of pins; None where no pin has it.
    pub fn pin_of(&self, name: &[u8]) -> Option<u8>
        ensures place { result ≡ place self.now.pins name.now }
        ensures within { IfSome result (λ i. i < length self.now.pins) }
        ensures none { IfNone result (Each (λ p. p.name ≢ name.now) self.now.pins) }
    {
        self.keeps_rules();
        match place_of(self.parts().pins.as_slice(), name) {
            Some(place) => Some(place as u8),
            None => None,
        }
    }

    /// The port, 0 for A to 8 for I, and the number, 0 to 15, of the pin at this place of the list.
    pub fn port_of(&self, pin: u8) -> (u8, u8)
        requires { pin < length self.now.pins }
        ensures pin { option_map (λ p. (p.port, p.number)) (slice_get self.now.pins pin) ≡ Some result }
        ensures port { result.0 < 9 }
        ensures number { result.1 < 16 }
    {
        self.keeps_rules();
        let pins = self.parts().pins.as_slice();
        let pin = &pins[usize::from(pin)];
        (pin.port, pin.number)
    }
}

/// The place of the pin of this name.
#[tactic(auto, unfolding(crate::specs::PinNames::place))]
fn place_of(pins: &[Pin], name: &[u8]) -> Option<usize>
    ensures place { result ≡ place pins.now name.now }
    ensures within { IfSome result (λ i. i < length pins.now) }
{
    pins.iter()
        .position(|pin| pin.name.as_str().as_bytes() == name)
}
