//! The machine: its state with the table and the target.
ghost use Rattle.std.specs.Prelude.{◌≡◌, ◌^◌, ◌<◌};
ghost use Rattle.reg_machine.specs.Legal.{is_legal};
ghost use Rattle.reg_machine.specs.Words.{IsStored};
ghost use Rattle.reg_machine.specs.Reset.{reset_gpio, reset_of};

use crate::clocks::{is_choice_legal, is_vco_legal, source_of, tree_of};
use crate::op::{Answer, Op, Stepped};
use crate::pins::{are_pins_legal, mode_at};
use crate::power::{power_of, vos_mask};
use crate::state::{State, Target};
use crate::step;
use power_flash::prefetch;
use reg_map::Reg;
use res_base::OutOfMemory;
use res_model::{Mode, Nodes, Src, Tables};
use std::alloc::Global;
use std::marker::Model;

/// The registers with a table and a target, which it keeps copies of.
#[derive(Drop)]
pub struct Machine {
    tables: Tables,
    want: Target,
    state: State,
}

impl Model for Machine {
    ghost use Rattle.std.specs.Prelude.{◌^◌, ◌<◌};
    ghost use Rattle.reg_machine.specs.Reset.{View};
    ghost use Rattle.reg_machine.specs.Words.{IsStored};

    ghost Value = { View };

    ghost view = { λ m. record { table = m.tables; want = m.want; state = m.state } };

    ghost invariant = { λ m. IsStored m.state × (m.want.facts.hse_hz < 2 ^ 32) };
}

impl Machine {
    ghost use Rattle.std.specs.Prelude.{◌≡◌, ◌^◌, ◌<◌, ◌↔◌, IsTrue, IfOk};
    ghost use Rattle.reg_map.specs.Registers.{IsRegister};
    ghost use Rattle.reg_machine.specs.Words.{IsOp, word_of};
    ghost use Rattle.reg_machine.specs.Reset.{fresh};
    ghost use Rattle.reg_machine.specs.Step.{flags, step_of};
    ghost use Rattle.reg_machine.specs.Legal.{IsLegal, is_legal};
    ghost use Rattle.reg_machine.specs.Pins.{mode_at};
    ghost use Rattle.reg_machine.specs.Power.{power_of};
    ghost use Rattle.reg_machine.specs.Tree.{tree_of};
    ghost use Rattle.res_model.specs.ClockValues.{source_of};

    /// The machine after reset.
    pub fn reset(alloc: Global, t: &Tables, want: &Target) -> Result<Machine, OutOfMemory>
        requires { want.now.facts.hse_hz < 2 ^ 32 }
        ensures { IfOk result (λ m. m ≡ fresh t.now want.now) }
    {
        let state = reset_state(t, want);
        let tables = t.copy(alloc)?;
        Ok(Machine {
            tables,
            want: *want,
            state,
        })
    }

    /// One step: the pending flags that the answer names come, and then the op is done or forbidden.
    pub fn step(&mut self, op: &Op, a: Answer) -> Stepped
        requires { IsOp op.now }
        ensures step { (result, self.new.state) ≡ step_of self.old.state op.now a }
        ensures table { self.new.table ≡ self.old.table }
        ensures want { self.new.want ≡ self.old.want }
    {
        step::step(&mut self.state, op, a)
    }

    /// The pending flags that the answer names come. A step with the same answer then goes as it would have gone alone.
    pub fn come(&mut self, a: Answer)
        ensures state { self.new.state ≡ flags a self.old.state }
        ensures table { self.new.table ≡ self.old.table }
        ensures want { self.new.want ≡ self.old.want }
    {
        self.state = step::with_flags(&self.state, a);
    }

    /// A register's word as it reads.
    pub fn word(&self, r: Reg) -> u32
        requires { IsRegister r }
        ensures { result ≡ word_of self.now.state r }
    {
        step::word(&self.state, r)
    }

    /// Whether there is a power step in effect, the state keeps the limits of the table at it, and each pin in alternate mode
    /// has its function.
    pub fn legal(&self) -> bool
        ensures test { result ≡ is_legal self.now.table self.now.want self.now.state }
        ensures means { IsTrue result ↔ IsLegal self.now.table self.now.want self.now.state }
    {
        is_legal(&self.tables, &self.want, &self.state)
    }

    /// The source of SYSCLK that is in effect, as SWS reads (RM0090, RCC_CFGR).
    pub fn source(&self) -> Src
        ensures { result ≡ source_of self.now.state.source }
    {
        source_of(self.state.source)
    }

    /// The wait states of the flash that are in effect, as LATENCY reads (RM0090, FLASH_ACR).
    pub fn latency(&self) -> u8
        ensures { result ≡ self.now.state.latency }
    {
        self.state.latency as u8
    }

    /// The power step in effect: the scale that VOS names, with over-drive where ODSWRDY is 1 (RM0090, PWR_CR and PWR_CSR).
    /// None where VOS names no scale, and where over-drive is on at scale 3.
    pub fn power_of(&self) -> Option<u8>
        ensures { result ≡ power_of self.now.state }
    {
        power_of(&self.state)
    }

    /// The clock tree for the source in effect. The nodes of the PLL are None where it is off.
    pub fn nodes_of(&self) -> Nodes
        ensures { result ≡ tree_of self.now.want.facts self.now.state }
    {
        tree_of(&self.want.facts, &self.state)
    }

    /// The mode of the pin at port times 16 plus number.
    pub fn mode_of(&self, place: u8) -> Mode
        requires { place < 144 }
        ensures { result ≡ mode_at place self.now.state.gpio }
    {
        mode_at(place, &self.state.gpio)
    }
}

fn is_legal(t: &Tables, want: &Target, s: &State) -> bool
    requires stored { IsStored s.now }
    requires hse { want.now.facts.hse_hz < 2 ^ 32 }
    ensures { result ≡ is_legal t.now want.now s.now }
{
    power_of(s).is_some()
        && is_choice_legal(t, &want.facts, s, s.source)
        && is_choice_legal(t, &want.facts, s, s.cfgr % 4)
        && is_vco_legal(t, &want.facts, s)
        && are_pins_legal(want, &s.gpio)
}

fn reset_state(t: &Tables, want: &Target) -> State
    ensures { result ≡ reset_of t.now want.now }
{
    State {
        cr: 0x0000_0081,
        pllcfgr: 0x2400_3010,
        cfgr: 0,
        acr: 0,
        ahb1enr: 0x0010_0000,
        ahb_read: 0,
        apb1enr: 0,
        apb_read: 0,
        pwr_cr: vos_mask(t.version()),
        gpio: reset_gpio(),
        hse_ready: false,
        pll_ready: false,
        latency: 0,
        source: 0,
        over_ready: false,
        over_switched: false,
        acr_written: false,
        polls: 0,
        osc_in: want.facts.osc_in,
        bypass: want.facts.bypass,
        prefetch: prefetch(t, want.facts.vdd),
        version: t.version(),
    }
}

/// The pins for debugging, PA13 to PA15, PB3 and PB4, have their functions, PA13 and PB3 are fast, and PA13, PA14, PA15
/// and PB4 have their pull resistors.
fn reset_gpio() -> [u32; 54]
    ensures { result ≡ reset_gpio }
{
    let mut gpio = [0; 54];
    gpio[0] = 0xA800_0000;
    gpio[2] = 0x0C00_0000;
    gpio[3] = 0x6400_0000;
    gpio[6] = 0x0000_0280;
    gpio[8] = 0x0000_00C0;
    gpio[9] = 0x0000_0100;
    gpio
}
