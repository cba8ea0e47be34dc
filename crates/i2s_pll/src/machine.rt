//! The machine of the PLLI2S: the state of its registers with its input and its limits.
ghost use Rattle.std.specs.Prelude.{◌≡◌, ◌<◌, ◌^◌};

use crate::bounds::keeps_bounds;
use crate::clocks::i2sclk;
use crate::input::{Input, input_of};
use crate::op::{I2sOp, I2sStep};
use crate::state::State;
use crate::step::{n_of, r_of, reset_state, step};
use res_base::Ratio;
use res_model::{Bounds, ClockChoice, Facts, Tables};
use std::marker::Model;

/// The registers of the PLLI2S, from reset on. That the source of the PLLs is ready is taken for granted.
#[derive(Drop)]
pub struct I2sMachine {
    limits: Bounds,
    input: Input,
    state: State,
}

impl Model for I2sMachine {
    ghost use Rattle.res_base.specs.Fraction.{over, whole};
    ghost use Rattle.i2s_pll.specs.Machine.{IsStored, View};

    ghost Value = { View };

    ghost view = { λ m. record { limits = m.limits; input = over (whole m.input.hertz) m.input.m; state = m.state } };

    ghost invariant = { λ m. IsStored m.state };
}

impl I2sMachine {
    ghost use Rattle.std.specs.Prelude.{◌≡◌, ◌<◌, ◌^◌, ◌↔◌, IsTrue};
    ghost use Rattle.res_model.specs.Clock.{IsInRange};
    ghost use Rattle.i2s_pll.specs.Machine.{IsLegal, fresh, i2sclk_at, step_of};

    /// The machine after reset.
    pub fn reset(t: &Tables, f: &Facts, home: &ClockChoice) -> I2sMachine
        requires home { IsInRange home.now }
        requires hse { f.now.hse_hz < 2 ^ 32 }
        ensures { result ≡ fresh t.now f.now home.now }
    {
        I2sMachine {
            limits: t.parts().limits,
            input: input_of(f, home),
            state: reset_state(),
        }
    }

    /// One step: PLLI2SRDY comes where `ready` says so and PLLI2SON is set, and then the op is done or forbidden.
    pub fn step(&mut self, op: I2sOp, ready: bool) -> I2sStep
        ensures step { (result, self.new.state) ≡ step_of self.old.state op ready }
        ensures limits { self.new.limits ≡ self.old.limits }
        ensures input { self.new.input ≡ self.old.input }
    {
        step(&mut self.state, op, ready)
    }

    /// Whether the PLLI2S is off, or its clocks keep their limits.
    pub fn legal(&self) -> bool
        ensures { IsTrue result ↔ IsLegal self.now.limits self.now.input self.now.state }
    {
        let word = self.state.config;
        !self.state.on || keeps_bounds(&self.limits, self.input, n_of(word), r_of(word))
    }

    /// I2SCLK in hertz. None where the PLLI2S is off.
    pub fn i2sclk(&self) -> Option<Ratio>
        ensures { result ≡ i2sclk_at self.now.input self.now.state }
    {
        let word = self.state.config;
        if self.state.on {
            Some(i2sclk(self.input, n_of(word), r_of(word)))
        } else {
            None
        }
    }
}
