//! One step of a run that is traced.
ghost use Rattle.std.specs.Prelude.{◌≡◌, ◌+◌, ◌<◌, ◌^◌, ◌&&◌, drop};
ghost use Rattle.reg_machine.specs.Legal.{is_legal};
ghost use Rattle.reg_machine.specs.Words.{IsOp};
ghost use Rattle.reg_trace.specs.Trace.{fine_after, goes_on, number_after};
ghost use Rattle.reg_trace.specs.Turn.{IsTurn, effect_of, legal_after, todo_after};

use reg_machine::{Answer, Machine, Op, Stepped, flags_come_once};
use res_model::Src;

/// What a step did, whether each state since the line before it is legal, and whether the one behind it is.
#[derive(Clone, Copy, Debug)]
pub(crate) struct Turn {
    pub stepped: Stepped,
    pub fine: bool,
    pub legal: bool,
}

/// What flags may change of all that legality goes by: the source, the latency and the power step in effect.
#[derive(Clone, Copy, Debug, PartialEq, Eq)]
pub(crate) struct Effect {
    pub source: Src,
    pub latency: u8,
    pub power: Option<u8>,
}

/// One step: the flags come, and then the access. What is known is whether the state before it is legal: a state is looked
/// at only where something has changed that legality goes by.
pub(crate) fn take_turn(m: &mut Machine, op: &Op, a: Answer, fine: bool, legal: bool) -> Turn
    requires op { IsOp op.now }
    requires legal { legal ≡ is_legal m.old.table m.old.want m.old.state }
    ensures { IsTurn m.old op.now a fine m.new result }
{
    flags_come_once();
    let before = effect_of(m);
    m.come(a);
    let flagged = is_legal_now(m, before, legal);
    let stepped = m.step(op, a);
    let after = is_legal_after(m, op, flagged);
    Turn {
        stepped,
        fine: all_hold(fine, flagged, after),
        legal: after,
    }
}

/// What is in effect.
fn effect_of(m: &Machine) -> Effect
    ensures { result ≡ effect_of m.now.state }
{
    Effect {
        source: m.source(),
        latency: m.latency(),
        power: m.power_of(),
    }
}

/// Whether a state is legal, where that is known for what was in effect before.
fn is_legal_now(m: &Machine, before: Effect, legal: bool) -> bool
    ensures { (effect_of m.now.state ≡ before → legal ≡ is_legal m.now.table m.now.want m.now.state) → result ≡ is_legal m.now.table m.now.want m.now.state }
{
    if effect_of(m) == before {
        legal
    } else {
        m.legal()
    }
}

/// Whether all three hold.
fn all_hold(fine: bool, flagged: bool, after: bool) -> bool
    ensures { result ≡ (fine && (flagged && after)) }
{
    fine && (flagged && after)
}

/// Whether the state behind a step is legal. A read notes enables, and an await counts polls: legality goes by neither, so it
/// is as in the state before.
fn is_legal_after(m: &Machine, op: &Op, flagged: bool) -> bool
    ensures { result ≡ legal_after op.now flagged m.now }
{
    match *op {
        Op::Write { reg: _, value: _ } => m.legal(),
        Op::Modify {
            reg: _,
            clear: _,
            set: _,
        } => m.legal(),
        Op::Read { reg: _ } => flagged,
        Op::Await {
            reg: _,
            mask: _,
            want: _,
            polls: _,
            name: _,
        } => flagged,
    }
}

/// Whether the run goes on behind a step.
pub(crate) fn goes_on(stepped: Stepped) -> bool
    ensures { result ≡ goes_on stepped }
{
    match stepped {
        Stepped::Went | Stepped::Waiting => true,
        Stepped::TimedOut { name: _ } | Stepped::Forbidden { rule: _ } => false,
    }
}

/// The number of the next line of an access.
pub(crate) fn number_after(stepped: Stepped, number: u32) -> u32
    requires { number + 1 < 2 ^ 32 }
    ensures { result ≡ number_after stepped number }
{
    match stepped {
        Stepped::Went => number + 1,
        _ => number,
    }
}

/// Whether each state since the last line is legal, behind a step.
pub(crate) fn fine_after(stepped: Stepped, fine: bool) -> bool
    ensures { result ≡ fine_after stepped fine }
{
    match stepped {
        Stepped::Went => true,
        _ => fine,
    }
}

/// The accesses that are left behind a step of the first.
pub(crate) fn todo_after(stepped: Stepped, ops: &[Op]) -> &[Op]
    ensures { result.now ≡ todo_after stepped ops.now }
{
    match stepped {
        Stepped::Went => rest_of(ops),
        _ => ops,
    }
}

/// The accesses behind the first.
fn rest_of(ops: &[Op]) -> &[Op]
    ensures { result.now ≡ drop 1 ops.now }
{
    if ops.is_empty() { ops } else { &ops[1..] }
}
