//! Runs of accesses, without clauses, so that no test carries the facts of a table. There is no answer where memory ran
//! out or a table was refused.
ghost use Rattle.std.specs.Prelude.{◌≡◌, true};
ghost use Rattle.reg_map.specs.Registers.{IsRegister};
ghost use Rattle.reg_machine.specs.Words.{IsOp};
ghost use Rattle.init_gen.specs.Good.{IsSettable};

use crate::settings::table;
use init_gen::{Setting, generate, target};
use mcu_tables::read_tables;
use reg_machine::{Answer, Machine, Op, Stepped};
use reg_map::Reg;
use res_base::Ratio;
use res_model::{Mode, Nodes, Src, Tables};
use std::alloc::Global;

/// How a run went: what the last step answered, how many steps it took, and whether each state was legal.
#[derive(Clone, Copy, Debug, PartialEq, Eq)]
pub(crate) struct Ran {
    pub last: Stepped,
    pub steps: u32,
    pub legal: bool,
}

/// What is seen of the machine behind a run: RCC_CFGR, the source, the latency and the power step in effect, the nodes in
/// hertz and the modes of some pins. Tests hold this and no
/// machine, since each of their early returns would have to drop it.
#[derive(Clone, Copy, Debug, PartialEq, Eq)]
pub(crate) struct Seen {
    pub ran: Ran,
    pub cfgr: u32,
    pub source: Src,
    pub latency: u8,
    pub power: Option<u8>,
    /// SYSCLK, HCLK, PCLK1, PCLK2 and the timers of the two buses; then the PLL's input, its VCO and the 48 MHz clock, 0
    /// where the PLL is off.
    pub hertz: [u64; 9],
    pub modes: [Mode; 4],
}

/// The table of a version.
fn tables(alloc: Global, version: u8) -> Option<Tables> {
    read_tables(alloc, table(version).as_bytes()).ok()
}

/// The machine after reset, with the table and the target of a setting.
fn machine(alloc: Global, s: &Setting) -> Option<Machine> {
    let tables = tables(alloc, s.version)?;
    let want = target(s);
    if want.facts.hse_hz < 0x1_0000_0000 {
        Machine::reset(alloc, &tables, &want).ok()
    } else {
        None
    }
}

/// The accesses that a setting gets.
fn accesses(alloc: Global, s: &Setting) -> Option<Vec<Op>>
    requires { IsSettable s.now }
{
    generate(alloc, s).ok()
}

/// How many accesses a setting gets, and whether they begin with these.
pub(crate) fn begins(alloc: Global, s: &Setting, first: &[Op]) -> Option<(usize, bool)>
    requires { IsSettable s.now }
{
    let ops = accesses(alloc, s)?;
    let begins = first.len() <= ops.len() && &ops.as_slice()[..first.len()] == first;
    Some((ops.len(), begins))
}

fn is_there(r: Reg) -> bool
    ensures { result ≡ true → IsRegister r }
{
    match r {
        Reg::Gpio { port, kind: _ } => port < 9,
        _ => true,
    }
}

fn is_known(op: &Op) -> bool
    ensures { result ≡ true → IsOp op.now }
{
    match *op {
        Op::Write { reg, value: _ } => is_there(reg),
        Op::Modify {
            reg,
            clear: _,
            set: _,
        } => is_there(reg),
        Op::Read { reg } => is_there(reg),
        Op::Await {
            reg,
            mask: _,
            want: _,
            polls: _,
            name: _,
        } => is_there(reg),
    }
}

/// One step; an access to a port that there is not never goes on.
fn stepped(m: &mut Machine, op: &Op, a: Answer) -> Stepped {
    if is_known(op) {
        m.step(op, a)
    } else {
        Stepped::Waiting
    }
}

/// A step for each access, whatever it answers.
fn steps(m: &mut Machine, ops: &[Op], a: Answer) {
    for op in ops {
        stepped(m, op, a);
    }
}

fn is_legal(m: &Machine) -> bool {
    m.legal()
}

/// An access until it is no longer waited for.
fn ended(m: &mut Machine, op: &Op, a: Answer) -> Ran {
    let mut legal = true;
    for before in 0..200_000u32 {
        let last = stepped(m, op, a);
        legal = is_legal(m) && legal;
        if last != Stepped::Waiting {
            return Ran {
                last,
                steps: before + 1,
                legal,
            };
        }
    }
    Ran {
        last: Stepped::Waiting,
        steps: 200_000,
        legal,
    }
}

fn and_then(before: Ran, next: Ran) -> Ran {
    Ran {
        last: next.last,
        steps: before.steps.saturating_add(next.steps),
        legal: before.legal && next.legal,
    }
}

/// The accesses one after the other, up to the first that does not go on, with the same answer at each step.
fn run(m: &mut Machine, ops: &[Op], a: Answer) -> Ran {
    let mut ran = Ran {
        last: Stepped::Went,
        steps: 0,
        legal: is_legal(m),
    };
    for op in ops {
        if ran.last == Stepped::Went {
            ran = and_then(ran, ended(m, op, a));
        }
    }
    ran
}

fn hertz(node: Option<Ratio>) -> u64 {
    match node {
        Some(node) => node.floor(),
        None => 0,
    }
}

fn nodes(m: &Machine) -> Nodes {
    m.nodes_of()
}

fn frequencies(m: &Machine) -> [u64; 9] {
    let n = nodes(m);
    [
        n.sysclk.floor(),
        n.hclk.floor(),
        n.pclk1.floor(),
        n.pclk2.floor(),
        n.tim1.floor(),
        n.tim2.floor(),
        hertz(n.vco_in),
        hertz(n.vco),
        hertz(n.clk48),
    ]
}

fn mode(m: &Machine, place: u8) -> Mode {
    if place < 144 {
        m.mode_of(place)
    } else {
        Mode::Osc
    }
}

fn configured(m: &Machine) -> u32 {
    m.word(Reg::Cfgr)
}

fn source(m: &Machine) -> Src {
    m.source()
}

fn latency(m: &Machine) -> u8 {
    m.latency()
}

fn power(m: &Machine) -> Option<u8> {
    m.power_of()
}

fn look(m: &Machine, ran: Ran, places: [u8; 4]) -> Seen {
    let [a, b, c, d] = places;
    Seen {
        ran,
        cfgr: configured(m),
        source: source(m),
        latency: latency(m),
        power: power(m),
        hertz: frequencies(m),
        modes: [mode(m, a), mode(m, b), mode(m, c), mode(m, d)],
    }
}

/// What is seen behind these accesses from reset, with the target of a setting.
pub(crate) fn after(
    alloc: Global,
    s: &Setting,
    ops: &[Op],
    a: Answer,
    places: [u8; 4],
) -> Option<Seen> {
    let mut m = machine(alloc, s)?;
    let ran = run(&mut m, ops, a);
    Some(look(&m, ran, places))
}

/// What the last of some accesses answers from reset, a step each, with the same answer of the flags at each.
pub(crate) fn told(
    alloc: Global,
    s: &Setting,
    before: &[Op],
    a: Answer,
    op: Op,
) -> Option<Stepped> {
    let mut m = machine(alloc, s)?;
    steps(&mut m, before, a);
    Some(stepped(&mut m, &op, a))
}

/// RCC_CFGR behind some accesses from reset, a step each.
pub(crate) fn cfgr_behind(alloc: Global, s: &Setting, ops: &[Op], a: Answer) -> Option<u32> {
    let mut m = machine(alloc, s)?;
    steps(&mut m, ops, a);
    Some(configured(&m))
}

fn flags_come(m: &mut Machine, a: Answer) {
    m.come(a)
}

/// What is seen where no flag comes at these accesses, and then those that are answered.
pub(crate) fn after_flags(alloc: Global, s: &Setting, ops: &[Op], a: Answer) -> Option<Seen> {
    let mut m = machine(alloc, s)?;
    let none = Answer {
        hse: false,
        pll: false,
        latency: false,
        switch: false,
        over: false,
        over_switch: false,
    };
    let ran = run(&mut m, ops, none);
    flags_come(&mut m, a);
    Some(look(&m, ran, [0; 4]))
}

/// What is seen behind the accesses that the setting gets.
pub(crate) fn set_up(alloc: Global, s: &Setting, a: Answer, places: [u8; 4]) -> Option<Seen>
    requires { IsSettable s.now }
{
    let ops = accesses(alloc, s)?;
    after(alloc, s, ops.as_slice(), a, places)
}
