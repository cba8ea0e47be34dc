//! The texts of which a C function is made.
ghost use Rattle.std.specs.Prelude.{◌≡◌, ◌<◌, [], get_or};
ghost use Rattle.std.specs.List.{list_any};
ghost use Rattle.c_print.specs.Text.{part_text, await_end, is_over, is_over_op, awaits_over, answers_part, frame};

use reg_machine::{Op, Timeout};

/// A text that stands in every C function, or around the numbers of a line.
#[derive(Clone, Copy, Debug, PartialEq, Eq)]
pub enum Part {
    /// The six lines before those of the accesses.
    Include,
    Macro,
    Answers,
    /// The third line, where over-drive is awaited.
    OverAnswers,
    Function,
    Open,
    Counter,
    /// The two lines after them.
    Return,
    Close,
    /// What stands before the address in the line of a write or modify, of a read, and of an await.
    Store,
    Load,
    Poll,
    Gets,
    GetsOld,
    ButNot,
    Or,
    Under,
    IsNot,
    AtMost,
    End,
    LoadEnd,
    /// What stands before the digits of a word, and after those of any number.
    Hex,
    Unsigned,
}

#[tactic(auto, unfolding(crate::specs::Text::part_text))]
pub fn text_of(part: Part) -> &'static [u8]
    ensures { result.now ≡ part_text part }
{
    match part {
        Part::Include => b"#include <stdint.h>\n",
        Part::Macro => b"#define REG(a) (*(volatile uint32_t *)(a))\n",
        Part::Answers => {
            b"enum { DONE, HSE_TIMEOUT, PLL_TIMEOUT, LATENCY_TIMEOUT, SWITCH_TIMEOUT };\n"
        }
        Part::OverAnswers => {
            b"enum { DONE, HSE_TIMEOUT, PLL_TIMEOUT, LATENCY_TIMEOUT, SWITCH_TIMEOUT, OVER_TIMEOUT, OVER_SWITCH_TIMEOUT };\n"
        }
        Part::Function => b"int board_init(void)\n",
        Part::Open => b"{\n",
        Part::Counter => b"    uint32_t polls;\n",
        Part::Return => b"    return DONE;\n",
        Part::Close => b"}\n",
        Part::Store => b"    REG(",
        Part::Load => b"    (void)REG(",
        Part::Poll => b"    for (polls = 0u; (REG(",
        Part::Gets => b") = ",
        Part::GetsOld => b") = (REG(",
        Part::ButNot => b") & ~",
        Part::Or => b") | ",
        Part::Under => b") & ",
        Part::IsNot => b") != ",
        Part::AtMost => b"; ) { if (++polls == ",
        Part::End => b";\n",
        Part::LoadEnd => b");\n",
        Part::Hex => b"0x",
        Part::Unsigned => b"u",
    }
}

/// What stands after the count of an await's polls.
#[tactic(auto, unfolding(crate::specs::Text::await_end, crate::specs::Text::timeout_name))]
pub fn await_end(name: Timeout) -> &'static [u8]
    ensures { result.now ≡ await_end name }
{
    match name {
        Timeout::Hse => b") return HSE_TIMEOUT; }\n",
        Timeout::Pll => b") return PLL_TIMEOUT; }\n",
        Timeout::Latency => b") return LATENCY_TIMEOUT; }\n",
        Timeout::Switch => b") return SWITCH_TIMEOUT; }\n",
        Timeout::Over => b") return OVER_TIMEOUT; }\n",
        Timeout::OverSwitch => b") return OVER_SWITCH_TIMEOUT; }\n",
    }
}

/// Whether an await waits for over-drive or its switch.
fn is_over(name: Timeout) -> bool
    ensures { result ≡ is_over name }
{
    match name {
        Timeout::Over | Timeout::OverSwitch => true,
        Timeout::Hse | Timeout::Pll | Timeout::Latency | Timeout::Switch => false,
    }
}

pub fn is_over_op(op: &Op) -> bool
    ensures { result ≡ is_over_op op.now }
{
    match *op {
        Op::Await {
            reg: _,
            mask: _,
            want: _,
            polls: _,
            name,
        } => is_over(name),
        _ => false,
    }
}

/// Whether some access waits for over-drive or its switch.
pub fn awaits_over(ops: &[Op]) -> bool
    ensures { result ≡ awaits_over ops.now }
{
    ops.iter().any(|op| is_over_op(op))
}

/// The third line of the frame.
fn answers_part(over: bool) -> Part
    ensures { result ≡ answers_part over }
{
    if over {
        Part::OverAnswers
    } else {
        Part::Answers
    }
}

/// The line at a place of the frame, from 0; the third one tells whether over-drive is awaited.
pub fn frame_part(over: bool, place: usize) -> Part
    requires { place < 6 }
    ensures { part_text result ≡ get_or (frame over) place [] }
{
    match place {
        0 => Part::Include,
        1 => Part::Macro,
        2 => answers_part(over),
        3 => Part::Function,
        4 => Part::Open,
        _ => Part::Counter,
    }
}
