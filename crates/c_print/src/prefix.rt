//! What a text begins with, and the rest of the text.
ghost use Rattle.std.specs.Prelude.{◌≡◌, ◌≢◌, ℕ, ◌<◌, ◌≤◌, ◌^◌, List, [], ◌++◌, Bool, get_or, position, ◌==◌, MatchOption};
ghost use Rattle.reg_map.specs.Registers.{IsRegister, address};
ghost use Rattle.reg_map.specs.declared.register.Reg.{Reg};
ghost use Rattle.reg_machine.specs.declared.op.Op.TheVariants as op;
ghost use Rattle.reg_machine.specs.declared.op.Timeout.{Timeout};
ghost use Rattle.c_print.specs.Text.{part_text, digit, digits_1, digits_2, digits_4, digits_8, hex, number_after, count, await_end, op_line, frame};
ghost use Rattle.c_print.specs.Reading.{FitsLine};
ghost use Rattle.c_print.specs.Prefixes.{Begins, BeginsNone, Below, IsCount, GoesOn, IsFrameLine, FitsFrame};

use crate::part::{Part, await_end, frame_part, is_over_op, text_of};
use reg_machine::{Op, Timeout};
use reg_map::{Reg, addr, reg_at};
use res_base::parse_dec;

/// The access whose line a text begins with, where the third line of the frame names its timeout.
pub fn op_within(over: bool, text: &[u8]) -> Option<(Op, &[u8])>
    ensures { MatchOption result (BeginsNone op_line (FitsFrame over) text.now) (λ x. Begins op_line (FitsFrame over) text.now x.0 x.1.now) }
{
    let (op, rest) = op_at(text)?;
    if over {
        return Some((op, rest));
    }
    if is_over_op(&op) {
        None
    } else {
        Some((op, rest))
    }
}

/// The access whose line a text begins with.
fn op_at(text: &[u8]) -> Option<(Op, &[u8])>
    ensures { MatchOption result (BeginsNone op_line FitsLine text.now) (λ x. Begins op_line FitsLine text.now x.0 x.1.now) }
{
    if let Some(found) = write_at(text) {
        return Some(found);
    }
    if let Some(found) = modify_at(text) {
        return Some(found);
    }
    if let Some(found) = read_at(text) {
        return Some(found);
    }
    await_at(text)
}

fn write_at(text: &[u8]) -> Option<(Op, &[u8])>
    ensures { MatchOption result ((r : Reg) (value : ℕ) (rest : List ℕ) → FitsLine (op.Write r value) → text.now ≢ op_line (op.Write r value) ++ rest) (λ x. Begins op_line FitsLine text.now x.0 x.1.now) }
{
    let (reg, rest) = register_at(Part::Store, text)?;
    let (value, rest) = number_at(Part::Gets, rest)?;
    let rest = after(Part::End, rest)?;
    Some((Op::Write { reg, value }, rest))
}

fn modify_at(text: &[u8]) -> Option<(Op, &[u8])>
    ensures { MatchOption result ((r : Reg) (clear set : ℕ) (rest : List ℕ) → FitsLine (op.Modify r clear set) → text.now ≢ op_line (op.Modify r clear set) ++ rest) (λ x. Begins op_line FitsLine text.now x.0 x.1.now) }
{
    let (reg, rest) = register_at(Part::Store, text)?;
    let (old, rest) = register_at(Part::GetsOld, rest)?;
    let (clear, rest) = number_at(Part::ButNot, rest)?;
    let (set, rest) = number_at(Part::Or, rest)?;
    let rest = after(Part::End, rest)?;
    if addr(old) == addr(reg) {
        Some((Op::Modify { reg, clear, set }, rest))
    } else {
        None
    }
}

fn read_at(text: &[u8]) -> Option<(Op, &[u8])>
    ensures { MatchOption result ((r : Reg) (rest : List ℕ) → FitsLine (op.Read r) → text.now ≢ op_line (op.Read r) ++ rest) (λ x. Begins op_line FitsLine text.now x.0 x.1.now) }
{
    let (reg, rest) = register_at(Part::Load, text)?;
    let rest = after(Part::LoadEnd, rest)?;
    Some((Op::Read { reg }, rest))
}

fn await_at(text: &[u8]) -> Option<(Op, &[u8])>
    ensures { MatchOption result ((r : Reg) (mask want polls : ℕ) (name : Timeout) (rest : List ℕ) → FitsLine (op.Await r mask want polls name) → text.now ≢ op_line (op.Await r mask want polls name) ++ rest) (λ x. Begins op_line FitsLine text.now x.0 x.1.now) }
{
    let (reg, rest) = register_at(Part::Poll, text)?;
    let (mask, rest) = number_at(Part::Under, rest)?;
    let (want, rest) = number_at(Part::IsNot, rest)?;
    let rest = after(Part::AtMost, rest)?;
    let (polls, rest) = count_at(rest)?;
    let (name, rest) = await_end_at(rest)?;
    Some((
        Op::Await {
            reg,
            mask,
            want,
            polls,
            name,
        },
        rest,
    ))
}

/// A register by its address, behind a text.
fn register_at(before: Part, text: &[u8]) -> Option<(Reg, &[u8])>
    ensures { MatchOption result (BeginsNone (λ (r : Reg). number_after before (address r)) IsRegister text.now) (λ x. Begins (λ (r : Reg). number_after before (address r)) IsRegister text.now x.0 x.1.now) }
{
    let (at, rest) = number_at(before, text)?;
    let reg = reg_at(at)?;
    Some((reg, rest))
}

/// A word behind a text.
fn number_at(before: Part, text: &[u8]) -> Option<(u32, &[u8])>
    ensures { MatchOption result (BeginsNone (number_after before) (Below (2 ^ 32)) text.now) (λ x. Begins (number_after before) (Below (2 ^ 32)) text.now x.0 x.1.now) }
{
    word_at(after(before, text)?)
}

fn word_at(text: &[u8]) -> Option<(u32, &[u8])>
    ensures { MatchOption result (BeginsNone hex (Below (2 ^ 32)) text.now) (λ x. Begins hex (Below (2 ^ 32)) text.now x.0 x.1.now) }
{
    let rest = after(Part::Hex, text)?;
    let (n, rest) = digits_8_at(rest)?;
    let rest = after(Part::Unsigned, rest)?;
    Some((n, rest))
}

fn digits_8_at(text: &[u8]) -> Option<(u32, &[u8])>
    ensures { MatchOption result (BeginsNone digits_8 (Below (2 ^ 32)) text.now) (λ x. Begins digits_8 (Below (2 ^ 32)) text.now x.0 x.1.now) }
{
    let (high, rest) = digits_4_at(text)?;
    let (low, rest) = digits_4_at(rest)?;
    Some((high * 65536 + low, rest))
}

fn digits_4_at(text: &[u8]) -> Option<(u32, &[u8])>
    ensures { MatchOption result (BeginsNone digits_4 (Below 65536) text.now) (λ x. Begins digits_4 (Below 65536) text.now x.0 x.1.now) }
{
    let (high, rest) = digits_2_at(text)?;
    let (low, rest) = digits_2_at(rest)?;
    Some((high * 256 + low, rest))
}

fn digits_2_at(text: &[u8]) -> Option<(u32, &[u8])>
    ensures { MatchOption result (BeginsNone digits_2 (Below 256) text.now) (λ x. Begins digits_2 (Below 256) text.now x.0 x.1.now) }
{
    let (high, rest) = digit_at(text)?;
    let (low, rest) = digit_at(rest)?;
    Some((high * 16 + low, rest))
}

fn digit_at(text: &[u8]) -> Option<(u32, &[u8])>
    ensures { MatchOption result (BeginsNone digits_1 (Below 16) text.now) (λ x. Begins digits_1 (Below 16) text.now x.0 x.1.now) }
{
    match text {
        [first, rest @ ..] => match value_of(*first) {
            Some(value) => Some((value, rest)),
            None => None,
        },
        [] => None,
    }
}

/// The number whose upper-case hexadecimal digit a byte is.
#[tactic(auto, unfolding(crate::specs::Text::digit))]
fn value_of(byte: u8) -> Option<u32>
    ensures { MatchOption result ((n : ℕ) → n < 16 → byte ≢ digit n) (λ n. (n < 16) × (byte ≡ digit n)) }
{
    match byte {
        b'0'..=b'9' => Some(u32::from(byte - b'0')),
        b'A'..=b'F' => Some(u32::from(byte - b'A') + 10),
        _ => None,
    }
}

/// A count of polls.
fn count_at(text: &[u8]) -> Option<(u32, &[u8])>
    ensures { MatchOption result (BeginsNone count IsCount text.now) (λ x. Begins count IsCount text.now x.0 x.1.now) }
{
    let end = place_of(b'u', text)?;
    let n = parse_dec(&text[..end])?;
    if 1 <= n && n < 1 << 32 {
        Some((n as u32, &text[end + 1..]))
    } else {
        None
    }
}

/// The place of the first such byte.
fn place_of(byte: u8, text: &[u8]) -> Option<usize>
    ensures { result ≡ position (λ b. b == byte) text.now }
{
    text.iter().position(|b| *b == byte)
}

/// The end of an await's line, by its timeout.
fn await_end_at(text: &[u8]) -> Option<(Timeout, &[u8])>
    ensures { MatchOption result ((name : Timeout) (rest : List ℕ) → text.now ≢ await_end name ++ rest) (λ x. text.now ≡ await_end x.0 ++ x.1.now) }
{
    if let Some(rest) = after_await_end(Timeout::Hse, text) {
        return Some((Timeout::Hse, rest));
    }
    if let Some(rest) = after_await_end(Timeout::Pll, text) {
        return Some((Timeout::Pll, rest));
    }
    if let Some(rest) = after_await_end(Timeout::Latency, text) {
        return Some((Timeout::Latency, rest));
    }
    if let Some(rest) = after_await_end(Timeout::Switch, text) {
        return Some((Timeout::Switch, rest));
    }
    if let Some(rest) = after_await_end(Timeout::Over, text) {
        return Some((Timeout::Over, rest));
    }
    let rest = after_await_end(Timeout::OverSwitch, text)?;
    Some((Timeout::OverSwitch, rest))
}

fn after_await_end(name: Timeout, text: &[u8]) -> Option<&[u8]>
    ensures { MatchOption result ((rest : List ℕ) → text.now ≢ await_end name ++ rest) (λ x. text.now ≡ await_end name ++ x.now) }
{
    text.strip_prefix(await_end(name))
}

/// What follows a text.
pub fn after(part: Part, text: &[u8]) -> Option<&[u8]>
    ensures { MatchOption result ((rest : List ℕ) → text.now ≢ part_text part ++ rest) (λ x. text.now ≡ part_text part ++ x.now) }
{
    text.strip_prefix(text_of(part))
}

/// The line of the frame at a place, from 0, with which a text begins, and whether the third line names the timeouts of
/// over-drive: `over` tells it once that line is read.
pub fn frame_line_at(over: bool, place: usize, text: &[u8]) -> Option<(bool, &[u8])>
    requires { place < 6 }
    ensures { MatchOption result ((next : Bool) (rest : List ℕ) → IsFrameLine place over text.now next rest → ⊥) (λ x. IsFrameLine place over text.now x.0 x.1.now) }
{
    if place == 2 {
        answers_at(over, text)
    } else {
        same_line_at(over, place, text)
    }
}

/// The third line, in either form.
fn answers_at(over: bool, text: &[u8]) -> Option<(bool, &[u8])>
    ensures { MatchOption result ((next : Bool) (rest : List ℕ) → IsFrameLine 2 over text.now next rest → ⊥) (λ x. IsFrameLine 2 over text.now x.0 x.1.now) }
{
    if let Some(rest) = after(Part::Answers, text) {
        return Some((false, rest));
    }
    let rest = after(Part::OverAnswers, text)?;
    Some((true, rest))
}

/// Any other line, which has one form.
fn same_line_at(over: bool, place: usize, text: &[u8]) -> Option<(bool, &[u8])>
    requires place { place < 6 }
    requires other { place ≢ 2 }
    ensures { MatchOption result ((next : Bool) (rest : List ℕ) → IsFrameLine place over text.now next rest → ⊥) (λ x. IsFrameLine place over text.now x.0 x.1.now) }
{
    let rest = after(frame_part(over, place), text)?;
    Some((over, rest))
}
