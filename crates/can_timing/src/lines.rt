//! The lines of a bit timing.
ghost use Rattle.std.specs.Prelude.{◌≡◌, ◌++◌, ◌<◌, ◌^◌, IfOk, OnOk, string_bytes};
ghost use Rattle.can_timing.specs.Timings.{IsTiming, btr_of};
ghost use Rattle.can_timing.specs.Texts.{digit, digits_2, digits_4, digits_8, rank_line, segments_line, point_line, rate_line, btr_line};

use crate::register::btr;
use crate::request::Request;
use crate::timing::{Timing, quanta};
use std::alloc::{AllocError, Global};

#[tactic(auto, unfolding(crate::specs::Texts::rank_line))]
pub(crate) fn rank_line(alloc: Global, rank: u64) -> Result<String, AllocError>
    ensures { IfOk result (λ x. string_bytes x ≡ rank_line rank) }
{
    let line = format!(in alloc; "rank {rank} of 131072\n")?;
    Ok(line)
}

#[tactic(auto, unfolding(crate::specs::Texts::segments_line))]
pub(crate) fn segments_line(alloc: Global, t: Timing) -> Result<String, AllocError>
    ensures { IfOk result (λ x. string_bytes x ≡ segments_line t) }
{
    let brp = t.brp;
    let bs1 = t.bs1;
    let bs2 = t.bs2;
    let line = format!(in alloc; "brp {brp} bs1 {bs1} bs2 {bs2}\n")?;
    Ok(line)
}

#[tactic(auto, unfolding(crate::specs::Texts::point_line))]
pub(crate) fn point_line(alloc: Global, t: Timing) -> Result<String, AllocError>
    ensures { IfOk result (λ x. string_bytes x ≡ point_line t) }
{
    let count = quanta(t);
    let point = 1000 * (1 + t.bs1 as u64) / count;
    let line = format!(in alloc; "quanta {count} point {point}\n")?;
    Ok(line)
}

#[tactic(auto, unfolding(crate::specs::Texts::rate_line))]
pub(crate) fn rate_line(alloc: Global, q: &Request) -> Result<String, AllocError>
    ensures { IfOk result (λ x. string_bytes x ≡ rate_line q.now) }
{
    let hertz = q.pclk.floor();
    let rate = q.rate;
    let line = format!(in alloc; "PCLK1 {hertz} rate {rate}\n")?;
    Ok(line)
}

/// Appends the line of the register.
#[tactic(auto, unfolding(crate::specs::Texts::btr_line))]
pub(crate) fn put_btr_line(out: &mut Vec<u8>, t: Timing) -> Result<(), AllocError>
    requires { IsTiming t }
    ensures { OnOk result (out.new.items ≡ out.old.items ++ btr_line t) }
{
    let word = btr(t.brp, t.bs1, t.bs2);
    out.extend_from_slice(b"BTR 0x")?;
    put_digits_8(out, word)?;
    out.extend_from_slice(b"\n")
}

#[tactic(auto, unfolding(crate::specs::Texts::digits_8))]
fn put_digits_8(out: &mut Vec<u8>, n: u32) -> Result<(), AllocError>
    ensures { OnOk result (out.new.items ≡ out.old.items ++ digits_8 n) }
{
    put_digits_4(out, n / 0x1_0000)?;
    put_digits_4(out, n % 0x1_0000)
}

#[tactic(auto, unfolding(crate::specs::Texts::digits_4))]
fn put_digits_4(out: &mut Vec<u8>, n: u32) -> Result<(), AllocError>
    requires { n < 65536 }
    ensures { OnOk result (out.new.items ≡ out.old.items ++ digits_4 n) }
{
    put_digits_2(out, n / 0x100)?;
    put_digits_2(out, n % 0x100)
}

#[tactic(auto, unfolding(crate::specs::Texts::digits_2))]
fn put_digits_2(out: &mut Vec<u8>, n: u32) -> Result<(), AllocError>
    requires { n < 256 }
    ensures { OnOk result (out.new.items ≡ out.old.items ++ digits_2 n) }
{
    out.extend_from_slice(&[digit(n / 0x10), digit(n % 0x10)])
}

/// The upper-case hexadecimal digit of a number.
#[tactic(auto, unfolding(crate::specs::Texts::digit))]
fn digit(n: u32) -> u8
    requires { n < 16 }
    ensures { result ≡ digit n }
{
    if n < 10 {
        b'0' + n as u8
    } else {
        b'A' - 10 + n as u8
    }
}
