//! Answers for a sample rate, and runs of their writes.
use crate::asked::{answered, ran, writes};
use i2s_pll::{I2sOp, I2sStep};
use std::test::Fail;

#[test]
fn the_nearest_rate_is_printed(rt: HostRuntime) -> Result<(), Fail> {
    let a = answered(rt.alloc(), true, 8)?;
    assert_eq!(rt; a.0, 0);
    let lines = br#"i2s n 172 r 2 div 3 odd 1
I2SCLK 86000000
rate 47991
error 8928
I2SPR 0x00000303
    REG(0x40023884u) = 0x20002B00u;
    REG(0x40023800u) = (REG(0x40023800u) & ~0x00000000u) | 0x04000000u;
    for (polls = 0u; (REG(0x40023800u) & 0x08000000u) != 0x08000000u; ) { if (++polls == 10000u) return PLLI2S_TIMEOUT; }
"#;
    assert_eq!(rt; a.1.as_slice(), lines.as_slice());
    Ok(())
}

#[test]
fn an_input_below_one_megahertz_gives_no_choice(rt: HostRuntime) -> Result<(), Fail> {
    let a = answered(rt.alloc(), true, 10)?;
    assert_eq!(rt; a.0, 1);
    assert_eq!(rt; a.1.as_slice(), b"no choice\n".as_slice());
    Ok(())
}

#[test]
fn a_crystal_that_is_not_wired_gives_no_choice(rt: HostRuntime) -> Result<(), Fail> {
    assert_eq!(rt; answered(rt.alloc(), false, 8)?.0, 1);
    Ok(())
}

#[test]
fn the_writes_end_with_the_clock_or_time_out(rt: HostRuntime) -> Result<(), Fail> {
    let [set, on, ready] = ran(rt.alloc(), writes(), true)?;
    assert_eq!(rt; set.i2sclk, 0);
    assert!(rt; set.legal && on.legal && ready.legal);
    assert_eq!(rt; ready.last, I2sStep::Went);
    assert_eq!(rt; ready.steps, 1);
    assert_eq!(rt; ready.i2sclk, 86_000_000);
    let [_, _, late] = ran(rt.alloc(), writes(), false)?;
    assert_eq!(rt; late.last, I2sStep::TimedOut);
    assert_eq!(rt; late.steps, 10_000);
    Ok(())
}

#[test]
fn a_clock_above_its_limit_is_illegal_once_it_runs(rt: HostRuntime) -> Result<(), Fail> {
    // N is 432 and R is 2: 216 MHz from an input of 1 MHz
    let ops = [
        I2sOp::Config(0x2000_6C00),
        I2sOp::On,
        I2sOp::Await { polls: 1 },
    ];
    let [set, on, _] = ran(rt.alloc(), ops, true)?;
    assert!(rt; set.legal);
    assert!(rt; !on.legal);
    Ok(())
}
