//! What the machine of the PLLI2S forbids, and a neighbour of each that goes.
use crate::asked::ran;
use i2s_pll::{I2sOp, I2sStep};
use std::alloc::Global;
use std::test::Fail;

/// What is answered to an op after reset.
fn first(alloc: Global, op: I2sOp) -> Result<I2sStep, Fail> {
    let [first, _, _] = ran(alloc, [op, I2sOp::On, I2sOp::On], false)?;
    Ok(first.last)
}

/// What is answered to an op while the PLLI2S is on, with N 192 and R 2, and has no flag.
fn second(alloc: Global, op: I2sOp) -> Result<I2sStep, Fail> {
    let [_, second, _] = ran(alloc, [I2sOp::On, op, I2sOp::On], false)?;
    Ok(second.last)
}

#[test]
fn the_word_is_written_while_the_plli2s_is_off(rt: HostRuntime) -> Result<(), Fail> {
    let word = I2sOp::Config(0x2000_3000);
    assert_eq!(rt; second(rt.alloc(), word)?, I2sStep::Forbidden);
    assert_eq!(rt; first(rt.alloc(), word)?, I2sStep::Went);
    Ok(())
}

#[test]
fn n_and_r_are_within_their_ranges_and_no_bit_is_set_beside_them(
    rt: HostRuntime,
) -> Result<(), Fail> {
    // N is 49, 50, 432 and 433, and R is 2; N is 192, and R is 1; one more bit; R is 7
    for (word, goes) in [
        (0x2000_0C40, false),
        (0x2000_0C80, true),
        (0x2000_6C00, true),
        (0x2000_6C40, false),
        (0x1000_3000, false),
        (0x2000_3001, false),
        (0xA000_3000, false),
        (0x7000_3000, true),
    ] {
        let went = first(rt.alloc(), I2sOp::Config(word))? == I2sStep::Went;
        assert_eq!(rt; went, goes, "{word}");
    }
    Ok(())
}

#[test]
fn an_await_has_polls_and_what_it_waits_for(rt: HostRuntime) -> Result<(), Fail> {
    let none = I2sOp::Await { polls: 0 };
    assert_eq!(rt; second(rt.alloc(), none)?, I2sStep::Forbidden);
    let two = I2sOp::Await { polls: 2 };
    assert_eq!(rt; second(rt.alloc(), two)?, I2sStep::TimedOut);
    assert_eq!(rt; first(rt.alloc(), two)?, I2sStep::Forbidden);
    Ok(())
}
