//! The text of a clock choice.
use clock_tree::{ClockChoice, Facts, Src, tree_text};
use std::test::Fail;

const QUIET: Facts = Facts {
    hse_hz: 8_000_000,
    osc_in: true,
    bypass: false,
    need48: false,
    exact48: false,
    most48: false,
    floor: 0,
    vdd: 1700,
    hclk: None,
    pclk1: None,
    pclk2: None,
};

const RESET: ClockChoice = ClockChoice {
    src: Src::Hsi,
    psrc: Src::Hsi,
    hpre: 1,
    p: 2,
    m: 16,
    n: 192,
    q: 4,
    ppre1: 1,
    ppre2: 1,
    vos: 1,
};

#[test]
fn text_with_the_pll_off(rt: HostRuntime) -> Result<(), Fail> {
    let text = tree_text(rt.alloc(), &QUIET, &RESET, None)?;
    let want =
        b"clock\nsource HSI\npll off\nhse off\nahb 1 apb1 1 apb2 1 vos 1\nVCO_IN off\nVCO off\nSYSCLK 16000000\nHCLK 16000000\nPCLK1 16000000\nPCLK2 16000000\nAPB1TIM 16000000\nAPB2TIM 16000000\nCLK48 off\nvdd 1700 wait none\n";
    assert!(rt; text.as_slice() == want.as_slice());
    Ok(())
}

/// Whether the text of a power step has this line.
fn has_line(text: &[u8], line: &str) -> bool {
    match std::str::from_utf8(text) {
        Ok(text) => text.contains(line),
        Err(_) => false,
    }
}

#[test]
fn over_drive_stands_behind_its_scale(rt: HostRuntime) -> Result<(), Fail> {
    for (vos, line) in [
        (2, "apb2 1 vos 2\n"),
        (3, "apb2 1 vos 3\n"),
        (4, "apb2 1 vos 1 over\n"),
        (5, "apb2 1 vos 2 over\n"),
    ] {
        let text = tree_text(rt.alloc(), &QUIET, &ClockChoice { vos, ..RESET }, None)?;
        assert!(&rt; has_line(text.as_slice(), line), "step {vos}");
    }
    Ok(())
}

#[test]
fn text_of_fractions_shows_their_floors(rt: HostRuntime) -> Result<(), Fail> {
    let f = Facts {
        need48: true,
        exact48: true,
        vdd: 3300,
        ..QUIET
    };
    let c = ClockChoice {
        src: Src::Pll,
        psrc: Src::Hse,
        p: 4,
        m: 7,
        n: 336,
        q: 8,
        ppre1: 4,
        ppre2: 2,
        ..RESET
    };
    let text = tree_text(rt.alloc(), &f, &c, Some(3))?;
    let want =
        b"clock\nsource PLL\npll HSE 7 336 4 8\nhse crystal 8000000\nahb 1 apb1 4 apb2 2 vos 1\nVCO_IN 1142857\nVCO 384000000\nSYSCLK 96000000\nHCLK 96000000\nPCLK1 24000000\nPCLK2 48000000\nAPB1TIM 48000000\nAPB2TIM 96000000\nCLK48 48000000\nvdd 3300 wait 3\n";
    assert!(rt; text.as_slice() == want.as_slice());
    Ok(())
}
