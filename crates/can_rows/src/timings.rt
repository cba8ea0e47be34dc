//! Worked timings, and requests that none serves.
use answers::{Answer, Status};
use can_timing::{CanJudge, answer, btr, check_can};
use refutation::read_proof;
use res_base::Ratio;
use std::alloc::Global;
use std::test::Fail;

fn at_42(alloc: Global, rate: u32, tolerance: u32) -> Result<Answer, Fail> {
    Ok(answer(alloc, Ratio::whole(42_000_000), rate, 875, tolerance)?)
}

#[test]
fn the_least_prescaler_is_printed(rt: HostRuntime) -> Result<(), Fail> {
    let a = at_42(rt.alloc(), 500_000, 20)?;
    assert_eq!(rt; a.status, Status::Done);
    assert_eq!(rt;
        a.text.as_slice(),
        b"rank 721 of 131072\nbrp 6 bs1 11 bs2 2\nquanta 14 point 857\nPCLK1 42000000 rate 500000\nBTR 0x001A0005\n".as_slice()
    );
    Ok(())
}

#[test]
fn no_prescaler_is_large_enough(rt: HostRuntime) -> Result<(), Fail> {
    let a = answer(rt.alloc(), Ratio::whole(16_000_000), 500, 875, 20)?;
    assert_eq!(rt; a.status, Status::NoChoice);
    assert_eq!(rt;
        a.text.as_slice(),
        b"proof 1\nbound none\nL 3\nend\n".as_slice()
    );
    Ok(())
}

#[test]
fn no_timing_has_the_very_sample_point(rt: HostRuntime) -> Result<(), Fail> {
    let a = at_42(rt.alloc(), 500_000, 0)?;
    assert_eq!(rt; a.status, Status::NoChoice);
    let text = a.text.as_slice();
    assert!(rt; text.len() < 100_000);
    let proof = read_proof(rt.alloc(), text)?;
    assert!(rt; proof.nodes.len() < 10_000);
    let judge = CanJudge::new(rt.alloc(), Ratio::whole(42_000_000), 500_000, 875, 0)?;
    assert_eq!(rt; check_can(rt.alloc(), &judge, &proof), Ok(None));
    Ok(())
}

#[test]
fn a_rate_is_not_rounded(rt: HostRuntime) -> Result<(), Fail> {
    // 42,000,000 is no multiple of 499,900.
    assert_eq!(rt; at_42(rt.alloc(), 499_900, 20)?.status, Status::NoChoice);
    // A third of a hertz more than 42,000,000.
    let clock = Ratio::whole(126_000_001).over(3);
    assert_eq!(rt;
        answer(rt.alloc(), clock, 500_000, 875, 20)?.status,
        Status::NoChoice
    );
    Ok(())
}

#[test]
fn each_number_of_the_register_is_one_less(rt: HostRuntime) -> Result<(), Fail> {
    assert_eq!(rt; btr(1, 1, 1), 0);
    assert_eq!(rt; btr(1024, 16, 8), 0x007F_03FF);
    Ok(())
}
