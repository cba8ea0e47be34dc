//! The signals that a largest assignment leaves out.
ghost use Rattle.std.specs.Prelude.{◌≡◌, length};

use pin_match::Matcher;
use res_base::VarSet;
use std::test::Fail;

fn set_of(members: &[u8]) -> VarSet {
    let mut set = VarSet::new();
    for r in members {
        if *r < 192 {
            set.put(*r);
        }
    }
    set
}

// The answer as a list of the variables below 5, as decimal digits from 1 on; 0 where all are served.
fn digits(m: &mut Matcher, sets: &[VarSet]) -> u64
    requires { length sets.now ≡ m.old.variables }
    ensures { m.new ≡ m.old }
{
    let Some(set) = m.hall(sets) else {
        return 0;
    };
    let mut digits: u64 = 0;
    for v in 0..5u8 {
        if set.has(v) {
            digits = digits.wrapping_mul(10).wrapping_add(u64::from(v) + 1);
        }
    }
    digits
}

#[test]
fn fresh_matchers(rt: HostRuntime) -> Result<(), Fail> {
    let four = [set_of(&[0, 1]), set_of(&[2]), set_of(&[1]), set_of(&[0, 2])];
    assert_eq!(rt; digits(&mut Matcher::new(4, 3)?, &four), 1234);
    let three = [set_of(&[0, 1]), set_of(&[2]), set_of(&[1])];
    assert_eq!(rt; digits(&mut Matcher::new(3, 3)?, &three), 0);
    Ok(())
}

#[test]
fn goes_on_from_the_last_call(rt: HostRuntime) -> Result<(), Fail> {
    let first = [set_of(&[0, 1]), set_of(&[2]), set_of(&[1]), set_of(&[0, 2])];
    let second = [set_of(&[0]), set_of(&[0]), set_of(&[1]), set_of(&[2])];
    let mut m = Matcher::new(4, 3)?;
    assert_eq!(rt; digits(&mut m, &first), 1234);
    assert_eq!(rt; digits(&mut m, &second), 12);
    assert_eq!(rt; digits(&mut m, &first), 1234);
    Ok(())
}
