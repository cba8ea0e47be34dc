//! One deque with a thief.
use path_deque::Owner;
use std::test::Fail;

#[test]
fn a_thief_takes_the_other_end(rt: HostRuntime) -> Result<(), Fail> {
    let mut owner = Owner::new(rt.alloc(), 2)?;
    let mut thief = owner.thief()?;
    assert!(rt; owner.is_empty());
    assert!(rt; owner.push(2).is_ok());
    assert!(rt; owner.push(3).is_ok());
    assert!(rt; owner.push(7).is_ok());
    assert!(rt; !owner.is_empty());
    let stolen = thief.steal();
    let popped = owner.pop();
    let last = owner.pop();
    let none = thief.steal();
    owner.take_back(thief);
    assert_eq!(rt; stolen, Some(2));
    assert_eq!(rt; popped, Some(7));
    assert_eq!(rt; last, Some(3));
    assert_eq!(rt; none, None);
    assert_eq!(rt; owner.pop(), None);
    Ok(())
}
