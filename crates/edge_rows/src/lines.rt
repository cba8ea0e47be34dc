//! A line of each kind.
use answers::{Status, counts, names, says};
use std::test::Fail;

#[test]
fn a_line_ends_with_its_name_or_number(rt: HostRuntime) -> Result<(), Fail> {
    let alloc = rt.alloc();
    let none = says(alloc, Status::NoChoice, "no choice")?;
    assert_eq!(rt; none.text.as_slice(), b"no choice\n".as_slice());
    assert_eq!(rt; none.status.number(), 1);
    let long = names(alloc, Status::TooLong, "too long: ", "T")?;
    assert_eq!(rt; long.text.as_slice(), b"too long: T\n".as_slice());
    let word = counts(alloc, Status::Usage, "usage: word ", 3)?;
    assert_eq!(rt; word.text.as_slice(), b"usage: word 3\n".as_slice());
    assert_eq!(rt; word.status.number(), 2);
    Ok(())
}
