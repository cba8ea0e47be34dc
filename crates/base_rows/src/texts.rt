//! Lists, texts and numbers.
use res_base::{Items, Text, parse_dec, put_dec, put_line};
use std::test::Fail;

#[test]
fn pushed_items_are_read(rt: HostRuntime) -> Result<(), Fail> {
    let mut items = Items::of(Vec::new(rt.alloc()));
    items.push(1u8)?;
    items.push(2u8)?;
    assert_eq!(rt; items.as_slice(), [1u8, 2].as_slice());
    Ok(())
}

#[test]
fn lines_and_numbers_are_written(rt: HostRuntime) -> Result<(), Fail> {
    let text = Text::copy(rt.alloc(), "rank ")?;
    let mut out = Vec::from_slice(rt.alloc(), text.as_str().as_bytes())?;
    put_dec(rt.alloc(), &mut out, 18_446_744_073_709_551_615)?;
    put_line(&mut out, b" is the last")?;
    assert_eq!(rt;
        out.as_slice(),
        b"rank 18446744073709551615 is the last\n".as_slice()
    );
    Ok(())
}

#[test]
fn numbers_are_read_without_leading_zeros(rt: HostRuntime) -> Result<(), Fail> {
    assert_eq!(rt;
        parse_dec(b"18446744073709551615"),
        Some(18_446_744_073_709_551_615)
    );
    assert_eq!(rt; parse_dec(b"0"), Some(0));
    for text in [b"00".as_slice(), b"18446744073709551616", b"+1", b"", b"1 "] {
        assert_eq!(rt; parse_dec(text), None);
    }
    Ok(())
}
