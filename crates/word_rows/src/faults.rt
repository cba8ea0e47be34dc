//! Lines of words that have no reading, and the first word that is not allowed.
use cmd_words::{UsageFault, read_words};
use refusal::Refusal;
use std::alloc::Global;
use std::test::Fail;

/// The words of a line, which are divided by blanks.
pub(crate) fn words_of(alloc: Global, line: &str) -> Result<Vec<String>, Fail> {
    let mut words = Vec::new(alloc);
    for word in line.split(' ') {
        words.push(String::from_str(alloc, word)?)?;
    }
    Ok(words)
}

/// The number of the word at fault, from 1, and 0 where none is.
fn fault(alloc: Global, line: &str) -> Result<usize, Fail> {
    let words = words_of(alloc, line)?;
    match read_words(alloc, words.as_slice()) {
        Err(Refusal::Fault(UsageFault::Word { word })) => Ok(word),
        _ => Ok(0),
    }
}

#[test]
fn no_words_have_no_first_one(rt: HostRuntime) -> Result<(), Fail> {
    match read_words(rt.alloc(), &[]) {
        Err(Refusal::Fault(UsageFault::Word { word })) => assert_eq!(rt; word, 1),
        _ => panic!(rt; "no words were read"),
    }
    Ok(())
}

#[test]
fn the_first_word_that_is_not_allowed_is_named(rt: HostRuntime) -> Result<(), Fail> {
    let rows = [
        ("--help", 1),
        ("resolve t", 3),
        ("resolve t p --workers 17", 5),
        ("resolve t p --vdd 10001", 5),
        ("resolve t p --hclk 4294967296", 5),
        ("resolve t p --free some", 5),
        ("resolve t p --proof --proof", 5),
        ("tree t p --vdd 3300 --vdd 3300", 6),
        ("tree t p --need A", 4),
        ("pins T B --need I2C1_SCL --need", 7),
        ("check t p", 4),
        ("check t p q --workers 1", 5),
        ("case", 2),
        ("case 18446744073709551616", 2),
        ("case 07", 2),
        ("case 7 --workers=2", 3),
        ("case 7 --workers 0", 4),
        ("ioc T", 3),
        ("ioc T C --proof", 4),
        ("ioc T C --workers 17", 5),
        ("board T A --proof", 4),
        ("board T A --workers 1", 4),
        ("explain T B --workers 2", 4),
    ];
    for (line, want) in rows {
        assert_eq!(rt; fault(rt.alloc(), line)?, want, "{line}");
    }
    Ok(())
}

#[test]
fn numbers_and_requests_have_ends(rt: HostRuntime) -> Result<(), Fail> {
    let rows = [
        ("i2s t p", 4),
        ("i2s t p 7999", 4),
        ("i2s t p 192001", 4),
        ("i2s t p 48000 --vdd", 5),
        ("dma", 2),
        ("dma t", 3),
        ("dma t --workers 4 x", 3),
        ("dma t x --workers 4 y", 6),
        ("dma t 1 2 3 4 5 6 7 8 9 10 11 12 13 14 15 16 17", 19),
        ("can t p", 4),
        ("can t p 0", 4),
        ("can t p 1000001 875", 4),
        ("can t p 500000 0", 5),
        ("can t p 500000 1000", 5),
        ("can t p 500000 875 1000", 6),
        ("can t p 500000 875 20 --vdd", 7),
    ];
    for (line, want) in rows {
        assert_eq!(rt; fault(rt.alloc(), line)?, want, "{line}");
    }
    Ok(())
}
