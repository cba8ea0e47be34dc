//! Lines, keys and escapes, and which faulty line is told.
use ioc_text::{Ioc, IocFault, read_ioc};
use ioc_without::text_without;
use refusal::Refusal;
use std::alloc::{AllocError, Global};
use std::process::Abort;
use std::test::Fail;

const B: &str = "Mcu.Name=STM32F407V(E-G)Tx\nMcu.Pin0=PB6\nPB6.Signal=USART1_TX";

fn text_of(bytes: &[u8]) -> &str {
    std::str::from_utf8(bytes).unwrap_or("?")
}

/// The lines as `NUMBER KEY=VALUE`, or the fault and its line.
fn told(alloc: Global, read: &Result<Ioc, Refusal<IocFault>>) -> Result<String, AllocError> {
    let mut out = String::new(alloc);
    match read {
        Ok(ioc) => {
            let lines = ioc.lines(alloc)?;
            for line in lines.as_slice() {
                let (key, value) = (text_of(line.key.as_slice()), text_of(line.value.as_slice()));
                out.push_str(format!(in alloc; "{} {key}={value}|", line.number)?.as_str())?;
            }
        }
        Err(Refusal::Fault(fault)) => out.push_str(format!(in alloc; "{fault:?}")?.as_str())?,
        Err(Refusal::OutOfMemory) => return Err(AllocError),
    }
    Ok(out)
}

fn reads(rt: &(impl Abort + AllocGlobal), text: &[u8], want: &str) -> Result<(), AllocError> {
    assert!(rt; text.len() < 4294967296);
    let read = read_ioc(rt.alloc(), text);
    let found = told(rt.alloc(), &read)?;
    assert_eq!(rt; found.as_str(), want, "of {}", text_of(text));
    Ok(())
}

#[test]
fn lines_and_keys(rt: HostRuntime) -> Result<(), Fail> {
    let cases = [
        ("", ""),
        (
            "#c\n\nMcu.Name=A\r\nx=\\q\nMcu.Pin0=PB6",
            "3 Mcu.Name=A|5 Mcu.Pin0=PB6|",
        ),
        ("Mcu.Name=A\r", "1 Mcu.Name=A\r|"),
        ("Mcu.Name=A\rB\r\r\n", "1 Mcu.Name=A\rB\r|"),
        ("\n\r\nMcu.Name=A=B\n", "3 Mcu.Name=A=B|"),
        ("Mcu.Name=", "1 Mcu.Name=|"),
        (
            "P\\=A\\ \\:1.Signal=a\\\\b\\#\\!",
            "1 P=A :1.Signal=a\\b#!|",
        ),
        ("=x\nMcu\\.Name=\\q", ""),
        ("Signal=\\q\nMcu.Pin=\\q\nMcu.Pin007=\\q", ""),
        (
            "Mcu.Pin18446744073709551615=a",
            "1 Mcu.Pin18446744073709551615=a|",
        ),
        ("Mcu.Pin18446744073709551616=a", ""),
        (
            ".Signal=x\nMcu.Name.GPIO_Speed=y",
            "1 .Signal=x|2 Mcu.Name.GPIO_Speed=y|",
        ),
        (
            "RCC.PLLM=8\nRCC.PLLR=8\nKeepUserPlacement=true",
            "1 RCC.PLLM=8|3 KeepUserPlacement=true|",
        ),
        ("RCC.PLLM", "NoEquals { line: 1 }"),
        ("Mcu.Name=A\na\\=b", "NoEquals { line: 2 }"),
        ("Mcu.Name=\\q", "BadEscape { line: 1 }"),
        ("\n.Signal=\\q", "BadEscape { line: 2 }"),
        ("Mcu.Name=a\\", "BadEscape { line: 1 }"),
        ("Mcu.Name=a\nMcu.Name=b", "TwiceKey { line: 2 }"),
        (".Signal=a\n#\n.Signal=a", "TwiceKey { line: 3 }"),
        ("P\\ .Locked=a\nP .Locked=a\nx", "TwiceKey { line: 2 }"),
        (
            "Mcu.Name=a\nMcu.Name=\\q\nMcu.Name=b",
            "BadEscape { line: 2 }",
        ),
    ];
    for (text, want) in cases {
        reads(&rt, text.as_bytes(), want)?;
    }
    Ok(())
}

#[test]
fn the_first_faulty_line_is_told(rt: HostRuntime) -> Result<(), Fail> {
    let cases = [
        // two keys stand twice, and the one that is repeated first is told, whichever is less
        (
            "b.Signal=\na.Signal=\nb.Signal=\na.Signal=",
            "TwiceKey { line: 3 }",
        ),
        (
            "a.Signal=\nb.Signal=\na.Signal=\nb.Signal=",
            "TwiceKey { line: 3 }",
        ),
        (
            "a.Signal=\nb.Signal=\nb.Signal=\na.Signal=\na.Signal=\nx",
            "TwiceKey { line: 3 }",
        ),
        // a fault of a line's own, and a repeat before and after it
        ("a.Signal=\na.Signal=\nx", "TwiceKey { line: 2 }"),
        ("a.Signal=\nx\na.Signal=", "NoEquals { line: 2 }"),
    ];
    for (text, want) in cases {
        reads(&rt, text.as_bytes(), want)?;
    }
    Ok(())
}

#[test]
fn long_lines(rt: HostRuntime) -> Result<(), Fail> {
    let mut text = vec![in rt.alloc(); b'#'; 65535]?;
    reads(&rt, text.as_slice(), "")?;
    text.push(b'\r')?;
    text.push(b'\n')?;
    reads(&rt, text.as_slice(), "")?;
    text.push(b'#')?;
    text.extend_from_slice(vec![in rt.alloc(); b'a'; 65535]?.as_slice())?;
    reads(&rt, text.as_slice(), "LongLine { line: 2 }").map_err(Fail::from)
}

#[test]
fn cut_inputs(rt: HostRuntime) -> Result<(), Fail> {
    let text = B.as_bytes();
    for length in 0..=text.len() {
        let want = match length {
            1..=8 => "NoEquals { line: 1 }",
            28..=35 => "NoEquals { line: 2 }",
            41..=50 => "NoEquals { line: 3 }",
            _ => continue,
        };
        reads(&rt, &text[..length], want)?;
    }
    reads(
        &rt,
        text,
        "1 Mcu.Name=STM32F407V(E-G)Tx|2 Mcu.Pin0=PB6|3 PB6.Signal=USART1_TX|",
    )?;
    Ok(())
}

fn number_of(ioc: &Ioc, key: &[u8]) -> Option<u32> {
    ioc.get(key).map(|line| line.number)
}

#[test]
fn keys_are_looked_up(rt: HostRuntime) -> Result<(), Fail> {
    let ioc = match read_ioc(rt.alloc(), B.as_bytes()) {
        Ok(ioc) => ioc,
        Err(fault) => panic!(rt; "{fault:?}"),
    };
    assert_eq!(rt; number_of(&ioc, b"Mcu.Name"), Some(1));
    assert_eq!(rt; number_of(&ioc, b"Mcu.Pin0"), Some(2));
    assert_eq!(rt; number_of(&ioc, b"PB6.Signal"), Some(3));
    assert_eq!(rt; number_of(&ioc, b"Mcu.Pin1"), None);
    assert_eq!(rt; number_of(&ioc, b""), None);
    Ok(())
}

#[test]
fn lines_are_left_out(rt: HostRuntime) -> Result<(), Fail> {
    let ioc = match read_ioc(rt.alloc(), B.as_bytes()) {
        Ok(ioc) => ioc,
        Err(fault) => panic!(rt; "{fault:?}"),
    };
    let left = ioc.without(rt.alloc(), 2)?;
    assert_eq!(rt; number_of(&left, b"Mcu.Name"), Some(1));
    assert_eq!(rt; number_of(&left, b"Mcu.Pin0"), None);
    assert_eq!(rt; number_of(&left, b"PB6.Signal"), Some(3));
    let fewer = left.without(rt.alloc(), 3)?;
    assert_eq!(rt; number_of(&fewer, b"Mcu.Name"), Some(1));
    assert_eq!(rt; number_of(&fewer, b"Mcu.Pin0"), None);
    assert_eq!(rt; number_of(&fewer, b"PB6.Signal"), None);
    assert_eq!(rt; number_of(&ioc, b"Mcu.Pin0"), Some(2));
    Ok(())
}

/// The lines that are left without one, and those of the text without it.
fn leaves(
    rt: &(impl Abort + AllocGlobal),
    text: &[u8],
    number: u32,
    want: &str,
) -> Result<(), Fail> {
    assert!(rt; text.len() < 4294967296);
    let ioc = read_ioc(rt.alloc(), text)?;
    let left = ioc.without(rt.alloc(), number)?;
    let found = told(rt.alloc(), &Ok(left))?;
    assert_eq!(rt; found.as_str(), want, "without {number}");
    let other = text_without(rt.alloc(), text, number)?;
    reads(rt, other.as_slice(), want)?;
    Ok(())
}

#[test]
fn a_text_without_a_line_says_the_others(rt: HostRuntime) -> Result<(), Fail> {
    let text = b"#c\nMcu.Name=A\n\nPB6.Signal=x\r\nq=1\nMcu.Pin0=PB6";
    let all = "2 Mcu.Name=A|4 PB6.Signal=x|6 Mcu.Pin0=PB6|";
    let cases = [
        (0, all),
        (1, all),
        (2, "4 PB6.Signal=x|6 Mcu.Pin0=PB6|"),
        (3, all),
        (4, "2 Mcu.Name=A|6 Mcu.Pin0=PB6|"),
        (5, all),
        (6, "2 Mcu.Name=A|4 PB6.Signal=x|"),
        (7, all),
    ];
    for (number, want) in cases {
        leaves(&rt, text, number, want)?;
    }
    Ok(())
}
