//! Inputs, sinks, and the faults that they count.
use refusal::Refusal;
use res_base::{Items, Text};
use res_io::{
    Failed, FileInputs, Gate, MemFile, MemInputs, MemSink, NoGate, OutSink, ReadFault, Sink,
    SureInputs, SureSink, read_all, write_all,
};
use std::alloc::Global;
use std::fs;
use std::test::Fail;

fn file(alloc: Global, name: &str, bytes: &[u8]) -> Result<MemFile, Fail> {
    Ok(MemFile {
        name: Text::copy(alloc, name)?,
        bytes: Items::of(Vec::from_slice(alloc, bytes)?),
    })
}

fn two_files(alloc: Global) -> Result<Vec<MemFile>, Fail> {
    let mut files = Vec::new(alloc);
    files.push(file(alloc, "T", b"table")?)?;
    files.push(file(alloc, "T", b"hidden")?)?;
    files.push(file(alloc, "", b"")?)?;
    Ok(files)
}

#[test]
fn inputs_in_memory_fail_at_the_listed_calls(rt: HostRuntime) -> Result<(), Fail> {
    let alloc = rt.alloc();
    let rows: [(&str, u64, Result<&[u8], ReadFault>); 7] = [
        ("T", 9, Ok(b"table")),
        ("", 9, Ok(b"")),
        ("P", 9, Err(ReadFault::Failed)),
        ("T", 0, Err(ReadFault::Failed)),
        ("T", 2, Err(ReadFault::Failed)),
        ("T", 4, Err(ReadFault::Failed)),
        ("T", 5, Ok(b"table")),
    ];
    for (name, failing, want) in rows {
        let failing = Vec::from_slice(alloc, &[failing])?;
        let mut inputs = MemInputs::new(alloc, two_files(alloc)?, failing, 2);
        match (read_all(alloc, &mut inputs, name), want) {
            (Ok(bytes), Ok(want)) => assert_eq!(rt; bytes.as_slice(), want, "{name:?}"),
            (Err(fault), Err(want)) => assert_eq!(rt; fault, Refusal::Fault(want), "{name:?}"),
            _ => panic!(rt; "{name:?}"),
        }
    }
    Ok(())
}

#[test]
fn inputs_are_read_up_to_the_limit(rt: HostRuntime) -> Result<(), Fail> {
    let alloc = rt.alloc();
    for (len, fits) in [(67_108_864, true), (67_108_865, false)] {
        let mut files = Vec::new(alloc);
        files.push(MemFile {
            name: Text::copy(alloc, "T")?,
            bytes: Items::of(vec![in alloc; 7u8; len]?),
        })?;
        let mut inputs = SureInputs::new(files);
        match read_all(alloc, &mut inputs, "T") {
            Ok(bytes) => assert!(rt; fits && bytes.len() == len),
            Err(fault) => assert!(rt; !fits && fault == Refusal::Fault(ReadFault::TooLong)),
        }
    }
    let mut inputs = SureInputs::new(Vec::new(alloc));
    let nothing = read_all(alloc, &mut inputs, "P").map_err(|_| "refused")?;
    assert_eq!(rt; nothing.len(), 0);
    Ok(())
}

#[test]
fn a_prefix_stands_written_after_a_fault(rt: HostRuntime) -> Result<(), Fail> {
    let alloc = rt.alloc();
    let text = [5u8; 100];
    let mut unreserved = MemSink::new(alloc, Vec::new(alloc), 64);
    assert_eq!(rt; write_all(&mut unreserved, &text), Err(Failed));
    for (failing, want, written) in [(1, Err(Failed), 64), (0, Err(Failed), 0), (2, Ok(()), 100)] {
        let mut sink = MemSink::new(alloc, Vec::from_slice(alloc, &[failing])?, 64);
        sink.reserve()?;
        assert_eq!(rt; write_all(&mut sink, &text), want, "{failing}");
        assert_eq!(rt; sink.written().len(), written, "{failing}");
    }
    let mut full = MemSink::new(alloc, Vec::new(alloc), 1_000_000);
    full.reserve()?;
    let much = vec![in alloc; 1u8; 1_048_577]?;
    assert_eq!(rt; write_all(&mut full, much.as_slice()), Err(Failed));
    assert_eq!(rt; full.written().len(), 1_048_576);
    assert_eq!(rt; write_all(&mut SureSink, much.as_slice()), Ok(()));
    NoGate.pass(0, 0);
    Ok(())
}

#[test]
fn files_are_read(rt: HostRuntime) -> Result<(), Fail> {
    let alloc = rt.alloc();
    let text = vec![in alloc; 3u8; 100_000]?;
    fs::write(&rt, "input", text.as_slice())?;
    let mut inputs = FileInputs::new(&rt);
    let bytes = read_all(alloc, &mut inputs, "input").map_err(|_| "refused")?;
    assert!(rt; bytes.as_slice() == text.as_slice());
    assert_eq!(rt;
        read_all(alloc, &mut inputs, "absent").err(),
        Some(Refusal::Fault(ReadFault::Failed))
    );
    Ok(())
}

#[test]
fn standard_output_is_written(rt: HostRuntime) {
    let mut out = OutSink::new(&rt);
    assert_eq!(rt; write_all(&mut out, b"standard output\n"), Ok(()));
}
