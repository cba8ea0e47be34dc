//! Inputs that fail, and a sink that does.
use answers::{Status, says};
use call_io::{Gathered, gather, write_answer};
use res_base::{Items, OutOfMemory, Text};
use res_io::{MemFile, MemInputs, MemSink};
use std::alloc::Global;
use std::test::Fail;

/// A file of three bytes under this name.
fn file(alloc: Global, name: &str) -> Result<MemFile, OutOfMemory> {
    Ok(MemFile {
        name: Text::copy(alloc, name)?,
        bytes: Items::of(Vec::from_slice(alloc, b"abc")?),
    })
}

/// Whether both inputs are read, where these calls fail.
fn are_read(alloc: Global, failing: &[u64]) -> Result<bool, OutOfMemory> {
    let files = vec![in alloc; file(alloc, "T")?, file(alloc, "P")?]?;
    let mut inputs = MemInputs::new(alloc, files, Vec::from_slice(alloc, failing)?, 8);
    let names = vec![in alloc; Text::copy(alloc, "T")?, Text::copy(alloc, "P")?]?;
    match gather(alloc, &mut inputs, names.as_slice())? {
        Gathered::Files(files) => Ok(files.len() == 2),
        Gathered::Refused(answer) => Ok(answer.status != Status::ReadFailed),
    }
}

#[test]
fn inputs_are_read_until_one_fails(rt: HostRuntime) -> Result<(), Fail> {
    assert!(rt; are_read(rt.alloc(), &[])?);
    assert!(rt; !are_read(rt.alloc(), &[3])?);
    Ok(())
}

/// How a call ends that writes a line, where these puts fail.
fn ending(alloc: Global, failing: &[u64]) -> Result<u8, OutOfMemory> {
    let mut sink = MemSink::new(alloc, Vec::from_slice(alloc, failing)?, 4);
    sink.reserve()?;
    let answer = says(alloc, Status::NoChoice, "no choice")?;
    Ok(write_answer(&mut sink, &Ok(answer)).number())
}

#[test]
fn a_text_is_written_until_a_put_fails(rt: HostRuntime) -> Result<(), Fail> {
    assert_eq!(rt; ending(rt.alloc(), &[])?, 1);
    assert_eq!(rt; ending(rt.alloc(), &[1])?, 8);
    Ok(())
}
