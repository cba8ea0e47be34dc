//! What whole runs answer: a refutation and its check, a report, an input that is too long.
use crate::texts::{bare_project, bare_table, discovery, files_of, table, words_of};
use res_base::{Items, OutOfMemory, Text};
use res_io::{Gate, MemFile, MemInputs, MemSink, NoGate};
use resolver::{run, run_plain};
use std::alloc::{AllocGlobal, Global};
use std::sync::Wait;
use std::test::Fail;
use std::thread::Threads;

/// The refutation of every choice under a table that has no flash.
fn refutation() -> &'static str {
    "proof 1\nbound none\nL 13\nend\n"
}

/// The status of a run over the bare table T, its project P and that refutation R, and whether it wrote these bytes.
fn bare(
    rt: &(impl Threads + Wait + Sync + AllocGlobal),
    line: &str,
    due: &[u8],
) -> Result<(u8, bool), OutOfMemory> {
    let alloc = rt.alloc();
    let words = words_of(alloc, line)?;
    let texts = [
        ("T", bare_table()),
        ("P", bare_project()),
        ("R", refutation()),
    ];
    let mut inputs = MemInputs::new(alloc, files_of(alloc, &texts)?, Vec::new(alloc), 512);
    let mut sink = MemSink::new(alloc, Vec::new(alloc), 64);
    sink.reserve()?;
    let status = run(rt, alloc, words.as_slice(), &mut inputs, &mut sink, &NoGate);
    Ok((status, sink.written() == due))
}

#[test]
fn a_table_without_flash_leaves_no_choice(rt: HostRuntime) -> Result<(), Fail> {
    assert_eq!(rt;
        bare(&rt, "resolve T P", refutation().as_bytes())?,
        (1, true)
    );
    Ok(())
}

#[test]
fn its_refutation_is_accepted(rt: HostRuntime) -> Result<(), Fail> {
    assert_eq!(rt;
        bare(&rt, "check T P R", b"accepted: no choice\n")?,
        (0, true)
    );
    Ok(())
}

/// What a command that may start threads answers where none may be started, and how much it writes.
fn plain(alloc: Global) -> Result<(Option<u8>, usize), OutOfMemory> {
    let words = words_of(alloc, "resolve T P")?;
    let texts = [("T", bare_table()), ("P", bare_project())];
    let mut inputs = MemInputs::new(alloc, files_of(alloc, &texts)?, Vec::new(alloc), 512);
    let mut sink = MemSink::new(alloc, Vec::new(alloc), 64);
    sink.reserve()?;
    let status = run_plain(alloc, words.as_slice(), &mut inputs, &mut sink);
    Ok((status, sink.written().len()))
}

#[test]
fn a_command_that_may_start_threads_is_not_answered_without(rt: HostRuntime) -> Result<(), Fail> {
    assert_eq!(rt; plain(rt.alloc())?, (None, 0));
    Ok(())
}

/// The status of a run whose table has so many bytes, and whether it wrote these.
fn over_zeros(alloc: Global, count: usize, due: &[u8]) -> Result<(Option<u8>, bool), OutOfMemory> {
    let words = words_of(alloc, "pins T P")?;
    let mut files = files_of(alloc, &[("P", bare_project())])?;
    files.push(MemFile {
        name: Text::copy(alloc, "T")?,
        bytes: Items::of(vec![in alloc; 0; count]?),
    })?;
    let mut inputs = MemInputs::new(alloc, files, Vec::new(alloc), 65536);
    let mut sink = MemSink::new(alloc, Vec::new(alloc), 4096);
    sink.reserve()?;
    let status = run_plain(alloc, words.as_slice(), &mut inputs, &mut sink);
    Ok((status, sink.written() == due))
}

#[test]
fn an_input_of_one_byte_too_many_is_told(rt: HostRuntime) -> Result<(), Fail> {
    let short = over_zeros(rt.alloc(), 3, b"tables: not json\n")?;
    assert_eq!(rt; short, (Some(5), true));
    let long = over_zeros(rt.alloc(), 67_108_865, b"too long: T\n")?;
    assert_eq!(rt; long, (Some(4), true));
    Ok(())
}

/// The status of a run that resolves the discovery board, how much it wrote, and whether that begins and ends as it should.
#[derive(Clone, Copy, Debug, PartialEq, Eq)]
pub(crate) struct Reported {
    pub(crate) status: u8,
    pub(crate) length: usize,
    pub(crate) begins: bool,
    pub(crate) ends: bool,
}

/// Resolves the discovery board by words, which pass a gate. The write of this number fails; each takes at most 64 bytes.
pub(crate) fn resolved<G: Gate + Sync>(
    rt: &(impl Threads + Wait + Sync + AllocGlobal),
    line: &str,
    gate: &G,
    fails: u64,
) -> Result<Reported, OutOfMemory> {
    let alloc = rt.alloc();
    let words = words_of(alloc, line)?;
    let texts = [("T", table()), ("A", discovery())];
    let mut inputs = MemInputs::new(alloc, files_of(alloc, &texts)?, Vec::new(alloc), 512);
    let mut sink = MemSink::new(alloc, vec![in alloc; fails]?, 64);
    sink.reserve()?;
    let status = run(rt, alloc, words.as_slice(), &mut inputs, &mut sink, gate);
    let text = sink.written();
    Ok(Reported {
        status,
        length: text.len(),
        begins: text.starts_with(
            b"rank 0 cost 0 of 3590395200\npins 10\nPH0-OSC_IN RCC_OSC_IN OSC ke",
        ),
        ends: text.ends_with(b"    return DONE;\n}\n"),
    })
}

#[test]
fn a_report_is_written_whole_or_to_the_piece_that_fails(rt: HostRuntime) -> Result<(), Fail> {
    let whole = resolved(&rt, "resolve T A", &NoGate, 1_000)?;
    assert_eq!(rt; whole.status, 0);
    assert!(rt; whole.begins && whole.ends);
    let cut = resolved(&rt, "resolve T A", &NoGate, 1)?;
    assert_eq!(rt; cut.status, 8);
    assert_eq!(rt; cut.length, 64);
    assert!(rt; cut.begins && !cut.ends);
    Ok(())
}
