//! Reads and writes of which each fails in turn.
use crate::texts::{files, placement, words_of};
use res_base::OutOfMemory;
use res_io::{MemInputs, MemSink};
use resolver::run_plain;
use std::alloc::Global;
use std::test::Fail;

/// More calls than a run makes.
const MOST: u64 = 64;

/// What a run says.
#[derive(Clone, Copy, Debug, PartialEq, Eq)]
enum Said {
    /// The whole placement, with status 0.
    Placement,
    /// That the table was not read, with status 3.
    NoTable,
    /// That the project was not read, with status 3.
    NoProject,
    /// The first so many bytes of the placement, with status 8.
    Front(usize),
    /// Anything else.
    Other,
}

/// What a status and a text say.
fn told(status: Option<u8>, text: &[u8]) -> Said {
    let whole = placement().as_bytes();
    match status {
        Some(0) if text == whole => Said::Placement,
        Some(3) if text == b"read failed: T\n".as_slice() => Said::NoTable,
        Some(3) if text == b"read failed: B\n".as_slice() => Said::NoProject,
        Some(8) if whole.starts_with(text) => Said::Front(text.len()),
        _ => Said::Other,
    }
}

/// A run whose read and whose write of these numbers fail. Reads give at most 512 bytes, and writes take at most 16.
fn placed(alloc: Global, read: u64, write: u64) -> Result<Said, OutOfMemory> {
    let words = words_of(alloc, "pins T B --need I2C1_SCL")?;
    let mut inputs = MemInputs::new(alloc, files(alloc)?, vec![in alloc; read]?, 512);
    let mut sink = MemSink::new(alloc, vec![in alloc; write]?, 16);
    sink.reserve()?;
    let status = run_plain(alloc, words.as_slice(), &mut inputs, &mut sink);
    Ok(told(status, sink.written()))
}

/// How many of the first reads fail with each text, in their order, and what is said where none fails.
#[derive(Clone, Copy, Debug, PartialEq, Eq)]
struct Reads {
    table: u64,
    project: u64,
    last: Said,
}

fn failed_reads(alloc: Global) -> Result<Reads, OutOfMemory> {
    let mut reads = Reads {
        table: 0,
        project: 0,
        last: Said::Other,
    };
    for call in 0..MOST {
        match placed(alloc, call, MOST)? {
            Said::NoTable if reads.project == 0 => {
                reads.table = reads.table.saturating_add(1);
            }
            Said::NoProject => reads.project = reads.project.saturating_add(1),
            said => {
                reads.last = said;
                break;
            }
        }
    }
    Ok(reads)
}

/// How many of the first writes fail, each behind 16 bytes more, and what is said where none fails.
#[derive(Clone, Copy, Debug, PartialEq, Eq)]
struct Writes {
    failed: u64,
    last: Said,
}

fn failed_writes(alloc: Global) -> Result<Writes, OutOfMemory> {
    let mut writes = Writes {
        failed: 0,
        last: Said::Other,
    };
    for call in 0..MOST {
        match placed(alloc, MOST, call)? {
            Said::Front(count) if count as u64 == 16 * call => {
                writes.failed = writes.failed.saturating_add(1);
            }
            said => {
                writes.last = said;
                break;
            }
        }
    }
    Ok(writes)
}

// The table has 3,084 bytes: it is opened, read seven times, and found to be at its end. The project has 61.
#[test]
fn each_read_that_fails_is_told(rt: HostRuntime) -> Result<(), Fail> {
    let reads = failed_reads(rt.alloc())?;
    assert_eq!(rt;
        reads,
        Reads {
            table: 9,
            project: 3,
            last: Said::Placement
        }
    );
    Ok(())
}

// The placement has 71 bytes.
#[test]
fn each_write_that_fails_leaves_what_was_written(rt: HostRuntime) -> Result<(), Fail> {
    let writes = failed_writes(rt.alloc())?;
    assert_eq!(rt;
        writes,
        Writes {
            failed: 5,
            last: Said::Placement
        }
    );
    Ok(())
}
