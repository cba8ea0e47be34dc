//! Workers that meet at their boxes, and a search whose workers but one are held.
use crate::outcomes::resolved;
use crate::texts::words_of;
use crossbeam_utils::Backoff;
use res_base::OutOfMemory;
use res_io::{Gate, MemInputs, MemSink};
use resolver::run;
use std::alloc::{AllocGlobal, Global};
use std::sync::Wait;
use std::sync::atomic::{AtomicBool, AtomicU64, Ordering};
use std::test::Fail;
use std::thread::Threads;

/// How many boxes worker number 0 passes alone.
const BOXES: u64 = 1_000;

/// How often a worker that is held looks, before it goes on by itself: on one thread no other ever comes.
const LOOKS: u32 = 50_000_000;

/// A gate that holds all workers but number 0 until that one has passed so many boxes, or they have looked so often.
#[derive(Drop)]
struct HeldGate {
    open: AtomicBool,
}

impl Gate for HeldGate {
    fn pass(&self, worker: u32, turn: u64) {
        if worker == 0 && turn < BOXES {
            return;
        }
        if worker != 0 {
            for _ in 0..LOOKS {
                if self.open.load(Ordering::SeqCst) {
                    return;
                }
            }
        }
        self.open.store(true, Ordering::SeqCst);
    }
}

/// Whether four workers, of which three are held, answer case 7 with these bytes.
fn answers_held(
    rt: &(impl Threads + Wait + Sync + AllocGlobal),
    due: &[u8],
) -> Result<bool, OutOfMemory> {
    let alloc = rt.alloc();
    let words = words_of(alloc, "case 7 --workers 4")?;
    let mut inputs = MemInputs::new(alloc, Vec::new(alloc), Vec::new(alloc), 512);
    let mut sink = MemSink::new(alloc, Vec::new(alloc), 512);
    sink.reserve()?;
    let gate = HeldGate {
        open: AtomicBool::new(false),
    };
    let status = run(rt, alloc, words.as_slice(), &mut inputs, &mut sink, &gate);
    Ok(status == 0 && sink.written() == due)
}

#[test]
fn workers_that_stand_still_change_nothing(rt: HostRuntime) -> Result<(), Fail> {
    let due = b"case 7\nrank 352950217932883\ncost 3\nHCLK 168000000\n";
    let same = answers_held(&rt, due)?;
    assert!(rt; same);
    Ok(())
}

/// A gate that holds the first worker which comes to its second box, until another worker comes to a box.
#[derive(Drop)]
struct Meeting {
    /// The worker that is held or was, counted from 1; 0 before.
    held: AtomicU64,
    /// Another worker came after the hold began.
    met: AtomicBool,
    /// Nobody came, and the hold was given up.
    alone: AtomicBool,
}

impl Meeting {
    fn new() -> Meeting {
        Meeting {
            held: AtomicU64::new(0),
            met: AtomicBool::new(false),
            alone: AtomicBool::new(false),
        }
    }

    /// Holds the caller until another worker has come.
    fn hold(&self) {
        let backoff = Backoff::new();
        for _ in 0..LOOKS {
            if self.met.load(Ordering::SeqCst) {
                return;
            }
            backoff.snooze();
        }
        self.alone.store(true, Ordering::SeqCst);
    }

    /// Whether a worker was held, and another came to it.
    fn took_place(&self) -> bool {
        let held = self.held.load(Ordering::SeqCst) != 0;
        let met = self.met.load(Ordering::SeqCst);
        held && met && !self.alone.load(Ordering::SeqCst)
    }
}

impl Gate for Meeting {
    fn pass(&self, worker: u32, turn: u64) {
        let name = u64::from(worker) + 1;
        let held = self.held.load(Ordering::SeqCst);
        if held != 0 && held != name {
            self.met.store(true, Ordering::SeqCst);
        }
        if turn == 1
            && self
                .held
                .compare_exchange(0, name, Ordering::SeqCst, Ordering::SeqCst)
                .is_ok()
        {
            self.hold();
        }
    }
}

#[test]
fn two_workers_are_at_boxes_at_one_time(rt: HostRuntime) -> Result<(), Fail> {
    let gate = Meeting::new();
    let report = resolved(&rt, "resolve T A --workers 2", &gate, 1_000)?;
    assert_eq!(rt; report.status, 0);
    assert!(rt; report.begins && report.ends);
    assert!(rt; gate.took_place());
    Ok(())
}
