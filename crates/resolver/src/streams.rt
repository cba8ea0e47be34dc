//! Streams for DMA requests.
ghost use Rattle.std.specs.Prelude.{◌≡◌, ◌≤◌, length, IfOk};
ghost use Rattle.call_io.specs.Gathered.{IsOfBytes};
ghost use Rattle.resolver.specs.Due.{input_at};
ghost use Rattle.resolver.specs.Opening.{AreInputs};
ghost use Rattle.resolver.specs.Requests.{OfRequests, OfRequestsIn};

use crate::commands::input_at;
use answers::{Answer, Status, counts};
use dma_model::DmaTable;
use dma_rules::{DmaFault, DmaWant, dma_answer};
use dma_table::read_dma;
use project_reading::refused_table;
use refusal::Refusal;
use res_base::{Items, OutOfMemory, Text};
use res_io::Gate;
use std::alloc::Global;
use std::sync::Wait;
use std::thread::Threads;

/// The number of the first word that names no request, or one that was named.
fn number_of(fault: DmaFault) -> u64
    ensures { fault ≡ DmaFault.Request result }
{
    match fault {
        DmaFault::Request { number } => number as u64,
    }
}

/// What is due for the requests that words name.
fn requested<R: Threads + Wait + Sync, G: Gate + Sync>(
    rt: &R,
    alloc: Global,
    table: &DmaTable,
    words: &[Text],
    workers: u32,
    gate: &G,
) -> Result<Answer, OutOfMemory>
    requires some { 1 ≤ length words.now }
    requires few { length words.now ≤ 16 }
    requires workers { (1 ≤ workers) × (workers ≤ 16) }
    ensures due { IfOk result (OfRequests words.now table.now) }
    ensures status { IfOk result (λ a. IsOfBytes a.status) }
{
    match DmaWant::new(alloc, table, words) {
        Ok(want) => dma_answer(rt, alloc, want, workers, gate),
        Err(Refusal::Fault(fault)) => counts(
            alloc,
            Status::RequestRefused,
            "dma: request ",
            number_of(fault),
        ),
        Err(Refusal::OutOfMemory) => Err(OutOfMemory),
    }
}

/// `dma`: streams for requests, by so many workers.
pub(crate) fn dma<R: Threads + Wait + Sync, G: Gate + Sync>(
    rt: &R,
    alloc: Global,
    files: &[Items<u8>],
    words: &[Text],
    workers: u32,
    gate: &G,
) -> Result<Answer, OutOfMemory>
    requires files { AreInputs 1 files.now }
    requires some { 1 ≤ length words.now }
    requires few { length words.now ≤ 16 }
    requires workers { (1 ≤ workers) × (workers ≤ 16) }
    ensures due { IfOk result (OfRequestsIn words.now (input_at files.now 0)) }
    ensures status { IfOk result (λ a. IsOfBytes a.status) }
{
    match read_dma(alloc, input_at(files, 0, 1)) {
        Ok(table) => requested(rt, alloc, &table, words, workers, gate),
        Err(Refusal::Fault(fault)) => refused_table(alloc, fault),
        Err(Refusal::OutOfMemory) => Err(OutOfMemory),
    }
}
