//! Named inputs, and one of them read whole.
ghost use Rattle.std.specs.Prelude.{◌≡◌, List, ℕ, Option, Some, None, ◌≤◌, ◌<◌, ◌+◌, ◌-◌, ◌^◌, min, length, take, IsSome, IfOk, IfErr, IfSome, OnOk, OnErr, IsErrOf, vec_len};
ghost use Rattle.std.specs.Io.KnownBytes.{Consumes, IsAtEnd};
ghost use Rattle.refusal.specs.Refusals.{IfFault};
ghost use Rattle.res_io.specs.Causes.{Rose, NoneFell};
ghost use Rattle.res_io.specs.Bytes.{file_of, Tells, IsWhole, TellsLimit, IsLonger};

use crate::sink::Failed;
use refusal::Refusal;
use res_base::OutOfMemory;
use std::alloc::Global;

/// The most bytes that an input may have.
pub const MOST_BYTES: usize = 67_108_864;

/// How many bytes are asked for at a time.
const PIECE: usize = 65_536;

/// An input was not read to its end.
#[derive(Clone, Copy, Debug, PartialEq, Eq)]
pub enum ReadFault {
    /// The input failed, and its count rose.
    Failed,
    /// It has more than `MOST_BYTES` bytes.
    TooLong,
}

/// Named inputs, of which one is open at a time.
pub trait Inputs {
    /// The bytes of each name, where it tells them.
    ghost files: { Self → Option (List ℕ → Option (List ℕ)) };

    /// The name that is open.
    ghost current: { Self → Option (List ℕ) };

    /// What is left of it, where that is told.
    ghost left: { Self → Option (List ℕ) };

    /// How many bytes of it were taken.
    ghost taken: { Self → ℕ };

    /// How often each name has failed.
    ghost faults: { Self → List ℕ → ℕ };

    /// Opens a name at its first byte. After a refusal no name is open.
    fn begin(&mut self, alloc: Global, name: &str) -> Result<(), Refusal<Failed>>
        ensures files { files self.new ≡ files self.old }
        ensures later { NoneFell (faults self.old) (faults self.new) }
        ensures begun { OnOk result ((current self.new ≡ Some name.now) × (taken self.new ≡ 0)) }
        ensures bytes { OnOk result (IsWhole (file_of (files self.old) name.now) (left self.new)) }
        ensures failed { IfErr result (λ e. IfFault e
            (λ _. Rose (faults self.old name.now) (faults self.new name.now))) }
        ensures closed { OnErr result (current self.new ≡ None) };

    /// Puts the next bytes of the open name into the beginning of `buf`, and says how many: 0 only at the end.
    fn take(&mut self, buf: &mut [u8]) -> Result<usize, Failed>
        requires is_open { IsSome (current self.old) }
        requires room { 0 < length buf.old }
        ensures files { files self.new ≡ files self.old }
        ensures later { NoneFell (faults self.old) (faults self.new) }
        ensures current { current self.new ≡ current self.old }
        ensures count { IfOk result (λ n. (n ≤ length buf.new)
            × (taken self.new ≡ min (taken self.old + n) (2 ^ 64 - 1))) }
        ensures bytes { IfOk result (λ n. Consumes (left self.old) (left self.new) (take n buf.new)
            × (n ≡ 0 → IsAtEnd (left self.new))) }
        ensures stays { OnErr result (taken self.new ≡ taken self.old) }
        ensures failed { OnErr result (IfSome (current self.old)
            (λ name. Rose (faults self.old name) (faults self.new name))) };
}

/// So many zeros.
fn zeros(alloc: Global, count: usize) -> Result<Vec<u8>, OutOfMemory>
    ensures { IfOk result (λ v. vec_len v ≡ count) }
{
    Ok(vec![in alloc; 0; count]?)
}

/// Reads the whole of an input.
pub fn read_all<I: Inputs>(
    alloc: Global,
    inputs: &mut I,
    name: &str,
) -> Result<Vec<u8>, Refusal<ReadFault>>
    ensures files { I.files inputs.new ≡ I.files inputs.old }
    ensures later { NoneFell (I.faults inputs.old) (I.faults inputs.new) }
    ensures bytes { IfOk result (λ v. Tells (file_of (I.files inputs.old) name.now) v.items) }
    ensures end { OnOk result (IsAtEnd (I.left inputs.new)) }
    ensures small { IfOk result (λ v. vec_len v ≤ 67108864) }
    ensures failed { IsErrOf result (Refusal.Fault ReadFault.Failed)
        → Rose (I.faults inputs.old name.now) (I.faults inputs.new name.now) }
    ensures limit { TellsLimit result name.now (I.current inputs.new) (I.taken inputs.new) }
    ensures longer { IsErrOf result (Refusal.Fault ReadFault.TooLong) → IsLonger (file_of (I.files inputs.old) name.now) }
{
    match inputs.begin(alloc, name) {
        Ok(()) => {}
        Err(Refusal::Fault(_)) => return Err(Refusal::Fault(ReadFault::Failed)),
        Err(Refusal::OutOfMemory) => return Err(Refusal::OutOfMemory),
    }
    let mut buf = zeros(alloc, PIECE)?;
    let mut bytes = Vec::new(alloc);
    'read: while bytes.len() <= MOST_BYTES {
        match inputs.take(buf.as_mut_slice()) {
            Ok(0) => return Ok(bytes),
            Ok(count) => bytes.extend_from_slice(&buf.as_slice()[..count])?,
            Err(_) => return Err(Refusal::Fault(ReadFault::Failed)),
        }
    }
    Err(Refusal::Fault(ReadFault::TooLong))
}
