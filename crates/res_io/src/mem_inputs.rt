//! Inputs in memory of which some calls fail.
ghost use Rattle.std.specs.Prelude.{◌≡◌, ◌≢◌, Option, Some, None, [], ℕ, ◌<◌, ◌≤◌, ◌+◌, ◌-◌, ◌^◌, ◌↔◌, true, false, min, take, drop, length, vec_len, slice_index, unwrap_or, IfOk, IfErr, IfSome, OnOk, OnErr, IsErr, IsErrOf, IsSome, IsTrue};
ghost use Rattle.refusal.specs.Refusals.{IfFault};
ghost use Rattle.res_io.specs.Calls.{one_more, is_listed};
ghost use Rattle.res_io.specs.Causes.{Rose, NoneFell};
ghost use Rattle.res_io.specs.Files.{bytes_in, count_at};

use crate::inputs::Inputs;
use crate::memory::MemFile;
use crate::shelf::Shelf;
use crate::sink::Failed;
use refusal::Refusal;
use res_base::OutOfMemory;
use std::alloc::Global;
use std::marker::Model;

/// Inputs in memory: calls of `begin` and `take` are numbered together from 0, and those listed fail.
///
/// An unknown name fails. A `take` gives at most `piece` bytes. Of two equal names the first counts.
/// The faults of each file are counted, and those of all other names together.
#[derive(Drop)]
pub struct MemInputs {
    shelf: Shelf,
    counts: Vec<u64>,
    others: u64,
    failing: Vec<u64>,
    piece: usize,
    calls: u64,
}

impl Model for MemInputs {
    ghost use Rattle.std.specs.Prelude.{◌<◌, ◌≤◌, length, vec_len, IsSome};
    ghost use Rattle.res_io.specs.MemInputs.{InputsState};

    ghost Value = { InputsState };

    ghost view = { λ s. record { shelf = s.shelf; counts = s.counts.items; others = s.others; failing = s.failing.items; calls = s.calls; piece = s.piece } };

    ghost invariant = { λ s. (0 < s.piece) × (IsSome s.shelf.name → length s.shelf.files ≤ vec_len s.counts) };
}

/// Counts a call, and says whether it is to fail.
fn is_to_fail(calls: &mut u64, failing: &[u64]) -> bool
    ensures result { result ≡ is_listed failing.now calls.old }
    ensures calls { calls.new ≡ one_more calls.old }
{
    let call = *calls;
    *calls = call.saturating_add(1);
    failing.contains(&call)
}

/// Raises the count at a place.
fn raise(counts: &mut Vec<u64>, others: &mut u64, place: Option<usize>)
    requires { IfSome place (λ i. i < vec_len counts.old) }
    ensures rose { Rose (count_at counts.old.items others.old place) (count_at counts.new.items others.new place) }
    ensures later { (p : Option ℕ) → count_at counts.old.items others.old p ≤ count_at counts.new.items others.new p }
    ensures one { (p : Option ℕ) → p ≡ place → count_at counts.new.items others.new p ≡ one_more (count_at counts.old.items others.old p) }
    ensures rest { (p : Option ℕ) → p ≢ place → count_at counts.new.items others.new p ≡ count_at counts.old.items others.old p }
    ensures len { vec_len counts.new ≡ vec_len counts.old }
{
    match place {
        Some(i) => counts[i] = counts[i].saturating_add(1),
        None => *others = others.saturating_add(1),
    }
}

/// Makes room for one count for each file. A count that was not there is 0, and stays so.
fn fill(counts: &mut Vec<u64>, files: usize) -> Result<(), OutOfMemory>
    ensures same { (i : ℕ) → slice_index counts.new.items i ≡ slice_index counts.old.items i }
    ensures more { vec_len counts.old ≤ vec_len counts.new }
    ensures len { OnOk result (files ≤ vec_len counts.new) }
{
    if counts.len() < files {
        counts.resize(files, 0)?;
    }
    Ok(())
}

impl MemInputs {
    ghost use Rattle.std.specs.Prelude.{◌≡◌, None, []};

    /// These files, of which none is open and none has failed.
    pub fn new(alloc: Global, files: Vec<MemFile>, failing: Vec<u64>, piece: usize) -> MemInputs
        requires { 0 < piece }
        ensures files { result.shelf.files ≡ files.items }
        ensures closed { result.shelf.name ≡ None }
        ensures counts { (result.counts ≡ []) × (result.others ≡ 0) }
        ensures calls { (result.failing ≡ failing.items) × (result.calls ≡ 0) × (result.piece ≡ piece) }
    {
        MemInputs {
            shelf: Shelf::new(files),
            counts: Vec::new(alloc),
            others: 0,
            failing,
            piece,
            calls: 0,
        }
    }
}

impl Inputs for MemInputs {
    ghost use Rattle.std.specs.Prelude.{Some};
    ghost use Rattle.res_io.specs.Files.{bytes_in};
    ghost use Rattle.res_io.specs.MemInputs.{faults_of, is_due, begin_fails, IsOneCallOn, NoneCounted, OneCounted};

    ghost files = { λ s. Some (bytes_in s.shelf.files) };

    ghost current = { λ s. s.shelf.name };

    ghost left = { λ s. Some s.shelf.rest };

    ghost taken = { λ s. s.shelf.taken };

    ghost faults = { faults_of };

    fn begin(&mut self, alloc: Global, name: &str) -> Result<(), Refusal<Failed>>
        ensures ok { OnOk result (self.new.shelf ≡ record { files = self.old.shelf.files; name = Some name.now; rest = unwrap_or (bytes_in self.old.shelf.files name.now) []; taken = 0 }) }
        ensures err { OnErr result (self.new.shelf ≡ record self.old.shelf { name = None }) }
        ensures later { NoneFell (faults_of self.old) (faults_of self.new) }
        ensures failed { IfErr result (λ e. IfFault e
            (λ _. Rose (faults_of self.old name.now) (faults_of self.new name.now))) }

        // Out of memory aside, it fails exactly at a listed call and at an unknown name, and counts that fault alone.
        ensures fails { IfErr result (λ e. IfFault e (λ _. begin_fails self.old name.now ≡ true)) }
        ensures opens { OnOk result (begin_fails self.old name.now ≡ false) }
        ensures none { OnOk result (NoneCounted self.old self.new) }
        ensures memory { IsErrOf result Refusal.OutOfMemory → NoneCounted self.old self.new }
        ensures one { IfErr result (λ e. IfFault e (λ _. OneCounted name.now self.old self.new)) }
        ensures calls { IsOneCallOn self.old self.new }
    {
        let fails = is_to_fail(&mut self.calls, self.failing.as_slice());
        self.shelf.close();
        fill(&mut self.counts, self.shelf.len())?;
        let place = self.shelf.find(name);
        match place {
            Some(i) if !fails => {
                self.shelf.open(alloc, name, i)?;
                Ok(())
            }
            _ => {
                raise(&mut self.counts, &mut self.others, place);
                Err(Refusal::Fault(Failed))
            }
        }
    }

    fn take(&mut self, buf: &mut [u8]) -> Result<usize, Failed>
        requires is_open { IsSome self.old.shelf.name }
        requires room { 0 < length buf.old }
        ensures ok { IfOk result (λ n. self.new.shelf ≡ record self.old.shelf { rest = drop n self.old.shelf.rest; taken = min (self.old.shelf.taken + n) (2 ^ 64 - 1) }) }
        ensures err { OnErr result (self.new.shelf ≡ self.old.shelf) }
        ensures bytes { IfOk result (λ n. take n buf.new ≡ take n self.old.shelf.rest) }
        ensures end { IfOk result (λ n. n ≡ 0 → self.new.shelf.rest ≡ []) }
        ensures later { NoneFell (faults_of self.old) (faults_of self.new) }
        ensures failed { OnErr result (IfSome self.old.shelf.name
            (λ name. Rose (faults_of self.old name) (faults_of self.new name))) }

        // It fails exactly at a listed call, and counts that fault alone; it gives as much as the piece, the buffer and the rest allow.
        ensures fails { IsErr result ↔ IsTrue (is_due self.old) }
        ensures none { OnOk result (NoneCounted self.old self.new) }
        ensures one { OnErr result (IfSome self.old.shelf.name (λ name. OneCounted name self.old self.new)) }
        ensures count { IfOk result (λ n. n ≡ min (min self.old.piece (length buf.old)) (length self.old.shelf.rest)) }
        ensures calls { IsOneCallOn self.old self.new }
    {
        if is_to_fail(&mut self.calls, self.failing.as_slice()) {
            let place = self.shelf.open_place();
            raise(&mut self.counts, &mut self.others, place);
            return Err(Failed);
        }
        Ok(self.shelf.give(buf, self.piece))
    }
}
