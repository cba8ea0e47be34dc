//! Files and standard output of the process.
ghost use Rattle.std.specs.Prelude.{◌≡◌, ◌≤◌, ◌<◌, ◌+◌, ◌-◌, ◌^◌, min, None, Some, IsSome, List, ℕ, IfOk, IfErr, IfSome, OnOk, OnErr, IsErrOf, length, take};
ghost use Rattle.std.specs.Io.KnownBytes.{Consumes, IsAtEnd, WriteAppends};
ghost use Rattle.refusal.specs.Refusals.{IfFault};
ghost use Rattle.res_io.specs.Bytes.{IsWhole, file_of};
ghost use Rattle.res_io.specs.Calls.{one_more};
ghost use Rattle.res_io.specs.Causes.{Rose};

use crate::inputs::Inputs;
use crate::sink::{Failed, Sink};
use refusal::Refusal;
use res_base::Text;
use std::alloc::Global;
use std::fs;
use std::io::{Read, Write};
use std::rt::Files;

/// Reads files. It tells nothing of what they hold, and one number counts the faults of every name.
#[derive(Drop)]
pub struct FileInputs<'a, R: Files> {
    rt: &'a R,
    file: Option<R::File>,
    name: Option<Text>,
    taken: u64,
    faults: u64,
    ghost there: { IsSome name → IsSome file },
}

impl<'a, R: Files> FileInputs<'a, R> {
    ghost use Rattle.std.specs.Prelude.{None, IsSome};

    /// No file is open, and none has failed.
    pub fn new(rt: &'a R) -> FileInputs<'a, R>
        ensures files { ⟦<FileInputs<'a, R> as Inputs>⟧.files result ≡ None }
        ensures closed { ⟦<FileInputs<'a, R> as Inputs>⟧.current result ≡ None }
        ensures faults { (name : List ℕ) → ⟦<FileInputs<'a, R> as Inputs>⟧.faults result name ≡ 0 }
    {
        FileInputs {
            rt,
            file: None,
            name: None,
            taken: 0,
            faults: 0,
        }
    }
}

impl<R: Files> Inputs for FileInputs<'_, R> {
    ghost use Rattle.std.specs.Prelude.{None};

    ghost files = { λ _. None };

    ghost current = { λ s. s.name };

    ghost left = { λ _. None };

    ghost taken = { λ s. s.taken };

    ghost faults = { λ s _. s.faults };

    fn begin(&mut self, alloc: Global, name: &str) -> Result<(), Refusal<Failed>>
        ensures begun { OnOk result ((self.new.name ≡ Some name.now) × (self.new.taken ≡ 0)) }
        ensures closed { OnErr result (self.new.name ≡ None) }
        ensures bytes { OnOk result (IsWhole (file_of None name.now) None) }
        ensures later { self.old.faults ≤ self.new.faults }
        ensures failed { IfErr result (λ e. IfFault e (λ _. Rose self.old.faults self.new.faults)) }

        // A fault is counted where the file was not opened, and nowhere else.
        ensures none { OnOk result (self.new.faults ≡ self.old.faults) }
        ensures memory { IsErrOf result Refusal.OutOfMemory → self.new.faults ≡ self.old.faults }
        ensures one { IfErr result (λ e. IfFault e (λ _. self.new.faults ≡ one_more self.old.faults)) }
    {
        self.name = None;
        self.file = None;
        let copy = Text::copy(alloc, name)?;
        match fs::open(self.rt, name) {
            Ok(file) => {
                self.file = Some(file);
                self.name = Some(copy);
                self.taken = 0;
                Ok(())
            }
            Err(_) => {
                self.faults = self.faults.saturating_add(1);
                Err(Refusal::Fault(Failed))
            }
        }
    }

    fn take(&mut self, buf: &mut [u8]) -> Result<usize, Failed>
        requires is_open { IsSome self.old.name }
        ensures current { self.new.name ≡ self.old.name }
        ensures count { IfOk result (λ n. (n ≤ length buf.new) × (self.new.taken ≡ min (self.old.taken + n) (2 ^ 64 - 1))) }
        ensures bytes { IfOk result (λ n. Consumes None None (take n buf.new) × (n ≡ 0 → IsAtEnd None)) }
        ensures stays { OnErr result (self.new.taken ≡ self.old.taken) }
        ensures later { self.old.faults ≤ self.new.faults }
        ensures failed { OnErr result (IfSome self.old.name (λ name. Rose self.old.faults self.new.faults)) }

        // A fault is counted where the file was not read, and nowhere else.
        ensures none { OnOk result (self.new.faults ≡ self.old.faults) }
        ensures one { OnErr result (self.new.faults ≡ one_more self.old.faults) }
    {
        let Some(file) = &mut self.file else {
            unreachable!();
        };
        match file.read(buf) {
            Ok(count) => {
                self.taken = self.taken.saturating_add(count as u64);
                Ok(count)
            }
            Err(_) => {
                self.faults = self.faults.saturating_add(1);
                Err(Failed)
            }
        }
    }
}

/// Writes standard output. It tells nothing of what was written. A write that takes 0 bytes is a fault.
#[derive(Drop)]
pub struct OutSink<'a, R: Print> {
    rt: &'a R,
    faults: u64,
}

impl<'a, R: Print> OutSink<'a, R> {
    /// Nothing has failed.
    pub fn new(rt: &'a R) -> OutSink<'a, R>
        ensures written { ⟦<OutSink<'a, R> as Sink>⟧.written result ≡ None }
        ensures faults { ⟦<OutSink<'a, R> as Sink>⟧.faults result ≡ 0 }
    {
        OutSink { rt, faults: 0 }
    }
}

impl<R: Print> Sink for OutSink<'_, R> {
    ghost written = { λ _. None };

    ghost faults = { λ s. s.faults };

    fn put(&mut self, piece: &[u8]) -> Result<usize, Failed>
        requires { 0 < length piece.now }
        ensures some { IfOk result (λ n. (0 < n) × (n ≤ length piece.now)) }
        ensures bytes { WriteAppends None None result piece.now }
        ensures later { self.old.faults ≤ self.new.faults }
        ensures failed { OnErr result (Rose self.old.faults self.new.faults) }

        // A fault is counted where nothing was written, and nowhere else.
        ensures none { OnOk result (self.new.faults ≡ self.old.faults) }
        ensures one { OnErr result (self.new.faults ≡ one_more self.old.faults) }
    {
        match self.rt.write_some(piece) {
            Ok(count) if 0 < count => Ok(count),
            _ => {
                self.faults = self.faults.saturating_add(1);
                Err(Failed)
            }
        }
    }
}
