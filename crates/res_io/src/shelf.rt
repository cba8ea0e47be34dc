//! Files in memory of which one may be open.
ghost use Rattle.std.specs.Prelude.{◌≡◌, ◌<◌, ◌+◌, ◌-◌, ◌^◌, min, Some, None, List, take, drop, length, option_and_then, IfSome, OnOk, OnErr};
ghost use Rattle.res_io.specs.Files.{place_in, bytes_from};

use crate::memory::MemFile;
use res_base::{OutOfMemory, Text};
use std::alloc::Global;
use std::marker::Model;

/// Files in memory, of which one may be open: its name, its place, and how far it was read.
#[derive(Drop)]
pub struct Shelf {
    files: Vec<MemFile>,
    name: Option<Text>,
    place: usize,
    at: usize,
    taken: u64,
}

impl Model for Shelf {
    ghost use Rattle.std.specs.Prelude.{◌≤◌, length, drop};
    ghost use Rattle.res_io.specs.Files.{bytes_from};
    ghost use Rattle.res_io.specs.Shelf.{ShelfState};

    ghost Value = { ShelfState };

    ghost view = { λ s. record { files = s.files.items; name = s.name; rest = drop s.at (bytes_from s.files.items s.place); taken = s.taken } };

    ghost invariant = { λ s. s.at ≤ length (bytes_from s.files.items s.place) };
}

/// The place of the first file of this name.
fn place_of(files: &[MemFile], name: &str) -> Option<usize>
    ensures place { result ≡ place_in files.now name.now }
    ensures within { IfSome result (λ i. i < length files.now) }
{
    files.iter().position(|file| file.name.as_str() == name)
}

/// The bytes at a place, and none beyond the files.
fn bytes_of(files: &[MemFile], place: usize) -> &[u8]
    ensures { result.now ≡ bytes_from files.now place }
{
    match files.get(place) {
        Some(file) => file.bytes.as_slice(),
        None => &[],
    }
}

impl Shelf {
    /// These files, of which none is open.
    pub fn new(files: Vec<MemFile>) -> Shelf
        ensures files { result.files ≡ files.items }
        ensures closed { result.name ≡ None }
    {
        Shelf {
            files,
            name: None,
            place: 0,
            at: 0,
            taken: 0,
        }
    }

    /// How many files there are.
    pub fn len(&self) -> usize
        ensures { result ≡ length self.now.files }
    {
        self.files.len()
    }

    /// The place of the first file of this name.
    pub fn find(&self, name: &str) -> Option<usize>
        ensures place { result ≡ place_in self.now.files name.now }
        ensures within { IfSome result (λ i. i < length self.now.files) }
    {
        place_of(self.files.as_slice(), name)
    }

    /// The place of the open name.
    pub fn open_place(&self) -> Option<usize>
        ensures place { result ≡ option_and_then (place_in self.now.files) self.now.name }
        ensures within { IfSome result (λ i. i < length self.now.files) }
    {
        match &self.name {
            Some(name) => place_of(self.files.as_slice(), name.as_str()),
            None => None,
        }
    }

    /// Closes the file that is open.
    pub fn close(&mut self)
        ensures { self.new ≡ record self.old { name = None } }
    {
        self.name = None;
    }

    /// Opens the file at a place, and an empty one beyond the files.
    pub fn open(&mut self, alloc: Global, name: &str, place: usize) -> Result<(), OutOfMemory>
        ensures ok { OnOk result (self.new ≡ record { files = self.old.files; name = Some name.now; rest = bytes_from self.old.files place; taken = 0 }) }
        ensures err { OnErr result (self.new ≡ record self.old { name = None }) }
    {
        self.name = None;
        let copy = Text::copy(alloc, name)?;
        self.at = 0;
        self.place = place;
        self.taken = 0;
        self.name = Some(copy);
        Ok(())
    }

    /// Gives the next bytes, at most so many.
    pub fn give(&mut self, buf: &mut [u8], most: usize) -> usize
        ensures count { result ≡ min (min most (length buf.old)) (length self.old.rest) }
        ensures bytes { take result buf.new ≡ take result self.old.rest }
        ensures state { self.new ≡ record self.old { rest = drop result self.old.rest; taken = min (self.old.taken + result) (2 ^ 64 - 1) } }
    {
        let rest = &bytes_of(self.files.as_slice(), self.place)[self.at..];
        let count = most.min(buf.len()).min(rest.len());
        buf[..count].copy_from_slice(&rest[..count]);
        self.at += count;
        self.taken = self.taken.saturating_add(count as u64);
        count
    }
}
