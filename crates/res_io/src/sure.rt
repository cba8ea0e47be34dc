//! Inputs and a sink that never fail.
ghost use Rattle.std.specs.Prelude.{◌≡◌, ◌+◌, ◌-◌, ◌^◌, min, Some, None, [], take, drop, length, unwrap_or, OnOk, OnErr, IfOk, IfErr};
ghost use Rattle.refusal.specs.Refusals.{IfFault};
ghost use Rattle.res_io.specs.Files.{bytes_in};

use crate::inputs::Inputs;
use crate::memory::MemFile;
use crate::shelf::Shelf;
use crate::sink::{Failed, Sink};
use refusal::Refusal;
use std::alloc::Global;
use std::marker::Model;

/// Inputs in memory that never fail. An unknown name reads as empty; of two equal names the first counts.
#[derive(Drop)]
pub struct SureInputs {
    shelf: Shelf,
}

impl Model for SureInputs {
    ghost use Rattle.res_io.specs.Shelf.{ShelfState};

    ghost Value = { ShelfState };

    ghost view = { λ s. s.shelf };
}

impl SureInputs {
    /// These files, of which none is open.
    pub fn new(files: Vec<MemFile>) -> SureInputs
        ensures files { result.files ≡ files.items }
        ensures closed { result.name ≡ None }
    {
        SureInputs {
            shelf: Shelf::new(files),
        }
    }
}

impl Inputs for SureInputs {
    ghost use Rattle.std.specs.Prelude.{Some};
    ghost use Rattle.res_io.specs.Files.{bytes_in};

    ghost files = { λ s. Some (bytes_in s.files) };

    ghost current = { λ s. s.name };

    ghost left = { λ s. Some s.rest };

    ghost taken = { λ s. s.taken };

    ghost faults = { λ _ _. 0 };

    fn begin(&mut self, alloc: Global, name: &str) -> Result<(), Refusal<Failed>>
        ensures ok { OnOk result (self.new ≡ record { files = self.old.files; name = Some name.now; rest = unwrap_or (bytes_in self.old.files name.now) []; taken = 0 }) }
        ensures err { OnErr result (self.new ≡ record self.old { name = None }) }
        ensures sure { IfErr result (λ e. IfFault e (λ _. ⊥)) }
    {
        let beyond = self.shelf.len();
        let place = self.shelf.find(name).unwrap_or(beyond);
        self.shelf.open(alloc, name, place)?;
        Ok(())
    }

    fn take(&mut self, buf: &mut [u8]) -> Result<usize, Failed>
        ensures answer { result ≡ Ok (min (length buf.old) (length self.old.rest)) }
        ensures bytes { IfOk result (λ n. take n buf.new ≡ take n self.old.rest) }
        ensures state { IfOk result (λ n. self.new ≡ record self.old { rest = drop n self.old.rest; taken = min (self.old.taken + n) (2 ^ 64 - 1) }) }
    {
        Ok(self.shelf.give(buf, usize::MAX))
    }
}

/// A sink that takes each piece whole, keeps nothing, and never fails.
#[derive(Clone, Copy, Debug, PartialEq, Eq)]
pub struct SureSink;

impl Sink for SureSink {
    ghost written = { λ _. None };

    ghost faults = { λ _. 0 };

    fn put(&mut self, piece: &[u8]) -> Result<usize, Failed>
        ensures { result ≡ Ok (length piece.now) }
    {
        Ok(piece.len())
    }
}
