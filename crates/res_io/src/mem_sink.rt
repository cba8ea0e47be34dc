//! A sink in memory of which some puts fail.
ghost use Rattle.std.specs.Prelude.{◌≡◌, [], ◌<◌, ◌≤◌, ◌+◌, length, vec_len, vec_capacity, IfOk, OnOk, OnErr, Some};
ghost use Rattle.std.specs.Io.KnownBytes.{WriteAppends};
ghost use Rattle.res_io.specs.Causes.{Rose};

use crate::sink::{Failed, Sink};
use res_base::OutOfMemory;
use std::alloc::Global;
use std::marker::Model;

/// How many bytes `reserve` makes room for.
const ROOM: usize = 1_048_576;

/// A sink in memory: puts are numbered from 0, and those listed fail. A put takes at most `piece` bytes.
///
/// A put takes no memory: it fills the room that `reserve` made, and fails where none is left.
#[derive(Drop)]
pub struct MemSink {
    bytes: Vec<u8>,
    failing: Vec<u64>,
    piece: usize,
    calls: u64,
    faults: u64,
    room: usize,
}

impl Model for MemSink {
    ghost use Rattle.std.specs.Prelude.{◌≤◌, ◌<◌, ◌+◌, vec_len, vec_capacity};
    ghost use Rattle.res_io.specs.MemSink.{SinkState};

    ghost Value = { SinkState };

    ghost view = { λ s. record { written = s.bytes.items; faults = s.faults; failing = s.failing.items; calls = s.calls; piece = s.piece; room = s.room } };

    ghost invariant = { λ s. (0 < s.piece) × (vec_len s.bytes + s.room ≤ vec_capacity s.bytes) };
}

impl MemSink {
    /// A sink that nothing was written to, and that has no room yet.
    pub fn new(alloc: Global, failing: Vec<u64>, piece: usize) -> MemSink
        requires { 0 < piece }
        ensures { result ≡ record { written = []; faults = 0; failing = failing.items; calls = 0; piece = piece; room = 0 } }
    {
        MemSink {
            bytes: Vec::new(alloc),
            failing,
            piece,
            calls: 0,
            faults: 0,
            room: 0,
        }
    }

    /// Makes room for 1,048,576 bytes.
    pub fn reserve(&mut self) -> Result<(), OutOfMemory>
        ensures ok { OnOk result (self.new ≡ record self.old { room = 1048576 }) }
        ensures err { OnErr result (self.new ≡ self.old) }
    {
        self.bytes.reserve(ROOM)?;
        self.room = ROOM;
        Ok(())
    }

    /// The bytes that were written.
    pub fn written(&self) -> &[u8]
        ensures { result.now ≡ self.now.written }
    {
        self.bytes.as_slice()
    }
}

impl Sink for MemSink {
    ghost use Rattle.std.specs.Prelude.{Some, ◌≡◌};
    ghost use Rattle.res_io.specs.MemSink.{put_answer, after_put};

    ghost written = { λ s. Some s.written };

    ghost faults = { λ s. s.faults };

    fn put(&mut self, piece: &[u8]) -> Result<usize, Failed>
        requires { 0 < length piece.now }
        ensures some { IfOk result (λ n. (0 < n) × (n ≤ length piece.now)) }
        ensures bytes { WriteAppends (Some self.old.written) (Some self.new.written) result piece.now }
        ensures later { self.old.faults ≤ self.new.faults }
        ensures failed { OnErr result (Rose self.old.faults self.new.faults) }

        // Exactly what a put answers, and what it leaves.
        ensures answer { result ≡ put_answer self.old piece.now }
        ensures state { self.new ≡ after_put self.old piece.now }
    {
        let call = self.calls;
        self.calls = call.saturating_add(1);
        let count = self.piece.min(piece.len()).min(self.room);
        if self.failing.contains(&call) || self.room == 0 {
            self.faults = self.faults.saturating_add(1);
            return Err(Failed);
        }
        self.room -= count;
        match self.bytes.extend_from_slice(&piece[..count]) {
            Ok(()) => Ok(count),
            Err(_) => unreachable!(),
        }
    }
}
