//! A sink, and a text written whole.
ghost use Rattle.std.specs.Prelude.{◌≡◌, List, ℕ, Option, ◌≤◌, ◌<◌, length, take, IfOk, OnOk, OnErr, is_some};
ghost use Rattle.std.specs.Io.KnownBytes.{Appends, WriteAppends};
ghost use Rattle.res_io.specs.Causes.{Rose};

/// A read or a write failed.
#[derive(Clone, Copy, Debug, PartialEq, Eq)]
pub struct Failed;

/// Takes bytes, and may fail.
pub trait Sink {
    /// The bytes that were written, where it tells them. A sink that tells them goes on to, and no other begins to.
    ghost written: { Self → Option (List ℕ) };

    /// How often it has failed.
    ghost faults: { Self → ℕ };

    /// Takes some of the piece, and says how many bytes.
    fn put(&mut self, piece: &[u8]) -> Result<usize, Failed>
        requires { 0 < length piece.now }
        ensures some { IfOk result (λ n. (0 < n) × (n ≤ length piece.now)) }
        ensures bytes { WriteAppends (written self.old) (written self.new) result piece.now }
        ensures told { is_some (written self.new) ≡ is_some (written self.old) }
        ensures later { faults self.old ≤ faults self.new }
        ensures failed { OnErr result (Rose (faults self.old) (faults self.new)) };
}

/// Writes the whole text. After a refusal a prefix of it stands written.
pub fn write_all<K: Sink>(out: &mut K, text: &[u8]) -> Result<(), Failed>
    ensures ok { OnOk result (Appends (K.written out.old) (K.written out.new) text.now) }
    ensures prefix { (n : ℕ) × Appends (K.written out.old) (K.written out.new) (take n text.now) }
    ensures told { is_some (K.written out.new) ≡ is_some (K.written out.old) }
    ensures later { K.faults out.old ≤ K.faults out.new }
    ensures failed { OnErr result (Rose (K.faults out.old) (K.faults out.new)) }
{
    let mut at = 0usize;
    while at < text.len() {
        match out.put(&text[at..]) {
            Ok(count) => at += count,
            Err(fault) => return Err(fault),
        }
    }
    Ok(())
}
