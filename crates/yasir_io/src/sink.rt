//! Where bytes go, and how a whole piece is written.
ghost use Rattle.std.specs.Prelude.{◌≡◌, ℕ, ◌≤◌, ◌<◌, Option, List, take, length, IfOk, OnOk};
ghost use Rattle.std.specs.Prelude.{OnErr, Bool, true};
ghost use Rattle.std.specs.Io.KnownBytes.{append_known};
ghost use Rattle.yasir_io.specs.Causes.{HasCause};
ghost use Rattle.yasir_io.specs.Flushing.{IsCounted};
ghost use Rattle.yasir_io.specs.Output.{GotPrefix};

use crate::Failed;

/// Where bytes go.
pub trait Sink {
    /// The bytes held, if the sink tells them.
    ghost held: { Self → Option (List ℕ) };

    /// How often a write or a flush has failed.
    ghost faults: { Self → ℕ };

    /// How often a flush has ended well.
    ghost flushes: { Self → ℕ };

    /// Whether bytes were written since the last flush that ended well.
    ghost unflushed: { Self → Bool };

    /// Appends the first bytes of the piece, and returns how many: at least one, unless the piece
    /// is empty.
    fn write(&mut self, piece: &[u8]) -> Result<usize, Failed>
        /// No more bytes are written than the piece has.
        ensures within { IfOk result (λ n. n ≤ length piece.now) }
        /// At least one byte is written, unless the piece is empty.
        ensures some { IfOk result (λ n. 0 < length piece.now → 0 < n) }
        /// What is written is a front of the piece, and comes behind what the sink held.
        ensures bytes { IfOk result (λ n. held self.new
            ≡ append_known (held self.old) (take n piece.now)) }
        /// A write that fails appends nothing.
        ensures err { OnErr result (held self.new ≡ held self.old) }
        /// The count of faults rose if the write failed, and is as it was otherwise.
        ensures cause { HasCause (faults self.old) (faults self.new) result }
        /// No flush is counted.
        ensures flushes { flushes self.new ≡ flushes self.old }
        /// After a byte was written, the sink tells that bytes were written since the last flush.
        ensures unflushed { IfOk result (λ n. 0 < n → unflushed self.new ≡ true) }
        /// A call that writes nothing leaves what it tells of this as it was.
        ensures as_it_was { IfOk result (λ n. n ≡ 0 → unflushed self.new ≡ unflushed self.old) }
        /// So does a call that fails.
        ensures err_as_it_was { OnErr result (unflushed self.new ≡ unflushed self.old) };

    /// Hands on what is held.
    fn flush(&mut self) -> Result<(), Failed>
        /// The sink holds what it held.
        ensures same { held self.new ≡ held self.old }
        /// The count of faults rose if the flush failed, and is as it was otherwise.
        ensures cause { HasCause (faults self.old) (faults self.new) result }
        /// A flush is counted exactly if it succeeds, and then nothing was written since.
        ensures counted { IsCounted (flushes self.old) (flushes self.new) (unflushed self.new)
            result }
        /// A flush that fails leaves what the sink tells of this as it was.
        ensures err_as_it_was { OnErr result (unflushed self.new ≡ unflushed self.old) };
}

/// Appends the whole piece. After an error, a front of it has been appended. Nothing is flushed.
pub fn write_all<S: Sink>(sink: &mut S, piece: &[u8]) -> Result<(), Failed>
    /// If it succeeds, the sink has got the whole piece.
    ensures ok { OnOk result (S.held sink.new ≡ append_known (S.held sink.old) piece.now) }
    /// If it fails, the sink has got a front of the piece.
    ensures err { OnErr result (GotPrefix (S.held sink.old) (S.held sink.new) piece.now) }
    /// The sink's count of faults rose if a write failed, and is as it was otherwise.
    ensures cause { HasCause (S.faults sink.old) (S.faults sink.new) result }
    /// No flush is counted.
    ensures flushes { S.flushes sink.new ≡ S.flushes sink.old }
{
    let mut rest = piece;
    while !rest.is_empty() {
        let n = sink.write(rest)?;
        rest = &rest[n..];
    }
    Ok(())
}
