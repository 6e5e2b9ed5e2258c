//! The outside of a live line as one object: what is read, written and flushed has one history.
ghost use Rattle.std.specs.Prelude.{◌≡◌, ◌≢◌, ℕ, ◌≤◌, ◌<◌, [], ◌∷◌, take, length, Option, List};
ghost use Rattle.std.specs.Prelude.{Some, None, true, false, IfOk, OnOk, OnErr};
ghost use Rattle.std.specs.Io.KnownBytes.{prepend_known, IsAtEnd};
ghost use Rattle.yasir_io.specs.Causes.{HasCause};
ghost use Rattle.line_commands.specs.declared.port.Output.{Output};
ghost use Rattle.line_commands.specs.History.{History, told_then, KeepsFaults};
ghost use Rattle.line_commands.specs.History.Event.{reads, writes, flushes};

use yasir_io::Failed;

/// Where the bytes of a live line go.
#[derive(Clone, Copy, Debug, PartialEq, Eq)]
pub enum Output {
    /// The other line, as tick text.
    Out,
    /// The notes, a line of text for each.
    Log,
}

/// An input and two outputs, with one history of their calls.
pub trait Port {
    ghost use Rattle.line_commands.specs.History.{WritesFront};

    /// The calls so far, in order, and what each output has got, as far as the port tells them.
    ghost history: { Self → History };

    /// The bytes that the input has left, if the port tells them.
    ghost left: { Self → Option (List ℕ) };

    /// How often a read has failed.
    ghost read_faults: { Self → ℕ };

    /// How often a write to an output, or a flush of it, has failed.
    ghost write_faults: { Self → Output → ℕ };

    /// Moves the next bytes of the input into the front of `buf`, and returns how many, which is at
    /// most its length. It returns 0 only at the end of the input, or if `buf` has no room. It
    /// waits only for the first of the bytes.
    fn read(&mut self, buf: &mut [u8]) -> Result<usize, Failed>
        /// No more bytes are read than `buf` has room for.
        ensures within { IfOk result (λ n. n ≤ length buf.new) }
        /// A read that succeeds is told with its bytes, after the calls before it.
        ensures bytes { IfOk result (λ n. history self.new
            ≡ told_then (history self.old) (reads (Some (take n buf.new)) ∷ [])) }
        /// A read that fails is told, after the calls before it.
        ensures err { OnErr result (history self.new
            ≡ told_then (history self.old) (reads None ∷ [])) }
        /// What is read is the front of what the input had left.
        ensures left { IfOk result (λ n.
            left self.old ≡ prepend_known (take n buf.new) (left self.new)) }
        /// Nothing is read only at the end of the input, or if `buf` has no room.
        ensures end { IfOk result (λ n. n ≡ 0 → 0 < length buf.new → IsAtEnd (left self.new)) }
        /// A read that fails takes nothing.
        ensures left_same { OnErr result (left self.new ≡ left self.old) }
        /// The input's count of faults rose if the read failed, and is as it was otherwise.
        ensures cause { HasCause (read_faults self.old) (read_faults self.new) result }
        /// The outputs' counts of faults are as they were.
        ensures outputs { (to : Output) → write_faults self.new to ≡ write_faults self.old to };

    /// Writes the whole piece to an output. If that fails, a front of the piece was written.
    fn write(&mut self, to: Output, piece: &[u8]) -> Result<(), Failed>
        /// The write is told with what it wrote: the whole piece, or a front of it if it failed.
        ensures wrote { WritesFront (history self.old) (history self.new) to piece.now result }
        /// The input is as it was.
        ensures input { left self.new ≡ left self.old }
        /// The output's count of faults rose if the write failed, and is as it was otherwise.
        ensures cause { HasCause (write_faults self.old to) (write_faults self.new to) result }
        /// All other counts of faults are as they were.
        ensures beside { KeepsFaults (read_faults self.old) (read_faults self.new)
            (write_faults self.old) (write_faults self.new) to };

    /// Flushes an output, so that what was written to it is handed on.
    fn flush(&mut self, to: Output) -> Result<(), Failed>
        /// A flush that succeeds is told as such, after the calls before it.
        ensures ok { OnOk result (history self.new
            ≡ told_then (history self.old) (flushes to true ∷ [])) }
        /// A flush that fails is told as such, after the calls before it.
        ensures err { OnErr result (history self.new
            ≡ told_then (history self.old) (flushes to false ∷ [])) }
        /// The input is as it was.
        ensures input { left self.new ≡ left self.old }
        /// The output's count of faults rose if the flush failed, and is as it was otherwise.
        ensures cause { HasCause (write_faults self.old to) (write_faults self.new to) result }
        /// All other counts of faults are as they were.
        ensures beside { KeepsFaults (read_faults self.old) (read_faults self.new)
            (write_faults self.old) (write_faults self.new) to };
}
