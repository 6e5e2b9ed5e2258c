//! Readers and writers whose bytes are always known, or never.
ghost use Rattle.std.specs.Prelude.{IsSome, OnOk, ⊤};
ghost use Rattle.std.specs.Io.KnownBytes.{Keeps};

use std::io::{self, Read, Stderr, Stdin, Stdout, Write};

/// A reader for which it is always known what is left, or never.
pub trait TellsLeft: Read {
    /// If what is left is known later, it was known before.
    ghost knows_left: { (old new : Self) → IsSome (Self.remaining new)
        → IsSome (Self.remaining old) };
}

/// A writer for which it is always known what it holds, or never, and that says when it was
/// flushed.
pub trait TellsHeld: Write {
    /// What is known of a writer that has just been flushed. By default nothing is.
    ghost flushed: { Self → Type 0 } = { λ _. ⊤ };

    /// Hands on what the writer holds.
    fn flush_out(&mut self) -> io::Result<()>
        /// What the writer got stays as it was.
        ensures bytes { Keeps (Self.contents self.old) (Self.contents self.new) }
        /// After a flush that succeeds the writer is flushed, as far as it tells that.
        ensures flushed { OnOk result (flushed self.new) };

    /// If what is held is known later, it was known before.
    ghost knows_held: { (old new : Self) → IsSome (Self.contents new)
        → IsSome (Self.contents old) };
}

impl TellsLeft for Stdin {
    ghost knows_left = { λ old new known. known };
}

impl TellsLeft for &[u8] {
    ghost knows_left = { λ old new known. known };
}

impl<R: TellsLeft> TellsLeft for &mut R {
    ghost knows_left = { λ old new known. R.knows_left old.now new.now known };
}

impl TellsHeld for Stdout {
    ghost knows_held = { λ old new known. known };

    fn flush_out(&mut self) -> io::Result<()> {
        self.flush()
    }
}

impl TellsHeld for Stderr {
    ghost knows_held = { λ old new known. known };

    fn flush_out(&mut self) -> io::Result<()> {
        self.flush()
    }
}

impl TellsHeld for Vec<u8> {
    ghost knows_held = { λ old new known. known };

    fn flush_out(&mut self) -> io::Result<()> {
        self.flush()
    }
}

impl<W: TellsHeld> TellsHeld for &mut W {
    ghost knows_held = { λ old new known. W.knows_held old.now new.now known };

    ghost flushed = { λ w. W.flushed w.now };

    fn flush_out(&mut self) -> io::Result<()> {
        W::flush_out(&mut **self)
    }
}
