//! The edge of the program: the runtime's readers and writers. What they move is told as far as
//! they tell it themselves. Their faults are counted.
ghost use Rattle.std.specs.Prelude.{◌≡◌, OnOk, OnErr};
ghost use Rattle.yasir_io.specs.Causes.{HasCause};
ghost use Rattle.yasir_io.specs.Flushing.{IsCounted};

use crate::faults::Faults;
use crate::flushes::Flushes;
use crate::{Failed, Reason, Sink, Source, TellsHeld, TellsLeft, TellsReason};
use std::io::{Read, Write};

/// A reader, such as standard input, as a source. Each read of the source is one of the reader, so
/// a caller with little room makes many calls of the system.
#[derive(Drop)]
pub struct StdinSource<I: Read + Drop> {
    reader: I,
    faults: Faults,
}

impl<I: Read + Drop> StdinSource<I> {
    ghost use Rattle.std.specs.Prelude.{None};
    ghost use Rattle.yasir_io.specs.Edge.{reader_of, reader_faults, reader_reason};

    /// Returns a source of what the reader gives.
    pub fn new(reader: I) -> StdinSource<I>
        /// It reads from this reader.
        ensures reader { reader_of result ≡ reader }
        /// No read of it has failed.
        ensures faults { reader_faults result ≡ 0 }
        /// So it has no reason to tell.
        ensures reason { reader_reason result ≡ None }
    {
        StdinSource {
            reader,
            faults: Faults::none(),
        }
    }
}

impl<I: Read + Drop> TellsReason for StdinSource<I> {
    ghost use Rattle.yasir_io.specs.Edge.{reader_reason};

    ghost told_reason = { λ source. reader_reason source };

    fn reason(&self) -> Option<Reason> {
        self.faults.reason
    }
}

impl<I: TellsLeft + Drop> Source for StdinSource<I> {
    ghost use Rattle.yasir_io.specs.Edge.{reader_of, reader_faults};

    ghost left = { λ source. I.remaining (reader_of source) };

    ghost faults = { λ source. reader_faults source };

    fn read(&mut self, buf: &mut [u8]) -> Result<usize, Failed> {
        match self.reader.read(buf) {
            Ok(n) => Ok(n),
            Err(error) => Err(self.faults.add_for(&error)),
        }
    }
}

/// A writer, such as standard output or standard error, as a sink. It gives each piece to the
/// writer at once.
#[derive(Drop)]
pub struct WriterSink<W: Write + Drop> {
    writer: W,
    faults: Faults,
    flushes: Flushes,
}

/// Standard output as a sink.
pub type StdoutSink<W> = WriterSink<W>;

/// Standard error as a sink.
pub type StderrSink<W> = WriterSink<W>;

impl<W: Write + Drop> WriterSink<W> {
    ghost use Rattle.std.specs.Prelude.{false};
    ghost use Rattle.yasir_io.specs.Edge.{writer_of, writer_faults, writer_flushes};
    ghost use Rattle.yasir_io.specs.Edge.{writer_unflushed};

    /// Returns a sink that gives pieces to the writer.
    pub fn new(writer: W) -> WriterSink<W>
        /// It writes to this writer.
        ensures writer { writer_of result ≡ writer }
        /// No call of it has failed.
        ensures faults { writer_faults result ≡ 0 }
        /// It was never flushed.
        ensures flushes { writer_flushes result ≡ 0 }
        /// Nothing was written to it.
        ensures unflushed { writer_unflushed result ≡ false }
    {
        WriterSink {
            writer,
            faults: Faults::none(),
            flushes: Flushes::none(),
        }
    }
}

impl<W: TellsHeld + Drop> Sink for WriterSink<W> {
    ghost use Rattle.yasir_io.specs.Edge.{writer_of, writer_faults};
    ghost use Rattle.yasir_io.specs.Edge.{writer_flushes, writer_unflushed};

    ghost held = { λ sink. W.contents (writer_of sink) };

    ghost faults = { λ sink. writer_faults sink };

    ghost flushes = { λ sink. writer_flushes sink };

    ghost unflushed = { λ sink. writer_unflushed sink };

    fn write(&mut self, piece: &[u8]) -> Result<usize, Failed> {
        if piece.is_empty() {
            return Ok(0);
        }
        match self.writer.write(piece) {
            Ok(0) => Err(self.faults.add()),
            Ok(n) => {
                self.flushes.wait(n);
                Ok(n)
            }
            Err(_) => Err(self.faults.add()),
        }
    }

    /// Flushes the writer.
    fn flush(&mut self) -> Result<(), Failed>
        ensures same { W.contents (writer_of self.new) ≡ W.contents (writer_of self.old) }
        ensures flushed { OnOk result (W.flushed (writer_of self.new)) }
        ensures cause { HasCause (writer_faults self.old) (writer_faults self.new) result }
        ensures counted { IsCounted (writer_flushes self.old) (writer_flushes self.new)
            (writer_unflushed self.new) result }
        ensures err_as_it_was { OnErr result
            (writer_unflushed self.new ≡ writer_unflushed self.old) }
    {
        match self.writer.flush_out() {
            Ok(()) => {
                self.flushes.add();
                Ok(())
            }
            Err(_) => Err(self.faults.add()),
        }
    }
}
