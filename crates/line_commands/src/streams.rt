//! A source and two sinks as one port. It tells what each sink holds, if that sink tells it, and not
//! in which order calls came.
ghost use Rattle.std.specs.Prelude.{◌≡◌, ◌≤◌, ◌∷◌, [], take, length, Some, None, true, false};
ghost use Rattle.std.specs.Prelude.{IfOk, OnOk, OnErr};
ghost use Rattle.std.specs.Io.KnownBytes.{prepend_known, append_known, IsAtEnd};
ghost use Rattle.yasir_io.specs.Causes.{HasCause};
ghost use Rattle.line_commands.specs.Streams.{stream_faults, stream_history};

use crate::{Output, Port};
use yasir_io::{Failed, Sink, Source, write_all};

/// An input and two outputs.
#[derive(Drop)]
pub struct Streams<S, O, L> {
    /// Where a line comes from.
    pub input: S,
    /// Where the other line goes.
    pub out: O,
    /// Where the notes go.
    pub log: L,
}

impl<S: Source, O: Sink, L: Sink> Port for Streams<S, O, L> {
    ghost history = { λ streams. stream_history O.Sink L.Sink streams };

    ghost left = { λ streams. S.left streams.input };

    ghost read_faults = { λ streams. S.faults streams.input };

    ghost write_faults = { λ streams to. stream_faults O.Sink L.Sink streams to };

    fn read(&mut self, buf: &mut [u8]) -> Result<usize, Failed> {
        self.input.read(buf)
    }

    fn write(&mut self, to: Output, piece: &[u8]) -> Result<(), Failed> {
        match to {
            Output::Out => write_all(&mut self.out, piece),
            Output::Log => write_all(&mut self.log, piece),
        }
    }

    fn flush(&mut self, to: Output) -> Result<(), Failed> {
        match to {
            Output::Out => self.out.flush(),
            Output::Log => self.log.flush(),
        }
    }
}
