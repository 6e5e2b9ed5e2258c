//! How a command ends: with a text that it writes and two flushes, or with the end of its input.
ghost use Rattle.std.specs.Prelude.{◌≡◌, ◌⊎◌};
ghost use Rattle.command_ends.specs.Causes.{SinkCause};
ghost use Rattle.command_ends.specs.Endings.{status_of};
ghost use Rattle.command_ends.specs.Flushes.{FlushesAtEnd};
ghost use Rattle.command_ends.specs.PrintsText.{PrintsText};

use crate::Status;
use tick_drive::{End, Stop};
use yasir_io::{Failed, Sink, write_all};

/// Flushes both sinks, on the way to `Done`. Returns `WriteFault` if a flush failed.
pub fn flush_both<O: Sink, L: Sink>(out: &mut O, log: &mut L) -> Status
    /// The status is `Done` or that of a failed write.
    ensures status { (result ≡ Status.Done) ⊎ (result ≡ Status.WriteFault) }
    /// The output holds what it held.
    ensures out { O.held out.new ≡ O.held out.old }
    /// The log holds what it held.
    ensures log { L.held log.new ≡ L.held log.old }
    /// If the status is that of a failed write, a count of a sink's faults rose. If it is `Done`,
    /// neither count changed.
    ensures sinks { SinkCause (O.faults out.old) (O.faults out.new) (L.faults log.old)
        (L.faults log.new) result }
    /// Both sinks were flushed if the status is `Done`. Otherwise at most the output was.
    ensures flushes { FlushesAtEnd O.Sink L.Sink out.old out.new log.old log.new result }
{
    if let Err(Failed) = out.flush() {
        return Status::WriteFault;
    }
    if let Err(Failed) = log.flush() {
        return Status::WriteFault;
    }
    Status::Done
}

/// Writes a text to the output, and flushes both sinks after it. Returns `Done`, or `WriteFault` if
/// the write or a flush failed. Then the output has got a front of the text, or all of it. Nothing
/// is written to the log.
pub fn print_text<O: Sink, L: Sink>(text: &[u8], out: &mut O, log: &mut L) -> Status
    /// The status is `Done` or that of a failed write.
    ensures status { (result ≡ Status.Done) ⊎ (result ≡ Status.WriteFault) }
    /// The output has got the text if the status is `Done`, and otherwise a front of it.
    ensures out { PrintsText text.now (O.held out.old) (O.held out.new) result }
    /// The log holds what it held.
    ensures log { L.held log.new ≡ L.held log.old }
    /// If the status is that of a failed write, a count of a sink's faults rose. If it is `Done`,
    /// neither count changed.
    ensures sinks { SinkCause (O.faults out.old) (O.faults out.new) (L.faults log.old)
        (L.faults log.new) result }
    /// Both sinks were flushed, after all that was written, if the status is `Done`. Otherwise at
    /// most the output was.
    ensures flushes { FlushesAtEnd O.Sink L.Sink out.old out.new log.old log.new result }
{
    match write_all(out, text) {
        Ok(()) => {}
        Err(Failed) => return Status::WriteFault,
    }
    flush_both(out, log)
}

/// Returns the status of a run whose drive over the input ended like this, and whose last lines
/// were written.
pub fn status_of(end: End) -> Status
    ensures { result ≡ status_of end }
{
    match end {
        End::Whole => Status::Done,
        End::Refused(bad) => Status::BadTicks(bad),
        End::TooLong { what, count } => Status::TooLong { what, count },
        End::ReadFault => Status::ReadFault,
        End::Stopped(Stop::WriteFault) => Status::WriteFault,
        End::Stopped(Stop::JournalFault) => Status::JournalFault,
        End::Stopped(Stop::NoMemory) => Status::NoMemory,
    }
}
