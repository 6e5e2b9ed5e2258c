//! The command `read`, which prints a line for each frame that a device reads from the input.
ghost use Rattle.std.specs.Prelude.{◌≡◌, [], ℕ};
ghost use Rattle.yasir_io.specs.Causes.{HasCause};
ghost use Rattle.yasir_io.specs.TextBuffer.{waiting_bytes};
ghost use Rattle.tick_drive.specs.Input.{IsReadCause, is_read_fault};
ghost use Rattle.tick_drive.specs.Drive.{drive_answer_of};
ghost use Rattle.line_commands.specs.PrintsFrames.{DrivesFrames, PrintsFrames};
ghost use Rattle.command_ends.specs.Causes.{InputCause, SinkCause};
ghost use Rattle.command_ends.specs.Flushes.{FlushesAtEnd};

use crate::frame_lines::FrameLines;
use crate::run_end::end_run;
use command_ends::Status;
use device_model::Device;
use tick_drive::{End, drive_to_rest};
use yasir_io::{Failed, Sink, Source, TextBuffer};

/// How many silent ticks follow a whole input, so that its last burst ends.
const REST: u32 = 4;

// Drives the input into the device. When it returns, lines of frames may still wait on their way to
// `out`.
fn drive_frames<V: Device, S: Source, O: Sink>(
    device: &mut V,
    lines: &mut TextBuffer,
    input: &mut S,
    out: &mut O,
) -> End
    requires fresh { V.taken device.old ≡ 0 }
    requires stands { V.stands device.old [] }
    requires nothing { V.reads [] ≡ [] }
    requires waits { waiting_bytes lines.old ≡ [] }
    ensures driven { DrivesFrames V.reads (S.left input.old) (S.left input.new)
        (O.held out.old) (O.held out.new) (waiting_bytes lines.new) result }
    ensures read { IsReadCause (S.faults input.old) (S.faults input.new) (is_read_fault result) }
    ensures sink { HasCause (O.faults out.old) (O.faults out.new) (drive_answer_of result) }
    ensures flushes { O.flushes out.new ≡ O.flushes out.old }
{
    let mut printer = FrameLines::new(device, lines, out);
    drive_to_rest(0, REST, input, &mut printer)
}

/// Prints a line for each frame that a device reads from the input.
pub fn read_frames<V: Device + Drop, S: Source, O: Sink, L: Sink>(
    input: &mut S,
    out: &mut O,
    log: &mut L,
) -> Status
    /// `out` has got the lines of exactly the frames that the device reads of the ticks that were
    /// taken, or a front of them if a write failed; and the status says what was taken of the
    /// input.
    ensures frames { PrintsFrames V.reads (S.left input.old) (S.left input.new)
        (O.held out.old) (O.held out.new) result }
    /// The log holds what it held.
    ensures log { L.held log.new ≡ L.held log.old }
    /// The input's count of faults rose if a read failed, and is otherwise as it was, unless a
    /// write failed.
    ensures input { InputCause (S.faults input.old) (S.faults input.new) result }
    /// If the status is that of a failed write, a count of a sink's faults rose. If it is `Done`,
    /// neither count changed.
    ensures sinks { SinkCause (O.faults out.old) (O.faults out.new)
        (L.faults log.old) (L.faults log.new) result }
    /// Both sinks were flushed, after all that was written, if the status is `Done`. If it is that
    /// of a failed write, at most `out` was, and otherwise neither.
    ensures flushes { FlushesAtEnd O.Sink L.Sink out.old out.new log.old log.new result }
{
    let mut device = V::fresh();
    let mut lines = TextBuffer::new();
    let end = drive_frames(&mut device, &mut lines, input, out);
    if let End::Stopped(_) = end {
        return Status::WriteFault;
    }
    match lines.drain(out) {
        Ok(()) => end_run(end, out, log),
        Err(Failed) => Status::WriteFault,
    }
}
