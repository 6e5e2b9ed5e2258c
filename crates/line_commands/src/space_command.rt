//! The command `space`: a spacer over the whole input.
ghost use Rattle.std.specs.Prelude.{◌≡◌, ◌≤◌, [], false};
ghost use Rattle.yasir_io.specs.Flushed.{NoneFlushed};
ghost use Rattle.tick_drive.specs.Consumers.{IsSinkCause, is_write_fault};
ghost use Rattle.tick_drive.specs.Drive.{IsFresh, drive_answer_of};
ghost use Rattle.tick_drive.specs.Input.{IsReadCause, is_read_fault};
ghost use Rattle.line_texts.specs.Adding.{TextHasRoom};
ghost use Rattle.line_texts.specs.Sending.{SinkTexts, sink_texts, SendsTexts};
ghost use Rattle.line_texts.specs.Texts.{waiting_in};
ghost use Rattle.command_ends.specs.Causes.{InputCause, SinkCause};
ghost use Rattle.command_ends.specs.Flushes.{FlushesAtEnd};
ghost use Rattle.command_ends.specs.declared.status.Status.TheVariants.{NoMemory as no_memory};
ghost use Rattle.line_commands.specs.DrivenLines.{DrivesLines};
ghost use Rattle.line_commands.specs.OverInput.{has_stopped};
ghost use Rattle.line_commands.specs.SpacedLines.{spacing};
ghost use Rattle.line_commands.specs.SpacedTexts.{spaced_texts};
ghost use Rattle.line_commands.specs.SpacesLine.{DrivesSpacer, SpacesLine};

use crate::run_end::end_run;
use crate::spaced_lines::SpacedLines;
use crate::spacers::LineSpacer;
use command_ends::Status;
use line_texts::Texts;
use std::alloc::Global;
use tick_drive::{End, drive_to_rest};
use yasir_io::{Failed, Sink, Source};

/// How many silent ticks come after a whole input, so that all frames leave: 65 of the longest,
/// each with its gap.
const REST: u32 = 21_000;

// Drives the input into the consumer that drives a spacer, and writes the answers that are owed at
// the end of the input.
fn drive_lines<B: LineSpacer, S: Source, O: Sink, L: Sink>(
    input: &mut S,
    lines: &mut SpacedLines<'_, B, O, L>,
) -> End
    requires { IsFresh (spacing B.LineSpacer O.Sink L.Sink) lines.old }
    ensures driven { DrivesLines B.LineSpacer O.Sink L.Sink lines.old lines.new
        (S.left input.old) (S.left input.new) result }
    ensures falls { S.faults input.old ≤ S.faults input.new }
    ensures read { has_stopped result ≡ false
        → IsReadCause (S.faults input.old) (S.faults input.new) (is_read_fault result) }
{
    let end = drive_to_rest(0, REST, input, lines);
    if let End::Stopped(_) = end {
        return end;
    }
    match lines.write_rest() {
        Ok(()) => end,
        Err(stop) => End::Stopped(stop),
    }
}

// Drives the input into the spacer. The spacer's texts are then on their way to the two sinks.
fn drive_spacer<B: LineSpacer, S: Source, O: Sink, L: Sink>(
    spacer: &mut B,
    texts: &mut Texts,
    input: &mut S,
    out: &mut O,
    log: &mut L,
) -> End
    requires fresh { B.taken spacer.old ≡ 0 }
    requires owes { B.owes spacer.old [] [] [] }
    requires nothing { (held : SinkTexts) → SendsTexts (spaced_texts B.reads B.gap)
        (waiting_in texts.old) held held [] }
    requires room { TextHasRoom texts.old }
    ensures driven { DrivesSpacer (spaced_texts B.reads B.gap) (S.left input.old)
        (S.left input.new) (sink_texts (O.held out.old) (L.held log.old))
        (sink_texts (O.held out.new) (L.held log.new)) (waiting_in texts.new) result }
    ensures falls { S.faults input.old ≤ S.faults input.new }
    ensures read { has_stopped result ≡ false
        → IsReadCause (S.faults input.old) (S.faults input.new) (is_read_fault result) }
    ensures sinks { IsSinkCause (O.faults out.old) (O.faults out.new) (L.faults log.old)
        (L.faults log.new) (is_write_fault (drive_answer_of result)) }
    ensures flushes { NoneFlushed O.Sink L.Sink out.old out.new log.old log.new }
{
    let mut lines = SpacedLines::new(spacer, texts, out, log);
    drive_lines(input, &mut lines)
}

/// Spaces the frames of the input's line: writes the text of the spaced line to `out`, and a line
/// for each frame that is lost to `log`. If there is no memory for the spacer, nothing is read or
/// written.
pub fn space_frames<B: LineSpacer, S: Source, O: Sink, L: Sink>(
    alloc: Global,
    input: &mut S,
    out: &mut O,
    log: &mut L,
) -> Status
    /// There is at least one silent tick between frames.
    requires { B.gap_fits }
    /// The sinks have got the text of the spaced line of the ticks that were taken, and a line for
    /// each frame that is lost, or fronts of both if a write failed; and the status says what was
    /// taken of the input.
    ensures spaces { SpacesLine (spaced_texts B.reads B.gap) (S.left input.old) (S.left input.new)
        (sink_texts (O.held out.old) (L.held log.old))
        (sink_texts (O.held out.new) (L.held log.new)) result }
    /// If there was no memory, the input and both sinks are as they were.
    ensures untouched { result ≡ no_memory
        → (input.new ≡ input.old) × ((out.new ≡ out.old) × (log.new ≡ log.old)) }
    /// The input's count of faults rose if a read failed, and is otherwise as it was, unless a
    /// write failed.
    ensures input { InputCause (S.faults input.old) (S.faults input.new) result }
    /// If the status is that of a failed write, a count of a sink's faults rose. If it is `Done`,
    /// neither count changed.
    ensures sinks { SinkCause (O.faults out.old) (O.faults out.new)
        (L.faults log.old) (L.faults log.new) result }
    /// Both sinks were flushed, after all that was written, if the status is `Done`. If it is that
    /// of a failed write, at most `out` was, and otherwise neither.
    ensures flushes { FlushesAtEnd O.Sink L.Sink out.old out.new log.old log.new result }
{
    let mut spacer = match B::new(alloc) {
        Ok(spacer) => spacer,
        Err(_) => return Status::NoMemory,
    };
    let mut texts = Texts::new();
    let end = drive_spacer(&mut spacer, &mut texts, input, out, log);
    if let End::Stopped(_) = end {
        return Status::WriteFault;
    }
    match texts.finish(out, log) {
        Ok(()) => end_run(end, out, log),
        Err(Failed) => Status::WriteFault,
    }
}
