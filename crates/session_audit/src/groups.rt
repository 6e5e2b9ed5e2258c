//! The four groups of lines that `replay` prints. Each is added to a text on its way to a sink.
ghost use Rattle.std.specs.Prelude.{◌≡◌, ◌≤◌, ℕ, List, length, OnOk, OnErr};
ghost use Rattle.std.specs.Prelude.{codes};
ghost use Rattle.yasir_io.specs.Causes.{HasCause};
ghost use Rattle.yasir_io.specs.TextBuffer.{waiting_bytes};
ghost use Rattle.device_model.specs.Frames.{FrameRead};
ghost use Rattle.command_ends.specs.FrameLine.{frame_lines};
ghost use Rattle.link_format.specs.NumberedFrame.{NumberedFrame, AreNumberedFrom};
ghost use Rattle.receiver_laws.specs.Accounted.{forged};
ghost use Rattle.session_lists.specs.FrameBox.{kept_frames};
ghost use Rattle.session_lists.specs.FrameList.{Holds, ListIsWhole};
ghost use Rattle.session_lists.specs.ReplayLists.{kept_reads};
ghost use Rattle.session_audit.specs.Listing.{numbered_lines};
ghost use Rattle.session_audit.specs.Printing.{AddsText, PrintingBreaksOff, on_the_way, line_if_forged};

use crate::lines::push_numbered_line;
use command_ends::push_read_line;
use session_lists::{FrameList, Numbered, is_at_its_number};
use yasir_io::{Failed, Sink, TextBuffer};

/// Adds a line for each of these numbered frames.
pub fn push_numbered<O: Sink>(
    text: &mut TextBuffer,
    out: &mut O,
    name: &[u8],
    frames: &FrameList<Numbered>,
) -> Result<(), Failed>
    requires name { length name.now ≤ 6 }
    requires whole { ListIsWhole frames.now }
    ensures ok { OnOk result ((listed : List NumberedFrame) → Holds frames.now (kept_frames listed)
        → AddsText (on_the_way (O.held out.old) (waiting_bytes text.old))
        (on_the_way (O.held out.new) (waiting_bytes text.new)) (numbered_lines name.now listed)) }
    ensures err { OnErr result ((listed : List NumberedFrame) → Holds frames.now (kept_frames listed)
        → PrintingBreaksOff (on_the_way (O.held out.old) (waiting_bytes text.old)) (O.held out.new)
        (numbered_lines name.now listed)) }
    ensures cause { HasCause (O.faults out.old) (O.faults out.new) result }
    ensures flushes { O.flushes out.new ≡ O.flushes out.old }
{
    for index in 0..frames.len() {
        let (head, bytes) = (frames.head(index), frames.bytes(index));
        let Ok(()) = push_numbered_line(text, out, name, head, bytes) else {
            return Err(Failed);
        };
    }
    Ok(())
}

/// Adds a line for each of these frames that a device has read.
pub fn push_reads<O: Sink>(
    text: &mut TextBuffer,
    out: &mut O,
    frames: &FrameList<u64>,
) -> Result<(), Failed>
    requires { ListIsWhole frames.now }
    ensures ok { OnOk result ((listed : List FrameRead) → Holds frames.now (kept_reads listed)
        → AddsText (on_the_way (O.held out.old) (waiting_bytes text.old))
        (on_the_way (O.held out.new) (waiting_bytes text.new)) (frame_lines listed)) }
    ensures err { OnErr result ((listed : List FrameRead) → Holds frames.now (kept_reads listed)
        → PrintingBreaksOff (on_the_way (O.held out.old) (waiting_bytes text.old)) (O.held out.new)
        (frame_lines listed)) }
    ensures cause { HasCause (O.faults out.old) (O.faults out.new) result }
    ensures flushes { O.flushes out.new ≡ O.flushes out.old }
{
    for index in 0..frames.len() {
        let Ok(()) = push_read_line(text, out, frames.head(index), frames.bytes(index)) else {
            return Err(Failed);
        };
    }
    Ok(())
}

// Adds the line of a frame that passed, unless it was sealed with its number.
fn push_if_forged<O: Sink>(
    text: &mut TextBuffer,
    out: &mut O,
    sealed: &FrameList<Numbered>,
    head: Numbered,
    bytes: &[u8],
) -> Result<(), Failed>
    requires whole { ListIsWhole sealed.now }
    requires frame { length bytes.now ≤ 292 }
    ensures ok { OnOk result ((sealed_ones : List NumberedFrame)
        → Holds sealed.now (kept_frames sealed_ones) → AreNumberedFrom 0 sealed_ones
        → AddsText (on_the_way (O.held out.old) (waiting_bytes text.old))
        (on_the_way (O.held out.new) (waiting_bytes text.new)) (line_if_forged sealed_ones
        (record { number = head.number; start = head.start; frame = bytes.now }))) }
    ensures err { OnErr result ((sealed_ones : List NumberedFrame)
        → Holds sealed.now (kept_frames sealed_ones) → AreNumberedFrom 0 sealed_ones
        → PrintingBreaksOff (on_the_way (O.held out.old) (waiting_bytes text.old)) (O.held out.new)
        (line_if_forged sealed_ones
        (record { number = head.number; start = head.start; frame = bytes.now }))) }
    ensures cause { HasCause (O.faults out.old) (O.faults out.new) result }
    ensures flushes { O.flushes out.new ≡ O.flushes out.old }
{
    if is_at_its_number(sealed, 0, head.number, bytes) {
        return Ok(());
    }
    match push_numbered_line(text, out, b"forged", head, bytes) {
        Ok(()) => Ok(()),
        Err(Failed) => Err(Failed),
    }
}

/// Adds a line for each frame that passed and was never sealed with its number. The sealed frames
/// must be numbered one after the other, from 1 on.
pub fn push_forged<O: Sink>(
    text: &mut TextBuffer,
    out: &mut O,
    sealed: &FrameList<Numbered>,
    passed: &FrameList<Numbered>,
) -> Result<(), Failed>
    requires sealed { ListIsWhole sealed.now }
    requires passed { ListIsWhole passed.now }
    ensures ok { OnOk result ((sealed_ones passed_ones : List NumberedFrame)
        → Holds sealed.now (kept_frames sealed_ones) → Holds passed.now (kept_frames passed_ones)
        → AreNumberedFrom 0 sealed_ones
        → AddsText (on_the_way (O.held out.old) (waiting_bytes text.old))
        (on_the_way (O.held out.new) (waiting_bytes text.new))
        (numbered_lines (codes "forged") (forged sealed_ones passed_ones))) }
    ensures err { OnErr result ((sealed_ones passed_ones : List NumberedFrame)
        → Holds sealed.now (kept_frames sealed_ones) → Holds passed.now (kept_frames passed_ones)
        → AreNumberedFrom 0 sealed_ones
        → PrintingBreaksOff (on_the_way (O.held out.old) (waiting_bytes text.old)) (O.held out.new)
        (numbered_lines (codes "forged") (forged sealed_ones passed_ones))) }
    ensures cause { HasCause (O.faults out.old) (O.faults out.new) result }
    ensures flushes { O.flushes out.new ≡ O.flushes out.old }
{
    for index in 0..passed.len() {
        let (head, bytes) = (passed.head(index), passed.bytes(index));
        let Ok(()) = push_if_forged(text, out, sealed, head, bytes) else {
            return Err(Failed);
        };
    }
    Ok(())
}
