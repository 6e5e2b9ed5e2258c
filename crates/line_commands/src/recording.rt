//! The two recordings of an input, which go through a box for each direction of a line, and the
//! texts that the boxes make of them.
ghost use Rattle.std.specs.Prelude.{◌≡◌, ◌⊎◌, ◌+◌, ◌≤◌, ◌++◌, List, length, codes, OnOk, OnErr, IfOk};
ghost use Rattle.std.specs.Io.KnownBytes.{append_known};
ghost use Rattle.yasir_io.specs.Causes.{HasCause};
ghost use Rattle.yasir_io.specs.Output.{GotPrefix};
ghost use Rattle.yasir_ticks.specs.declared.tick.Tick.{Tick};
ghost use Rattle.yasir_ticks.specs.declared.TheConstants.{MAX_TICKS};
ghost use Rattle.tick_drive.specs.Input.{IsReadCause, is_read_answer, max_ticks};
ghost use Rattle.command_ends.specs.Causes.{SinkCause};
ghost use Rattle.command_ends.specs.Flushes.{FlushesAtEnd};
ghost use Rattle.line_commands.specs.KeptBox.{timed_of};
ghost use Rattle.line_commands.specs.BothBoxes.{Setups, AreSteady, KeepsBoth, both_taken};
ghost use Rattle.line_commands.specs.Recording.{both_rest, steps_of, both_texts, both_with, both_lines};
ghost use Rattle.line_commands.specs.Recording.{AreMade};
ghost use Rattle.line_commands.specs.Recording.{BothTexts, HoldsTexts, RecordsBoth, PrintsBoth};

use crate::both_boxes::BothBoxes;
use crate::kept_box::KeptBox;
use crate::line_box::LineBox;
use crate::note_order::merge_lines;
use command_ends::{Status, flush_both};
use link_format::Dir;
use std::alloc::Global;
use tick_drive::{End, Stop, drive};
use yasir_io::{Failed, NoMemory, Sink, Source, write_all};

/// How many silent ticks follow the longer one of the two recordings, so that what passes leaves
/// the receiver.
const BOTH_REST: u64 = 320;

/// The texts that both boxes make of their recordings.
#[derive(Drop)]
pub struct Recorded {
    link: Vec<u8>,
    device: Vec<u8>,
    notes: Vec<u8>,
}

impl Recorded {
    ghost use Rattle.line_commands.specs.Recording.{HoldsTexts};

    /// Returns the text of the link, that of the device's line, and the lines of the notes.
    pub fn new(link: Vec<u8>, device: Vec<u8>, notes: Vec<u8>) -> Recorded
        ensures { HoldsTexts result (record {
          link = link.items;
          device = device.items;
          notes = notes.items;
        }) }
    {
        Recorded {
            link,
            device,
            notes,
        }
    }
}

// Fills both recordings with silence to the length of the longer one and the ticks that follow it,
// and ends both texts.
fn finish_both<S: LineBox, C: LineBox>(
    alloc: Global,
    both: BothBoxes<S, C>,
) -> Result<Recorded, NoMemory>
    requires room { both_taken S.LinkBox S.line_of C.LinkBox C.line_of both ≤ max_ticks }
    requires steady { AreSteady S.LinkBox S.line_of C.LinkBox C.line_of both }
    ensures { IfOk result (λ recorded. (setups : Setups) (device link : List Tick)
        → KeepsBoth S.LinkBox S.line_of C.LinkBox C.line_of both setups device link
        → HoldsTexts recorded (both_texts (timed_of S.walking S.line_of setups.outgoing)
        (timed_of C.walking C.line_of setups.incoming) device link)) }
{
    let BothBoxes {
        mut outgoing,
        mut incoming,
        ..
    } = both;
    let steps = outgoing.ticks.max(incoming.ticks) + BOTH_REST;
    let (sent, got) = (
        (steps - outgoing.ticks) as u32,
        (steps - incoming.ticks) as u32,
    );
    let Ok(()) = outgoing.wait(sent) else {
        return Err(NoMemory);
    };
    let Ok(()) = incoming.wait(got) else {
        return Err(NoMemory);
    };
    let Ok(link) = outgoing.finish() else {
        return Err(NoMemory);
    };
    let Ok(device) = incoming.finish() else {
        return Err(NoMemory);
    };
    match merge_lines(alloc, &link.notes, &device.notes) {
        Ok(notes) => Ok(Recorded {
            link: link.text,
            device: device.text,
            notes,
        }),
        Err(NoMemory) => Err(NoMemory),
    }
}

/// Takes two recordings, which a mark separates in the input: the line of a device, through a box
/// of the direction `outgoing`, and the link, through a box of the opposite direction. Both are
/// filled with silence to the length of the longer one, and 320 silent ticks follow them. Both
/// boxes have this key, and each has a journal of its own, so its numbers begin at 1.
///
/// If the input isn't whole, it returns how the input ended. If there is no memory for the texts,
/// it returns `Stop::NoMemory`.
pub fn record_both<S: LineBox, C: LineBox, I: Source>(
    alloc: Global,
    key: &[u8],
    outgoing: Dir,
    input: &mut I,
) -> Result<Recorded, End>
    /// The widths of the transmitter are ones that it can be made with.
    requires outgoing { S.widths_fit }
    /// The widths of the receiver are ones that it can be made with.
    requires incoming { C.widths_fit }
    /// If the input ends whole, with one mark, the texts are those of both boxes' lines and notes,
    /// with the silence that follows. Otherwise it is said how the input ended and what was taken
    /// of it; it is stopped only for want of memory.
    ensures records { RecordsBoth (AreMade (both_with (timed_of S.walking S.line_of)
        (timed_of C.walking C.line_of) key.now outgoing)) (I.left input.old) (I.left input.new)
        result }
    /// It ends with a failed read only if the input's count of faults rose.
    ensures read { IsReadCause (I.faults input.old) (I.faults input.new) (is_read_answer result) }
{
    let mut both = BothBoxes::<S, C>::new(alloc, key, outgoing);
    match drive(1, input, &mut both) {
        End::Whole => {}
        end => return Err(end),
    }
    match finish_both(alloc, both) {
        Ok(recorded) => Ok(recorded),
        Err(NoMemory) => Err(End::Stopped(Stop::NoMemory)),
    }
}

// Writes the text of both lines, with a mark between them.
fn write_lines<O: Sink>(recorded: &Recorded, out: &mut O) -> Result<(), Failed>
    ensures ok { OnOk result ((texts : BothTexts) → HoldsTexts recorded.now texts
        → O.held out.new ≡ append_known (O.held out.old) (both_lines texts)) }
    ensures err { OnErr result ((texts : BothTexts) → HoldsTexts recorded.now texts
        → GotPrefix (O.held out.old) (O.held out.new) (both_lines texts)) }
    ensures cause { HasCause (O.faults out.old) (O.faults out.new) result }
    ensures flushes { O.flushes out.new ≡ O.flushes out.old }
{
    let Ok(()) = write_all(out, recorded.link.as_slice()) else {
        return Err(Failed);
    };
    let Ok(()) = write_all(out, b"%\n") else {
        return Err(Failed);
    };
    match write_all(out, recorded.device.as_slice()) {
        Ok(()) => Ok(()),
        Err(Failed) => Err(Failed),
    }
}

/// Writes the lines of the notes to the log, and then the text of both lines to `out`: the ticks of
/// the link, a mark, and the ticks for the device.
pub fn print_both<O: Sink, L: Sink>(recorded: &Recorded, out: &mut O, log: &mut L) -> Status
    /// The log has got all notes, and `out` the text of both lines; or a write or a flush failed,
    /// and each has got a front, with nothing in `out` before all notes are in the log.
    ensures prints { (texts : BothTexts) → HoldsTexts recorded.now texts
        → PrintsBoth texts (O.held out.old) (O.held out.new) (L.held log.old) (L.held log.new)
        result }
    /// The status is `Done` or that of a failed write.
    ensures status { (result ≡ Status.Done) ⊎ (result ≡ Status.WriteFault) }
    /// If the status is that of a failed write, a count of a sink's faults rose. If it is `Done`,
    /// neither count changed.
    ensures sinks { SinkCause (O.faults out.old) (O.faults out.new) (L.faults log.old)
        (L.faults log.new) result }
    /// Both sinks were flushed, after all that was written, if the status is `Done`, and otherwise
    /// at most `out` was.
    ensures flushes { FlushesAtEnd O.Sink L.Sink out.old out.new log.old log.new result }
{
    let Ok(()) = write_all(log, recorded.notes.as_slice()) else {
        return Status::WriteFault;
    };
    let Ok(()) = write_lines(recorded, out) else {
        return Status::WriteFault;
    };
    flush_both(out, log)
}
