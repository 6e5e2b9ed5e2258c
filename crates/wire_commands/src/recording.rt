//! The two recordings of an input, as what was on both pairs of wires of a two-wire box, and the
//! texts that the box makes of them.
ghost use Rattle.std.specs.Prelude.{◌≡◌, ◌+◌, ◌≤◌, length, IfOk};
ghost use Rattle.yasir_ticks.specs.declared.TheConstants.{MAX_TICKS};
ghost use Rattle.tick_drive.specs.Input.{IsReadCause, is_read_answer, max_ticks};
ghost use Rattle.line_commands.specs.KeptBox.{timed_of};
ghost use Rattle.line_commands.specs.Recording.{BothTexts, HoldsTexts, RecordsBoth};
ghost use Rattle.wire_commands.specs.WireLines.{wire_texts_with};

use crate::wire_lines::{WireEnd, WireLines};
use line_commands::{LineBox, Recorded};
use session_lists::list_ticks;
use std::alloc::Global;
use tick_drive::{End, Stop};
use yasir_io::{NoMemory, Source};
use yasir_ticks::Tick;

/// How many silent ticks follow the longer one of the two recordings, so that what passes leaves
/// the receiver.
const WIRES_REST: usize = 320;

// Takes both recordings, and returns what the box makes of them.
fn drive_wires<S: LineBox, C: LineBox>(
    alloc: Global,
    key: &[u8],
    at: WireEnd,
    device: &[Tick],
    link: &[Tick],
) -> Result<Recorded, NoMemory>
    requires outgoing { S.widths_fit }
    requires incoming { C.widths_fit }
    requires room { length device.now + length link.now ≤ max_ticks }
    ensures { IfOk result (λ recorded. (texts : BothTexts) × HoldsTexts recorded texts
        × wire_texts_with (timed_of S.walking S.line_of) (timed_of C.walking C.line_of) at.side
        at.waits key.now at.outgoing device.now link.now texts) }
{
    let mut lines = WireLines::<S, C>::new(alloc, key, at);
    let steps = device.len().max(link.len()) + WIRES_REST;
    let Ok(()) = lines.take_all(device, link, steps) else {
        return Err(NoMemory);
    };
    match lines.finish() {
        Ok(recorded) => Ok(recorded),
        Err(NoMemory) => Err(NoMemory),
    }
}

/// Takes two recordings, which a mark separates in the input: what was on the wires to the device of
/// a two-wire box, and what was on the wires of the link. Both are filled with silence to the length
/// of the longer one, and 320 silent ticks follow them. Both boxes have this key, and each has a
/// journal of its own, so its numbers begin at 1.
///
/// If the input isn't whole, it returns how the input ended. If there is no memory for the
/// recordings or the texts, it returns `Stop::NoMemory`.
pub fn record_wires<S: LineBox, C: LineBox, I: Source>(
    alloc: Global,
    key: &[u8],
    at: WireEnd,
    input: &mut I,
) -> Result<Recorded, End>
    /// The widths of the transmitter are ones that it can be made with.
    requires outgoing { S.widths_fit }
    /// The widths of the receiver are ones that it can be made with.
    requires incoming { C.widths_fit }
    /// If the input ends whole, with one mark, the texts are what a two-wire box with this gate
    /// drives the link and its device's wires with, and its notes, for these wires with the silence
    /// that follows. Otherwise it is said how the input ended and what was taken of it; it is
    /// stopped only for want of memory.
    ensures records { RecordsBoth (wire_texts_with (timed_of S.walking S.line_of)
        (timed_of C.walking C.line_of) at.side at.waits key.now at.outgoing)
        (I.left input.old) (I.left input.new) result }
    /// It ends with a failed read only if the input's count of faults rose.
    ensures read { IsReadCause (I.faults input.old) (I.faults input.new) (is_read_answer result) }
{
    let lists = match list_ticks(alloc, 1, input) {
        Ok(lists) => lists,
        Err(end) => return Err(end),
    };
    match drive_wires::<S, C>(alloc, key, at, lists.first(), lists.second()) {
        Ok(recorded) => Ok(recorded),
        Err(NoMemory) => Err(End::Stopped(Stop::NoMemory)),
    }
}
