//! The text of the line that is printed for a frame.
ghost use Rattle.std.specs.Prelude.{◌≡◌, ℕ, ◌+◌, ◌≤◌, List, ◌++◌, length, Option, OnOk, OnErr};
ghost use Rattle.yasir_io.specs.Causes.{HasCause};
ghost use Rattle.yasir_io.specs.Output.{Buffered, GotPrefix};
ghost use Rattle.yasir_io.specs.TextBuffer.{waiting_bytes};
ghost use Rattle.command_ends.specs.FrameLine.{frame_line, frame_line_of};

use crate::waiting::{append_decimal, append_digits};
use yasir_io::{Failed, Sink, TextBuffer, TextRoom};

/// The room that the line of a frame needs: 8 bytes of words, a number of 20 digits, a blank, 292
/// bytes in hex, an LF, and 64 bytes that may be copied with the last digits.
pub const LINE_ROOM: usize = 678;

/// Appends `words`, at most 8 bytes, and then `S HEX` and an LF: the tick of the first byte of a
/// frame, and the frame's bytes. There must be room for 678 bytes.
#[inline]
pub fn write_frame_line<const CAP: usize>(
    text: &mut TextRoom<CAP>,
    words: &[u8],
    start: u64,
    bytes: &[u8],
)
    /// There is room for 678 bytes.
    requires room { length text.old.items + 678 ≤ CAP }
    /// There are at most 8 bytes of words.
    requires words { length words.now ≤ 8 }
    /// The frame has at most 292 bytes.
    requires frame { length bytes.now ≤ 292 }
    /// The words, the frame's tick and its bytes in hex digits are appended, with an LF, and
    /// nothing else changes.
    ensures line { text.new.items ≡ text.old.items
        ++ frame_line_of words.now (record { start = start; frame = bytes.now }) }
    /// At most 614 bytes are appended.
    ensures short { length text.new.items ≤ length text.old.items + 614 }
{
    text.append(words);
    append_decimal(text, start);
    text.append(b" ");
    append_digits(text, bytes);
    text.append(b"\n");
}

/// Adds the line `read at S HEX` to a text on its way to a sink: the tick of the first byte of a
/// frame that was read, and the frame's bytes. The line is written right into the text that waits.
#[inline(never)]
pub fn push_read_line<O: Sink>(
    text: &mut TextBuffer,
    out: &mut O,
    start: u64,
    bytes: &[u8],
) -> Result<(), Failed>
    /// The frame has at most 292 bytes.
    requires { length bytes.now ≤ 292 }
    /// The line is added to the text, of which the sink has got all but what waits.
    ensures ok { OnOk result ((held : Option (List ℕ)) (before : List ℕ)
        → Buffered held (O.held out.old) (waiting_bytes text.old) before
        → Buffered held (O.held out.new) (waiting_bytes text.new)
        (before ++ frame_line (record { start = start; frame = bytes.now }))) }
    /// After a failed write the sink has got a front of the text with this line.
    ensures err { OnErr result ((held : Option (List ℕ)) (before : List ℕ)
        → Buffered held (O.held out.old) (waiting_bytes text.old) before
        → GotPrefix held (O.held out.new)
        (before ++ frame_line (record { start = start; frame = bytes.now }))) }
    /// A write fails only if the sink's count of faults rose, which otherwise is as it was.
    ensures cause { HasCause (O.faults out.old) (O.faults out.new) result }
    /// No flush is counted.
    ensures flushes { O.flushes out.new ≡ O.flushes out.old }
{
    match text.make_room(out, LINE_ROOM) {
        Ok(()) => {
            write_frame_line(&mut text.text, b"read at ", start, bytes);
            Ok(())
        }
        Err(Failed) => Err(Failed),
    }
}
