//! The text of the line of a numbered frame.
ghost use Rattle.std.specs.Prelude.{◌≡◌, ◌+◌, ◌≤◌, ◌++◌, length, OnOk, OnErr};
ghost use Rattle.yasir_io.specs.Causes.{HasCause};
ghost use Rattle.yasir_io.specs.TextBuffer.{waiting_bytes};
ghost use Rattle.session_audit.specs.Listing.{numbered_line_of};
ghost use Rattle.session_audit.specs.Printing.{AddsText, PrintingBreaksOff, on_the_way};

use command_ends::{append_decimal, append_digits};
use session_lists::Numbered;
use yasir_io::{Failed, Sink, TextBuffer, TextRoom};

// The room that the line of a numbered frame needs: 6 bytes for its name, 20 digits for each of two
// numbers, 6 bytes between these parts, 292 bytes in hex, an LF, and 64 more bytes that
// `append_digits` needs.
const LINE_ROOM: usize = 701;

// Appends the line `NAME N at S HEX` with an LF: a name, the number of a frame, the tick of its
// first byte, and its bytes. There must be room for 701 bytes.
fn write_numbered_line<const CAP: usize>(
    text: &mut TextRoom<CAP>,
    name: &[u8],
    head: Numbered,
    bytes: &[u8],
)
    requires room { length text.old.items + 701 ≤ CAP }
    requires name { length name.now ≤ 6 }
    requires frame { length bytes.now ≤ 292 }
    ensures { text.new.items ≡ text.old.items ++ numbered_line_of name.now
        (record { number = head.number; start = head.start; frame = bytes.now }) }
{
    text.append(name);
    text.append(b" ");
    append_decimal(text, head.number);
    text.append(b" at ");
    append_decimal(text, head.start);
    text.append(b" ");
    append_digits(text, bytes);
    text.append(b"\n");
}

/// Adds the line `NAME N at S HEX` to a text on its way to a sink. It is written directly where the
/// text waits.
pub(crate) fn push_numbered_line<O: Sink>(
    text: &mut TextBuffer,
    out: &mut O,
    name: &[u8],
    head: Numbered,
    bytes: &[u8],
) -> Result<(), Failed>
    requires name { length name.now ≤ 6 }
    requires frame { length bytes.now ≤ 292 }
    ensures ok { OnOk result (AddsText (on_the_way (O.held out.old) (waiting_bytes text.old))
        (on_the_way (O.held out.new) (waiting_bytes text.new)) (numbered_line_of name.now
        (record { number = head.number; start = head.start; frame = bytes.now }))) }
    ensures err { OnErr result (PrintingBreaksOff (on_the_way (O.held out.old) (waiting_bytes text.old))
        (O.held out.new) (numbered_line_of name.now
        (record { number = head.number; start = head.start; frame = bytes.now }))) }
    ensures cause { HasCause (O.faults out.old) (O.faults out.new) result }
    ensures flushes { O.flushes out.new ≡ O.flushes out.old }
{
    match text.make_room(out, LINE_ROOM) {
        Ok(()) => {
            write_numbered_line(&mut text.text, name, head, bytes);
            Ok(())
        }
        Err(Failed) => Err(Failed),
    }
}
