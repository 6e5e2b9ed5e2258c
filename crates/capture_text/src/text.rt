//! The text of a value change dump.
ghost use Rattle.std.specs.Prelude.{◌≡◌, ◌≤◌, length};
ghost use Rattle.capture_text.specs.Dump.{wire_sign, time_line, change_text, dump_front};

use crate::changes::Change;
use arrayvec::ArrayVec;
use itoa::Buffer;
use line_stamps::Way;

/// The wires that a dump has.
#[derive(Clone, Copy, Debug, PartialEq, Eq)]
pub enum Wires {
    /// Only the wire of way A.
    One,
    /// The wires of both ways.
    Two,
}

/// The text of a change.
pub type ChangeText = ArrayVec<u8, 32>;

/// Returns the head of a dump, and the levels of its wires at the start.
pub fn dump_front(wires: Wires) -> &'static [u8]
    ensures { result.now ≡ dump_front wires }
{
    match wires {
        Wires::One =>
            b"$timescale 1 ns $end\n$scope module line $end\n$var wire 1 ! a $end\n$upscope $end\n$enddefinitions $end\n#0\n1!\n",
        Wires::Two =>
            b"$timescale 1 ns $end\n$scope module line $end\n$var wire 1 ! a $end\n$var wire 1 \" b $end\n$upscope $end\n$enddefinitions $end\n#0\n1!\n1\"\n",
    }
}

/// Returns the sign with which a dump names a wire.
fn wire_sign(way: Way) -> u8
    ensures { result ≡ wire_sign way }
{
    match way {
        Way::A => b'!',
        Way::B => b'"',
    }
}

/// Returns the line of a time, in nanoseconds since the start of a dump.
pub fn time_line(time: u64) -> ChangeText
    ensures line { result.items ≡ time_line time }
    ensures long { length result.items ≤ 22 }
{
    let mut text = ChangeText::new();
    text.push(b'#');
    let mut buffer = Buffer::new();
    let _ = text.try_extend_from_slice(buffer.format(time).as_bytes());
    text.push(b'\n');
    text
}

/// Returns the text of a change: the line of its time, and the line of its level.
pub fn change_text(change: Change) -> ChangeText
    /// It is the text of the change by the definition.
    ensures text { result.items ≡ change_text change }
    /// It has at most 25 bytes.
    ensures long { length result.items ≤ 25 }
{
    let mut text = time_line(change.time);
    text.push(if change.high { b'1' } else { b'0' });
    text.push(wire_sign(change.way));
    text.push(b'\n');
    text
}
