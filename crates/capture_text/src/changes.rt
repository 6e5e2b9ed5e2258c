//! The changes of the levels of two wires in a tick, as text.
ghost use Rattle.std.specs.Prelude.{◌≡◌, ◌+◌, ◌*◌, ◌<◌, ◌≤◌, ◌^◌, ◌++◌, length};
ghost use Rattle.std.specs.List.{flat_map};
ghost use Rattle.capture_text.specs.Levels.{tick_levels};
ghost use Rattle.capture_text.specs.Changes.{bit_start, change_if, changes_at, changes_from, quiet_rows};
ghost use Rattle.capture_text.specs.Dump.{change_text};

use crate::levels::tick_levels;
use crate::text::change_text;
use arrayvec::ArrayVec;
use line_stamps::{Rate, Way, nearest};
use yasir_ticks::Tick;

/// The levels of both wires.
#[derive(Clone, Copy, Debug, PartialEq, Eq)]
pub struct BothLevels {
    /// Whether the wire of way A is high.
    pub a: bool,
    /// Whether the wire of way B is high.
    pub b: bool,
}

/// A change of a wire's level.
#[derive(Clone, Copy, Debug, PartialEq, Eq)]
pub struct Change {
    /// When the level changes, in nanoseconds since the start of the dump.
    pub time: u64,
    /// Which wire changes, by the way of the line that it carries.
    pub way: Way,
    /// The level from then on.
    pub high: bool,
}

/// The text of the changes in a tick: at most 22 of them.
pub type TickText = ArrayVec<u8, 704>;

/// A bit of a dump, and the levels of both wires in the bit before it.
#[derive(Clone, Copy, Debug)]
struct Cursor {
    rate: Rate,
    bit: u64,
    before: BothLevels,
}

/// Returns when a bit of a dump starts, in nanoseconds since bit 0: the nearest whole number, a
/// half up.
pub fn bit_start(rate: Rate, bit: u64) -> u64
    /// The bit is below 2^28.
    requires { bit < 2 ^ 28 }
    ensures { result ≡ bit_start rate bit }
{
    nearest(bit * 1_000_000_000, u64::from(rate.baud))
}

/// Appends the text of a change.
fn push_text(text: &mut TickText, change: Change)
    requires { length text.old.items + 25 ≤ 704 }
    ensures text { text.new.items ≡ text.old.items ++ change_text change }
    ensures long { length text.new.items ≤ length text.old.items + 25 }
{
    let line = change_text(change);
    let _ = text.try_extend_from_slice(line.as_slice());
}

/// Appends the change of a wire from one level to another, if they differ.
fn push_change(text: &mut TickText, time: u64, way: Way, before: bool, now: bool)
    requires { length text.old.items + 25 ≤ 704 }
    ensures text { text.new.items
        ≡ text.old.items ++ flat_map change_text (change_if time way before now) }
    ensures long { length text.new.items ≤ length text.old.items + 25 }
{
    if now {
        if before {
            return;
        }
        let rise = Change {
            time,
            way,
            high: true,
        };
        push_text(text, rise);
        return;
    }
    if !before {
        return;
    }
    let fall = Change {
        time,
        way,
        high: false,
    };
    push_text(text, fall);
}

/// Appends the changes of both wires at a bit.
fn push_bit(text: &mut TickText, cursor: Cursor, a: bool, b: bool)
    requires room { length text.old.items + 50 ≤ 704 }
    requires early { cursor.bit < 2 ^ 28 }
    ensures text { text.new.items ≡ text.old.items
        ++ flat_map change_text (changes_at (bit_start cursor.rate cursor.bit) cursor.before a b) }
    ensures long { length text.new.items ≤ length text.old.items + 50 }
{
    let time = bit_start(cursor.rate, cursor.bit);
    push_change(text, time, Way::A, cursor.before.a, a);
    push_change(text, time, Way::B, cursor.before.b, b);
}

/// Appends the changes of two wires that have these levels from the cursor's bit on.
fn push_bits(text: &mut TickText, cursor: Cursor, a: &[bool], b: &[bool])
    requires room { length text.old.items + 50 * length a.now ≤ 704 }
    requires early { cursor.bit + length a.now ≤ 2 ^ 28 }
    ensures { text.new.items ≡ text.old.items
        ++ flat_map change_text (changes_from cursor.rate cursor.bit cursor.before a.now b.now) }
{
    let [a, more_a @ ..] = a else {
        return;
    };
    let [b, more_b @ ..] = b else {
        return;
    };
    push_bit(text, cursor, *a, *b);
    let next = Cursor {
        rate: cursor.rate,
        bit: cursor.bit + 1,
        before: BothLevels { a: *a, b: *b },
    };
    push_bits(text, next, more_a, more_b);
}

/// Returns the text of a tick that starts at this bit of a dump. Both wires are high in the bit
/// before it.
pub fn tick_text(rate: Rate, bit: u64, a: Tick, b: Tick) -> TickText
    requires { bit + 11 ≤ 2 ^ 28 }
    ensures { result.items ≡ flat_map change_text (changes_from rate bit quiet_rows
        (tick_levels rate.bits a) (tick_levels rate.bits b)) }
{
    let a = tick_levels(rate.bits, a);
    let b = tick_levels(rate.bits, b);
    let mut text = TickText::new();
    let cursor = Cursor {
        rate,
        bit,
        before: BothLevels { a: true, b: true },
    };
    push_bits(&mut text, cursor, a.as_slice(), b.as_slice());
    text
}
