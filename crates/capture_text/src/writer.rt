//! The text of a record's time, as it is written.
ghost use Rattle.std.specs.Prelude.{◌≡◌, ◌∷◌, [], ◌++◌, ◌+◌, ◌-◌, ◌*◌, ◌/◌, ◌%◌, ◌<◌, ◌≤◌, ◌^◌, ℕ};
ghost use Rattle.std.specs.Prelude.{List, length};
ghost use Rattle.std.specs.Fmt.{decimal};
ghost use Rattle.hex.specs.Hex.{encode_lower, IsBytes};
ghost use Rattle.capture_text.specs.CaptureText.{IsRowRecord, recorded, point};
ghost use Rattle.capture_text.specs.Writing.{fraction_digits, time_front};

use arrayvec::ArrayVec;
use itoa::Buffer;

/// The nanoseconds of a second.
const SECOND: u64 = 1_000_000_000;

/// How the line of a record begins: what comes before the digits of its bytes.
pub type LineFront = ArrayVec<u8, 32>;

/// Appends the digit that says how often `counts` fits into `remainder`, and returns what remains.
fn push_digit(front: &mut LineFront, remainder: u32, counts: u32) -> u32
    requires room { length front.old.items < 32 }
    requires some { 0 < counts }
    requires digit { remainder < 10 * counts }
    ensures digit { front.new.items ≡ front.old.items ++ (48 + remainder / counts) ∷ [] }
    ensures remainder { result ≡ remainder % counts }
{
    front.push(b'0' + (remainder / counts) as u8);
    remainder % counts
}

/// Appends the nine digits of nanoseconds that follow a point.
fn push_fraction(front: &mut LineFront, nanoseconds: u32)
    requires room { length front.old.items ≤ 23 }
    requires digits { nanoseconds < 1000000000 }
    ensures { front.new.items ≡ front.old.items ++ fraction_digits nanoseconds }
{
    let remainder = push_digit(front, nanoseconds, 100_000_000);
    let remainder = push_digit(front, remainder, 10_000_000);
    let remainder = push_digit(front, remainder, 1_000_000);
    let remainder = push_digit(front, remainder, 100_000);
    let remainder = push_digit(front, remainder, 10_000);
    let remainder = push_digit(front, remainder, 1_000);
    let remainder = push_digit(front, remainder, 100);
    let remainder = push_digit(front, remainder, 10);
    push_digit(front, remainder, 1);
}

/// Appends the decimal digits of a number.
fn push_number(front: &mut LineFront, n: u64)
    requires { length front.old.items ≤ 12 }
    ensures digits { front.new.items ≡ front.old.items ++ decimal n }
    ensures long { length front.new.items ≤ length front.old.items + 20 }
{
    let mut buffer = Buffer::new();
    let _ = front.try_extend_from_slice(buffer.format(n).as_bytes());
}

/// Returns how the line of a record begins: its time in seconds, with nine digits after the point,
/// and a space. `start` is that time in nanoseconds. The bytes of the record in hex digits and an
/// LF must follow.
pub fn line_front(start: u64) -> LineFront
    /// With the hex digits of some bytes behind it, it is the line of a record of these bytes at
    /// this time.
    ensures line { (bytes : List ℕ) → 0 < length bytes → IsBytes bytes
        → IsRowRecord (result.items ++ encode_lower bytes) start (recorded start bytes) }
    /// It has exactly the bytes of the definition.
    ensures front { result.items ≡ time_front start }
{
    let mut front = LineFront::new();
    push_number(&mut front, start / SECOND);
    front.push(b'.');
    push_fraction(&mut front, (start % SECOND) as u32);
    front.push(b' ');
    front
}
