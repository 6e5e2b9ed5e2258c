//! Appends numbers and hex digits to a text that waits, right where it waits.
ghost use Rattle.std.specs.Prelude.{◌≡◌, ◌+◌, ◌*◌, ◌<◌, ◌≤◌, ◌++◌, length, decimal};
ghost use Rattle.hex.specs.Hex.{encode_lower};

use yasir_io::TextRoom;
use yasir_ticks::digits_of;

// How many bytes are written at once.
const TOGETHER: usize = 32;

/// Appends the decimal digits of a number. There must be room for 20 bytes.
#[inline]
pub fn append_decimal<const CAP: usize>(text: &mut TextRoom<CAP>, n: u64)
    /// There is room for 20 bytes.
    requires { length text.old.items + 20 ≤ CAP }
    /// The digits are appended, and nothing else changes.
    ensures digits { text.new.items ≡ text.old.items ++ decimal n }
    /// At most 20 bytes are appended.
    ensures short { length text.new.items ≤ length text.old.items + 20 }
{
    let mut digits = itoa::Buffer::new();
    text.append(digits.format(n).as_bytes());
}

// Appends the digits of fewer bytes than are written at once.
#[inline]
fn append_last<const CAP: usize>(text: &mut TextRoom<CAP>, rest: &[u8])
    requires few { length rest.now < 32 }
    requires room { length text.old.items + 64 ≤ CAP }
    ensures { text.new.items ≡ text.old.items ++ encode_lower rest.now }
{
    let mut last = [0; TOGETHER];
    last[..rest.len()].copy_from_slice(rest);
    text.append_front(&digits_of(&last), 2 * rest.len());
}

/// Appends bytes as lower-case hex digits. There must be room for them, and for 64 bytes more: the
/// last bytes, fewer than 32, are copied together with what comes after them.
pub fn append_digits<const CAP: usize>(text: &mut TextRoom<CAP>, bytes: &[u8])
    /// There is room for the digits and for 64 bytes more.
    requires { length text.old.items + 2 * length bytes.now + 64 ≤ CAP }
    /// The digits are appended, and nothing else changes.
    ensures digits { text.new.items ≡ text.old.items ++ encode_lower bytes.now }
    /// Two bytes are appended for each byte.
    ensures long { length text.new.items ≡ length text.old.items + 2 * length bytes.now }
{
    let mut rest = bytes;
    while let Some((front, more)) = rest.split_first_chunk::<TOGETHER>() {
        text.append(&digits_of(front));
        rest = more;
    }
    append_last(text, rest);
}
