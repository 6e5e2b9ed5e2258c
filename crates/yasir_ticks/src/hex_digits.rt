//! Hex digits. Bytes are written as lower-case digits, 32 bytes at a time, and digits of either
//! case are read.
ghost use Rattle.std.specs.Prelude.{◌≡◌, ◌+◌, ◌*◌, ◌<◌, ◌≤◌, ◌++◌, length};
ghost use Rattle.hex.specs.Hex.{encode_lower};

mod digit;
mod digit_lanes;
mod pairs;

use arrayvec::ArrayVec;
pub(crate) use digit::hex_value;
pub use digit_lanes::digits_of;
pub(crate) use pairs::{Decoded, decode_front, decode_full};

// How many bytes are written at once.
const TOGETHER: usize = 32;

// Appends the digits of fewer bytes than are written at once.
#[inline]
fn push_last<const CAP: usize>(line: &mut ArrayVec<u8, CAP>, rest: &[u8])
    requires few { length rest.now < 32 }
    requires room { length line.old.items + 2 * length rest.now ≤ CAP }
    ensures { line.new.items ≡ line.old.items ++ encode_lower rest.now }
{
    if rest.is_empty() {
        return;
    }
    let mut last = [0; TOGETHER];
    last[..rest.len()].copy_from_slice(rest);
    let _ = line.try_extend_from_slice(&digits_of(&last)[..2 * rest.len()]);
}

/// Appends bytes as lower-case hex digits. There must be room for them.
pub fn push_digits<const CAP: usize>(line: &mut ArrayVec<u8, CAP>, bytes: &[u8])
    /// There is room for two digits for each byte.
    requires { length line.old.items + 2 * length bytes.now ≤ CAP }
    /// The digits are appended, and nothing else changes.
    ensures digits { line.new.items ≡ line.old.items ++ encode_lower bytes.now }
    /// Two bytes are appended for each byte.
    ensures long { length line.new.items ≡ length line.old.items + 2 * length bytes.now }
{
    let mut rest = bytes;
    while let Some((front, more)) = rest.split_first_chunk::<TOGETHER>() {
        let _ = line.try_extend_from_slice(&digits_of(front));
        rest = more;
    }
    push_last(line, rest);
}
