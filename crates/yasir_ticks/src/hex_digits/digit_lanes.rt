//! The hex digits of 32 bytes, by operations on vectors.
ghost use Rattle.std.specs.Prelude.{◌≡◌, map};
ghost use Rattle.hex.specs.Hex.{encode_lower};
ghost use Rattle.yasir_ticks.specs.HexDigits.{first_digit, second_digit};

use std::simd::prelude::*;

// The sixteen digits, twice, since a look-up reads among sixteen lanes.
const DIGITS: [u8; 32] = *b"0123456789abcdef0123456789abcdef";

// Returns the first digit of each byte.
#[inline(always)]
fn firsts(bytes: u8x32) -> u8x32
    ensures { result ≡ map first_digit bytes }
{
    u8x32::from_array(DIGITS).swizzle_dyn_within::<16>(bytes >> u8x32::splat(4))
}

// Returns the second digit of each byte.
#[inline(always)]
fn seconds(bytes: u8x32) -> u8x32
    ensures { result ≡ map second_digit bytes }
{
    u8x32::from_array(DIGITS).swizzle_dyn_within::<16>(bytes & u8x32::splat(15))
}

/// Returns the lower-case hex digits of 32 bytes.
#[inline(always)]
pub fn digits_of(bytes: &[u8; 32]) -> [u8; 64]
    ensures { result ≡ encode_lower bytes.now }
{
    let bytes = u8x32::from_array(*bytes);
    firsts(bytes)
        .shuffle(
            seconds(bytes),
            [
                0, 32, 1, 33, 2, 34, 3, 35, 4, 36, 5, 37, 6, 38, 7, 39, 8, 40, 9, 41, 10, 42, 11,
                43, 12, 44, 13, 45, 14, 46, 15, 47, 16, 48, 17, 49, 18, 50, 19, 51, 20, 52, 21, 53,
                22, 54, 23, 55, 24, 56, 25, 57, 26, 58, 27, 59, 28, 60, 29, 61, 30, 62, 31, 63,
            ],
        )
        .to_array()
}
