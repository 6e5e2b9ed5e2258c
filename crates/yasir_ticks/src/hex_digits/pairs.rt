//! Decodes pairs of hex digits, 32 pairs at a time, by operations on vectors.
ghost use Rattle.std.specs.Prelude.{◌≡◌, ◌↔◌, ℕ, ◌+◌, ◌*◌, ◌<◌, ◌≤◌, ◌++◌, length, take, Ok};
ghost use Rattle.std.specs.Prelude.{slice_index, true, IfSome};
ghost use Rattle.std.specs.Int.{bit_at};
ghost use Rattle.hex.specs.Hex.{decode_of};
ghost use Rattle.memchr.specs.Lanes.{HasLanes};
ghost use Rattle.yasir_ticks.specs.HexDigits.{HasValues, lane_pair, lane_greater, lane_raised};

use std::simd::prelude::*;

/// The bytes that pairs of digits spell.
pub(crate) struct Decoded {
    /// How many pairs were decoded, from the front on.
    pub(crate) pairs: usize,
    /// Their bytes. What comes after them means nothing.
    pub(crate) bytes: [u8; 32],
}

// Loads the 32 bytes from place `i` on.
#[inline(always)]
fn load(s: &[u8], i: usize) -> u8x32
    requires { i + 32 ≤ length s.now }
    ensures { HasLanes result (λ k. slice_index s.now (i + k)) }
{
    u8x32::from_slice(&s[i..])
}

// Returns the value of each hex digit of either case, and 16 or more for a byte that is no digit.
// This is the lesser of the value that the byte would have as a decimal digit and the one that it
// would have as a letter. At least one of these two is 16 or more.
#[inline(always)]
fn values(c: u8x32) -> u8x32
    ensures { HasValues result (λ k. slice_index c k) }
{
    let decimal = (c + u8x32::splat(198)).simd_max(u8x32::splat(6)) - u8x32::splat(246);
    let from_a = (c & u8x32::splat(223)) - u8x32::splat(65);
    let letter = from_a.simd_min(u8x32::splat(245)) + u8x32::splat(10);
    decimal.simd_min(letter)
}

// Returns the first byte of each pair.
#[inline(always)]
fn firsts(a: u8x32, b: u8x32) -> u8x32
    ensures { HasLanes result (λ k. slice_index (a ++ b) (2 * k)) }
{
    a.shuffle(
        b,
        [
            0, 2, 4, 6, 8, 10, 12, 14, 16, 18, 20, 22, 24, 26, 28, 30, 32, 34, 36, 38, 40, 42, 44,
            46, 48, 50, 52, 54, 56, 58, 60, 62,
        ],
    )
}

// Returns the second byte of each pair.
#[inline(always)]
fn seconds(a: u8x32, b: u8x32) -> u8x32
    ensures { HasLanes result (λ k. slice_index (a ++ b) (2 * k + 1)) }
{
    a.shuffle(
        b,
        [
            1, 3, 5, 7, 9, 11, 13, 15, 17, 19, 21, 23, 25, 27, 29, 31, 33, 35, 37, 39, 41, 43, 45,
            47, 49, 51, 53, 55, 57, 59, 61, 63,
        ],
    )
}

// Joins the values of each pair of digits into a byte.
#[inline(always)]
fn joined(high: u8x32, low: u8x32) -> u8x32
    ensures { HasLanes result (λ k. lane_pair (slice_index high k) (slice_index low k)) }
{
    high * u8x32::splat(16) + low
}

// Returns the greater of each two lanes.
#[inline(always)]
fn greater(a: u8x32, b: u8x32) -> u8x32
    ensures { HasLanes result (λ k. lane_greater (slice_index a k) (slice_index b k)) }
{
    a.simd_max(b)
}

// Raises each lane by 112, to at most 255, so that 16 or more becomes 128 or more.
#[inline(always)]
fn raised(v: u8x32) -> u8x32
    ensures { HasLanes result (λ k. lane_raised (slice_index v k)) }
{
    v.simd_min(u8x32::splat(143)) + u8x32::splat(112)
}

// Returns a mask: bit k tells whether lane k is 128 or more.
#[inline(always)]
fn high_lanes(v: u8x32) -> u64
    ensures bits { (k : ℕ) → (bit_at result k ≡ 1) ↔ (128 ≤ slice_index v k) }
    ensures lanes { length v ≡ 32 }
{
    v.simd_ge(u8x32::splat(128)).to_bitmask()
}

// Returns how many lanes at the front are below 128.
#[inline(always)]
fn low_lanes(v: u8x32) -> usize
    ensures within { result ≤ 32 }
    ensures low { (k : ℕ) → k < result → slice_index v k < 128 }
{
    let high = high_lanes(v);
    if high == 0 {
        32
    } else {
        high.trailing_zeros() as usize
    }
}

/// Decodes the whole pairs of hex digits that 64 bytes begin with.
#[inline(always)]
pub(crate) fn decode_front(text: &[u8]) -> Decoded
    requires { 64 ≤ length text.now }
    ensures within { result.pairs ≤ 32 }
    ensures decoded { decode_of (take (2 * result.pairs) text.now)
        ≡ Ok (take result.pairs result.bytes) }
{
    let a = load(text, 0);
    let b = load(text, 32);
    let high = values(firsts(a, b));
    let low = values(seconds(a, b));
    Decoded {
        pairs: low_lanes(raised(greater(high, low))),
        bytes: joined(high, low).to_array(),
    }
}

// Whether each lane of both is below 16.
#[inline(always)]
fn all_digits(a: u8x32, b: u8x32) -> bool
    ensures { result ≡ true → (k : ℕ) → (slice_index a k < 16) × (slice_index b k < 16) }
{
    high_lanes(raised(greater(a, b))) == 0
}

// Joins each two adjacent values into a byte. The 16 bits of two values, times 4097, have both of
// them in the higher byte.
#[inline(always)]
fn paired(values: u8x32) -> u8x16
    requires { (k : ℕ) → slice_index values k < 16 }
    ensures long { length result ≡ 16 }
    ensures each { (k : ℕ) → k < 16 → slice_index result k
        ≡ slice_index values (2 * k) * 16 + slice_index values (2 * k + 1) }
{
    ((u16x16::from_le_bytes(values) * u16x16::splat(4097)) >> u16x16::splat(8)).cast::<u8>()
}

// Returns sixteen lanes, followed by sixteen more.
#[inline(always)]
fn together(front: u8x16, back: u8x16) -> u8x32
    ensures { result ≡ front ++ back }
{
    front.shuffle(
        back,
        [
            0, 1, 2, 3, 4, 5, 6, 7, 8, 9, 10, 11, 12, 13, 14, 15, 16, 17, 18, 19, 20, 21, 22, 23,
            24, 25, 26, 27, 28, 29, 30, 31,
        ],
    )
}

/// Returns the bytes that the first 64 hex digits of a text spell, or `None` if one of these 64
/// bytes is no digit.
#[inline(always)]
pub(crate) fn decode_full(text: &[u8]) -> Option<[u8; 32]>
    requires { 64 ≤ length text.now }
    ensures { IfSome result (λ bytes. decode_of (take 64 text.now) ≡ Ok bytes) }
{
    let a = values(load(text, 0));
    let b = values(load(text, 32));
    if !all_digits(a, b) {
        return None;
    }
    Some(together(paired(a), paired(b)).to_array())
}
