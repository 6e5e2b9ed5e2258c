//! Marks of ticks, 32 of them at a time, in vectors.
ghost use Rattle.std.specs.Prelude.{◌≡◌, ◌↔◌, ℕ, ◌+◌, ◌<◌, ◌≤◌, ◌==◌, length, slice_index};
ghost use Rattle.std.specs.Prelude.{if◌then◌else◌};
ghost use Rattle.std.specs.Int.{bit_at};
ghost use Rattle.memchr.specs.Lanes.{HasLanes};

use std::simd::prelude::*;

/// How many marks are looked at together.
pub(crate) const LANES: usize = 32;

// The marks from a place on.
#[inline(always)]
fn load(marks: &[u8], i: usize) -> u8x32
    requires { i + 32 ≤ length marks.now }
    ensures { HasLanes result (λ k. slice_index marks.now (i + k)) }
{
    u8x32::from_slice(&marks[i..])
}

// All ones in each lane of a silent tick, and 0 in the others.
#[inline(always)]
fn silent_lanes(marks: u8x32) -> u8x32
    ensures { HasLanes result (λ k. if slice_index marks k == 0 then 255 else 0) }
{
    marks
        .simd_eq(u8x32::splat(0))
        .select(u8x32::splat(255), u8x32::splat(0))
}

// All ones in each lane of a byte, and 0 in the others.
#[inline(always)]
fn byte_lanes(marks: u8x32) -> u8x32
    ensures { HasLanes result (λ k. if slice_index marks k == 0 then 0 else 255) }
{
    marks
        .simd_eq(u8x32::splat(0))
        .select(u8x32::splat(0), u8x32::splat(255))
}

// Bit k is the top bit of lane k.
#[inline(always)]
fn top_bits(v: u8x32) -> u64
    ensures { (k : ℕ) → (bit_at result k ≡ 1) ↔ (128 ≤ slice_index v k) }
{
    v.simd_ge(u8x32::splat(128)).to_bitmask()
}

// Returns the place of the first bit that is set, or a place after all lanes if none is.
#[inline(always)]
fn first_bit(m: u64) -> usize
    ensures none { (k : ℕ) → k < 32 → k < result → bit_at m k ≡ 1 → ⊥ }
    ensures found { result < 32 → bit_at m result ≡ 1 }
{
    if m == 0 {
        return LANES;
    }
    m.trailing_zeros() as usize
}

/// Returns how many of the 32 marks from `place` on are of bytes, up to the first one of silence.
#[inline(always)]
pub(crate) fn bytes_from(marks: &[u8], place: usize) -> usize
    requires { place + 32 ≤ length marks.now }
    ensures bytes { (k : ℕ) → k < 32 → k < result → slice_index marks.now (place + k) ≡ 0 → ⊥ }
    ensures silent { result < 32 → slice_index marks.now (place + result) ≡ 0 }
{
    first_bit(top_bits(silent_lanes(load(marks, place))))
}

/// Returns how many of the 32 marks from `place` on are of silence, up to the first one of a byte.
#[inline(always)]
pub(crate) fn silence_from(marks: &[u8], place: usize) -> usize
    requires { place + 32 ≤ length marks.now }
    ensures silent { (k : ℕ) → k < 32 → k < result → slice_index marks.now (place + k) ≡ 0 }
    ensures byte { result < 32 → slice_index marks.now (place + result) ≡ 0 → ⊥ }
{
    first_bit(top_bits(byte_lanes(load(marks, place))))
}
