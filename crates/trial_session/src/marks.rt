//! The marks of a period's places: bytes or silence.
ghost use Rattle.std.specs.Prelude.{◌≡◌, ℕ, ◌+◌, ◌<◌, ◌≤◌, ◌++◌, length, take, drop};
ghost use Rattle.std.specs.Prelude.{slice_index_or};

use memchr::memchr;

/// Writes these over the places from `from` on.
#[inline]
pub fn overwrite(places: &mut [u8], from: usize, with: &[u8])
    requires { from + length with.now ≤ length places.old }
    ensures { places.new
        ≡ take from places.old ++ (with.now ++ drop (from + length with.now) places.old) }
{
    places[from..from + with.len()].copy_from_slice(with);
}

/// How many of these marks aren't 0, up to the first one that is.
#[inline]
pub fn bytes_in_front(marks: &[u8]) -> usize
    ensures within { result ≤ length marks.now }
    ensures bytes { (k : ℕ) → k < result → slice_index_or marks.now k 0 ≡ 0 → ⊥ }
    ensures all { result < length marks.now → slice_index_or marks.now result 0 ≡ 0 }
{
    match memchr(0, marks) {
        Some(at) => at,
        None => marks.len(),
    }
}
