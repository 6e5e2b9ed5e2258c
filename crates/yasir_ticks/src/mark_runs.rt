//! Runs among marks of ticks. A mark of 0 represents a silent tick, and any other mark a byte.
ghost use Rattle.std.specs.Prelude.{◌≡◌, ℕ, ◌<◌, ◌≤◌, length, slice_index_or};

use crate::lanes::{LANES, silence_from};

// Returns how many marks at the front are of silence, up to the first one of a byte or the end of
// the last whole vector.
#[inline]
fn silence_in_vectors(marks: &[u8]) -> usize
    ensures within { result ≤ length marks.now }
    ensures silent { (k : ℕ) → k < result → slice_index_or marks.now k 0 ≡ 0 }
{
    let mut at = 0;
    while at + LANES <= marks.len() {
        let silent = silence_from(marks, at);
        if silent < LANES {
            return at + silent;
        }
        at += LANES;
    }
    at
}

/// Returns how many of these marks are of silence, up to the first one of a byte.
#[inline]
pub fn silence_in_front(marks: &[u8]) -> usize
    /// It is at most the number of marks.
    ensures within { result ≤ length marks.now }
    /// Each mark before this place is of silence.
    ensures silent { (k : ℕ) → k < result → slice_index_or marks.now k 0 ≡ 0 }
    /// The mark at this place, if there is one, is of a byte.
    ensures byte { result < length marks.now → slice_index_or marks.now result 0 ≡ 0 → ⊥ }
{
    for at in silence_in_vectors(marks)..marks.len() {
        if marks[at] != 0 {
            return at;
        }
    }
    marks.len()
}
