//! The words of a block, in vectors of four.

ghost use Rattle.std.specs.Prelude.{◌≡◌, ℕ, ◌+◌, ◌*◌, ◌≤◌};
ghost use Rattle.sha2.specs.Sha256.{word_at};
ghost use Rattle.link_format.specs.Words.{four_loaded};

use std::simd::u32x4;

// Returns the word at byte `i` of a block, high byte first.
#[inline(always)]
fn word_at(block: &[u8; 64], i: usize) -> u32
    requires { i + 4 ≤ 64 }
    ensures { result ≡ word_at block.now i }
{
    u32::from_be_bytes([block[i], block[i + 1], block[i + 2], block[i + 3]])
}

/// Returns four words of a block, from word `t` on.
#[inline(always)]
pub(crate) fn loaded(block: &[u8; 64], t: usize) -> u32x4
    requires { t + 4 ≤ 16 }
    ensures { result ≡ four_loaded block.now t }
{
    u32x4::from_array([
        word_at(block, 4 * t),
        word_at(block, 4 * (t + 1)),
        word_at(block, 4 * (t + 2)),
        word_at(block, 4 * (t + 3)),
    ])
}
