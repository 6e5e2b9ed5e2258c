//! Hash values, each with the function that takes a block into it.

ghost use Rattle.std.specs.Prelude.{◌≡◌, ℕ, ◌*◌, ◌%◌, List, [], ◌++◌, length};
ghost use Rattle.sha2.specs.Sha256.{padded_message, digest_bytes, sha256};
ghost use Rattle.sha1.specs.Sha1.{sha1};
ghost use Rattle.link_format.specs.HashValues.{IsSha1After, IsSha256After};

use crate::{sha1_block, sha256_block};

/// The bytes of a block.
pub(crate) const BLOCK_LEN: usize = 64;

/// The state of a hash function after the whole blocks of a message.
pub trait HashValue: Copy + Drop {
    /// Holds if the value is the state after these whole blocks.
    ghost is_after: { Self → List ℕ → Type 0 };

    /// Returns the value before the first block.
    fn initial() -> Self
        ensures { is_after result [] };

    /// Takes one more block.
    fn take_block(&mut self, block: &[u8; BLOCK_LEN])
        ensures { (blocks : List ℕ) → length blocks % 64 ≡ 0 → is_after self.old blocks
            → is_after self.new (blocks ++ block.now) };
}

/// A hash value of SHA-1.
#[derive(Clone, Copy, Drop)]
pub struct Sha1Value {
    words: [u32; 5],
}

/// A hash value of SHA-256.
#[derive(Clone, Copy, Drop)]
pub struct Sha256Value {
    words: [u32; 8],
}

// Writes the words one after the other, high byte first.
#[inline(always)]
fn write_words(words: &[u32], bytes: &mut [u8])
    requires { length bytes.old ≡ 4 * length words.now }
    ensures { bytes.new ≡ digest_bytes words.now (length words.now) }
{
    'words: for i in 0..words.len() {
        bytes[4 * i..4 * i + 4].copy_from_slice(&words[i].to_be_bytes());
    }
}

impl Sha1Value {
    /// Returns the digest of a message, if this is the value after the message with its padding.
    #[inline]
    pub(crate) fn digest(&self) -> [u8; 20]
        ensures { (m : List ℕ) → IsSha1After self.now (padded_message m) → result ≡ sha1 m }
    {
        let mut digest = [0; 20];
        write_words(&self.words, &mut digest);
        digest
    }
}

impl HashValue for Sha1Value {
    ghost is_after = { IsSha1After };

    #[inline]
    fn initial() -> Sha1Value {
        Sha1Value {
            words: [
                0x6745_2301,
                0xEFCD_AB89,
                0x98BA_DCFE,
                0x1032_5476,
                0xC3D2_E1F0,
            ],
        }
    }

    #[inline(always)]
    fn take_block(&mut self, block: &[u8; BLOCK_LEN]) {
        sha1_block::compress(&mut self.words, block);
    }
}

impl Sha256Value {
    /// Returns the digest of a message, if this is the value after the message with its padding.
    #[inline]
    pub(crate) fn digest(&self) -> [u8; 32]
        ensures { (m : List ℕ) → IsSha256After self.now (padded_message m) → result ≡ sha256 m }
    {
        let mut digest = [0; 32];
        write_words(&self.words, &mut digest);
        digest
    }
}

impl HashValue for Sha256Value {
    ghost is_after = { IsSha256After };

    #[inline]
    fn initial() -> Sha256Value {
        Sha256Value {
            words: [
                0x6A09_E667,
                0xBB67_AE85,
                0x3C6E_F372,
                0xA54F_F53A,
                0x510E_527F,
                0x9B05_688C,
                0x1F83_D9AB,
                0x5BE0_CD19,
            ],
        }
    }

    #[inline(always)]
    fn take_block(&mut self, block: &[u8; BLOCK_LEN]) {
        sha256_block::compress(&mut self.words, block);
    }
}
