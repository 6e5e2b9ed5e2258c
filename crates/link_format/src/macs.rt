//! The two MACs: HMAC over SHA-1 and over SHA-256. Each is a type without type arguments, so that a
//! proof over a box, which writes out the type of its MAC at each mention, writes one word.
ghost use Rattle.std.specs.Prelude.{◌≡◌, ℕ, List};
ghost use Rattle.sha1.specs.Sha1.{sha1};
ghost use Rattle.link_format.specs.Digests.{length-sha1, All-sha1, sha1-tag_size, sha1-tag_within};
ghost use Rattle.link_format.specs.Digests.{length-sha256, All-sha256, sha256-tag_size};
ghost use Rattle.link_format.specs.Digests.{sha256-tag_within, length-hmac_cut, All-hmac_cut};
ghost use Rattle.link_format.specs.HashValues.{IsSha1After, IsSha256After};
ghost use Rattle.link_format.specs.Hashing.{HasBegun, HasTaken};
ghost use Rattle.link_format.specs.Stands.{MacStandsFor};
ghost use Rattle.link_format.specs.Tag.{hmac_sha1, hmac_sha1_96, hmac_sha256, hmac_sha256_128};
ghost use Rattle.sha2.specs.Sha256.{sha256};

use crate::keyed_hash::Hmac;
use crate::{BlockHasher, BlockStart, Mac, Sha1Value, Sha256Value, TagBytes};

/// HMAC over SHA-1, whose tags are its first 12 bytes (RFC 2404).
#[derive(Drop)]
pub struct HmacSha1 {
    hmac: Hmac<BlockHasher<Sha1Value>, BlockStart<Sha1Value>, 20>,
}

impl HmacSha1 {
    /// Returns the whole MAC of a text under a key of any length.
    pub fn digest(key: &[u8], text: &[u8]) -> [u8; 20]
        ensures { result ≡ hmac_sha1 key.now text.now }
    {
        Hmac::<BlockHasher<Sha1Value>, BlockStart<Sha1Value>, 20>::digest(key, text)
    }
}

impl Mac for HmacSha1 {
    ghost tag_of = { hmac_sha1_96 };

    ghost stands = { λ mac. MacStandsFor sha1 (HasBegun IsSha1After) (HasTaken IsSha1After) mac.hmac };

    ghost TAG = { 12 };

    ghost tag_size = { sha1-tag_size };

    ghost tag_len = { length-hmac_cut sha1 20 12 length-sha1 sha1-tag_within };

    ghost tag_bytes = { All-hmac_cut sha1 12 All-sha1 };

    const TAG: usize = 12;

    fn with_key(key: &[u8]) -> HmacSha1 {
        HmacSha1 {
            hmac: Hmac::with_key(key),
        }
    }

    #[inline]
    fn begin(&mut self) {
        self.hmac.begin();
    }

    #[inline]
    fn update(&mut self, part: &[u8]) {
        self.hmac.update(part);
    }

    #[inline]
    fn finish(&mut self) -> TagBytes {
        self.hmac.finish()
    }
}

/// HMAC over SHA-256, whose tags are its first 16 bytes (RFC 4868).
#[derive(Drop)]
pub struct HmacSha256 {
    hmac: Hmac<BlockHasher<Sha256Value>, BlockStart<Sha256Value>, 32>,
}

impl HmacSha256 {
    /// Returns the whole MAC of a text under a key of any length.
    pub fn digest(key: &[u8], text: &[u8]) -> [u8; 32]
        ensures { result ≡ hmac_sha256 key.now text.now }
    {
        Hmac::<BlockHasher<Sha256Value>, BlockStart<Sha256Value>, 32>::digest(key, text)
    }
}

impl Mac for HmacSha256 {
    ghost tag_of = { hmac_sha256_128 };

    ghost stands = { λ mac. MacStandsFor sha256 (HasBegun IsSha256After) (HasTaken IsSha256After) mac.hmac };

    ghost TAG = { 16 };

    ghost tag_size = { sha256-tag_size };

    ghost tag_len = { length-hmac_cut sha256 32 16 length-sha256 sha256-tag_within };

    ghost tag_bytes = { All-hmac_cut sha256 16 All-sha256 };

    const TAG: usize = 16;

    fn with_key(key: &[u8]) -> HmacSha256 {
        HmacSha256 {
            hmac: Hmac::with_key(key),
        }
    }

    #[inline]
    fn begin(&mut self) {
        self.hmac.begin();
    }

    #[inline]
    fn update(&mut self, part: &[u8]) {
        self.hmac.update(part);
    }

    #[inline]
    fn finish(&mut self) -> TagBytes {
        self.hmac.finish()
    }
}
