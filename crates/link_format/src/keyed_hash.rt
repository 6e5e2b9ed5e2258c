//! HMAC over any hash function, as a stream.
ghost use Rattle.std.specs.Prelude.{◌≡◌, ℕ, List, [], ◌∷◌, ◌++◌, ◌≤◌, ◌<◌, length, take};
ghost use Rattle.arrayvec.specs.ArrayVec.{array_vec_len};
ghost use Rattle.link_format.specs.Hmac.{xored, filled_key, key_block, hmac};
ghost use Rattle.link_format.specs.Stands.{MacStandsFor};
ghost use Rattle.link_format.specs.Tag.{hmac_cut};

use crate::{Digest, TagBytes};
use arrayvec::ArrayVec;

const BLOCK_LEN: usize = 64;

const INNER_PAD: u8 = 0x36;

const OUTER_PAD: u8 = 0x5C;

// HMAC (RFC 2104) of a text that comes in pieces. It keeps the states after the key's inner block
// and after its outer block, and a hasher that has taken the inner block and the text so far.
#[derive(Drop)]
pub struct Hmac<D, S, const N: usize> {
    inner: S,
    outer: S,
    running: D,
}

// Returns a key of at most a block, filled with zeros to a whole one.
fn filled(key: &[u8]) -> [u8; BLOCK_LEN]
    requires { length key.now ≤ 64 }
    ensures { result ≡ filled_key key.now }
{
    let mut block = [0; BLOCK_LEN];
    block[..key.len()].copy_from_slice(key);
    block
}

fn digest_of<D: Digest<S, N>, S, const N: usize>(message: &[u8]) -> [u8; N]
    ensures { result ≡ D.digest_of message.now }
{
    let mut hasher = D::new();
    hasher.update(message);
    hasher.finalize()
}

// Returns the block of a key. A key that is longer than a block is hashed first.
#[tactic(auto, unfolding(crate::specs::Hmac::key_block))]
fn key_block<D: Digest<S, N>, S, const N: usize>(key: &[u8]) -> [u8; BLOCK_LEN]
    ensures { result ≡ key_block D.digest_of key.now }
{
    if BLOCK_LEN < key.len() {
        filled(&digest_of::<D, S, N>(key))
    } else {
        filled(key)
    }
}

fn xored(pad: u8, mut block: [u8; BLOCK_LEN]) -> [u8; BLOCK_LEN]
    ensures { result ≡ xored pad block }
{
    for byte in block.iter_mut() {
        *byte ^= pad;
    }
    block
}

// Returns the first `size` bytes of a MAC.
fn cut<const N: usize>(whole: &[u8; N], size: usize) -> TagBytes
    requires within { size ≤ N }
    requires short { size ≤ 16 }
    ensures items { result.items ≡ take size whole.now }
    ensures len { array_vec_len result ≡ size }
{
    let mut tag = ArrayVec::new();
    let _ = tag.try_extend_from_slice(&whole[..size]);
    tag
}

impl<D: Digest<S, N>, S: Drop, const N: usize> Hmac<D, S, N> {
    // Returns the whole MAC of a text under a key of any length.
    #[tactic(auto, unfolding(crate::specs::Hmac::hmac))]
    pub(crate) fn digest(key: &[u8], text: &[u8]) -> [u8; N]
        ensures { result ≡ hmac D.digest_of key.now text.now }
    {
        let block = key_block::<D, S, N>(key);
        let start = D::start_of(&xored(INNER_PAD, block));
        let mut inner = D::new();
        inner.begin(&start);
        inner.update(text);
        D::nest(&D::start_of(&xored(OUTER_PAD, block)), &inner)
    }

    // Returns a value that represents a key of any length and the empty text.
    pub(crate) fn with_key(key: &[u8]) -> Self
        ensures { MacStandsFor D.digest_of D.starts D.holds result key.now [] }
    {
        let block = key_block::<D, S, N>(key);
        let inner = D::start_of(&xored(INNER_PAD, block));
        let outer = D::start_of(&xored(OUTER_PAD, block));
        let mut running = D::new();
        running.begin(&inner);
        Hmac {
            inner,
            outer,
            running,
        }
    }

    // Begins anew with the empty text, under the same key.
    #[inline]
    pub(crate) fn begin(&mut self)
        ensures { (key text : List ℕ) → MacStandsFor D.digest_of D.starts D.holds self.old key text
            → MacStandsFor D.digest_of D.starts D.holds self.new key [] }
    {
        self.running.begin(&self.inner);
    }

    // Appends to the text.
    #[inline]
    pub(crate) fn update(&mut self, part: &[u8])
        ensures { (key text : List ℕ) → MacStandsFor D.digest_of D.starts D.holds self.old key text
            → MacStandsFor D.digest_of D.starts D.holds self.new key (text ++ part.now) }
    {
        self.running.update(part);
    }

    // Returns the first bytes of the MAC of the text, and begins anew with the empty text, under
    // the same key.
    #[tactic(auto, unfolding(crate::specs::Hmac::hmac))]
    pub(crate) fn finish(&mut self) -> TagBytes
        ensures tag { (key text : List ℕ) → MacStandsFor D.digest_of D.starts D.holds self.old key text
            → result.items ≡ hmac_cut D.digest_of D.TAG key text }
        ensures len { array_vec_len result ≡ D.TAG }
        ensures begun { (key text : List ℕ)
            → MacStandsFor D.digest_of D.starts D.holds self.old key text
            → MacStandsFor D.digest_of D.starts D.holds self.new key [] }
    {
        let whole = D::nest(&self.outer, &self.running);
        self.begin();
        cut(&whole, D::TAG)
    }
}
