//! What a box asks of a MAC, and the bytes of its tag.
ghost use Rattle.std.specs.Prelude.{◌≡◌, ℕ, ◌<◌, List, [], ◌++◌, length, All};
ghost use Rattle.arrayvec.specs.ArrayVec.{array_vec_len};
ghost use Rattle.link_format.specs.Tag.{IsTagSize};

use arrayvec::ArrayVec;

/// The bytes of a tag.
pub type TagBytes = ArrayVec<u8, 16>;

/// A MAC of a text that comes in pieces, cut to its first `TAG` bytes. A value represents a key and
/// the text so far.
pub trait Mac: Drop {
    /// The tag of a text under a key.
    ghost tag_of: { List ℕ → List ℕ → List ℕ };

    /// Holds if the value represents this key and this text.
    ghost stands: { Self → List ℕ → List ℕ → Type 0 };

    /// The length of a tag in bytes.
    ghost TAG: { ℕ };

    /// A tag has 12 or 16 bytes.
    ghost tag_size: { IsTagSize TAG };

    /// Each tag has this many bytes.
    ghost tag_len: { (key text : List ℕ) → length (tag_of key text) ≡ TAG };

    /// The bytes of a tag are below 256.
    ghost tag_bytes: { (key text : List ℕ) → All (λ b. b < 256) (tag_of key text) };

    /// The length of a tag in bytes.
    const TAG: usize;

    /// Returns a value that represents a key of any length and the empty text.
    fn with_key(key: &[u8]) -> Self
        ensures { stands result key.now [] };

    /// Begins anew with the empty text, under the same key.
    fn begin(&mut self)
        ensures { (key text : List ℕ) → stands self.old key text → stands self.new key [] };

    /// Appends to the text.
    fn update(&mut self, part: &[u8])
        ensures { (key text : List ℕ) → stands self.old key text
            → stands self.new key (text ++ part.now) };

    /// Returns the tag of the text, and begins anew with the empty text, under the same key.
    fn finish(&mut self) -> TagBytes
        /// It is the tag of the key and of the text so far.
        ensures tag { (key text : List ℕ) → stands self.old key text
            → result.items ≡ tag_of key text }
        /// It has as many bytes as a tag has.
        ensures len { array_vec_len result ≡ TAG }
        /// The value represents this key, and no text.
        ensures begun { (key text : List ℕ) → stands self.old key text → stands self.new key [] };
}
