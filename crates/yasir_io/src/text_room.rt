//! Bytes in a fixed room.
ghost use Rattle.std.specs.Prelude.{◌≡◌, ◌+◌, ◌<◌, ◌≤◌, [], ◌++◌, length, take, true, false};

use std::marker::Model;

/// Up to `CAP` bytes of a text. Bytes that are removed aren't overwritten, so that emptying it
/// costs nothing.
#[derive(Drop)]
pub struct TextRoom<const CAP: usize> {
    bytes: [u8; CAP],
    len: usize,
}

impl<const CAP: usize> Model for TextRoom<CAP> {
    ghost use Rattle.std.specs.Prelude.{◌≤◌, take};
    ghost use Rattle.yasir_io.specs.TextRoom.{Held};

    ghost Value = { Held };

    ghost view = { λ v. record { items = take v.len v.bytes } };

    ghost invariant = { λ v. v.len ≤ CAP };
}

impl<const CAP: usize> TextRoom<CAP> {
    /// Returns a room without bytes.
    pub fn new() -> TextRoom<CAP>
        ensures { result.items ≡ [] }
    {
        TextRoom {
            bytes: Default::default(),
            len: 0,
        }
    }

    /// Returns the bytes.
    #[inline]
    pub fn as_slice(&self) -> &[u8]
        /// They are the bytes that it holds.
        ensures value { result.now ≡ self.now.items }
        /// There are at most `CAP` of them.
        ensures few { length result.now ≤ CAP }
    {
        &self.bytes[..self.len]
    }

    /// Whether there is room for `count` more bytes.
    #[inline]
    pub fn has_room(&self, count: usize) -> bool
        /// If it is true, there is room.
        ensures room { result ≡ true → length self.now.items + count ≤ CAP }
        /// If it is false, there isn't.
        ensures full { result ≡ false → CAP < length self.now.items + count }
    {
        count <= CAP - self.len
    }

    /// Appends a piece. There must be room for it.
    #[inline]
    pub fn append(&mut self, piece: &[u8])
        /// There is room for the piece.
        requires { length self.old.items + length piece.now ≤ CAP }
        ensures { self.new.items ≡ self.old.items ++ piece.now }
    {
        let len = self.len;
        let after = len + piece.len();
        self.bytes[..after][len..].copy_from_slice(piece);
        self.len = after;
    }

    /// Appends the first `count` bytes of a piece. There must be room for the whole piece: all of
    /// it is copied, which takes no loop.
    #[inline(always)]
    pub fn append_front<const N: usize>(&mut self, piece: &[u8; N], count: usize)
        /// The piece has at least `count` bytes.
        requires within { count ≤ N }
        /// There is room for the whole piece.
        requires room { length self.old.items + N ≤ CAP }
        ensures { self.new.items ≡ self.old.items ++ take count piece.now }
    {
        let len = self.len;
        self.bytes[..len + N][len..].copy_from_slice(piece);
        self.len = len + count;
    }

    /// Removes all bytes.
    #[inline]
    pub(crate) fn empty(&mut self)
        ensures { self.new.items ≡ [] }
    {
        self.len = 0;
    }
}
