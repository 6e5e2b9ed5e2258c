//! Room for the bytes of one line of tick text, into which they are decoded.
ghost use Rattle.std.specs.Prelude.{◌≡◌, ◌+◌, ◌<◌, ◌≤◌, ◌==◌, [], ◌∷◌, ◌++◌, length, take, true, false};

use crate::LineBytes;
use std::marker::Model;

/// The most bytes that a line has.
const MOST: usize = 32;

/// The bytes of one line. What is in the room after the last of them has no meaning, so that 32
/// bytes can be stored at once, however many of them count.
#[derive(Drop)]
pub(crate) struct LineRoom {
    bytes: [u8; MOST],
    len: usize,
}

impl Model for LineRoom {
    ghost use Rattle.std.specs.Prelude.{◌≤◌, take};
    ghost use Rattle.yasir_ticks.specs.LineRoom.{Kept};

    ghost Value = { Kept };

    ghost view = { λ v. record { items = take v.len v.bytes } };

    ghost invariant = { λ v. v.len ≤ 32 };
}

impl LineRoom {
    /// Returns a room without bytes.
    #[inline]
    pub(crate) fn new() -> LineRoom
        ensures { result.items ≡ [] }
    {
        LineRoom {
            bytes: [0; MOST],
            len: 0,
        }
    }

    /// Returns the bytes.
    #[inline]
    pub(crate) fn as_slice(&self) -> &[u8]
        ensures bytes { result.now ≡ self.now.items }
        ensures few { length result.now ≤ 32 }
    {
        &self.bytes[..self.len]
    }

    /// Returns the number of bytes.
    #[inline]
    pub(crate) fn len(&self) -> usize
        ensures { result ≡ length self.now.items }
    {
        self.len
    }

    /// Whether there are no bytes.
    #[inline]
    pub(crate) fn is_empty(&self) -> bool
        ensures { result ≡ (length self.now.items == 0) }
    {
        self.len == 0
    }

    /// Whether there is no room for another byte.
    #[inline]
    pub(crate) fn is_full(&self) -> bool
        ensures full { result ≡ true → length self.now.items ≡ 32 }
        ensures room { result ≡ false → length self.now.items < 32 }
    {
        self.len == MOST
    }

    /// Removes all bytes.
    #[inline]
    pub(crate) fn clear(&mut self)
        ensures { self.new.items ≡ [] }
    {
        self.len = 0;
    }

    /// Adds a byte, for which there must be room.
    #[inline]
    pub(crate) fn push(&mut self, byte: u8)
        requires { length self.old.items < 32 }
        ensures items { self.new.items ≡ self.old.items ++ byte ∷ [] }
    {
        self.bytes[self.len] = byte;
        self.len += 1;
    }

    /// Replaces the bytes by the first `count` of the given ones.
    #[inline]
    pub(crate) fn put(&mut self, bytes: [u8; MOST], count: usize)
        requires { count ≤ 32 }
        ensures { self.new.items ≡ take count bytes }
    {
        self.bytes = bytes;
        self.len = count;
    }

    /// Returns a copy of the bytes.
    pub(crate) fn line(&self) -> LineBytes
        ensures { result.items ≡ self.now.items }
    {
        let mut line = LineBytes::new();
        let _ = line.try_extend_from_slice(self.as_slice());
        line
    }
}
