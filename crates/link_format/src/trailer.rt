//! The trailer of a sealed frame, and which bytes of it are still to be sent.
ghost use Rattle.link_format.specs.Profile.{IsWordLen};

use crate::TagBytes;
use arrayvec::ArrayVec;
use yasir_ticks::{LineBytes, Tick};

/// How many bytes a trailer has at most: a word of 4 and a tag of 16.
const ROOM: usize = 20;

/// How many bytes a number has.
const NUMBER_LEN: usize = 8;

/// The trailer of the last sealed frame: its word of `B` bytes, high byte first, and its tag. The
/// first `sent` bytes were sent, and the others are still to be sent.
#[derive(Drop)]
pub struct Trailer<const B: usize> {
    bytes: ArrayVec<u8, ROOM>,
    sent: usize,
    ghost word: { IsWordLen B },
}

impl<const B: usize> Trailer<B> {
    ghost use Rattle.std.specs.Prelude.{◌≡◌, ◌≤◌, [], ◌∷◌, ◌++◌, drop, take, length, IfSome};
    ghost use Rattle.std.specs.Prelude.{IfNone};
    ghost use Rattle.std.specs.Int.{bytes_high_first};
    ghost use Rattle.link_format.specs.Trailers.{bytes_unsent, first_of};

    /// Returns a value without a trailer: nothing is still to be sent.
    pub fn none() -> Trailer<B>
        /// A word has from 1 to 4 bytes.
        requires word { IsWordLen B }
        ensures { bytes_unsent result ≡ [] }
    {
        Trailer {
            bytes: ArrayVec::new(),
            sent: 0,
        }
    }

    /// Makes the value the trailer of this number and this tag, all of which is still to be sent.
    pub fn load(&mut self, number: u64, tag: &TagBytes)
        ensures { bytes_unsent self.new ≡ bytes_high_first B number ++ tag.now.items }
    {
        let digits = number.to_be_bytes();
        self.sent = 0;
        self.bytes.clear();
        let _ = self.bytes.try_extend_from_slice(&digits[NUMBER_LEN - B..]);
        let _ = self.bytes.try_extend_from_slice(tag.as_slice());
    }

    // Sends the next byte and returns it, or returns `None` if all are sent.
    #[inline]
    fn next(&mut self) -> Option<u8>
        ensures some { IfSome result (λ b. bytes_unsent self.old ≡ b ∷ bytes_unsent self.new) }
        ensures none { IfNone result (bytes_unsent self.old ≡ []) }
        ensures same { IfNone result (bytes_unsent self.new ≡ []) }
    {
        let next = self.bytes.as_slice().get(self.sent).copied();
        if next.is_some() {
            self.sent += 1;
        }
        next
    }

    /// Returns the bytes that are still to be sent.
    #[inline]
    pub fn unsent(&self) -> &[u8]
        /// They are the bytes that are still to be sent.
        ensures unsent { result.now ≡ bytes_unsent self.now }
        /// There are at most 20.
        ensures within { length result.now ≤ 20 }
    {
        let bytes = self.bytes.as_slice();
        &bytes[self.sent.min(bytes.len())..]
    }

    /// Sends the next `count` bytes, one a tick. There must be at least that many still to be sent.
    #[inline]
    pub fn send_some(&mut self, count: usize) -> LineBytes
        /// At least `count` bytes are still to be sent.
        requires { count ≤ length (bytes_unsent self.old) }
        /// They are the first of the bytes that were still to be sent.
        ensures sent { result.items ≡ take count (bytes_unsent self.old) }
        /// The others are still to be sent.
        ensures unsent { bytes_unsent self.new ≡ drop count (bytes_unsent self.old) }
    {
        let unsent = self.unsent();
        let mut sent = LineBytes::new();
        let _ = sent.try_extend_from_slice(&unsent[..count]);
        let behind = unsent.len() - count;
        self.sent = self.bytes.len() - behind;
        sent
    }

    /// Sends the next byte and returns its tick, or returns silence if all are sent.
    #[inline]
    pub fn next_tick(&mut self) -> Tick
        /// It is the first of the bytes that were still to be sent, or silence if there was none.
        ensures tick { result ≡ first_of (bytes_unsent self.old) }
        /// The others are still to be sent.
        ensures unsent { bytes_unsent self.new ≡ drop 1 (bytes_unsent self.old) }
    {
        match self.next() {
            Some(byte) => Tick::Byte(byte),
            None => Tick::Silent,
        }
    }
}
