//! The trailer that a receiver collects from the link, and the comparison of its tag.
ghost use Rattle.std.specs.Prelude.{◌≡◌, bytes_eq};
ghost use Rattle.link_format.specs.Profile.{IsWordLen};

use arrayvec::ArrayVec;
use byteorder::{BigEndian, ByteOrder};
use link_format::TagBytes;
use sequence_journal::{LIMIT, full_with};

/// How many bytes a trailer can have: a word of 4 and a tag of 16.
const ROOM: usize = 20;

// Whether these are the same bytes. All of them are looked at, wherever they differ, and none of
// them decides a branch: the bits that differ are gathered, and only after the last byte it is
// asked whether there are any. So the time that this takes says nothing about how many bytes of a
// forged tag are right.
fn are_same(left: &[u8], right: &[u8]) -> bool
    ensures { result ≡ bytes_eq left.now right.now }
{
    if left.len() != right.len() {
        return false;
    }
    let mut differing = 0;
    for (one, other) in left.iter().zip(right) {
        differing |= *one ^ *other;
    }
    differing == 0
}

/// What has come of a trailer with a word of `B` bytes.
#[derive(Drop)]
pub struct Arriving<const B: usize> {
    bytes: ArrayVec<u8, ROOM>,
    ghost size: { IsWordLen B },
}

impl<const B: usize> Arriving<B> {
    ghost use Rattle.std.specs.Prelude.{◌≡◌, ◌+◌, ◌^◌, ◌≤◌, ◌<◌, [], ◌∷◌, ◌++◌, length, take, drop};
    ghost use Rattle.std.specs.Prelude.{bytes_eq};
    ghost use Rattle.byteorder.specs.Endian.{big_number};
    ghost use Rattle.sequence_journal.specs.declared.numbers.TheConstants.{LIMIT};
    ghost use Rattle.sequence_journal.specs.Numbers.{full_of};
    ghost use Rattle.check_receiver.specs.Arrivals.{bytes_come};

    /// Makes a trailer of which nothing has come.
    pub fn none() -> Arriving<B>
        requires word { IsWordLen B }
        ensures { bytes_come result ≡ [] }
    {
        Arriving {
            bytes: ArrayVec::new(),
        }
    }

    /// Begins with another trailer, of which nothing has come.
    #[inline]
    pub fn begin(&mut self)
        ensures { bytes_come self.new ≡ [] }
    {
        self.bytes = ArrayVec::new();
    }

    /// Takes the next byte, if there is room for it.
    #[inline]
    pub fn take(&mut self, byte: u8)
        ensures { length (bytes_come self.old) < 20
            → bytes_come self.new ≡ bytes_come self.old ++ byte ∷ [] }
    {
        let _ = self.bytes.try_push(byte);
    }

    /// Takes the next bytes, if there is room for all of them.
    #[inline]
    pub fn take_some(&mut self, bytes: &[u8])
        ensures { length (bytes_come self.old) + length bytes.now ≤ 20
            → bytes_come self.new ≡ bytes_come self.old ++ bytes.now }
    {
        let _ = self.bytes.try_extend_from_slice(bytes);
    }

    // Returns how many different words of `B` bytes there are.
    fn words() -> u64
        requires word { IsWordLen B }
        ensures count { result ≡ 256 ^ B }
        ensures some { 0 < result }
        ensures few { result ≤ 2 ^ 32 }
    {
        if B == 1 {
            return 256;
        }
        if B == 2 {
            return 65_536;
        }
        if B == 3 {
            return 16_777_216;
        }
        4_294_967_296
    }

    /// Returns the full number of the word above this floor, or `None` if it would be above the
    /// limit, or the word isn't whole.
    #[inline]
    pub fn number_above(&self, floor: u64) -> Option<u64>
        requires floor { floor ≤ LIMIT }
        ensures { B ≤ length (bytes_come self.now)
            → result ≡ full_of LIMIT (256 ^ B) floor (big_number B (bytes_come self.now)) }
    {
        let bytes = self.bytes.as_slice();
        if bytes.len() < B {
            return None;
        }
        let word = BigEndian::read_uint(bytes, B);
        let words = Self::words();
        full_with(LIMIT, words, floor, word % words)
    }

    /// Whether the word is whole, and the bytes after it are those of this tag.
    pub fn has_tag(&self, tag: &TagBytes) -> bool
        ensures { B ≤ length (bytes_come self.now)
            → result ≡ bytes_eq (drop B (bytes_come self.now)) tag.now.items }
    {
        let bytes = self.bytes.as_slice();
        if bytes.len() < B {
            return false;
        }
        are_same(&bytes[B..], tag.as_slice())
    }
}
