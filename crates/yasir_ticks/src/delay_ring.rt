//! The ring that holds the last ticks of a line until they leave.
ghost use Rattle.std.specs.Prelude.{◌≡◌, ◌+◌, ◌<◌, ◌≤◌, ◌++◌, length, take, drop};

use crate::Tick;
use crate::lanes::{LANES, bytes_from, silence_from};

/// How many ticks a ring can hold.
pub const MAX_DELAY: usize = 64;

/// How many ticks a ring can take at once.
pub const MAX_RUN: usize = 64;

/// How many places a ring has. What it holds moves on by one place with each tick, and is moved
/// back to the front when it would go past the first `USED` places. The places after those are
/// spare: the marks of the longest run can be written after what is held, and a vector of marks can
/// be read from any place.
const PLACES: usize = 256;

const USED: usize = 192;

// The marks of the longest run of bytes, and of the longest run of silent ticks. For a shorter run
// all of them are written too, as a copy of constant length takes no call. The marks that are too
// many are overwritten before they are read.
const BYTES: [u8; MAX_RUN] = [1; MAX_RUN];

const SILENCE: [u8; MAX_RUN] = [0; MAX_RUN];

// Overwrites the places from `from` on with `with`.
#[inline]
fn overwrite(places: &mut [u8], from: usize, with: &[u8])
    requires { from + length with.now ≤ length places.old }
    ensures { places.new
        ≡ take from places.old ++ (with.now ++ drop (from + length with.now) places.old) }
{
    places[from..from + with.len()].copy_from_slice(with);
}

// Moves the `count` places from `from` on to the front.
fn move_to_front(places: &mut [u8], from: usize, count: usize)
    requires few { count ≤ 64 }
    requires within { from + count ≤ length places.old }
    ensures { places.new ≡ take count (drop from places.old) ++ drop count places.old }
{
    let mut kept = [0; MAX_DELAY];
    overwrite(&mut kept, 0, &places[from..from + count]);
    overwrite(places, 0, &kept[..count]);
}

/// The last `D` ticks of a line, all silent at first: each tick leaves `D` ticks after it came. It
/// allocates no memory.
#[derive(Drop)]
pub struct DelayRing<const D: usize> {
    // The ticks, from place `oldest` on: the byte of each, and a mark, which is 0 if there is no
    // byte.
    bytes: [u8; PLACES],
    marks: [u8; PLACES],
    oldest: usize,
    ghost some: { 1 ≤ D },
    ghost fits: { D ≤ 64 },
    ghost within: { oldest + D ≤ 192 },
    ghost byte_room: { length bytes ≡ 256 },
    ghost mark_room: { length marks ≡ 256 },
}

impl<const D: usize> DelayRing<D> {
    ghost use Rattle.std.specs.Prelude.{◌≡◌, ℕ, ◌+◌, ◌-◌, ◌<◌, ◌≤◌, [], ◌∷◌, ◌++◌, length, map};
    ghost use Rattle.std.specs.Prelude.{take, drop, slice_index_or};
    ghost use Rattle.yasir_ticks.specs.declared.tick.Tick.TheVariants.{Silent, Byte};
    ghost use Rattle.yasir_ticks.specs.Ticks.{silent};
    ghost use Rattle.yasir_ticks.specs.DelayRing.{ring_ticks, marked, marked_ticks, AreAlike};

    /// Makes a ring of silent ticks.
    pub fn new() -> DelayRing<D>
        /// It has at least one tick.
        requires some { 1 ≤ D }
        /// It has at most 64 ticks.
        requires fits { D ≤ 64 }
        ensures { ring_ticks result ≡ silent D }
    {
        DelayRing {
            bytes: [0; PLACES],
            marks: [0; PLACES],
            oldest: 0,
        }
    }

    // Moves the ticks back to the front, if fewer than `count` of `USED` places are left after
    // them.
    #[inline]
    fn make_room(&mut self, count: usize)
        requires { count ≤ 64 }
        ensures ticks { ring_ticks self.new ≡ ring_ticks self.old }
        ensures room { self.new.oldest + D + count ≤ 192 }
    {
        if self.oldest + D + count > USED {
            self.move_back();
        }
    }

    #[inline(never)]
    fn move_back(&mut self)
        ensures ticks { ring_ticks self.new ≡ ring_ticks self.old }
        ensures first { self.new.oldest ≡ 0 }
    {
        move_to_front(&mut self.bytes, self.oldest, D);
        move_to_front(&mut self.marks, self.oldest, D);
        self.oldest = 0;
    }

    /// Takes the next tick, and returns the one that came `D` turns before.
    #[inline(always)]
    pub fn turn(&mut self, t: Tick) -> Tick
        /// It is the tick that leaves next.
        ensures answer { result ≡ slice_index_or (ring_ticks self.old) 0 Silent }
        /// That tick is gone, and the new one is the last.
        ensures ticks { ring_ticks self.new ≡ drop 1 (ring_ticks self.old) ++ t ∷ [] }
    {
        self.make_room(1);
        let leaves = self.peek(0);
        match t {
            Tick::Byte(byte) => self.put(byte, 1),
            Tick::Silent => self.put(0, 0),
        }
        leaves
    }

    // Takes the byte and the mark of the next tick. The oldest tick leaves.
    #[inline]
    fn put(&mut self, byte: u8, mark: u8)
        requires { self.old.oldest + D + 1 ≤ 192 }
        ensures { ring_ticks self.new ≡ drop 1 (ring_ticks self.old) ++ marked byte mark ∷ [] }
    {
        let place = self.oldest + D;
        self.bytes[place] = byte;
        self.marks[place] = mark;
        self.oldest += 1;
    }

    /// Takes these bytes, one in each tick, at most `MAX_RUN`.
    #[inline]
    pub fn pass_bytes(&mut self, bytes: &[u8])
        /// There are at most 64 bytes.
        requires { length bytes.now ≤ 64 }
        /// The bytes have gone through the ring as their ticks would, one after the other.
        ensures { ring_ticks self.new
            ≡ drop (length bytes.now) (ring_ticks self.old ++ map Byte bytes.now) }
    {
        self.make_room(bytes.len());
        let place = self.oldest + D;
        overwrite(&mut self.bytes, place, bytes);
        overwrite(&mut self.marks, place, &BYTES);
        self.oldest += bytes.len();
    }

    /// Takes this many silent ticks, at most `MAX_RUN`.
    #[inline]
    pub fn pass_silence(&mut self, ticks: usize)
        /// There are at most 64 ticks.
        requires { ticks ≤ 64 }
        /// The silent ticks have gone through the ring, one after the other.
        ensures { ring_ticks self.new ≡ drop ticks (ring_ticks self.old ++ silent ticks) }
    {
        self.make_room(ticks);
        let place = self.oldest + D;
        overwrite(&mut self.marks, place, &SILENCE);
        self.oldest += ticks;
    }

    #[inline]
    fn tick_at(&self, place: usize) -> Tick
        requires { place < 256 }
        ensures { result ≡ slice_index_or (marked_ticks self.now.bytes self.now.marks) place Silent }
    {
        if self.marks[place] == 0 {
            Tick::Silent
        } else {
            Tick::Byte(self.bytes[place])
        }
    }

    /// Returns the tick that leaves after `i` more turns.
    #[inline]
    pub fn peek(&self, i: usize) -> Tick
        /// The ring has more than `i` ticks.
        requires { i < D }
        ensures { result ≡ slice_index_or (ring_ticks self.now) i Silent }
    {
        self.tick_at(self.oldest + i)
    }

    // Returns how many of the `most` ticks that leave next are bytes, up to the first silent one.
    #[inline]
    fn bytes_in_front(&self, most: usize) -> usize
        requires { most ≤ D }
        ensures within { result ≤ most }
        ensures marks { (k : ℕ) → k < result
            → (slice_index_or self.now.marks (self.now.oldest + k) 0 ≡ 0 → ⊥) }
        ensures all { result < most
            → slice_index_or self.now.marks (self.now.oldest + result) 0 ≡ 0 }
    {
        if D <= LANES {
            return bytes_from(&self.marks, self.oldest).min(most);
        }
        for n in 0..most {
            if self.marks[self.oldest + n] == 0 {
                return n;
            }
        }
        most
    }

    /// Returns the bytes of the `most` ticks that leave next, up to the first silent one.
    #[inline]
    pub fn front_bytes(&self, most: usize) -> &[u8]
        /// The ring has at least `most` ticks.
        requires { most ≤ D }
        /// There are at most `most` bytes.
        ensures within { length result.now ≤ most }
        /// They are those of the ticks that leave next.
        ensures bytes { map Byte result.now ≡ take (length result.now) (ring_ticks self.now) }
        /// If there are fewer, the tick after them is silent.
        ensures all { length result.now < most
            → slice_index_or (ring_ticks self.now) (length result.now) Silent ≡ Silent }
    {
        let count = self.bytes_in_front(most);
        &self.bytes[self.oldest..self.oldest + count]
    }

    /// Returns the bytes of the `count` ticks that leave next, which must be alike: a byte for each
    /// of them, or none if they are silent. So only the first tick is looked at.
    #[inline]
    pub fn alike_bytes(&self, count: usize) -> &[u8]
        /// The ring has at least `count` ticks.
        requires within { count ≤ D }
        /// The next `count` ticks are all bytes or all silent.
        requires alike { AreAlike (take count (ring_ticks self.now)) }
        /// There are at most `count` bytes.
        ensures within { length result.now ≤ count }
        /// They are those of the ticks that leave next.
        ensures bytes { map Byte result.now ≡ take (length result.now) (ring_ticks self.now) }
        /// If there are fewer, the tick after them is silent.
        ensures all { length result.now < count
            → slice_index_or (ring_ticks self.now) (length result.now) Silent ≡ Silent }
    {
        let oldest = self.oldest;
        if self.marks[oldest] == 0 {
            return &self.bytes[oldest..oldest];
        }
        &self.bytes[oldest..oldest + count]
    }

    /// Returns how many of the `most` ticks that leave next are silent, up to the first byte.
    #[inline]
    pub fn front_silence(&self, most: usize) -> usize
        /// The ring has at least `most` ticks.
        requires { most ≤ D }
        /// It is at most `most`.
        ensures within { result ≤ most }
        /// So many of the ticks that leave next are silent.
        ensures silent { take result (ring_ticks self.now) ≡ silent result }
        /// If it is less, the tick after them is a byte.
        ensures all { result < most
            → (slice_index_or (ring_ticks self.now) result Silent ≡ Silent → ⊥) }
    {
        if D <= LANES {
            return silence_from(&self.marks, self.oldest).min(most);
        }
        for n in 0..most {
            if self.marks[self.oldest + n] != 0 {
                return n;
            }
        }
        most
    }

    /// Returns how many of the `most` ticks that leave next are alike: all silent, or all bytes.
    #[inline]
    pub fn front_alike(&self, most: usize) -> usize
        /// The ring has at least `most` ticks.
        requires { most ≤ D }
        /// It is at most `most`.
        ensures within { result ≤ most }
        /// So many of the ticks that leave next are all bytes or all silent.
        ensures alike { AreAlike (take result (ring_ticks self.now)) }
        /// It is at least 1 if `most` is.
        ensures some { 0 < most → 0 < result }
    {
        match self.peek(0) {
            Tick::Silent => self.front_silence(most),
            Tick::Byte(_) => self.front_bytes(most).len(),
        }
    }

    /// Makes all ticks silent.
    #[inline]
    pub fn clear(&mut self)
        ensures { ring_ticks self.new ≡ silent D }
    {
        overwrite(&mut self.marks, self.oldest, &SILENCE[..D]);
    }
}
