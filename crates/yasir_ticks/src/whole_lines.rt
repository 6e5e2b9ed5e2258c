//! Takes a whole line of tick text at once. The reader lends the bytes of the line, so that none is
//! moved.
ghost use Rattle.std.specs.Prelude.{◌≡◌, ◌+◌, ◌-◌, ◌<◌, ◌≤◌, ◌^◌, length, slice_index, Err};
ghost use Rattle.std.specs.Prelude.{IfSome, None};
ghost use Rattle.yasir_ticks.specs.Characters.{line_feed, plus_sign, minus_sign, number_sign};
ghost use Rattle.yasir_ticks.specs.Slices.{TakesWhole, IsSpelled, IsFewPairs, FeedsByte, FeedsLine};

use crate::hex_digits::{Decoded, decode_front, decode_full, hex_value};
use crate::line_room::LineRoom;
use crate::place::{Content, Place};
use crate::reader::MAX_COMMENT;
use crate::{BadTicks, TickReader};
use memchr::memchr;

/// What a reader took of a slice, and the result for the line that ended there.
#[derive(Clone, Copy, Debug, PartialEq, Eq)]
pub struct FedLine {
    /// How many bytes it took, from the first one on.
    pub taken: usize,
    /// The content of the line that the last of these bytes ended, or `NoTick` if they ended none.
    /// The bytes of a `+` line are those that the reader lends. An error is the refusal of the next
    /// byte.
    pub line: Result<Content, BadTicks>,
}

/// A line that a reader took at once.
#[derive(Clone, Copy, Debug, PartialEq, Eq)]
pub struct UsualLine {
    /// How many bytes it has, including its LF.
    pub taken: usize,
    /// What it represents. The bytes of a `+` line are those that the reader lends.
    pub content: Content,
}

// What follows the first byte of a line, up to its LF.
#[derive(Clone, Copy)]
struct Whole {
    // how many bytes come before the LF
    len: usize,
    content: Content,
}

// A number of silent ticks, and how many digits spell it.
#[derive(Clone, Copy)]
struct Spelled {
    digits: usize,
    number: u32,
}

// Returns the number that a slice begins with, if an LF follows it and it may be a number of silent
// ticks.
#[inline(always)]
fn spelled_number(bytes: &[u8]) -> Option<Spelled>
    ensures { IfSome result (λ spelled. IsSpelled bytes.now spelled.digits spelled.number) }
{
    if bytes.is_empty() || bytes[0] < b'1' || bytes[0] > b'9' {
        return None;
    }
    let mut number = u32::from(bytes[0] - b'0');
    let mut digits = 1;
    while digits < bytes.len() && bytes[digits] != b'\n' {
        if bytes[digits] < b'0' || bytes[digits] > b'9' || number > 99_999 {
            return None;
        }
        number = number * 10 + u32::from(bytes[digits] - b'0');
        digits += 1;
    }
    if digits < bytes.len() {
        Some(Spelled { digits, number })
    } else {
        None
    }
}

// Returns the bytes of the one to three pairs of digits that a slice begins with, if an LF follows
// them.
#[inline(always)]
fn few_pairs(bytes: &[u8]) -> Option<LineRoom>
    ensures { IfSome result (λ line. IsFewPairs bytes.now line.items) }
{
    let mut line = LineRoom::new();
    let mut at = 0;
    while at < 6 && at + 2 < bytes.len() {
        let high = hex_value(bytes[at])?;
        let low = hex_value(bytes[at + 1])?;
        line.push(high * 16 + low);
        at += 2;
        if bytes[at] == b'\n' {
            return Some(line);
        }
    }
    None
}

impl TickReader {
    ghost use Rattle.yasir_ticks.specs.declared.fault.BadTicks.{BadTicks};
    ghost use Rattle.yasir_ticks.specs.declared.place.Place.TheVariants.{Start};
    ghost use Rattle.yasir_ticks.specs.Reader.{HasRefused, reader_line, lent_bytes};

    /// Returns the bytes of the `+` line that ended last. They are kept until the next byte is fed.
    #[inline]
    pub fn line_bytes(&self) -> &[u8]
        /// They are the bytes that the reader lends.
        ensures bytes { result.now ≡ lent_bytes self.now }
        /// There are at most 32.
        ensures few { length result.now ≤ 32 }
    {
        self.bytes.as_slice()
    }

    // Takes a `+` line of at most three bytes, given what follows its `+`.
    #[inline(always)]
    fn take_short_line(&mut self, bytes: &[u8]) -> Option<Whole>
        requires place { self.old.place ≡ Start }
        requires line { reader_line self.old < 2 ^ 32 - 1 }
        ensures whole { IfSome result (TakesWhole self.old plus_sign bytes.now self.new) }
        ensures none { result ≡ None → self.new ≡ self.old }
    {
        let line = few_pairs(bytes)?;
        let len = 2 * line.len();
        self.bytes = line;
        self.line += 1;
        Some(Whole {
            len,
            content: Content::KeptBytes,
        })
    }

    // Takes a `+` line, given what follows its `+`, if this is whole pairs of digits with their LF
    // among the first 65 bytes.
    #[inline(always)]
    fn take_long_line(&mut self, bytes: &[u8]) -> Option<Whole>
        requires place { self.old.place ≡ Start }
        requires line { reader_line self.old < 2 ^ 32 - 1 }
        ensures whole { IfSome result (TakesWhole self.old plus_sign bytes.now self.new) }
        ensures none { result ≡ None → self.new ≡ self.old }
    {
        if bytes.len() < 65 {
            return None;
        }
        let Decoded {
            pairs,
            bytes: decoded,
        } = decode_front(bytes);
        let len = 2 * pairs;
        if pairs == 0 || bytes[len] != b'\n' {
            return None;
        }
        self.bytes.put(decoded, pairs);
        self.line += 1;
        Some(Whole {
            len,
            content: Content::KeptBytes,
        })
    }

    // Takes a `+` line of a single byte, given what follows its `+`.
    #[inline(always)]
    fn take_pair_line(&mut self, bytes: &[u8]) -> Option<Whole>
        requires place { self.old.place ≡ Start }
        requires line { reader_line self.old < 2 ^ 32 - 1 }
        requires long { 2 < length bytes.now }
        requires ends { slice_index bytes.now 2 ≡ line_feed }
        ensures whole { IfSome result (TakesWhole self.old plus_sign bytes.now self.new) }
        ensures none { result ≡ None → self.new ≡ self.old }
    {
        let high = hex_value(bytes[0])?;
        let low = hex_value(bytes[1])?;
        self.bytes.clear();
        self.bytes.push(high * 16 + low);
        self.line += 1;
        Some(Whole {
            len: 2,
            content: Content::KeptBytes,
        })
    }

    // Takes a `+` line of as many bytes as a line may have, given what follows its `+`.
    #[inline(always)]
    fn take_full_line(&mut self, bytes: &[u8]) -> Option<Whole>
        requires place { self.old.place ≡ Start }
        requires line { reader_line self.old < 2 ^ 32 - 1 }
        requires long { 64 < length bytes.now }
        requires ends { slice_index bytes.now 64 ≡ line_feed }
        ensures whole { IfSome result (TakesWhole self.old plus_sign bytes.now self.new) }
        ensures none { result ≡ None → self.new ≡ self.old }
    {
        let decoded = decode_full(bytes)?;
        self.bytes.put(decoded, 32);
        self.line += 1;
        Some(Whole {
            len: 64,
            content: Content::KeptBytes,
        })
    }

    // Takes a `+` line of more than one byte, given what follows its `+`. A few digits are looked
    // up one by one, which costs less than all lanes of the vectors.
    #[inline(always)]
    fn take_part_line(&mut self, bytes: &[u8]) -> Option<Whole>
        requires place { self.old.place ≡ Start }
        requires line { reader_line self.old < 2 ^ 32 - 1 }
        requires long { 64 < length bytes.now }
        ensures whole { IfSome result (TakesWhole self.old plus_sign bytes.now self.new) }
        ensures none { result ≡ None → self.new ≡ self.old }
    {
        if bytes[4] == b'\n' || bytes[6] == b'\n' {
            return self.take_short_line(bytes);
        }
        self.take_long_line(bytes)
    }

    // Takes a `+` line, given what follows its `+`, if its LF is among the first 65 bytes. Lines of
    // one byte and lines of as many bytes as a line may have are tried first, since they are the
    // most common.
    #[inline(always)]
    fn take_bytes_line(&mut self, bytes: &[u8]) -> Option<Whole>
        requires place { self.old.place ≡ Start }
        requires line { reader_line self.old < 2 ^ 32 - 1 }
        ensures whole { IfSome result (TakesWhole self.old plus_sign bytes.now self.new) }
        ensures none { result ≡ None → self.new ≡ self.old }
    {
        if bytes.len() < 65 {
            return None;
        }
        if bytes[2] == b'\n' {
            return self.take_pair_line(bytes);
        }
        if bytes[64] == b'\n' {
            if let Some(whole) = self.take_full_line(bytes) {
                return Some(whole);
            }
        }
        self.take_part_line(bytes)
    }

    // Takes a `-` line, given what follows its `-`.
    #[inline(always)]
    fn take_silence_line(&mut self, bytes: &[u8]) -> Option<Whole>
        requires place { self.old.place ≡ Start }
        requires line { reader_line self.old < 2 ^ 32 - 1 }
        ensures whole { IfSome result (TakesWhole self.old minus_sign bytes.now self.new) }
        ensures none { result ≡ None → self.new ≡ self.old }
    {
        let Spelled { digits, number } = spelled_number(bytes)?;
        self.line += 1;
        Some(Whole {
            len: digits,
            content: Content::SilentTicks(number),
        })
    }

    // Takes a comment, given what follows its `#`.
    #[inline]
    fn take_comment_line(&mut self, bytes: &[u8]) -> Option<Whole>
        requires place { self.old.place ≡ Start }
        requires line { reader_line self.old < 2 ^ 32 - 1 }
        ensures whole { IfSome result (TakesWhole self.old number_sign bytes.now self.new) }
        ensures none { result ≡ None → self.new ≡ self.old }
    {
        let room = bytes.len().min(usize::from(MAX_COMMENT) + 1);
        let len = memchr(b'\n', &bytes[..room])?;
        self.line += 1;
        Some(Whole {
            len,
            content: Content::NoTick,
        })
    }

    // Takes a usual line, given its first byte and what follows that.
    #[inline(always)]
    fn take_behind(&mut self, sign: u8, bytes: &[u8]) -> Option<Whole>
        requires place { self.old.place ≡ Start }
        requires line { reader_line self.old < 2 ^ 32 - 1 }
        ensures whole { IfSome result (TakesWhole self.old sign bytes.now self.new) }
        ensures none { result ≡ None → self.new ≡ self.old }
    {
        match sign {
            b'+' => self.take_bytes_line(bytes),
            b'-' => self.take_silence_line(bytes),
            b'#' => self.take_comment_line(bytes),
            _ => None,
        }
    }

    // Takes the line at the front, if it is a usual line.
    #[inline(always)]
    fn take_line(&mut self, bytes: &[u8]) -> Option<FedLine>
        requires place { self.old.place ≡ Start }
        requires line { reader_line self.old + length bytes.now < 2 ^ 32 }
        ensures fed { IfSome result
            (λ fed. FeedsLine self.old bytes.now fed.taken fed.line self.new) }
        ensures none { result ≡ None → self.new ≡ self.old }
    {
        if bytes.is_empty() {
            return None;
        }
        match self.take_behind(bytes[0], &bytes[1..]) {
            Some(whole) => Some(FedLine {
                taken: whole.len + 2,
                line: Ok(whole.content),
            }),
            None => None,
        }
    }

    /// Takes the line at the front, if it is one of bytes, of silent ticks or a comment, and at
    /// least 122 bytes are given: no line is longer, including its LF. The reader is then as if its
    /// bytes had been fed one by one. The bytes of a `+` line are lent by `line_bytes`.
    #[inline(always)]
    pub fn take_usual(&mut self, bytes: &[u8]) -> Option<UsualLine>
        /// The lines that were counted, and these bytes, are fewer than 2^32 together.
        requires { reader_line self.old + length bytes.now < 2 ^ 32 }
        /// No more bytes are taken than there are.
        ensures within { IfSome result (λ line. line.taken ≤ length bytes.now) }
        /// If a line is taken, the reader is as if its bytes had been fed one by one, and returns
        /// what the line has.
        ensures fed { IfSome result
            (λ line. FeedsLine self.old bytes.now line.taken (Ok line.content) self.new) }
        /// If no line is taken, the reader is as it was.
        ensures none { result ≡ None → self.new ≡ self.old }
    {
        let Place::Start = self.place else {
            return None;
        };
        if bytes.len() < 122 {
            return None;
        }
        match self.take_behind(bytes[0], &bytes[1..]) {
            Some(Whole { len, content }) => Some(UsualLine {
                taken: len + 2,
                content,
            }),
            None => None,
        }
    }

    // Takes one byte, and returns the content of the line that it ends.
    #[inline]
    fn step_line(&mut self, b: u8) -> Result<Option<Content>, BadTicks>
        requires { reader_line self.old < 2 ^ 32 - 1 }
        ensures fed { FeedsByte self.old b result self.new }
        ensures for_good { (bad : BadTicks) → HasRefused self.old bad
            → (result ≡ Err bad) × (self.new ≡ self.old) }
    {
        match self.advance(b) {
            Ok(ended) => Ok(ended),
            Err(why) => Err(BadTicks {
                line: self.line,
                why,
            }),
        }
    }

    // Takes bytes up to the end of the line in which the reader is.
    #[inline(never)]
    fn feed_rest(&mut self, bytes: &[u8]) -> FedLine
        requires { reader_line self.old + length bytes.now < 2 ^ 32 }
        ensures fed { FeedsLine self.old bytes.now result.taken result.line self.new }
        ensures for_good { (bad : BadTicks) → HasRefused self.old bad → 0 < length bytes.now
            → (result.taken ≡ 0) × (result.line ≡ Err bad) × (self.new ≡ self.old) }
    {
        let mut taken = 0;
        while taken < bytes.len() {
            match self.step_line(bytes[taken]) {
                Ok(None) => taken += 1,
                Ok(Some(content)) => {
                    return FedLine {
                        taken: taken + 1,
                        line: Ok(content),
                    };
                }
                Err(bad) => {
                    return FedLine {
                        taken,
                        line: Err(bad),
                    };
                }
            }
        }
        FedLine {
            taken,
            line: Ok(Content::NoTick),
        }
    }

    /// Takes bytes of the text up to and including the LF of the line in which the reader is, or up
    /// to a refused byte, or all of them. The reader is then as if they had been fed one by one.
    /// The bytes of a `+` line are lent by `line_bytes`.
    #[inline(always)]
    pub fn feed_line(&mut self, bytes: &[u8]) -> FedLine
        /// The lines that were counted, and these bytes, are fewer than 2^32 together.
        requires { reader_line self.old + length bytes.now < 2 ^ 32 }
        /// No more bytes are taken than there are.
        ensures within { result.taken ≤ length bytes.now }
        /// The reader is as if the bytes that are taken had been fed one by one, and returns what
        /// the line has, or the refusal.
        ensures fed { FeedsLine self.old bytes.now result.taken result.line self.new }
        /// After a refusal it takes nothing, returns that refusal, and is as it was, if it is given
        /// a byte.
        ensures for_good { (bad : BadTicks) → HasRefused self.old bad → 0 < length bytes.now
            → (result.taken ≡ 0) × (result.line ≡ Err bad) × (self.new ≡ self.old) }
    {
        if let Place::Start = self.place {
            if let Some(fed) = self.take_line(bytes) {
                return fed;
            }
        }
        // The value is taken apart and built anew, so that a usual line stays in registers.
        let FedLine { taken, line } = self.feed_rest(bytes);
        FedLine { taken, line }
    }
}
