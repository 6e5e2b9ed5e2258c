//! A room of fixed size for lines of tick text.
ghost use Rattle.std.specs.Prelude.{◌≡◌, ◌+◌, ◌*◌, ◌<◌, ◌≤◌, [], ◌++◌, length, take, true, false};
ghost use Rattle.yasir_ticks.specs.CanonicalText.{byte_line, silence_line};

use itoa::Buffer;
use std::marker::Model;
use yasir_io::{Failed, Sink, write_all};
use yasir_ticks::digits_of;

/// The most bytes of text that a room holds.
const ROOM: usize = 65_536;

/// The most bytes that a line of text has: `+`, the digits of 32 bytes, and an LF.
const LONGEST_LINE: usize = 66;

/// Lines of tick text that wait for a sink: up to 65,536 bytes. Each line is written in place.
/// Emptying the room leaves the bytes where they are, so it costs nothing.
#[derive(Drop)]
pub struct LineRoom {
    bytes: [u8; 65536],
    len: usize,
}

impl Model for LineRoom {
    ghost use Rattle.std.specs.Prelude.{◌≤◌, take};
    ghost use Rattle.yasir_io.specs.TextRoom.{Held};

    ghost Value = { Held };

    ghost view = { λ v. record { items = take v.len v.bytes } };

    ghost invariant = { λ v. v.len ≤ 65536 };
}

impl LineRoom {
    ghost use Rattle.std.specs.Prelude.{OnOk, OnErr};
    ghost use Rattle.std.specs.Io.KnownBytes.{append_known};
    ghost use Rattle.yasir_io.specs.Causes.{HasCause};
    ghost use Rattle.yasir_io.specs.Output.{Buffered, GotPrefix};

    /// Returns a room that holds no text.
    pub(crate) fn new() -> LineRoom
        ensures { result.items ≡ [] }
    {
        LineRoom {
            bytes: Default::default(),
            len: 0,
        }
    }

    /// Returns the text that waits.
    #[inline]
    pub(crate) fn as_slice(&self) -> &[u8]
        ensures { result.now ≡ self.now.items }
    {
        &self.bytes[..self.len]
    }

    /// Whether there is room for `count` bytes of lines.
    #[inline]
    pub(crate) fn has_room(&self, count: usize) -> bool
        requires { count ≤ 65536 }
        ensures room { result ≡ true → length self.now.items + count ≤ 65536 }
        ensures full { result ≡ false → 65536 < length self.now.items + count }
    {
        self.len <= ROOM - count
    }

    // Appends the first `count` bytes of a piece. It copies the whole piece, since a copy of fixed
    // length needs no loop.
    #[inline(always)]
    fn extend_front<const N: usize>(&mut self, piece: &[u8; N], count: usize)
        requires within { count ≤ N }
        requires room { length self.old.items + N ≤ 65536 }
        ensures { self.new.items ≡ self.old.items ++ take count piece.now }
    {
        let len = self.len;
        self.bytes[..len + N][len..].copy_from_slice(piece);
        self.len = len + count;
    }

    // Appends a piece.
    fn extend(&mut self, piece: &[u8])
        requires { length self.old.items + length piece.now ≤ 65536 }
        ensures { self.new.items ≡ self.old.items ++ piece.now }
    {
        let len = self.len;
        let after = len + piece.len();
        self.bytes[..after][len..].copy_from_slice(piece);
        self.len = after;
    }

    /// Appends the `+` line of the first `count` of these bytes.
    #[inline(always)]
    pub(crate) fn push_byte_line(&mut self, bytes: &[u8; 32], count: usize)
        requires within { count ≤ 32 }
        requires room { length self.old.items + 66 ≤ 65536 }
        ensures { self.new.items ≡ self.old.items ++ byte_line (take count bytes.now) }
    {
        let digits = digits_of(bytes);
        self.extend_front(b"+", 1);
        self.extend_front(&digits, 2 * count);
        self.extend_front(b"\n", 1);
    }

    // Appends the `-` line of a hundred silent ticks or more. It is a separate function, since most
    // silence is shorter.
    #[inline(never)]
    fn push_long_silence(&mut self, ticks: u32)
        requires { length self.old.items + 66 ≤ 65536 }
        ensures { self.new.items ≡ self.old.items ++ silence_line ticks }
    {
        let mut buffer = Buffer::new();
        self.extend_front(b"-", 1);
        self.extend(buffer.format(ticks).as_bytes());
        self.extend(b"\n");
    }

    /// Appends the `-` line of `ticks` silent ticks.
    #[inline(always)]
    pub(crate) fn push_silence_line(&mut self, ticks: u32)
        requires { length self.old.items + 66 ≤ 65536 }
        ensures { self.new.items ≡ self.old.items ++ silence_line ticks }
    {
        if ticks < 10 {
            self.extend_front(&[b'-', b'0' + ticks as u8, b'\n'], 3);
        } else if ticks < 100 {
            let (tens, ones) = ((ticks / 10) as u8, (ticks % 10) as u8);
            self.extend_front(&[b'-', b'0' + tens, b'0' + ones, b'\n'], 4);
        } else {
            self.push_long_silence(ticks);
        }
    }

    /// Discards the text that waits.
    #[inline]
    pub(crate) fn empty(&mut self)
        ensures { self.new.items ≡ [] }
    {
        self.len = 0;
    }

    /// Makes room for a line: if there is none, writes what waits to the sink.
    pub(crate) fn make_room<S: Sink>(&mut self, sink: &mut S) -> Result<(), Failed>
        ensures ok { OnOk result (Buffered (S.held sink.old) (S.held sink.new) self.new.items
            self.old.items) }
        ensures room { OnOk result (length self.new.items + 66 ≤ 65536) }
        ensures err { OnErr result (GotPrefix (S.held sink.old) (S.held sink.new) self.old.items) }
        ensures cause { HasCause (S.faults sink.old) (S.faults sink.new) result }
        ensures flushes { S.flushes sink.new ≡ S.flushes sink.old }
    {
        if self.has_room(LONGEST_LINE) {
            return Ok(());
        }
        self.drain(sink)
    }

    /// Writes what waits to the sink, and leaves the flush to the caller.
    pub(crate) fn drain<S: Sink>(&mut self, sink: &mut S) -> Result<(), Failed>
        ensures ok { OnOk result (S.held sink.new ≡ append_known (S.held sink.old) self.old.items) }
        ensures empty { OnOk result (self.new.items ≡ []) }
        ensures err { OnErr result (GotPrefix (S.held sink.old) (S.held sink.new) self.old.items) }
        ensures cause { HasCause (S.faults sink.old) (S.faults sink.new) result }
        ensures flushes { S.flushes sink.new ≡ S.flushes sink.old }
    {
        write_all(sink, self.as_slice())?;
        self.empty();
        Ok(())
    }
}
