//! Ticks as lines of canonical tick text.
ghost use Rattle.std.specs.Prelude.{◌≡◌, ◌+◌, ◌<◌, ◌≤◌, [], length, map, take, true, false};
ghost use Rattle.yasir_ticks.specs.Ticks.{silent};
ghost use Rattle.yasir_ticks.specs.declared.tick.Tick.TheVariants.{Byte};

use crate::line_room::LineRoom;

/// The most bytes that one line represents.
const MAX_BYTES: usize = 32;

/// The most silent ticks that one line represents.
const MAX_SILENCE: u32 = 1_000_000;

/// Writes ticks as canonical tick text into a room, each line as soon as ticks complete it. It
/// keeps only the line that isn't filled yet: fewer than 32 bytes, or fewer than 1,000,000 silent
/// ticks.
#[derive(Drop)]
pub struct LineWriter {
    bytes: [u8; 32],
    count: usize,
    silence: u32,
    ghost few: { count < 32 },
    ghost short: { silence < 1000000 },
    ghost single: { 0 < silence → count ≡ 0 },
}

impl LineWriter {
    ghost use Rattle.line_texts.specs.Writer.{WriterHasWritten, WriterTakes, TakesInto, Ends};

    /// Returns a writer that has taken no tick.
    pub(crate) fn new() -> LineWriter
        ensures { WriterHasWritten result [] [] }
    {
        LineWriter {
            bytes: [0; MAX_BYTES],
            count: 0,
            silence: 0,
        }
    }

    /// Takes bytes, one for each tick, if they complete no line. Returns whether it took them.
    #[inline(always)]
    pub(crate) fn join_bytes(&mut self, bytes: &[u8]) -> bool
        ensures joined { result ≡ true → WriterTakes self.old self.new (map Byte bytes.now) [] }
        ensures left { result ≡ false → self.new ≡ self.old }
        ensures some { result ≡ false → 0 < length bytes.now }
        ensures fills { result ≡ false → self.old.silence ≡ 0
            → 32 ≤ self.old.count + length bytes.now }
    {
        if bytes.is_empty() {
            return true;
        }
        if self.silence > 0 {
            return false;
        }
        if bytes.len() >= MAX_BYTES - self.count {
            return false;
        }
        let after = self.count + bytes.len();
        self.bytes[self.count..after].copy_from_slice(bytes);
        self.count = after;
        true
    }

    /// Takes silent ticks if they complete no line. Returns whether it took them.
    #[inline(always)]
    pub(crate) fn join_silence(&mut self, ticks: u32) -> bool
        ensures joined { result ≡ true → WriterTakes self.old self.new (silent ticks) [] }
        ensures left { result ≡ false → self.new ≡ self.old }
        ensures some { result ≡ false → 0 < ticks }
        ensures fills { result ≡ false → self.old.count ≡ 0
            → 1000000 ≤ self.old.silence + ticks }
    {
        if ticks == 0 {
            return true;
        }
        if self.count > 0 {
            return false;
        }
        if ticks >= MAX_SILENCE - self.silence {
            return false;
        }
        self.silence += ticks;
        true
    }

    // Writes the line of silence that these bytes end, takes up to 31 of the bytes, and returns how
    // many.
    #[inline(always)]
    fn end_silence(&mut self, room: &mut LineRoom, bytes: &[u8]) -> usize
        requires begun { 0 < self.old.silence }
        requires some { 0 < length bytes.now }
        requires room { length room.old.items + 66 ≤ 65536 }
        ensures some { 0 < result }
        ensures within { result ≤ length bytes.now }
        ensures left { self.new.silence ≡ 0 }
        ensures count { self.new.count ≡ result }
        ensures taken { TakesInto self.old self.new (map Byte (take result bytes.now))
            room.old.items room.new.items }
    {
        room.push_silence_line(self.silence);
        self.silence = 0;
        let count = bytes.len().min(MAX_BYTES - 1);
        self.bytes[0..count].copy_from_slice(&bytes[..count]);
        self.count = count;
        count
    }

    // Writes the first 32 of these bytes as a line of their own, since no line is begun. Returns
    // how many it took.
    #[inline(always)]
    fn write_whole(&mut self, room: &mut LineRoom, bytes: &[u8]) -> usize
        requires none { self.old.count ≡ 0 }
        requires no_silence { self.old.silence ≡ 0 }
        requires fills { 32 ≤ length bytes.now }
        requires room { length room.old.items + 66 ≤ 65536 }
        ensures some { 0 < result }
        ensures within { result ≤ length bytes.now }
        ensures left { self.new.silence ≡ 0 }
        ensures count { self.new.count + 32 ≡ self.old.count + result }
        ensures taken { TakesInto self.old self.new (map Byte (take result bytes.now))
            room.old.items room.new.items }
    {
        let Some((whole, _)) = bytes.split_first_chunk::<MAX_BYTES>() else {
            return 0;
        };
        room.push_byte_line(whole, MAX_BYTES);
        MAX_BYTES
    }

    // Fills the line of bytes that is begun with the first of these bytes, and writes it. Returns
    // how many it took.
    #[inline(always)]
    fn fill(&mut self, room: &mut LineRoom, bytes: &[u8]) -> usize
        requires no_silence { self.old.silence ≡ 0 }
        requires fills { 32 ≤ self.old.count + length bytes.now }
        requires room { length room.old.items + 66 ≤ 65536 }
        ensures some { 0 < result }
        ensures within { result ≤ length bytes.now }
        ensures left { self.new.silence ≡ 0 }
        ensures count { self.new.count + 32 ≡ self.old.count + result }
        ensures taken { TakesInto self.old self.new (map Byte (take result bytes.now))
            room.old.items room.new.items }
    {
        let taken = MAX_BYTES - self.count;
        self.bytes[self.count..].copy_from_slice(&bytes[..taken]);
        room.push_byte_line(&self.bytes, MAX_BYTES);
        self.count = 0;
        taken
    }

    /// Writes the first line that these bytes complete, and returns how many of them it took.
    #[inline(always)]
    pub(crate) fn complete_by_bytes(&mut self, room: &mut LineRoom, bytes: &[u8]) -> usize
        requires some { 0 < length bytes.now }
        requires fills { self.old.silence ≡ 0 → 32 ≤ self.old.count + length bytes.now }
        requires room { length room.old.items + 66 ≤ 65536 }
        ensures some { 0 < result }
        ensures within { result ≤ length bytes.now }
        ensures left { self.new.silence ≡ 0 }
        ensures count { self.old.silence ≡ 0 → self.new.count + 32 ≡ self.old.count + result }
        ensures begun { 0 < self.old.silence → self.new.count ≡ result }
        ensures taken { TakesInto self.old self.new (map Byte (take result bytes.now))
            room.old.items room.new.items }
    {
        if self.silence > 0 {
            return self.end_silence(room, bytes);
        }
        if self.count == 0 {
            return self.write_whole(room, bytes);
        }
        self.fill(room, bytes)
    }

    // Writes the line of bytes that these silent ticks end, takes up to 999,999 of the ticks, and
    // returns how many.
    #[inline(always)]
    fn end_bytes(&mut self, room: &mut LineRoom, ticks: u32) -> u32
        requires begun { 0 < self.old.count }
        requires some { 0 < ticks }
        requires room { length room.old.items + 66 ≤ 65536 }
        ensures some { 0 < result }
        ensures within { result ≤ ticks }
        ensures count { self.new.count ≡ 0 }
        ensures silence { self.new.silence ≡ result }
        ensures taken { TakesInto self.old self.new (silent result) room.old.items
            room.new.items }
    {
        room.push_byte_line(&self.bytes, self.count);
        self.count = 0;
        let taken = ticks.min(MAX_SILENCE - 1);
        self.silence = taken;
        taken
    }

    /// Writes the first line that these silent ticks complete, and returns how many of them it
    /// took.
    #[inline(always)]
    pub(crate) fn complete_by_silence(&mut self, room: &mut LineRoom, ticks: u32) -> u32
        requires some { 0 < ticks }
        requires fills { self.old.count ≡ 0 → 1000000 ≤ self.old.silence + ticks }
        requires room { length room.old.items + 66 ≤ 65536 }
        ensures some { 0 < result }
        ensures within { result ≤ ticks }
        ensures count { self.new.count ≡ 0 }
        ensures silence { self.new.silence ≤ result }
        ensures taken { TakesInto self.old self.new (silent result) room.old.items
            room.new.items }
    {
        if self.count > 0 {
            return self.end_bytes(room, ticks);
        }
        let taken = MAX_SILENCE - self.silence;
        room.push_silence_line(MAX_SILENCE);
        self.silence = 0;
        taken
    }

    /// Writes the line that isn't filled yet, if there is one.
    pub(crate) fn finish(&self, room: &mut LineRoom)
        requires { length room.old.items + 66 ≤ 65536 }
        ensures { Ends self.now room.old.items room.new.items }
    {
        if self.count > 0 {
            room.push_byte_line(&self.bytes, self.count);
            return;
        }
        if self.silence > 0 {
            room.push_silence_line(self.silence);
        }
    }
}
