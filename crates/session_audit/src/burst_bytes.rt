//! The bytes of the running or last burst of a line, which are kept beside a box.
ghost use Rattle.std.specs.Prelude.{◌≡◌, ◌<◌, ◌≤◌, List, [], ◌∷◌, ◌++◌, length, map, take};
ghost use Rattle.yasir_ticks.specs.Ticks.{silent};
ghost use Rattle.yasir_ticks.specs.declared.tick.Tick.{Tick};
ghost use Rattle.yasir_ticks.specs.declared.tick.Tick.TheVariants.{Byte};
ghost use Rattle.yasir_ticks.specs.declared.TheConstants.{T3_5_TICKS};
ghost use Rattle.session_lists.specs.FrameList.{longest_frame};
ghost use Rattle.session_audit.specs.BurstBytes.{BurstFor, burst_bytes_so_far};

use crate::frame_room::{FrameRoom, LONGEST};
use yasir_ticks::{T3_5_TICKS, Tick};

/// The first bytes of the running or last burst of a line, at most as many as the longest frame
/// has. The live bytes, which can be a frame, come first among them, whatever the rules are.
#[derive(Drop)]
pub struct BurstBytes {
    // silent ticks since the last byte, counted up to `T3_5_TICKS`
    quiet: u8,
    bytes: FrameRoom,
}

impl BurstBytes {
    /// Returns what is kept before the first tick: no bytes.
    pub fn new() -> BurstBytes
        ensures { BurstFor result [] }
    {
        BurstBytes {
            quiet: T3_5_TICKS,
            bytes: FrameRoom::new(),
        }
    }

    // Adds these bytes to those that are kept, as far as there is room.
    #[inline]
    fn keep(&mut self, bytes: &[u8])
        ensures quiet { self.new.quiet ≡ self.old.quiet }
        ensures bytes { self.new.bytes.items
            ≡ take longest_frame (self.old.bytes.items ++ bytes.now) }
    {
        let room = LONGEST - self.bytes.len();
        let count = room.min(bytes.len());
        self.bytes.append(&bytes[..count]);
    }

    // Prepares for a byte. If it comes after silence that closes a burst, it begins a new one, and
    // the bytes of the old one are let go.
    #[inline]
    fn wake(&mut self)
        ensures quiet { self.new.quiet ≡ 0 }
        ensures first { T3_5_TICKS ≤ self.old.quiet → self.new.bytes.items ≡ [] }
        ensures further { self.old.quiet < T3_5_TICKS
            → self.new.bytes.items ≡ self.old.bytes.items }
    {
        if self.quiet >= T3_5_TICKS {
            self.bytes.empty();
        }
        self.quiet = 0;
    }

    /// Takes these bytes, one a tick.
    #[inline]
    pub fn hear_bytes(&mut self, bytes: &[u8])
        ensures { (line : List Tick) → BurstFor self.old line
            → BurstFor self.new (line ++ map Byte bytes.now) }
    {
        if bytes.len() == 0 {
            return;
        }
        self.wake();
        self.keep(bytes);
    }

    /// Takes this many silent ticks.
    #[inline]
    pub fn wait_some(&mut self, ticks: u32)
        ensures { (line : List Tick) → BurstFor self.old line
            → BurstFor self.new (line ++ silent ticks) }
    {
        let most = u32::from(T3_5_TICKS);
        let quiet = u32::from(self.quiet).min(most) + ticks.min(most);
        self.quiet = quiet.min(most) as u8;
    }

    /// Takes the next tick of the line.
    #[inline]
    pub fn step(&mut self, t: Tick)
        ensures { (line : List Tick) → BurstFor self.old line
            → BurstFor self.new (line ++ t ∷ []) }
    {
        match t {
            Tick::Silent => self.wait_some(1),
            Tick::Byte(byte) => self.hear_bytes(&[byte]),
        }
    }

    /// The bytes that are kept.
    #[inline]
    pub fn bytes(&self) -> &[u8]
        /// They are the first bytes of the last burst of the line that was taken, at most as many
        /// as the longest frame has.
        ensures burst { (line : List Tick) → BurstFor self.now line
            → result.now ≡ take longest_frame (burst_bytes_so_far line) }
        /// They are the bytes that the value keeps.
        ensures kept { result.now ≡ self.now.bytes.items }
        /// There are at most as many as the longest frame has.
        ensures short { length result.now ≤ longest_frame }
    {
        self.bytes.as_slice()
    }
}
