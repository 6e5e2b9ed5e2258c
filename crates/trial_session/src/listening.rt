//! A device in a session, and how many frames it has read.
ghost use Rattle.std.specs.Prelude.{◌≡◌, ℕ, ◌≤◌, List, length};
ghost use Rattle.device_model.specs.Frames.{frames_lent};

use crate::waiting::Waiting;
use device_model::Device;
use yasir_ticks::{MAX_TICKS, Tick};

/// A device, and how many frames it has read.
#[derive(Drop)]
pub struct Listening<V> {
    device: V,
    read: u64,
}

// How many frames a device has read in some ticks: one if `start` has the tick at which it begins,
// or none.
#[inline]
fn frames_in(start: Option<u64>) -> u64
    ensures value { (bytes : List ℕ) → result ≡ length (frames_lent start bytes) }
    ensures few { result ≤ 1 }
{
    match start {
        Some(_) => 1,
        None => 0,
    }
}

impl<V: Device + Drop> Listening<V> {
    ghost use Rattle.std.specs.Prelude.{◌+◌, ◌<◌, [], ◌∷◌, ◌++◌, map};
    ghost use Rattle.yasir_ticks.specs.Ticks.{silent};
    ghost use Rattle.yasir_ticks.specs.declared.tick.Tick.TheVariants.{Byte};
    ghost use Rattle.frame_ending.specs.Answered.{answered};
    ghost use Rattle.yasir_ticks.specs.declared.tick.Tick.{Tick};
    ghost use Rattle.trial_session.specs.Sides.{SideHasHeard, IsHearing};

    /// A device that has heard nothing.
    pub fn new() -> Listening<V>
        ensures few { result.read ≡ 0 }
        ensures taken { V.taken result.device ≡ 0 }
        ensures heard { SideHasHeard V.Device result [] }
    {
        Listening {
            device: V::fresh(),
            read: 0,
        }
    }

    /// How many frames it has read.
    pub fn read(&self) -> u64
        ensures { result ≡ self.now.read }
    {
        self.read
    }

    /// Hears the next ticks, which have these bytes.
    pub fn hear_bytes(&mut self, bytes: &[u8])
        requires few { self.old.read ≤ V.taken self.old.device }
        requires room { V.taken self.old.device + length bytes.now ≤ MAX_TICKS }
        ensures few { self.new.read ≤ V.taken self.new.device }
        ensures taken { V.taken self.new.device ≡ V.taken self.old.device + length bytes.now }
        ensures heard { (line : List Tick) → SideHasHeard V.Device self.old line
            → SideHasHeard V.Device self.new (line ++ map Byte bytes.now) }
    {
        let mut at = 0;
        while at < bytes.len() {
            let met = self.device.hear(&bytes[at..]);
            self.read += frames_in(met.start);
            at += met.taken;
        }
    }

    /// Hears this many silent ticks.
    pub fn wait(&mut self, ticks: usize)
        requires few { self.old.read ≤ V.taken self.old.device }
        requires room { V.taken self.old.device + ticks ≤ MAX_TICKS }
        ensures few { self.new.read ≤ V.taken self.new.device }
        ensures taken { V.taken self.new.device ≡ V.taken self.old.device + ticks }
        ensures heard { (line : List Tick) → SideHasHeard V.Device self.old line
            → SideHasHeard V.Device self.new (line ++ silent ticks) }
    {
        let mut at = 0;
        while at < ticks {
            let met = self.device.wait(ticks - at);
            self.read += frames_in(met.start);
            at += met.taken;
        }
    }

    /// Hears the bytes that wait.
    pub fn settle(&mut self, waiting: &mut Waiting)
        requires few { self.old.read ≤ V.taken self.old.device }
        requires room { V.taken self.old.device + length waiting.old.items ≤ MAX_TICKS }
        ensures few { self.new.read ≤ V.taken self.new.device }
        ensures taken { V.taken self.new.device
            ≡ V.taken self.old.device + length waiting.old.items }
        ensures none { waiting.new.items ≡ [] }
        ensures heard { (line : List Tick)
            → IsHearing V.Device self.old waiting.old.items line
            → SideHasHeard V.Device self.new line }
    {
        if waiting.is_empty() {
            return;
        }
        self.hear_bytes(waiting.as_slice());
        waiting.clear();
    }

    // Takes the next ticks, which have these bytes. The bytes wait if there is room for them. If
    // there isn't, the device hears all of them.
    #[inline]
    fn keep(&mut self, bytes: &[u8], waiting: &mut Waiting)
        requires few { self.old.read ≤ V.taken self.old.device }
        requires room { V.taken self.old.device + length waiting.old.items + length bytes.now
            ≤ MAX_TICKS }
        ensures few { self.new.read ≤ V.taken self.new.device }
        ensures taken { V.taken self.new.device + length waiting.new.items
            ≡ V.taken self.old.device + length waiting.old.items + length bytes.now }
        ensures heard { (line : List Tick)
            → IsHearing V.Device self.old waiting.old.items line
            → IsHearing V.Device self.new waiting.new.items (line ++ map Byte bytes.now) }
    {
        if !waiting.add(bytes) {
            self.settle(waiting);
            self.hear_bytes(bytes);
        }
    }

    // Hears the bytes that wait, and then this many silent ticks.
    #[inline]
    fn hear_silence(&mut self, ticks: usize, waiting: &mut Waiting)
        requires few { self.old.read ≤ V.taken self.old.device }
        requires room { V.taken self.old.device + length waiting.old.items + ticks ≤ MAX_TICKS }
        ensures few { self.new.read ≤ V.taken self.new.device }
        ensures taken { V.taken self.new.device + length waiting.new.items
            ≡ V.taken self.old.device + length waiting.old.items + ticks }
        ensures heard { (line : List Tick)
            → IsHearing V.Device self.old waiting.old.items line
            → IsHearing V.Device self.new waiting.new.items (line ++ silent ticks) }
    {
        self.settle(waiting);
        self.wait(ticks);
    }

    /// Hears the answer to `count` ticks: as many bytes, or silence if `sent` is empty. Bytes wait
    /// for the end of their run, since a run costs the device little more than a single byte.
    #[inline]
    pub fn hear(&mut self, count: usize, sent: &[u8], waiting: &mut Waiting)
        requires few { self.old.read ≤ V.taken self.old.device }
        requires room { V.taken self.old.device + length waiting.old.items + count ≤ MAX_TICKS }
        ensures few { self.new.read ≤ V.taken self.new.device }
        ensures taken { V.taken self.new.device + length waiting.new.items
            ≡ V.taken self.old.device + length waiting.old.items + count }
        ensures heard { length (answered count sent.now) ≡ count
            → (line : List Tick) → IsHearing V.Device self.old waiting.old.items line
            → IsHearing V.Device self.new waiting.new.items (line ++ answered count sent.now) }
    {
        if sent.len() == count {
            self.keep(sent, waiting);
        } else {
            self.hear_silence(count, waiting);
        }
    }

    /// Hears the answer to one tick.
    #[inline]
    pub fn hear_tick(&mut self, tick: Tick, waiting: &mut Waiting)
        requires few { self.old.read ≤ V.taken self.old.device }
        requires room { V.taken self.old.device + length waiting.old.items < MAX_TICKS }
        ensures few { self.new.read ≤ V.taken self.new.device }
        ensures taken { V.taken self.new.device + length waiting.new.items
            ≡ V.taken self.old.device + length waiting.old.items + 1 }
        ensures heard { (line : List Tick)
            → IsHearing V.Device self.old waiting.old.items line
            → IsHearing V.Device self.new waiting.new.items (line ++ tick ∷ []) }
    {
        match tick {
            Tick::Byte(byte) => self.keep(&[byte], waiting),
            Tick::Silent => self.hear_silence(1, waiting),
        }
    }
}
