//! What a device is: it hears ticks, and reads frames from them.
use yasir_ticks::Tick;

/// What a device heard of some ticks.
#[derive(Clone, Copy, Debug, PartialEq, Eq)]
pub struct Met {
    /// How many of the ticks the device has taken.
    pub taken: usize,
    /// The tick of the first byte of the frame that was read in the last tick taken. With `None`
    /// the device has taken all the ticks.
    pub start: Option<u64>,
}

/// A device that listens to a line and reads frames from it. It lends the bytes of a frame that it
/// has read, until the next call that takes ticks.
pub trait Device {
    ghost use Rattle.std.specs.Prelude.{◌≡◌, ℕ, ◌+◌, ◌<◌, ◌≤◌, List, [], ◌∷◌, ◌++◌, length, map};
    ghost use Rattle.std.specs.Prelude.{take, None};
    ghost use Rattle.yasir_ticks.specs.Ticks.{silent};
    ghost use Rattle.yasir_ticks.specs.declared.tick.Tick.{Tick};
    ghost use Rattle.yasir_ticks.specs.declared.tick.Tick.TheVariants.{Byte};
    ghost use Rattle.yasir_ticks.specs.declared.TheConstants.{MAX_TICKS};
    ghost use Rattle.device_model.specs.Frames.{FrameRead, frames_lent};

    /// What such a device reads from a line.
    ghost reads: { List Tick → List FrameRead };

    /// Holds if the device has heard this line, and no more.
    ghost stands: { Self → List Tick → Type 0 };

    /// How many ticks the device has taken.
    ghost taken: { Self → ℕ };

    /// The bytes that the device lends. They are those of a frame if the last call that took ticks
    /// says so.
    ghost lent: { Self → List ℕ };

    /// Makes a device that has heard nothing.
    fn fresh() -> Self
        /// It has taken 0 ticks.
        ensures taken { taken result ≡ 0 }
        /// It has heard no tick.
        ensures stands { stands result [] }
        /// Of no tick, nothing is read.
        ensures nothing { reads [] ≡ [] };

    /// Returns the bytes of the frame that was read in the last tick taken.
    fn frame_bytes(&self) -> &[u8]
        /// They are the bytes that the device lends.
        ensures bytes { result.now ≡ lent self.now }
        /// There are at most 292.
        ensures few { length result.now ≤ 292 };

    /// Takes the next tick of the line. If a frame is read in this very tick, returns the tick of
    /// its first byte, and lends its bytes. Otherwise returns `None`.
    fn step(&mut self, t: Tick) -> Option<u64>
        /// Fewer than 2^62 ticks were taken before.
        requires { taken self.old < MAX_TICKS }
        /// One more tick is taken.
        ensures taken { taken self.new ≡ taken self.old + 1 }
        /// The device has heard this tick after its line.
        ensures stands { (line : List Tick) → stands self.old line
            → stands self.new (line ++ t ∷ []) }
        /// The frame that is returned, if one is, is exactly what is read of the line with this
        /// tick and not of the line without it.
        ensures answer { (line : List Tick) → stands self.old line
            → reads (line ++ t ∷ []) ≡ reads line ++ frames_lent result (lent self.new) };

    /// Takes the next ticks, which have these bytes, up to the first one in which a frame is read.
    fn hear(&mut self, bytes: &[u8]) -> Met
        /// The device has then taken at most 2^62 ticks.
        requires { taken self.old + length bytes.now ≤ MAX_TICKS }
        /// If there are bytes, at least one is taken.
        ensures some { 0 < length bytes.now → 0 < result.taken }
        /// No more bytes are taken than there are.
        ensures within { result.taken ≤ length bytes.now }
        /// If no frame is read, all bytes are taken.
        ensures whole { result.start ≡ None → result.taken ≡ length bytes.now }
        /// The ticks that are taken are counted.
        ensures taken { taken self.new ≡ taken self.old + result.taken }
        /// The device has heard these ticks after its line.
        ensures stands { (line : List Tick) → stands self.old line
            → stands self.new (line ++ map Byte (take result.taken bytes.now)) }
        /// The frame that is returned, if one is, is exactly what these ticks add to what is read.
        ensures answer { (line : List Tick) → stands self.old line
            → reads (line ++ map Byte (take result.taken bytes.now))
            ≡ reads line ++ frames_lent result.start (lent self.new) }
        /// Before the last of these ticks nothing more is read.
        ensures before { (n : ℕ) → n < result.taken → (line : List Tick)
            → stands self.old line
            → reads (line ++ map Byte (take n bytes.now)) ≡ reads line }
    {
        for (at, byte) in bytes.iter().enumerate() {
            if let Some(start) = self.step(Tick::Byte(*byte)) {
                return Met {
                    taken: at + 1,
                    start: Some(start),
                };
            }
        }
        Met {
            taken: bytes.len(),
            start: None,
        }
    }

    /// Takes this many silent ticks, up to the first one in which a frame is read.
    fn wait(&mut self, ticks: usize) -> Met
        /// The device has then taken at most 2^62 ticks.
        requires { taken self.old + ticks ≤ MAX_TICKS }
        /// If there are ticks, at least one is taken.
        ensures some { 0 < ticks → 0 < result.taken }
        /// At most `ticks` ticks are taken.
        ensures within { result.taken ≤ ticks }
        /// If no frame is read, all ticks are taken.
        ensures whole { result.start ≡ None → result.taken ≡ ticks }
        /// The ticks that are taken are counted.
        ensures taken { taken self.new ≡ taken self.old + result.taken }
        /// The device has heard these ticks after its line.
        ensures stands { (line : List Tick) → stands self.old line
            → stands self.new (line ++ silent result.taken) }
        /// The frame that is returned, if one is, is exactly what these ticks add to what is read.
        ensures answer { (line : List Tick) → stands self.old line
            → reads (line ++ silent result.taken)
            ≡ reads line ++ frames_lent result.start (lent self.new) }
        /// Before the last of these ticks nothing more is read.
        ensures before { (n : ℕ) → n < result.taken → (line : List Tick)
            → stands self.old line
            → reads (line ++ silent n) ≡ reads line }
    {
        for at in 0..ticks {
            if let Some(start) = self.step(Tick::Silent) {
                return Met {
                    taken: at + 1,
                    start: Some(start),
                };
            }
        }
        Met {
            taken: ticks,
            start: None,
        }
    }
}
