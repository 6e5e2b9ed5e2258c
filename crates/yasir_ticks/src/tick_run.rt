//! A run of ticks as one value.
ghost use Rattle.std.specs.Prelude.{◌≡◌, ◌<◌, ◌≤◌, ◌==◌, ◌∷◌, length, take, drop};

use crate::Tick;

/// Ticks of one kind in a row. The bytes are borrowed.
#[derive(Clone, Copy)]
pub enum TickRun<'a> {
    /// These bytes, one for each tick.
    Bytes(&'a [u8]),
    /// That many silent ticks.
    Silence(u32),
}

impl<'a> TickRun<'a> {
    ghost use Rattle.yasir_ticks.specs.TickRun.{run_ticks};

    /// Returns the number of ticks.
    #[inline]
    pub fn len(self) -> usize
        ensures { result ≡ length (run_ticks self.entry) }
    {
        match self {
            TickRun::Bytes(bytes) => bytes.len(),
            TickRun::Silence(ticks) => ticks as usize,
        }
    }

    /// Whether there are no ticks.
    #[inline]
    pub fn is_empty(self) -> bool
        ensures { result ≡ (length (run_ticks self.entry) == 0) }
    {
        self.len() == 0
    }

    /// Returns the first `count` ticks.
    #[inline]
    pub fn front(self, count: usize) -> TickRun<'a>
        /// The run has at least `count` ticks.
        requires { count ≤ length (run_ticks self) }
        ensures { run_ticks result ≡ take count (run_ticks self.entry) }
    {
        match self {
            TickRun::Bytes(bytes) => TickRun::Bytes(&bytes[..count]),
            TickRun::Silence(_) => TickRun::Silence(count as u32),
        }
    }

    /// Returns the ticks after the first `count`.
    #[inline]
    pub fn behind(self, count: usize) -> TickRun<'a>
        /// The run has at least `count` ticks.
        requires { count ≤ length (run_ticks self) }
        ensures { run_ticks result ≡ drop count (run_ticks self.entry) }
    {
        match self {
            TickRun::Bytes(bytes) => TickRun::Bytes(&bytes[count..]),
            TickRun::Silence(ticks) => TickRun::Silence(ticks - count as u32),
        }
    }

    /// Returns the first tick. There must be at least one.
    #[inline]
    pub fn first(self) -> Tick
        /// The run has at least one tick.
        requires { 0 < length (run_ticks self) }
        ensures { run_ticks self.entry ≡ result ∷ drop 1 (run_ticks self.entry) }
    {
        match self {
            TickRun::Bytes(bytes) => Tick::Byte(bytes[0]),
            TickRun::Silence(_) => Tick::Silent,
        }
    }
}
