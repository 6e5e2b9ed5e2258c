//! The bytes of one way of a capture, placed on a line one after the other.

ghost use Rattle.std.specs.Prelude.{◌≡◌, ◌+◌, ◌^◌, ◌<◌};
ghost use Rattle.line_stamps.specs.Places.{steps_apart, tick_placed_at};

use crate::capture::CaptureByte;
use crate::rounding::{nearest, ticks_between};
use crate::timing::{Spacing, Timing};
use crate::{DRIFT_SILENCE, TIME_LIMIT};
use yasir_ticks::T3_5_TICKS;

/// Why a byte isn't placed.
#[derive(Clone, Copy, Debug, PartialEq, Eq)]
pub enum Unplaced {
    /// Its record has a time before the origin.
    Early,
    /// It starts less than half a character after the byte before it, so that the two overlap.
    Overlap,
    /// It starts later than a capture may last (`TIME_LIMIT`).
    Late,
}

// Where the byte that was taken last is: the time of its start, in parts since the origin, and its
// tick.
#[derive(Clone, Copy, Debug, PartialEq, Eq)]
struct Last {
    time: u64,
    tick: u64,
    ghost timed: { time < 2 ^ 62 },
    ghost ticked: { tick < 2 ^ 62 },
}

/// Places the bytes of one way of a capture on a line, one after the other. It allocates nothing.
#[derive(Clone, Copy, Debug, PartialEq, Eq)]
pub struct Placer {
    timing: Timing,
    last: Option<Last>,
    overlaps: u64,
}

// Returns how many ticks there are from the byte before to the next one, with `gap` parts between
// their starts, if there is no drift.
#[inline]
fn steps(spacing: Spacing, first: bool, gap: u64, character: u64) -> u64
    requires some { 0 < character }
    requires small { character < 2 ^ 60 }
    requires near { gap < 2 ^ 62 }
    ensures ticks { result ≡ steps_apart spacing first gap character }
    ensures some { 0 < result }
    ensures bound { result < 2 ^ 63 }
{
    let by_time = ticks_between(gap, character);
    match spacing {
        Spacing::ByTime => by_time,
        Spacing::ByRecord => {
            if first {
                by_time.max(u64::from(T3_5_TICKS) + 1)
            } else {
                by_time
            }
        }
    }
}

// Returns the tick of a byte that comes `steps` ticks after tick `before` if there is no drift. In
// a silence of more than 320 ticks drift is taken up.
#[inline]
fn settled(steps: u64, before: u64, time: u64, character: u64) -> u64
    requires some { 0 < character }
    requires small { character < 2 ^ 60 }
    requires near { time < 2 ^ 62 }
    requires some_steps { 0 < steps }
    requires bound { before + steps < 2 ^ 64 }
    ensures tick { result ≡ tick_placed_at steps before time character }
    ensures later { before < result }
{
    if DRIFT_SILENCE + 1 < steps {
        nearest(time, character).max(before + DRIFT_SILENCE + 1)
    } else {
        before + steps
    }
}

impl Placer {
    ghost use Rattle.std.specs.Prelude.{◌≡◌, ◌+◌, ◌-◌, ◌^◌, ◌<◌, ◌≤◌, false, IfOk, IfSome};
    ghost use Rattle.std.specs.Prelude.{IfNone, min, length, List, [], ◌∷◌, ◌++◌};
    ghost use Rattle.yasir_ticks.specs.Ticks.{silent};
    ghost use Rattle.yasir_ticks.specs.declared.tick.Tick.TheVariants.{Byte};
    ghost use Rattle.line_stamps.specs.declared.capture.CaptureByte.{CaptureByte};
    ghost use Rattle.line_stamps.specs.Parts.{character};
    ghost use Rattle.line_stamps.specs.Places.{stamp, start_of, tick_after, next_tick};
    ghost use Rattle.line_stamps.specs.Places.{last_spot, line_of_places};
    ghost use Rattle.line_stamps.specs.Placing.{is_early, overlaps_at, answer_at, spot_if};
    ghost use Rattle.line_stamps.specs.Placing.{PlacingHasTaken};
    ghost use Rattle.line_stamps.specs.Placing.{timing_of, overlap_count, Leaves};

    /// Returns a placer that has taken no byte yet.
    pub fn new(timing: Timing) -> Placer
        /// It places bytes by this timing.
        ensures timing { timing_of result ≡ timing }
        /// It has taken no byte.
        ensures start { PlacingHasTaken result [] }
    {
        Placer {
            timing,
            last: None,
            overlaps: 0,
        }
    }

    // Whether a byte starts at a time stamp that is before the origin.
    #[inline]
    fn is_early(&self, byte: &CaptureByte) -> bool
        ensures { result ≡ is_early self.now.timing (spot_if self.now.last) byte.now }
    {
        (self.last.is_none() || byte.first) && byte.start < self.timing.origin
    }

    // Returns the time stamp of a byte, in parts since the origin, or `None` if it is too late.
    #[inline]
    fn stamp(&self, byte: &CaptureByte) -> Option<u64>
        requires { self.now.timing.origin ≤ byte.now.start }
        ensures late { IfNone result (2 ^ 62 ≤ stamp self.now.timing byte.now) }
        ensures time { IfSome result (λ time. time ≡ stamp self.now.timing byte.now) }
        ensures soon { IfSome result (λ time. time < 2 ^ 62) }
    {
        let elapsed = byte.start - self.timing.origin;
        let time = elapsed.checked_mul(u64::from(self.timing.rate.baud))?;
        if time < TIME_LIMIT { Some(time) } else { None }
    }

    // Returns the start of a byte, in parts since the origin, or `None` if it is too late.
    #[inline]
    fn start_of(&self, byte: &CaptureByte) -> Option<u64>
        requires { is_early self.now.timing (spot_if self.now.last) byte.now ≡ false }
        ensures late { IfNone result
            (2 ^ 62 ≤ start_of self.now.timing (spot_if self.now.last) byte.now) }
        ensures time { IfSome result
            (λ time. time ≡ start_of self.now.timing (spot_if self.now.last) byte.now) }
        ensures soon { IfSome result (λ time. time < 2 ^ 62) }
    {
        let Some(last) = self.last else {
            return self.stamp(byte);
        };
        if byte.first {
            return self.stamp(byte);
        }
        let time = last.time + self.timing.rate.character();
        if time < TIME_LIMIT { Some(time) } else { None }
    }

    // Returns the tick of a byte that starts at this time.
    #[inline]
    fn tick_of(&self, first: bool, time: u64) -> u64
        requires { time < 2 ^ 62 }
        ensures tick { result ≡ tick_after self.now.timing (spot_if self.now.last) first time }
        ensures later { next_tick (spot_if self.now.last) ≤ result }
    {
        let character = self.timing.rate.character();
        match self.last {
            None => nearest(time, character),
            Some(last) => {
                let gap = time.saturating_sub(last.time);
                let steps = steps(self.timing.spacing, first, gap, character);
                settled(steps, last.tick, time, character)
            }
        }
    }

    // Whether a byte that starts at this time overlaps the one before it.
    #[inline]
    fn overlaps_at(&self, time: u64) -> bool
        requires { time < 2 ^ 62 }
        ensures { result ≡ overlaps_at self.now.timing.spacing (spot_if self.now.last) time
            (character self.now.timing.rate) }
    {
        match (self.timing.spacing, self.last) {
            (Spacing::ByTime, Some(last)) => {
                2 * time.saturating_sub(last.time) < self.timing.rate.character()
            }
            _ => false,
        }
    }

    /// Places the next byte, and returns how many silent ticks come before it: those after the byte
    /// before it, or those from tick 0 on. A byte that overlaps the one before it is taken
    /// nevertheless, in the next tick, so that all bytes that overlap can be counted. One that is
    /// early or late isn't taken.
    #[inline]
    pub fn place(&mut self, byte: CaptureByte) -> Result<u64, Unplaced>
        /// What is returned is what the definition says of the byte, after the last one that was
        /// taken.
        ensures answer { (cs : List CaptureByte) → PlacingHasTaken self.old cs
            → result ≡ answer_at (timing_of self.old) (last_spot (timing_of self.old) cs) byte }
        /// If the byte is placed, the line of the capture goes on with this silence and the byte.
        ensures line { IfOk result (λ silence. (cs : List CaptureByte) → PlacingHasTaken self.old cs
            → line_of_places (timing_of self.old) (cs ++ byte ∷ [])
            ≡ line_of_places (timing_of self.old) cs ++ (silent silence ++ Byte byte.byte ∷ [])) }
        /// A byte that is placed or overlaps is taken, and one that is early or late changes
        /// nothing.
        ensures leaves { Leaves self.old self.new byte result }
    {
        if self.is_early(&byte) {
            return Err(Unplaced::Early);
        }
        let Some(time) = self.start_of(&byte) else {
            return Err(Unplaced::Late);
        };
        let tick = self.tick_of(byte.first, time);
        if TIME_LIMIT <= tick {
            return Err(Unplaced::Late);
        }
        let silence = tick - self.next_tick();
        let overlaps = self.overlaps_at(time);
        self.last = Some(Last { time, tick });
        if overlaps {
            self.overlaps = self.overlaps.saturating_add(1);
            return Err(Unplaced::Overlap);
        }
        Ok(silence)
    }

    /// Returns how many bytes overlapped the one before them. The count stops at 2^64 - 1.
    #[inline]
    pub fn overlaps(&self) -> u64
        ensures { (cs : List CaptureByte) → PlacingHasTaken self.now cs
            → result ≡ min (overlap_count (timing_of self.now) cs) (2 ^ 64 - 1) }
    {
        self.overlaps
    }

    /// Returns how many ticks the line has, up to and with the byte that was taken last.
    #[inline]
    pub fn ticks(&self) -> u64
        ensures { (cs : List CaptureByte) → PlacingHasTaken self.now cs
            → result ≡ length (line_of_places (timing_of self.now) cs) }
    {
        self.next_tick()
    }

    // Returns the tick after the byte that was taken last, or 0 if there is none.
    #[inline]
    fn next_tick(&self) -> u64
        ensures { result ≡ next_tick (spot_if self.now.last) }
    {
        match self.last {
            None => 0,
            Some(last) => last.tick + 1,
        }
    }
}
