//! What a port surely hears of a recording, while only some of its own ticks are known.
ghost use Rattle.std.specs.Prelude.{◌≡◌, ◌+◌, ◌<◌, ◌≤◌, ℕ, List, ◌∷◌, length, drop, get_or, map};
ghost use Rattle.std.specs.Prelude.{IfSome};
ghost use Rattle.yasir_ticks.specs.Ticks.{silent};
ghost use Rattle.yasir_ticks.specs.TickRun.{run_ticks};
ghost use Rattle.yasir_ticks.specs.declared.tick.Tick.TheVariants.{Silent, Byte};
ghost use Rattle.frame_ending.specs.Answered.{answered};
ghost use Rattle.line_commands.specs.Recording.{filled_recording};
ghost use Rattle.wire_commands.specs.Hearing.{SurelyHearsTick, SurelyHears};

use frame_ending::RunBytes;
use two_wire::hear;
use yasir_ticks::{Tick, TickRun};

/// The most silent ticks that are heard at once.
const MOST_SILENCE: usize = 256;
/// The most bytes that are heard at once: as many as `RunBytes` has room for.
const MOST_BYTES: usize = 64;

/// Returns the tick at a place of a recording, which is filled with silence.
#[inline]
pub(crate) fn tick_at(line: &[Tick], place: usize) -> Tick
    ensures { result ≡ get_or line.now place Silent }
{
    if place < line.len() {
        line[place]
    } else {
        Tick::Silent
    }
}

// Returns what a port surely hears in the tick at this place, if it drives the wires with `own` and
// then with `next`, and nobody knows with what then.
#[inline]
fn surely_heard(own: Tick, next: TickRun<'_>, wire: Tick, place: usize) -> Option<Tick>
    ensures { IfSome result (λ tick. SurelyHearsTick (drop place
        (own ∷ run_ticks next.entry)) wire tick) }
{
    if place == 0 {
        return Some(hear(own, wire));
    }
    if place <= next.len() {
        return match next {
            TickRun::Bytes(_) => Some(Tick::Silent),
            TickRun::Silence(_) => Some(wire),
        };
    }
    match wire {
        Tick::Silent => Some(Tick::Silent),
        Tick::Byte(_) => None,
    }
}

// Returns how many of the first ticks, no more than `most`, are surely heard as silence. The first
// one is.
fn heard_silence(own: Tick, next: TickRun<'_>, line: &[Tick], most: usize) -> u32
    requires some { 0 < most }
    requires few { most ≤ 256 }
    requires first { (left : ℕ) → most ≤ left → SurelyHears (own ∷ run_ticks next)
        (filled_recording left line.now) (silent 1) }
    ensures some { 0 < result }
    ensures within { result ≤ most }
    ensures heard { (left : ℕ) → most ≤ left → SurelyHears (own ∷ run_ticks next.entry)
        (filled_recording left line.now) (silent result) }
{
    let mut count: u32 = 1;
    while (count as usize) < most {
        let place = count as usize;
        let Some(Tick::Silent) = surely_heard(own, next, tick_at(line, place), place) else {
            return count;
        };
        count += 1;
    }
    count
}

// Adds the bytes of the ticks behind the first one that are surely heard as bytes, up to `most` with
// the first one.
fn heard_bytes(own: Tick, next: TickRun<'_>, line: &[Tick], most: usize, heard: &mut RunBytes)
    requires one { length heard.old.items ≡ 1 }
    requires some { 0 < most }
    requires few { most ≤ 64 }
    requires first { (left : ℕ) → most ≤ left → SurelyHears (own ∷ run_ticks next)
        (filled_recording left line.now) (map Byte heard.old.items) }
    ensures some { 0 < length heard.new.items }
    ensures within { length heard.new.items ≤ most }
    ensures heard { (left : ℕ) → most ≤ left → SurelyHears (own ∷ run_ticks next.entry)
        (filled_recording left line.now) (map Byte heard.new.items) }
{
    let mut count = 1;
    while count < most {
        let Some(Tick::Byte(byte)) = surely_heard(own, next, tick_at(line, count), count) else {
            return;
        };
        heard.push(byte);
        count += 1;
    }
}

/// Returns how many ticks a port surely hears of this recording, if it drives the wires with `own`
/// and then with `next`, and nobody knows with what then: as many as are all silence or all bytes,
/// at least one, 256 at most. Puts their bytes into `heard`, or none for silence. The recording is
/// filled with silence to `left` ticks, at least one.
pub(crate) fn heard_run(
    own: Tick,
    next: TickRun<'_>,
    line: &[Tick],
    left: usize,
    heard: &mut RunBytes,
) -> u32
    requires { 0 < left }
    ensures some { 0 < length (answered result heard.new.items) }
    ensures few { length (answered result heard.new.items) ≤ 256 }
    ensures within { length (answered result heard.new.items) ≤ left }
    ensures heard { SurelyHears (own ∷ run_ticks next.entry) (filled_recording left line.now)
        (answered result heard.new.items) }
{
    heard.clear();
    match hear(own, tick_at(line, 0)) {
        Tick::Silent => heard_silence(own, next, line, left.min(MOST_SILENCE)),
        Tick::Byte(byte) => {
            heard.push(byte);
            heard_bytes(own, next, line, left.min(MOST_BYTES), heard);
            heard.len() as u32
        }
    }
}
