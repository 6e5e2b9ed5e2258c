//! Times as whole numbers of ticks.

ghost use Rattle.std.specs.Prelude.{◌≡◌, ◌^◌, ◌<◌};
ghost use Rattle.line_stamps.specs.Parts.{rounded, ticks_apart};

/// Returns a time in units: the nearest whole number, with a half rounded up.
#[inline]
pub fn nearest(time: u64, unit: u64) -> u64
    /// The unit isn't 0.
    requires some { 0 < unit }
    /// The unit is below 2^62.
    requires small { unit < 2 ^ 62 }
    /// The time is below 2^62.
    requires near { time < 2 ^ 62 }
    ensures { result ≡ rounded time unit }
{
    (2 * time + unit) / (2 * unit)
}

/// Returns how many ticks there are from the start of a byte to that of the next one, where `gap`
/// is the time between the two starts and `character` the length of a character, both in one unit:
/// the nearest whole number, and at least 1. A half is rounded up, but a silence of 1.5 characters
/// down. So there is at most one silent tick exactly if the silence is at most 1.5 characters, and
/// there are four or more exactly if it is at least 3.5.
#[inline]
pub fn ticks_between(gap: u64, character: u64) -> u64
    /// The length of a character isn't 0.
    requires some { 0 < character }
    /// The length of a character is below 2^60.
    requires small { character < 2 ^ 60 }
    /// The gap is below 2^62.
    requires near { gap < 2 ^ 62 }
    /// It is the number of ticks by the definition.
    ensures ticks { result ≡ ticks_apart gap character }
    /// It is at least 1.
    ensures some { 0 < result }
{
    // bytes that follow each other in a burst need no division
    if 2 * gap < 3 * character {
        return 1;
    }
    if 2 * gap == 5 * character {
        return 2;
    }
    nearest(gap, character)
}
