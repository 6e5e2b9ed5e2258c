//! The ticks of a line as times of a capture.

ghost use Rattle.std.specs.Prelude.{◌≡◌, ◌^◌, ◌<◌, ◌≤◌};
ghost use Rattle.line_stamps.specs.Giving.{tick_start};

use crate::rate::Rate;
use crate::rounding::nearest;

/// Returns the start of a tick, in nanoseconds since tick 0, for a capture that counts time in
/// units of `unit` nanoseconds: the nearest whole number of units, with a half rounded up.
#[inline]
pub fn tick_start(rate: Rate, unit: u64, tick: u64) -> u64
    /// A unit is at least a nanosecond.
    requires some { 0 < unit }
    /// A unit is at most a second.
    requires short { unit ≤ 1000000000 }
    /// The tick is at most 2^28.
    requires early { tick ≤ 2 ^ 28 }
    ensures { result ≡ tick_start rate unit tick }
{
    unit * nearest(tick * rate.character(), u64::from(rate.baud) * unit)
}
