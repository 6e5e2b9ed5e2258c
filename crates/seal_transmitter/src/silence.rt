//! Silence for the value that cuts a line, as long as it closes no burst.
ghost use Rattle.std.specs.Prelude.{◌≡◌, ◌+◌, ◌≤◌, ◌++◌, List, All, length, map};
ghost use Rattle.yasir_ticks.specs.Ticks.{silent};
ghost use Rattle.yasir_ticks.specs.declared.tick.Tick.{Tick};
ghost use Rattle.yasir_ticks.specs.declared.tick.Tick.TheVariants.{Byte};
ghost use Rattle.frame_ending.specs.Cuts.{cuts_after, IsPassing};
ghost use Rattle.frame_ending.specs.Stands.{CutStandsFor, ticks_taken};

use frame_ending::BurstCut;
use line_rules::LineRules;
use yasir_ticks::{MAX_TICKS, T3_5_TICKS};

/// Takes up to `ticks` silent ticks, as long as none closes a burst. Returns how many it has taken.
#[inline]
pub(crate) fn wait_open<R: LineRules>(cut: &mut BurstCut<R>, ticks: u32) -> u32
    requires { ticks_taken cut.old + ticks ≤ MAX_TICKS }
    ensures within { result ≤ ticks }
    ensures taken { ticks_taken cut.new ≡ ticks_taken cut.old + result }
    ensures stands { (line : List Tick) → CutStandsFor R.LineRules cut.old line
        → CutStandsFor R.LineRules cut.new (line ++ silent result) }
    ensures open { (line : List Tick) → CutStandsFor R.LineRules cut.old line
        → All IsPassing (cuts_after R.rules line (silent result)) }
{
    let quiet = cut.quiet();
    if quiet >= T3_5_TICKS {
        cut.wait_some(ticks);
        return ticks;
    }
    let count = ticks.min(u32::from(T3_5_TICKS - 1 - quiet));
    cut.wait_some(count);
    count
}
