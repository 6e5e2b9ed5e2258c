//! Runs of ticks on their way to the text of the other line.
ghost use Rattle.std.specs.Prelude.{◌≡◌};
ghost use Rattle.yasir_ticks.specs.TickRun.{run_ticks};
ghost use Rattle.frame_ending.specs.Answered.{answered};
ghost use Rattle.line_texts.specs.Adding.{IsShort, IsShortFront};

use yasir_ticks::TickRun;

/// The most bytes of a short run.
const MOST_BYTES: usize = 300;

/// The most silent ticks of a short run.
const MOST_SILENCE: u32 = 999_999;

/// Returns what a run of `count` ticks puts on the other line: the bytes `sent`, or `count` silent
/// ticks if there are none.
#[inline]
pub fn answer_run(count: u32, sent: &[u8]) -> TickRun<'_>
    ensures { run_ticks result ≡ answered count sent.now }
{
    match sent {
        [] => TickRun::Silence(count),
        [_, ..] => TickRun::Bytes(sent),
    }
}

/// Returns as many of the first ticks of a run as make a short run: 300 bytes, or 999,999 silent
/// ticks.
#[inline(always)]
pub fn short_front(run: TickRun<'_>) -> TickRun<'_>
    ensures { IsShortFront (run_ticks run.entry) (run_ticks result) }
{
    match run {
        TickRun::Bytes(bytes) => TickRun::Bytes(&bytes[..bytes.len().min(MOST_BYTES)]),
        TickRun::Silence(ticks) => TickRun::Silence(ticks.min(MOST_SILENCE)),
    }
}
