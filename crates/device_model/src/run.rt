//! A device over a run of ticks, up to the first frame that it reads.
ghost use Rattle.std.specs.Prelude.{◌≡◌, ℕ, ◌+◌, ◌<◌, ◌≤◌, List, ◌++◌, length, take, None};
ghost use Rattle.yasir_ticks.specs.TickRun.{run_ticks};
ghost use Rattle.yasir_ticks.specs.declared.tick.Tick.{Tick};
ghost use Rattle.yasir_ticks.specs.declared.TheConstants.{MAX_TICKS};
ghost use Rattle.device_model.specs.Frames.{frames_lent};

use crate::{Device, Met};
use yasir_ticks::TickRun;

/// Lets a device take the ticks of this run, up to the first one in which it reads a frame.
#[inline(always)]
pub fn hear_run<V: Device>(device: &mut V, run: TickRun<'_>) -> Met
    /// The device has then taken at most 2^62 ticks.
    requires { V.taken device.old + length (run_ticks run) ≤ MAX_TICKS }
    /// If there are ticks, at least one is taken.
    ensures some { 0 < length (run_ticks run.entry) → 0 < result.taken }
    /// No more ticks are taken than there are.
    ensures within { result.taken ≤ length (run_ticks run.entry) }
    /// If no frame is read, all ticks are taken.
    ensures whole { result.start ≡ None → result.taken ≡ length (run_ticks run.entry) }
    /// The ticks that are taken are counted.
    ensures taken { V.taken device.new ≡ V.taken device.old + result.taken }
    /// The device has heard these ticks after its line.
    ensures stands { (line : List Tick) → V.stands device.old line
        → V.stands device.new (line ++ take result.taken (run_ticks run.entry)) }
    /// The frame that is returned, if one is, is exactly what these ticks add to what is read.
    ensures answer { (line : List Tick) → V.stands device.old line
        → V.reads (line ++ take result.taken (run_ticks run.entry))
        ≡ V.reads line ++ frames_lent result.start (V.lent device.new) }
    /// Before the last of these ticks nothing more is read.
    ensures before { (n : ℕ) → n < result.taken → (line : List Tick) → V.stands device.old line
        → V.reads (line ++ take n (run_ticks run.entry)) ≡ V.reads line }
{
    match run {
        TickRun::Bytes(bytes) => device.hear(bytes),
        TickRun::Silence(ticks) => device.wait(ticks as usize),
    }
}
