//! Gives a box or a device the first ticks of a run: as many as it takes at once, and at least one.
ghost use Rattle.std.specs.Prelude.{◌+◌, ◌<◌, ◌≤◌, [], ◌∷◌, length, take, IfOk, OnOk};
ghost use Rattle.yasir_ticks.specs.TickRun.{run_ticks};
ghost use Rattle.yasir_ticks.specs.declared.TheConstants.{MAX_TICKS};
ghost use Rattle.session_lists.specs.Expected.{AreWhole};
ghost use Rattle.session_lists.specs.Lines.{IsOpenBox, TakesOn, HearsOn};

use crate::comparison::Comparison;
use crate::expected::Expected;
use crate::frame_box::FrameBox;
use crate::guard::Guard;
use crate::kept::{Kept, take_some, take_tick};
use crate::lines::take_lent;
use device_model::{Device, hear_run};
use yasir_io::NoMemory;
use yasir_ticks::TickRun;

/// Gives a box the first ticks of this run: as many as it takes at once or, if it takes none at
/// once, a single one, whose frame is kept. Returns how many it took.
#[inline(always)]
pub(crate) fn take_front<B: FrameBox, G: Guard>(
    line_box: &mut B,
    kept: &mut Kept<G>,
    run: TickRun<'_>,
) -> Result<usize, NoMemory>
    requires some { 0 < length (run_ticks run) }
    requires room { B.taken line_box.old + length (run_ticks run) ≤ MAX_TICKS }
    requires able { IsOpenBox B.FrameBox G.Guard line_box.old kept.old }
    ensures some { IfOk result (λ n. 0 < n) }
    ensures within { IfOk result (λ n. n ≤ length (run_ticks run.entry)) }
    ensures able { OnOk result (IsOpenBox B.FrameBox G.Guard line_box.new kept.new) }
    ensures takes { IfOk result (λ n. TakesOn B.FrameBox G.Guard line_box.old line_box.new
        kept.old kept.new (take n (run_ticks run.entry))) }
{
    let count = take_some(line_box, kept, run);
    if count > 0 {
        return Ok(count);
    }
    match take_tick(line_box, kept, run.first()) {
        Ok(()) => Ok(1),
        Err(NoMemory) => Err(NoMemory),
    }
}

/// Lets a device hear the first ticks of this run, up to and including the first one in which it
/// reads a frame, and compares that frame. Returns how many ticks it heard.
#[inline(always)]
pub(crate) fn hear_front<V: Device>(
    device: &mut V,
    read: &mut Comparison,
    expected: Expected<'_>,
    run: TickRun<'_>,
) -> usize
    requires some { 0 < length (run_ticks run) }
    requires room { V.taken device.old + length (run_ticks run) ≤ MAX_TICKS }
    requires few { read.old.read ≤ V.taken device.old }
    requires whole { AreWhole expected }
    ensures some { 0 < result }
    ensures within { result ≤ length (run_ticks run.entry) }
    ensures hears { HearsOn V.Device expected.entry device.old device.new read.old
        read.new (take result (run_ticks run.entry)) }
{
    let met = hear_run(device, run);
    take_lent(device, met.start, read, expected);
    met.taken
}
