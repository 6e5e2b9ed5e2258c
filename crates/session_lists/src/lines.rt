//! Gives ticks one by one to a box and keeps its frames, or lets a device hear them and compares
//! what it reads with what is expected.
ghost use Rattle.std.specs.Prelude.{◌≡◌, ◌+◌, ◌<◌, ◌≤◌, ◌++◌, [], ◌∷◌, List, length, take, OnOk};
ghost use Rattle.yasir_ticks.specs.Ticks.{silent};
ghost use Rattle.yasir_ticks.specs.declared.TheConstants.{MAX_TICKS};
ghost use Rattle.device_model.specs.Frames.{FrameRead, frames_lent};
ghost use Rattle.session_lists.specs.Comparison.{Found};
ghost use Rattle.session_lists.specs.Expected.{Expects, AreWhole};
ghost use Rattle.session_lists.specs.Lines.{IsOpenBox, TakesOn, HearsOn};

use crate::comparison::Comparison;
use crate::expected::{Expected, Read};
use crate::frame_box::FrameBox;
use crate::guard::Guard;
use crate::kept::{Kept, take_tick};
use device_model::Device;
use yasir_io::NoMemory;
use yasir_ticks::Tick;

// Gives these ticks to a box, and keeps its frames.
pub(crate) fn take_line<B: FrameBox, G: Guard>(
    line_box: &mut B,
    kept: &mut Kept<G>,
    line: &[Tick],
) -> Result<(), NoMemory>
    requires room { B.taken line_box.old + length line.now ≤ MAX_TICKS }
    requires able { IsOpenBox B.FrameBox G.Guard line_box.old kept.old }
    ensures able { OnOk result (IsOpenBox B.FrameBox G.Guard line_box.new kept.new) }
    ensures takes { OnOk result (TakesOn B.FrameBox G.Guard line_box.old line_box.new kept.old
        kept.new line.now) }
{
    for index in 0..line.len() {
        if let Err(NoMemory) = take_tick(line_box, kept, line[index]) {
            return Err(NoMemory);
        }
    }
    Ok(())
}

// Gives `ticks` silent ticks to a box, and keeps its frames.
pub(crate) fn take_silence<B: FrameBox, G: Guard>(
    line_box: &mut B,
    kept: &mut Kept<G>,
    ticks: u32,
) -> Result<(), NoMemory>
    requires room { B.taken line_box.old + ticks ≤ MAX_TICKS }
    requires able { IsOpenBox B.FrameBox G.Guard line_box.old kept.old }
    ensures able { OnOk result (IsOpenBox B.FrameBox G.Guard line_box.new kept.new) }
    ensures takes { OnOk result (TakesOn B.FrameBox G.Guard line_box.old line_box.new kept.old
        kept.new (silent ticks)) }
{
    for _ in 0..ticks {
        if let Err(NoMemory) = take_tick(line_box, kept, Tick::Silent) {
            return Err(NoMemory);
        }
    }
    Ok(())
}

// Compares the frame that a device lends, if it has read one.
#[inline]
pub(crate) fn take_lent<V: Device>(
    device: &V,
    start: Option<u64>,
    read: &mut Comparison,
    expected: Expected<'_>,
)
    requires room { read.old.read < MAX_TICKS }
    requires whole { AreWhole expected }
    ensures few { read.new.read ≤ read.old.read + 1 }
    ensures found { (frames reads : List FrameRead) → Expects expected.entry frames
        → Found expected.entry.late read.old frames reads
        → Found expected.entry.late read.new frames
        (reads ++ frames_lent start (V.lent device.now)) }
{
    match start {
        None => {}
        Some(start) => {
            let bytes = device.frame_bytes();
            read.take(expected, Read { start, bytes });
        }
    }
}

// Lets a device hear one tick, and compares the frame that it reads in it, if there is one.
#[inline]
fn hear_tick<V: Device>(device: &mut V, read: &mut Comparison, expected: Expected<'_>, tick: Tick)
    requires room { V.taken device.old < MAX_TICKS }
    requires few { read.old.read ≤ V.taken device.old }
    requires whole { AreWhole expected }
    ensures { HearsOn V.Device expected.entry device.old device.new read.old
        read.new (tick ∷ []) }
{
    let start = device.step(tick);
    take_lent(device, start, read, expected);
}

/// Lets a device hear these ticks, and compares the frames that it reads.
pub(crate) fn hear_line<V: Device>(
    device: &mut V,
    read: &mut Comparison,
    expected: Expected<'_>,
    line: &[Tick],
)
    requires room { V.taken device.old + length line.now ≤ MAX_TICKS }
    requires few { read.old.read ≤ V.taken device.old }
    requires whole { AreWhole expected }
    ensures { HearsOn V.Device expected.entry device.old device.new read.old
        read.new line.now }
{
    for index in 0..line.len() {
        hear_tick(device, read, expected, line[index]);
    }
}

/// Lets a device hear `ticks` silent ticks, and compares the frames that it reads.
pub(crate) fn hear_rest<V: Device>(
    device: &mut V,
    read: &mut Comparison,
    expected: Expected<'_>,
    ticks: u32,
)
    requires room { V.taken device.old + ticks ≤ MAX_TICKS }
    requires few { read.old.read ≤ V.taken device.old }
    requires whole { AreWhole expected }
    ensures { HearsOn V.Device expected.entry device.old device.new read.old
        read.new (silent ticks) }
{
    for _ in 0..ticks {
        hear_tick(device, read, expected, Tick::Silent);
    }
}
