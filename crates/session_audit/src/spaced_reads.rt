//! A spacer behind a receiver, and what a device behind the spacer reads.
ghost use Rattle.std.specs.Prelude.{◌<◌, max};
ghost use Rattle.line_spacer.specs.Stands.{ticks_spaced};
ghost use Rattle.session_audit.specs.SpacedReads.{SpacesReads, spaced_reads};

use device_model::Device;
use line_spacer::Spacer;
use session_lists::{FrameList, Guard, NoMemory, hear_into};
use std::alloc::Global;
use yasir_ticks::Tick;

/// How many frames may wait.
const MOST_WAITING: usize = 64;

/// A spacer that hears a line as the device `V` does, with at least `GAP` silent ticks between
/// frames and room for 64 frames to wait, as the command `space` runs it. Another device `V` hears
/// what the spacer sends.
#[derive(Drop)]
pub struct SpacedReads<V, const GAP: usize> {
    spacer: Spacer<V, GAP>,
    device: V,
    frames: FrameList<u64>,
}

impl<V: Device + Drop, const GAP: usize> Guard for SpacedReads<V, GAP> {
    ghost reads = { spaced_reads V.reads GAP };

    ghost stands = { SpacesReads V.Device };

    ghost taken = { λ value. max (V.taken value.device) (ticks_spaced V.Device value.spacer) };

    ghost gap_fits = { 0 < GAP };

    fn new(alloc: Global) -> Result<Self, NoMemory> {
        match Spacer::new(alloc, MOST_WAITING) {
            Ok(spacer) => Ok(SpacedReads {
                spacer,
                device: V::fresh(),
                frames: FrameList::new(alloc),
            }),
            Err(NoMemory) => Err(NoMemory),
        }
    }

    fn hear(&mut self, tick: Tick) -> Result<(), NoMemory> {
        let step = self.spacer.step(tick);
        hear_into(&mut self.device, &mut self.frames, step.tick)
    }

    fn frames(&self) -> &FrameList<u64> {
        &self.frames
    }
}
