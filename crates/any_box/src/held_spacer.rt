//! A spacer that counts its ticks, for a caller that can't.
ghost use Rattle.std.specs.Prelude.{◌≡◌, ◌≤◌};
ghost use Rattle.yasir_ticks.specs.declared.TheConstants.{MAX_TICKS};

use crate::any_box::AnySpacer;
use crate::defined::DefinedSpacer;
use crate::kind::SpacerKind;
use line_spacer::SpaceStep;
use std::alloc::Global;
use yasir_io::NoMemory;
use yasir_ticks::{MAX_TICKS, Tick};

/// A spacer of a live line, and how many ticks it has taken.
#[derive(Drop)]
pub struct HeldSpacer {
    spacer: AnySpacer,
    ticks: u64,
    ghost counted: { ⟦<AnySpacer as DefinedSpacer>⟧.taken spacer ≡ ticks },
    ghost within: { ticks ≤ MAX_TICKS },
}

impl HeldSpacer {
    ghost use Rattle.std.specs.Prelude.{IfOk};
    ghost use Rattle.any_box.specs.HeldSpacers.{BeginsSpacer, StepsOrFull};

    /// A spacer that has taken no tick, with room for `room` frames to wait. It takes its memory
    /// here, and none later.
    pub fn new(alloc: Global, kind: SpacerKind, room: usize) -> Result<HeldSpacer, NoMemory>
        ensures { IfOk result (BeginsSpacer ⟦<AnySpacer as DefinedSpacer>⟧
            kind room) }
    {
        let spacer = AnySpacer::new(alloc, kind, room)?;
        Ok(HeldSpacer { spacer, ticks: 0 })
    }

    /// Takes the next tick of the line, and returns the tick of the other line at the same place,
    /// and the frame that is lost in this step, if one is.
    ///
    /// Returns `None` if the spacer has taken `MAX_TICKS` ticks. It is then as it was.
    pub fn step(&mut self, t: Tick) -> Option<SpaceStep>
        ensures { StepsOrFull ⟦<AnySpacer as DefinedSpacer>⟧ self.old self.new t
            result }
    {
        if self.ticks >= MAX_TICKS {
            return None;
        }
        let step = self.spacer.step(t);
        self.ticks += 1;
        Some(step)
    }
}
