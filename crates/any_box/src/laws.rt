//! The law about what a caller writes for a box.
ghost use Rattle.std.specs.Prelude.{◌≡◌, List, ℕ, Some};
ghost use Rattle.yasir_ticks.specs.declared.tick.Tick.{Tick};
ghost use Rattle.yasir_io.specs.Disks.{with_slot};
ghost use Rattle.sequence_journal.specs.Journal.{HasFloorAtLeast};
ghost use Rattle.sequence_journal.specs.Slots.{floor_of};
ghost use Rattle.any_box.specs.Held.{slots_held, link_of_held, floor_held, StepsHeld};
ghost use Rattle.any_box.specs.declared.held_box.HeldBox.{HeldBox};
ghost use Rattle.any_box.specs.declared.held_box.HeldStep.{HeldStep};
ghost use Rattle.any_box.specs.declared.owed.Commit.{Commit};

use crate::any_box::AnyBox;
use crate::defined::DefinedBox;

/// A law of a caller that has the slots of a box on its disk, and writes what a step says.
pub fn writes_keep_the_floor()
    /// Once the write is done, the slots are again those of the box, and their floor is the last
    /// number that it used.
    ensures written { (old new : HeldBox) (t : Tick) (step : HeldStep) (commit : Commit)
        → StepsHeld ⟦<AnyBox as DefinedBox>⟧ old new t step
        → step.commit ≡ Some commit
        → (with_slot (slots_held old) commit.slot commit.bytes ≡ slots_held new)
        × (floor_of (link_of_held old) (slots_held new) ≡ Some (floor_held new)) }
    /// Whatever a crash leaves in the slot that is written, the floor isn't below the last number
    /// before the step.
    ensures torn { (old new : HeldBox) (t : Tick) (step : HeldStep) (commit : Commit)
        (bytes : List ℕ)
        → StepsHeld ⟦<AnyBox as DefinedBox>⟧ old new t step
        → step.commit ≡ Some commit
        → HasFloorAtLeast (link_of_held old) (floor_held old)
        (with_slot (slots_held old) commit.slot bytes) }
{}
