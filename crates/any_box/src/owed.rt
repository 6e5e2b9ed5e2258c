//! What the caller of a box must write to its own disk.
ghost use Rattle.std.specs.Prelude.{◌≡◌, Some};
ghost use Rattle.yasir_io.specs.Steady.{steady_slots};
ghost use Rattle.sequence_journal.specs.Journal.{Fits};
ghost use Rattle.sequence_journal.specs.declared.journal.Journal.{Journal};

use sequence_journal::Journal;
use yasir_io::{Slot, SlotBytes, SteadySlots};

/// What must be written and synced before the tick of the same step leaves: these bytes, into this
/// slot.
#[derive(Clone, Copy, Debug, PartialEq, Eq)]
pub struct Commit {
    /// The slot that must be written.
    pub slot: Slot,
    /// All bytes of that slot, as they must be written.
    pub bytes: SlotBytes,
}

impl Commit {
    ghost use Rattle.any_box.specs.Commits.{CommitsOneOrNone, OwesDisk};

    /// Returns what a step has committed to these slots, which were `a` and `b` before it, or
    /// `None` if it has committed nothing.
    pub(crate) fn between(a: &SlotBytes, b: &SlotBytes, disk: &SteadySlots) -> Option<Commit>
        ensures { (old new : Journal) (disk_old : SteadySlots)
            → a.now ≡ disk_old.a → b.now ≡ disk_old.b
            → Fits old (Some (steady_slots disk_old)) → Fits new (Some (steady_slots disk.now))
            → CommitsOneOrNone old new disk_old disk.now → OwesDisk old new disk_old disk.now result }
    {
        let new_a = disk.slot(Slot::A);
        if new_a != *a {
            return Some(Commit {
                slot: Slot::A,
                bytes: new_a,
            });
        }
        let new_b = disk.slot(Slot::B);
        if new_b != *b {
            return Some(Commit {
                slot: Slot::B,
                bytes: new_b,
            });
        }
        None
    }
}
