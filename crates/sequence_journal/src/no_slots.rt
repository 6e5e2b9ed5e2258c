//! A disk that keeps nothing and never fails, for a journal whose numbers go on in memory.
use yasir_io::{Failed, OLD_SLOT_LEN, OldSlotBytes, SLOT_LEN, Slot, SlotBytes, SlotDisk};

/// A disk that keeps nothing, tells nothing and never fails.
#[derive(Drop)]
pub struct NoSlots;

impl SlotDisk for NoSlots {
    ghost use Rattle.std.specs.Prelude.{None};

    ghost told = { λ _. None };

    ghost may_leave = { λ _ _. ⊥ };

    ghost moment = { λ _. 0 };

    ghost left_since = { λ _ _ _. ⊥ };

    ghost faults = { λ _. 0 };

    ghost reads_an_image = { λ disk s c told image. absurd image };

    ghost counts_now = { λ disk t c le image. image };

    ghost only_now = { λ disk c image. image };

    fn read_old(&mut self, _slot: Slot) -> Result<OldSlotBytes, Failed> {
        Ok([0; OLD_SLOT_LEN])
    }

    fn read_slot(&mut self, _slot: Slot) -> Result<SlotBytes, Failed> {
        Ok([0; SLOT_LEN])
    }

    fn write_slot(&mut self, _slot: Slot, _bytes: &SlotBytes) -> Result<(), Failed> {
        Ok(())
    }

    fn sync(&mut self) -> Result<(), Failed> {
        Ok(())
    }
}
