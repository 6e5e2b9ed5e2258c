//! A source and a disk in memory that never fail.
ghost use Rattle.std.specs.Prelude.{◌≡◌, Some, None};
ghost use Rattle.yasir_io.specs.Disks.{slot_in};
ghost use Rattle.yasir_io.specs.Steady.{steady_bytes, steady_slots, blank_old};

use crate::{
    Failed, OLD_SLOT_LEN, OldSlotBytes, Reason, Slot, SlotBytes, SlotDisk, Source, TellsReason,
};

/// Bytes in memory as a source that never fails.
#[derive(Drop)]
pub struct SteadySource<'a> {
    bytes: &'a [u8],
}

impl<'a> SteadySource<'a> {
    /// Returns a source of these bytes.
    pub fn new(bytes: &'a [u8]) -> SteadySource<'a>
        ensures { steady_bytes result ≡ bytes.now }
    {
        SteadySource { bytes }
    }
}

impl<'a> TellsReason for SteadySource<'a> {
    ghost told_reason = { λ _. None };

    fn reason(&self) -> Option<Reason> {
        None
    }
}

impl<'a> Source for SteadySource<'a> {
    ghost left = { λ source. Some (steady_bytes source) };

    ghost faults = { λ _. 0 };

    fn read(&mut self, buf: &mut [u8]) -> Result<usize, Failed> {
        let n = self.bytes.len().min(buf.len());
        let (front, rest) = self.bytes.split_at(n);
        buf[..n].copy_from_slice(front);
        self.bytes = rest;
        Ok(n)
    }
}

/// Two slots in memory, and old ones of zeros. No call fails, and nothing is told of a crash.
#[derive(Drop)]
pub struct SteadySlots {
    a: SlotBytes,
    b: SlotBytes,
}

impl SteadySlots {
    /// Returns a disk with these slots.
    pub fn new(a: SlotBytes, b: SlotBytes) -> SteadySlots
        ensures { steady_slots result ≡ record { a = a; b = b; old = blank_old } }
    {
        SteadySlots { a, b }
    }

    /// Returns the slot as a read gives it. This doesn't count as a call.
    pub fn slot(&self, which: Slot) -> SlotBytes
        ensures { result ≡ slot_in (steady_slots self.now) which }
    {
        match which {
            Slot::A => self.a,
            Slot::B => self.b,
        }
    }
}

impl TellsReason for SteadySlots {
    ghost told_reason = { λ _. None };

    fn reason(&self) -> Option<Reason> {
        None
    }
}

impl SlotDisk for SteadySlots {
    ghost told = { λ disk. Some (steady_slots disk) };

    ghost may_leave = { λ _ _. ⊥ };

    ghost moment = { λ _. 0 };

    ghost left_since = { λ _ _ _. ⊥ };

    ghost faults = { λ _. 0 };

    ghost reads_an_image = { λ disk s c told image. absurd image };

    ghost counts_now = { λ disk t c le image. image };

    ghost only_now = { λ disk c image. image };

    fn read_old(&mut self, _slot: Slot) -> Result<OldSlotBytes, Failed> {
        Ok([0; OLD_SLOT_LEN])
    }

    fn read_slot(&mut self, slot: Slot) -> Result<SlotBytes, Failed> {
        Ok(self.slot(slot))
    }

    fn write_slot(&mut self, slot: Slot, bytes: &SlotBytes) -> Result<(), Failed> {
        match slot {
            Slot::A => self.a = *bytes,
            Slot::B => self.b = *bytes,
        }
        Ok(())
    }

    fn sync(&mut self) -> Result<(), Failed> {
        Ok(())
    }
}
