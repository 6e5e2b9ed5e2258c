//! A disk in memory that fails at chosen calls, and tells what a crash may have left.
ghost use Rattle.std.specs.Prelude.{◌≡◌, ◌≤◌, length, vec_len, vec_capacity};
ghost use Rattle.yasir_io.specs.declared.disk.TheConstants.{SLOT_LEN};

use crate::calls::{Calls, NoMemory, Plan};
use crate::{Failed, OldSlotBytes, Reason, Slot, SlotBytes, SlotDisk, TellsReason};
use std::alloc::Global;

/// All slots at a moment, and which of them were written since the last sync.
#[derive(Clone, Copy)]
pub(crate) struct Moment {
    old_a: OldSlotBytes,
    old_b: OldSlotBytes,
    a: SlotBytes,
    b: SlotBytes,
    a_written: bool,
    b_written: bool,
    ghost a_size: { length a ≡ SLOT_LEN },
    ghost b_size: { length b ≡ SLOT_LEN },
}

/// A disk in memory, which fails at chosen calls. It keeps a record of its calls, and so tells what
/// a crash at any moment during them might have left.
#[derive(Drop)]
pub struct MemSlots {
    present: Moment,
    past: Vec<Moment>,
    room: usize,
    calls: Calls,
    ghost recorded: { vec_len past ≤ room },
    ghost reserved: { room ≤ vec_capacity past },
}

impl Moment {
    ghost use Rattle.std.specs.Prelude.{◌≡◌, true, false};
    ghost use Rattle.yasir_io.specs.declared.disk.Slot.{Slot};
    ghost use Rattle.yasir_io.specs.Disks.{slot_in, old_slot_in, with_slot, other_slot};
    ghost use Rattle.yasir_io.specs.MemSlots.{slots_at, is_written};

    fn old_slot(&self, which: Slot) -> OldSlotBytes
        ensures { result ≡ old_slot_in (slots_at self.now) which }
    {
        match which {
            Slot::A => self.old_a,
            Slot::B => self.old_b,
        }
    }

    fn slot(&self, which: Slot) -> SlotBytes
        ensures { result ≡ slot_in (slots_at self.now) which }
    {
        match which {
            Slot::A => self.a,
            Slot::B => self.b,
        }
    }

    fn set(&mut self, which: Slot, bytes: SlotBytes)
        ensures slots { slots_at self.new ≡ with_slot (slots_at self.old) which bytes }
        ensures written { (slot : Slot) → is_written self.new slot ≡ is_written self.old slot }
    {
        match which {
            Slot::A => self.a = bytes,
            Slot::B => self.b = bytes,
        }
    }

    // From now on a crash may leave any bytes in the slot.
    fn mark(&mut self, which: Slot)
        ensures slots { slots_at self.new ≡ slots_at self.old }
        ensures marked { is_written self.new which ≡ true }
        ensures other { is_written self.new (other_slot which)
            ≡ is_written self.old (other_slot which) }
    {
        match which {
            Slot::A => self.a_written = true,
            Slot::B => self.b_written = true,
        }
    }

    fn settle(&mut self)
        ensures slots { slots_at self.new ≡ slots_at self.old }
        ensures settled { (slot : Slot) → is_written self.new slot ≡ false }
    {
        self.a_written = false;
        self.b_written = false;
    }
}

impl MemSlots {
    ghost use Rattle.std.specs.Prelude.{◌≡◌, ◌+◌, ◌-◌, ◌^◌, ◌<◌, ◌≤◌, ◌↔◌, [], ◌∷◌, ◌++◌, min};
    ghost use Rattle.std.specs.Prelude.{Some, IfOk, OnOk, IsErr, IsTrue, if◌then◌else◌};
    ghost use Rattle.yasir_io.specs.Causes.{HasCause};
    ghost use Rattle.yasir_io.specs.Disks.{slot_in, old_slot_in, OneImage};
    ghost use Rattle.yasir_io.specs.MemSlots.{mem_slots, slots_plan, slots_calls, slots_room};
    ghost use Rattle.yasir_io.specs.MemSlots.{slots_recorded, mem_faults, MayAdd, MayLeave, SlotsFail};

    /// Returns a disk with these slots, all synced. It has room to record `calls` calls, which is
    /// allocated at once. The calls in `fail`, counted from 1, fail, and so does each call after
    /// the first `calls`.
    pub fn with_room(
        alloc: Global,
        old_a: OldSlotBytes,
        old_b: OldSlotBytes,
        a: SlotBytes,
        b: SlotBytes,
        calls: usize,
        fail: Plan,
    ) -> Result<MemSlots, NoMemory>
        /// It has these slots.
        ensures slots { IfOk result (λ disk. mem_slots disk ≡ record {
          a = a;
          b = b;
          old = record { a = old_a; b = old_b };
        }) }
        /// It has room to record this many calls.
        ensures room { IfOk result (λ disk. slots_room disk ≡ calls) }
        /// It has recorded 0 calls.
        ensures recorded { IfOk result (λ disk. slots_recorded disk ≡ 0) }
        /// These calls are planned to fail.
        ensures plan { IfOk result (λ disk. slots_plan disk ≡ fail.items) }
        /// It has counted 0 calls.
        ensures calls { IfOk result (λ disk. slots_calls disk ≡ 0) }
        /// No call has failed.
        ensures faults { IfOk result (λ disk. mem_faults disk ≡ 0) }
        /// A crash leaves nothing else than these slots.
        ensures synced { IfOk result (λ disk. OneImage (Some (mem_slots disk)) (MayLeave disk)) }
    {
        let Ok(past) = Vec::with_capacity(alloc, calls) else {
            return Err(NoMemory);
        };
        Ok(MemSlots {
            present: Moment {
                old_a,
                old_b,
                a,
                b,
                a_written: false,
                b_written: false,
            },
            past,
            room: calls,
            calls: Calls::new(fail),
        })
    }

    /// Returns the slot as a read gives it. This doesn't count as a call.
    pub fn slot(&self, which: Slot) -> SlotBytes
        ensures { result ≡ slot_in (mem_slots self.now) which }
    {
        self.present.slot(which)
    }

    /// Returns the old slot as a read gives it. This doesn't count as a call.
    pub fn old_slot(&self, which: Slot) -> OldSlotBytes
        ensures { result ≡ old_slot_in (mem_slots self.now) which }
    {
        self.present.old_slot(which)
    }

    // Records a call and counts it. The call fails if that is planned, or if there is no room for
    // its record.
    fn begin(&mut self) -> Result<(), Failed>
        ensures present { self.new.present ≡ self.old.present }
        ensures recorded { OnOk result (self.new.past.items
            ≡ self.old.past.items ++ self.old.present ∷ []) }
        ensures may_add { MayAdd self.old.past.items self.old.present self.new.past.items }
        ensures count { slots_recorded self.new
            ≡ min (slots_recorded self.old + 1) (slots_room self.old) }
        ensures fails { IsErr result ↔ SlotsFail self.old }
        ensures calls { slots_calls self.new ≡ min (slots_calls self.old + 1) (2 ^ 64 - 1) }
        ensures plan { slots_plan self.new ≡ slots_plan self.old }
        ensures room { slots_room self.new ≡ slots_room self.old }
        ensures cause { HasCause self.old.calls.faults.count self.new.calls.faults.count result }
    {
        let recorded = self.record();
        self.calls.begin()?;
        if !recorded {
            return Err(self.calls.faults.add());
        }
        Ok(())
    }

    // Records the present moment if there is room for it, and returns whether there was.
    fn record(&mut self) -> bool
        ensures present { self.new.present ≡ self.old.present }
        ensures calls { self.new.calls ≡ self.old.calls }
        ensures room { self.new.room ≡ self.old.room }
        ensures full { IsTrue result ↔ (slots_recorded self.old < slots_room self.old) }
        ensures count { slots_recorded self.new
            ≡ min (slots_recorded self.old + 1) (slots_room self.old) }
        ensures past { self.new.past.items
            ≡ (if result then self.old.past.items ++ self.old.present ∷ []
            else self.old.past.items) }
    {
        if self.past.len() >= self.room {
            return false;
        }
        self.past.push(self.present).unwrap();
        true
    }
}

impl TellsReason for MemSlots {
    ghost use Rattle.std.specs.Prelude.{None};

    ghost told_reason = { λ _. None };

    fn reason(&self) -> Option<Reason> {
        None
    }
}

impl SlotDisk for MemSlots {
    ghost use Rattle.std.specs.Prelude.{◌≡◌, ◌+◌, ◌-◌, ◌^◌, ◌≤◌, ◌↔◌, min, length, Some};
    ghost use Rattle.std.specs.Prelude.{option_map, IsErr, IfOk, IfSome, OnOk, OnErr};
    ghost use Rattle.std.proofs.Common.{inl};
    ghost use Rattle.yasir_io.specs.Causes.{HasCause};
    ghost use Rattle.yasir_io.specs.Disks.{slot_in, old_slot_in, with_slot, Torn, Follows, Reaches};
    ghost use Rattle.yasir_io.specs.Disks.{NoMore, OneImage, LeavesAsRead, Elapses};
    ghost use Rattle.yasir_io.specs.MemSlots.{mem_slots, MayLeave, LeftSince, slots_plan};
    ghost use Rattle.yasir_io.specs.MemSlots.{slots_calls, slots_room, slots_recorded, SlotsFail};
    ghost use Rattle.yasir_io.specs.MemSlotsLaws.{reads_an_image_law, only_now_law};

    ghost told = { λ disk. Some (mem_slots disk) };

    ghost may_leave = { λ disk image. MayLeave disk image };

    ghost moment = { λ disk. slots_recorded disk };

    ghost left_since = { λ disk t image. LeftSince disk t image };

    ghost faults = { λ disk. disk.calls.faults.count };

    ghost reads_an_image = { λ disk s c told image. reads_an_image_law disk s c told image };

    ghost counts_now = { λ disk t c le image. inl image };

    ghost only_now = { λ disk c left. only_now_law disk c left };

    fn read_old(&mut self, slot: Slot) -> Result<OldSlotBytes, Failed>
        ensures bytes { IfOk result (λ bytes. IfSome (Some (mem_slots self.old))
            (λ slots. bytes ≡ old_slot_in slots slot)) }
        ensures told { Some (mem_slots self.new) ≡ Some (mem_slots self.old) }
        ensures images { NoMore (MayLeave self.old) (MayLeave self.new) }
        ensures images_back { NoMore (MayLeave self.new) (MayLeave self.old) }
        ensures time { Elapses (slots_recorded self.old) (slots_recorded self.new)
            (LeftSince self.old) (LeftSince self.new) (MayLeave self.new) }
        ensures cause { HasCause self.old.calls.faults.count self.new.calls.faults.count result }

        ensures fails { IsErr result ↔ SlotsFail self.old }
        ensures calls { slots_calls self.new ≡ min (slots_calls self.old + 1) (2 ^ 64 - 1) }
        ensures plan { slots_plan self.new ≡ slots_plan self.old }
        ensures room { slots_room self.new ≡ slots_room self.old }
        ensures recorded { slots_recorded self.new
            ≡ min (slots_recorded self.old + 1) (slots_room self.old) }
    {
        self.begin()?;
        Ok(self.old_slot(slot))
    }

    fn read_slot(&mut self, slot: Slot) -> Result<SlotBytes, Failed>
        ensures bytes { IfOk result (λ bytes. IfSome (Some (mem_slots self.old))
            (λ slots. bytes ≡ slot_in slots slot)) }
        ensures told { Some (mem_slots self.new) ≡ Some (mem_slots self.old) }
        ensures images { NoMore (MayLeave self.old) (MayLeave self.new) }
        ensures images_back { NoMore (MayLeave self.new) (MayLeave self.old) }
        ensures time { Elapses (slots_recorded self.old) (slots_recorded self.new)
            (LeftSince self.old) (LeftSince self.new) (MayLeave self.new) }
        ensures cause { HasCause self.old.calls.faults.count self.new.calls.faults.count result }

        ensures fails { IsErr result ↔ SlotsFail self.old }
        ensures calls { slots_calls self.new ≡ min (slots_calls self.old + 1) (2 ^ 64 - 1) }
        ensures plan { slots_plan self.new ≡ slots_plan self.old }
        ensures room { slots_room self.new ≡ slots_room self.old }
        ensures recorded { slots_recorded self.new
            ≡ min (slots_recorded self.old + 1) (slots_room self.old) }
    {
        self.begin()?;
        Ok(self.slot(slot))
    }

    fn write_slot(&mut self, slot: Slot, bytes: &SlotBytes) -> Result<(), Failed>
        ensures written { OnOk result (Some (mem_slots self.new)
            ≡ option_map (λ slots. with_slot slots slot bytes.now) (Some (mem_slots self.old))) }
        ensures unwritten { OnErr result (Some (mem_slots self.new) ≡ Some (mem_slots self.old)) }
        ensures images { Follows (Torn slot) (MayLeave self.old) (MayLeave self.new) }
        ensures images_back { Reaches (Torn slot) (MayLeave self.old) (MayLeave self.new) }
        ensures time { Elapses (slots_recorded self.old) (slots_recorded self.new)
            (LeftSince self.old) (LeftSince self.new) (MayLeave self.new) }
        ensures cause { HasCause self.old.calls.faults.count self.new.calls.faults.count result }

        ensures fails { IsErr result ↔ SlotsFail self.old }
        ensures calls { slots_calls self.new ≡ min (slots_calls self.old + 1) (2 ^ 64 - 1) }
        ensures plan { slots_plan self.new ≡ slots_plan self.old }
        ensures room { slots_room self.new ≡ slots_room self.old }
        ensures recorded { slots_recorded self.new
            ≡ min (slots_recorded self.old + 1) (slots_room self.old) }
    {
        let begun = self.begin();
        self.present.mark(slot);
        begun?;
        self.present.set(slot, *bytes);
        Ok(())
    }

    fn sync(&mut self) -> Result<(), Failed>
        ensures durable { OnOk result (OneImage (Some (mem_slots self.new)) (MayLeave self.new)) }
        ensures as_read { OnOk result (LeavesAsRead (MayLeave self.old) (Some (mem_slots self.new))
            (MayLeave self.new)) }
        ensures told { Some (mem_slots self.new) ≡ Some (mem_slots self.old) }
        ensures images { NoMore (MayLeave self.old) (MayLeave self.new) }
        ensures images_back { OnErr result (NoMore (MayLeave self.new) (MayLeave self.old)) }
        ensures time { Elapses (slots_recorded self.old) (slots_recorded self.new)
            (LeftSince self.old) (LeftSince self.new) (MayLeave self.new) }
        ensures cause { HasCause self.old.calls.faults.count self.new.calls.faults.count result }

        ensures fails { IsErr result ↔ SlotsFail self.old }
        ensures calls { slots_calls self.new ≡ min (slots_calls self.old + 1) (2 ^ 64 - 1) }
        ensures plan { slots_plan self.new ≡ slots_plan self.old }
        ensures room { slots_room self.new ≡ slots_room self.old }
        ensures recorded { slots_recorded self.new
            ≡ min (slots_recorded self.old + 1) (slots_room self.old) }
    {
        self.begin()?;
        self.present.settle();
        Ok(())
    }
}
