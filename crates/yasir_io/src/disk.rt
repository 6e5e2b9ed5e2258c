//! A disk of two slots: what a journal asks of it, and what a crash may leave.
ghost use Rattle.std.specs.Prelude.{◌≡◌, ℕ, ◌≤◌, Option, Some, option_map, OnOk, IfOk, OnErr};
ghost use Rattle.std.specs.Prelude.{IfSome};
ghost use Rattle.yasir_io.specs.Causes.{HasCause};

use crate::Failed;

/// How many bytes a slot has.
pub const SLOT_LEN: usize = 24;

/// How many bytes an old slot has, as on the first version of a disk.
pub const OLD_SLOT_LEN: usize = 16;

/// The bytes of a slot.
pub type SlotBytes = [u8; SLOT_LEN];

/// The bytes of an old slot.
pub type OldSlotBytes = [u8; OLD_SLOT_LEN];

/// The name of a slot.
#[derive(Clone, Copy, Debug, PartialEq, Eq)]
pub enum Slot {
    A,
    B,
}

impl Slot {
    ghost use Rattle.yasir_io.specs.Disks.{other_slot};

    /// Returns the other slot.
    pub fn other(self) -> Slot
        ensures { result ≡ other_slot self }
    {
        match self {
            Slot::A => Slot::B,
            Slot::B => Slot::A,
        }
    }
}

/// A disk of two slots and two old ones, which are only read.
pub trait SlotDisk {
    ghost use Rattle.yasir_io.specs.Disks.{Slots, slot_in, old_slot_in, with_slot, Torn};
    ghost use Rattle.yasir_io.specs.Disks.{Follows, Reaches, NoMore, OneImage};
    ghost use Rattle.yasir_io.specs.Disks.{LeavesAsRead, Elapses};

    /// The slots as a read gives them, if the disk tells them.
    ghost told: { Self → Option Slots };

    /// The images that a crash now may leave, or none if the disk doesn't tell them.
    ghost may_leave: { Self → Slots → Type 0 };

    /// A clock that never falls.
    ghost moment: { Self → ℕ };

    /// The images that a crash at some moment since a given time might have left.
    ghost left_since: { Self → ℕ → Slots → Type 0 };

    /// How often a call has failed.
    ghost faults: { Self → ℕ };

    /// Reads an old slot. No call writes one.
    fn read_old(&mut self, slot: Slot) -> Result<OldSlotBytes, Failed>
        /// If the disk tells its slots, these are the old slot's bytes.
        ensures bytes { IfOk result (λ bytes. IfSome (told self.old)
            (λ slots. bytes ≡ old_slot_in slots slot)) }
        /// The slots read as before.
        ensures told { told self.new ≡ told self.old }
        /// A crash may leave nothing else than before.
        ensures images { NoMore (may_leave self.old) (may_leave self.new) }
        /// A crash may leave all that it might have left before.
        ensures images_back { NoMore (may_leave self.new) (may_leave self.old) }
        /// Time goes on: a crash since an earlier moment might have left what it might have left
        /// before, or what it may leave now.
        ensures time { Elapses (moment self.old) (moment self.new) (left_since self.old)
            (left_since self.new) (may_leave self.new) }
        /// The count of faults rose if the call failed, and is as it was otherwise.
        ensures cause { HasCause (faults self.old) (faults self.new) result };

    /// Reads a slot.
    fn read_slot(&mut self, slot: Slot) -> Result<SlotBytes, Failed>
        /// If the disk tells its slots, these are the slot's bytes.
        ensures bytes { IfOk result (λ bytes. IfSome (told self.old)
            (λ slots. bytes ≡ slot_in slots slot)) }
        /// The slots read as before.
        ensures told { told self.new ≡ told self.old }
        /// A crash may leave nothing else than before.
        ensures images { NoMore (may_leave self.old) (may_leave self.new) }
        /// A crash may leave all that it might have left before.
        ensures images_back { NoMore (may_leave self.new) (may_leave self.old) }
        /// Time goes on: a crash since an earlier moment might have left what it might have left
        /// before, or what it may leave now.
        ensures time { Elapses (moment self.old) (moment self.new) (left_since self.old)
            (left_since self.new) (may_leave self.new) }
        /// The count of faults rose if the call failed, and is as it was otherwise.
        ensures cause { HasCause (faults self.old) (faults self.new) result };

    /// Sets a slot. After a failure it reads as before, but a crash may leave any bytes there.
    fn write_slot(&mut self, slot: Slot, bytes: &SlotBytes) -> Result<(), Failed>
        /// If it succeeds, this slot reads as these bytes, and all others as before.
        ensures written { OnOk result (told self.new
            ≡ option_map (λ slots. with_slot slots slot bytes.now) (told self.old)) }
        /// If it fails, the slots read as before.
        ensures unwritten { OnErr result (told self.new ≡ told self.old) }
        /// A crash may leave nothing else than what it might have left before, with any 24 bytes in
        /// this slot.
        ensures images { Follows (Torn slot) (may_leave self.old) (may_leave self.new) }
        /// A crash may leave all that it might have left before, with any 24 bytes in this slot.
        ensures images_back { Reaches (Torn slot) (may_leave self.old) (may_leave self.new) }
        /// Time goes on: a crash since an earlier moment might have left what it might have left
        /// before, or what it may leave now.
        ensures time { Elapses (moment self.old) (moment self.new) (left_since self.old)
            (left_since self.new) (may_leave self.new) }
        /// The count of faults rose if the call failed, and is as it was otherwise.
        ensures cause { HasCause (faults self.old) (faults self.new) result };

    /// Makes what was written outlive a crash.
    fn sync(&mut self) -> Result<(), Failed>
        /// If it succeeds, a crash leaves nothing else than the slots as they read.
        ensures durable { OnOk result (OneImage (told self.new) (may_leave self.new)) }
        /// If it succeeds, a crash may leave the slots as they read, if it might have left anything
        /// before.
        ensures as_read { OnOk result (LeavesAsRead (may_leave self.old) (told self.new)
            (may_leave self.new)) }
        /// The slots read as before.
        ensures told { told self.new ≡ told self.old }
        /// A crash may leave nothing else than before.
        ensures images { NoMore (may_leave self.old) (may_leave self.new) }
        /// If it fails, a crash may leave all that it might have left before.
        ensures images_back { OnErr result (NoMore (may_leave self.new) (may_leave self.old)) }
        /// Time goes on: a crash since an earlier moment might have left what it might have left
        /// before, or what it may leave now.
        ensures time { Elapses (moment self.old) (moment self.new) (left_since self.old)
            (left_since self.new) (may_leave self.new) }
        /// The count of faults rose if the call failed, and is as it was otherwise.
        ensures cause { HasCause (faults self.old) (faults self.new) result };

    /// The slots as they read are one of the images, if there are any.
    ghost reads_an_image: { (disk : Self) (s c : Slots) → told disk ≡ Some s → may_leave disk c
        → may_leave disk s };

    /// What a crash may leave now counts among what one since any earlier moment might have left.
    ghost counts_now: { (disk : Self) (t : ℕ) (c : Slots) → t ≤ moment disk → may_leave disk c
        → left_since disk t c };

    /// What a crash since this moment might have left is what one may leave now.
    ghost only_now: { (disk : Self) (c : Slots) → left_since disk (moment disk) c
        → may_leave disk c };
}
