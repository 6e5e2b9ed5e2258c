//! All slots of a disk: what they hold for a link, and how one is written.
ghost use Rattle.std.specs.Prelude.{◌≡◌, ◌≤◌, IfSome, OnOk, OnErr, IfOk};
ghost use Rattle.yasir_io.specs.Causes.{HasCause};
ghost use Rattle.yasir_io.specs.Disks.{Slots, NoMore, OneImage, LeavesOnly};
ghost use Rattle.sequence_journal.specs.declared.numbers.TheConstants.{LIMIT};
ghost use Rattle.sequence_journal.specs.Slots.{any_number_held};
ghost use Rattle.sequence_journal.specs.Journal.{IsBut, told_with, MaySet};
ghost use Rattle.sequence_journal.specs.Loading.{AreRead, slots_read, IsGreaterOf};

use crate::link::LinkId;
use crate::numbers::{link_in, number_in, number_in_old};
use yasir_io::{Failed, OldSlotBytes, Slot, SlotBytes, SlotDisk};

/// All slots of a disk, as a read gives them.
#[derive(Clone, Copy)]
pub(crate) struct AllSlots {
    pub(crate) a: SlotBytes,
    pub(crate) b: SlotBytes,
    pub(crate) old_a: OldSlotBytes,
    pub(crate) old_b: OldSlotBytes,
}

/// What the slots of a disk hold for a link.
pub(crate) enum Standing {
    /// A slot holds a number for this link: the link's floor, and the slot with the greatest such
    /// number.
    Kept { floor: u64, kept: Slot },
    /// No slot holds a number for this link, but one does for another link: the slot with the
    /// greatest such number.
    OfAnother(Slot),
    /// No slot holds a number, but an old slot does: the greatest such number.
    Old(u64),
    /// No slot holds a number, and no old slot does.
    Blank,
}

impl AllSlots {
    ghost use Rattle.std.specs.Prelude.{◌≡◌};
    ghost use Rattle.yasir_io.specs.Disks.{slot_in};
    ghost use Rattle.sequence_journal.specs.Links.{HasDirection};
    ghost use Rattle.sequence_journal.specs.Slots.{number_held, old_number_held, any_number_held};
    ghost use Rattle.sequence_journal.specs.Slots.{greatest};
    ghost use Rattle.sequence_journal.specs.Loading.{slots_read, StandsAs, IsGreaterOf};

    pub(crate) fn slot(&self, which: Slot) -> SlotBytes
        ensures { result ≡ slot_in (slots_read self.now) which }
    {
        match which {
            Slot::A => self.a,
            Slot::B => self.b,
        }
    }

    // Returns the greatest number for a link, and the slot that holds it.
    fn own(&self, link: &LinkId) -> Option<(u64, Slot)>
        requires { HasDirection link.now }
        ensures { IsGreaterOf (number_held link.now self.now.a) (number_held link.now self.now.b)
            result }
    {
        greater_of(number_in(&self.a, link), number_in(&self.b, link))
    }

    // Returns the greatest number for any link, and the slot that holds it.
    fn any(&self) -> Option<(u64, Slot)>
        ensures { IsGreaterOf (any_number_held self.now.a) (any_number_held self.now.b) result }
    {
        greater_of(any_number_in(&self.a), any_number_in(&self.b))
    }

    // Returns the greatest number of the old slots, and the place of the slot that holds it.
    fn old(&self) -> Option<(u64, Slot)>
        ensures { IsGreaterOf (old_number_held self.now.old_a) (old_number_held self.now.old_b)
            result }
    {
        greater_of(number_in_old(&self.old_a), number_in_old(&self.old_b))
    }

    pub(crate) fn standing(&self, link: &LinkId) -> Standing
        requires { HasDirection link.now }
        ensures { StandsAs link.now (slots_read self.now) result }
    {
        let old = self.old();
        if let Some((own, kept)) = self.own(link) {
            let floor = match old {
                Some((n, _)) if own < n => n,
                _ => own,
            };
            return Standing::Kept { floor, kept };
        }
        if let Some((_, slot)) = self.any() {
            return Standing::OfAnother(slot);
        }
        match old {
            Some((n, _)) => Standing::Old(n),
            None => Standing::Blank,
        }
    }

    /// Returns the greatest number that any slot holds, for whatever link, or any old slot.
    pub(crate) fn greatest(&self) -> Option<u64>
        ensures { result ≡ greatest (slots_read self.now) }
    {
        match (self.any(), self.old()) {
            (None, None) => None,
            (Some((n, _)), None) | (None, Some((n, _))) => Some(n),
            (Some((n, _)), Some((old, _))) => Some(n.max(old)),
        }
    }
}

/// Reads all slots.
pub(crate) fn read_slots<D: SlotDisk>(disk: &mut D) -> Result<AllSlots, Failed>
    ensures slots { IfOk result (λ read. AreRead (D.told disk.old) (slots_read read)) }
    ensures told { D.told disk.new ≡ D.told disk.old }
    ensures images { NoMore (D.may_leave disk.old) (D.may_leave disk.new) }
    ensures images_back { NoMore (D.may_leave disk.new) (D.may_leave disk.old) }
    ensures any_moment { LeavesOnly D.moment D.left_since disk.old disk.new (D.may_leave disk.old) }
    ensures cause { HasCause (D.faults disk.old) (D.faults disk.new) result }
{
    let a = disk.read_slot(Slot::A)?;
    let b = disk.read_slot(Slot::B)?;
    let old_a = disk.read_old(Slot::A)?;
    let old_b = disk.read_old(Slot::B)?;
    Ok(AllSlots { a, b, old_a, old_b })
}

/// Writes a slot, and then syncs. A crash at any moment leaves all other slots as they were, and so
/// does a failure.
pub(crate) fn write_and_sync<D: SlotDisk>(
    disk: &mut D,
    slot: Slot,
    bytes: &SlotBytes,
) -> Result<(), Failed>
    ensures set { OnOk result (D.told disk.new ≡ told_with (D.told disk.old) slot bytes.now) }
    ensures synced { OnOk result (OneImage (D.told disk.new) (D.may_leave disk.new)) }
    ensures may_set { OnErr result (MaySet (D.told disk.old) slot bytes.now (D.told disk.new)) }
    ensures beside { (c : Slots) → D.may_leave disk.new c → IsBut slot (D.may_leave disk.old) c }
    ensures any_moment { LeavesOnly D.moment D.left_since disk.old disk.new
        (IsBut slot (D.may_leave disk.old)) }
    ensures cause { HasCause (D.faults disk.old) (D.faults disk.new) result }
{
    disk.write_slot(slot, bytes)?;
    disk.sync()
}

fn any_number_in(slot: &SlotBytes) -> Option<u64>
    ensures value { result ≡ any_number_held slot.now }
    ensures within { IfSome result (λ n. n ≤ LIMIT) }
{
    let (n, _) = link_in(slot)?;
    Some(n)
}

// Returns the greater of the numbers in slots A and B, and its slot, which is A if they are equal.
fn greater_of(a: Option<u64>, b: Option<u64>) -> Option<(u64, Slot)>
    requires a { IfSome a (λ n. n ≤ LIMIT) }
    requires b { IfSome b (λ n. n ≤ LIMIT) }
    ensures { IsGreaterOf a b result }
{
    match (a, b) {
        (None, None) => None,
        (Some(a), None) => Some((a, Slot::A)),
        (None, Some(b)) => Some((b, Slot::B)),
        (Some(a), Some(b)) if a < b => Some((b, Slot::B)),
        (Some(a), Some(_)) => Some((a, Slot::A)),
    }
}
