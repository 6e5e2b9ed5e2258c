//! The journal: how it is made, loaded and committed to, and what a crash at any moment leaves of
//! it.
ghost use Rattle.std.specs.Prelude.{◌≤◌};
ghost use Rattle.sequence_journal.specs.declared.numbers.TheConstants.{LIMIT};
ghost use Rattle.sequence_journal.specs.Links.{HasDirection};

use crate::link::LinkId;
use crate::numbers::{LIMIT, slot_of};
use crate::slots::{Standing, read_slots, write_and_sync};
use thiserror::Error;
use yasir_io::{Failed, Slot, SlotBytes, SlotDisk};

/// A commit failed: the disk's count of faults rose. The journal is broken, and the next uptime
/// loads it anew.
#[derive(Clone, Copy, Debug, PartialEq, Eq, Error)]
#[error("the journal's disk failed in a commit")]
pub struct JournalFault;

/// Why a journal isn't loaded.
#[derive(Clone, Copy, Debug, PartialEq, Eq, Error)]
pub enum LoadError {
    /// A call of the disk failed.
    #[error("the journal's disk failed")]
    Fault,
    /// No slot holds a number, and neither does an old slot.
    #[error("no slot holds a number: {a:?} {b:?}")]
    Bad { a: SlotBytes, b: SlotBytes },
    /// The slots hold numbers for other links only. `slot` is the one with the greatest.
    #[error("the journal is another link's: {slot:?}")]
    WrongLink { slot: SlotBytes },
}

/// Why a journal isn't made.
#[derive(Clone, Copy, Debug, PartialEq, Eq, Error)]
pub enum InitError {
    /// A call of the disk failed.
    #[error("the journal's disk failed")]
    Fault,
    /// A slot already holds a number, for whatever link, or an old slot does. `floor` is the
    /// greatest.
    #[error("a journal stands at {floor}")]
    Stands { floor: u64 },
}

/// The last number that a box used on its link, kept in one of the two slots of a disk.
#[derive(Drop)]
pub struct Journal {
    link: LinkId,
    floor: u64,
    kept: Slot,
    broken: bool,
    ghost within: { floor ≤ LIMIT },
    ghost serves: { HasDirection link },
}

impl Journal {
    ghost use Rattle.std.specs.Prelude.{◌≡◌, ℕ, ◌≤◌, ◌<◌, [], ◌∷◌, true, false, Some, None, Err};
    ghost use Rattle.std.specs.Prelude.{OnOk, OnErr, IfOk, IfErr, IfSome, is_err};
    ghost use Rattle.yasir_io.specs.declared.disk.Slot.TheVariants.{A, B};
    ghost use Rattle.yasir_io.specs.Causes.{HasCause};
    ghost use Rattle.yasir_io.specs.Disks.{Slots, NoMore, OneImage, LeavesOnly, other_slot};
    ghost use Rattle.sequence_journal.specs.Links.{HasDirection};
    ghost use Rattle.sequence_journal.specs.declared.late.Owed.TheVariants.{Even, Odd};
    ghost use Rattle.sequence_journal.specs.Late.{HasFloorBetween, HoldsFloor, with_owed};
    ghost use Rattle.sequence_journal.specs.Late.{HoldsInOther, MayOwe};
    ghost use Rattle.sequence_journal.specs.Ahead.{OldWithin};
    ghost use Rattle.sequence_journal.specs.Journal.{HasFloorAtLeast, IsEitherFloor};
    ghost use Rattle.sequence_journal.specs.Slots.{slot_bytes, greatest, floor_of};
    ghost use Rattle.sequence_journal.specs.Journal.{journal_link, journal_floor, kept_slot};
    ghost use Rattle.sequence_journal.specs.Journal.{is_broken, Fits, IsKept, IsBut, HasFloorFrom};
    ghost use Rattle.sequence_journal.specs.Journal.{IsCrashSafe, told_with, MaySet, RefusesInit};
    ghost use Rattle.sequence_journal.specs.Loading.{MayBegin, IsLoaded, RefusesLoad, IsUntouched};
    ghost use Rattle.sequence_journal.specs.Loading.{MayLeaveLoading, KeepsLoadable};
    ghost use Rattle.sequence_journal.specs.Commits.{HasCommitted, HasFailed};
    ghost use Rattle.sequence_journal.specs.Uptimes.{IsStepOf, numbers_answered};

    /// Makes a new journal of a link, at floor 0 and in slot A, if no slot holds a number and no
    /// old slot does.
    pub fn init<D: SlotDisk>(disk: &mut D, link: &LinkId) -> Result<Journal, InitError>
        /// The direction of the link is 0 or 1.
        requires link { HasDirection link.now }

        /// If it succeeds, the disk is as the journal knows it.
        ensures fits { IfOk result (λ journal. Fits journal (D.told disk.new)) }
        /// The journal serves this link.
        ensures link_is { IfOk result (λ journal. journal_link journal ≡ link.now) }
        /// Its floor is 0.
        ensures floor { IfOk result (λ journal. journal_floor journal ≡ 0) }
        /// It succeeds only if no slot, old or new, held a number for any link.
        ensures none { OnOk result (IfSome (D.told disk.old) (λ slots. greatest slots ≡ None)) }
        /// If it succeeds, slot A holds number 0 for the link, and all others are as they were.
        ensures set { OnOk result (D.told disk.new
            ≡ told_with (D.told disk.old) A (slot_bytes 0 link.now)) }
        /// If it succeeds, a crash leaves just the slots as they read.
        ensures synced { OnOk result (OneImage (D.told disk.new) (D.may_leave disk.new)) }
        /// If it succeeds, each image has floor 0 for the link.
        ensures image { OnOk result ((c : Slots) → D.may_leave disk.new c
            → floor_of link.now c ≡ Some 0) }

        /// If it fails, a call failed, and slot A may have been set; or some slot holds a number,
        /// whose greatest is told, and nothing was written.
        ensures refused { IfErr result (RefusesInit link.now (D.told disk.old) (D.told disk.new)
            (D.faults disk.old) (D.faults disk.new)) }
        /// If some slot holds a number, a crash leaves exactly what it might have left before.
        ensures untouched { (floor : ℕ) → result ≡ Err (InitError.Stands floor)
            → NoMore (D.may_leave disk.old) (D.may_leave disk.new)
            × NoMore (D.may_leave disk.new) (D.may_leave disk.old) }

        /// A crash at any moment leaves all slots but A as they were.
        ensures any_moment { LeavesOnly D.moment D.left_since disk.old disk.new
            (IsBut A (D.may_leave disk.old)) }

        /// The disk's count of faults never falls.
        ensures never_falls { D.faults disk.old ≤ D.faults disk.new }
        /// If it succeeds, the count of faults is as it was.
        ensures same { OnOk result (D.faults disk.new ≡ D.faults disk.old) }
    {
        let Ok(slots) = read_slots(disk) else {
            return Err(InitError::Fault);
        };
        if let Some(floor) = slots.greatest() {
            return Err(InitError::Stands { floor });
        }
        let Ok(journal) = Journal::begin(disk, link, 0) else {
            return Err(InitError::Fault);
        };
        Ok(journal)
    }

    /// Returns a journal at the same floor that goes on in memory, over a disk that tells nothing.
    pub fn in_memory(&self) -> Journal
        /// No call on the journal has failed.
        requires whole { is_broken self.now ≡ false }
        /// It has the same floor.
        ensures floor { journal_floor result ≡ journal_floor self.now }
        /// It serves the same link.
        ensures link { journal_link result ≡ journal_link self.now }
        /// It fits a disk that tells nothing.
        ensures fits { Fits result None }
        /// It is the same journal.
        ensures same { result ≡ self.now }
    {
        Journal {
            link: self.link,
            floor: self.floor,
            kept: self.kept,
            broken: false,
        }
    }

    // Begins a journal of a link, at floor `n` and in slot A.
    fn begin<D: SlotDisk>(disk: &mut D, link: &LinkId, n: u64) -> Result<Journal, Failed>
        requires link { HasDirection link.now }
        requires within { n ≤ LIMIT }
        requires free { IfSome (D.told disk.old) (MayBegin link.now n) }

        ensures fits { IfOk result (λ journal. Fits journal (D.told disk.new)) }
        ensures link_is { IfOk result (λ journal. journal_link journal ≡ link.now) }
        ensures floor { IfOk result (λ journal. journal_floor journal ≡ n) }
        ensures set { OnOk result (D.told disk.new
            ≡ told_with (D.told disk.old) A (slot_bytes n link.now)) }
        ensures synced { OnOk result (OneImage (D.told disk.new) (D.may_leave disk.new)) }
        ensures may_set { OnErr result
            (MaySet (D.told disk.old) A (slot_bytes n link.now) (D.told disk.new)) }
        ensures any_moment { LeavesOnly D.moment D.left_since disk.old disk.new
            (IsBut A (D.may_leave disk.old)) }
        ensures cause { HasCause (D.faults disk.old) (D.faults disk.new) result }
    {
        write_and_sync(disk, Slot::A, &slot_of(n, link))?;
        Ok(Journal {
            link: *link,
            floor: n,
            kept: Slot::A,
            broken: false,
        })
    }

    /// Loads the journal of a link from the disk. If only old slots hold a number, the journal is
    /// taken over: their greatest number is written into slot A and synced. Otherwise nothing is
    /// written.
    pub fn load<D: SlotDisk>(disk: &mut D, link: &LinkId) -> Result<Journal, LoadError>
        /// The direction of the link is 0 or 1.
        requires link { HasDirection link.now }

        /// If it succeeds, the disk is as the journal knows it.
        ensures fits { IfOk result (λ journal. Fits journal (D.told disk.new)) }
        /// The journal serves the link, and its floor is that of the slots as they were read. If
        /// neither slot A nor slot B held a number for the link, slot A now holds the floor;
        /// otherwise nothing was written.
        ensures loaded { IfOk result (IsLoaded link.now (D.told disk.old) (D.told disk.new)
            (D.may_leave disk.old) (D.may_leave disk.new)) }
        /// If a crash before would have left the slots as they read, the journal is crash-safe.
        ensures crash_safe { IfOk result (λ journal.
            OneImage (D.told disk.old) (D.may_leave disk.old)
            → IsCrashSafe journal (D.told disk.new) (D.may_leave disk.new)) }

        /// A crash at any moment leaves what it might have left before, or, if an old journal is
        /// being taken over, something else in slot A.
        ensures any_moment { LeavesOnly D.moment D.left_since disk.old disk.new
            (MayLeaveLoading (D.told disk.old) (D.may_leave disk.old)) }
        /// If a crash before would have left the slots as they read, a journal with a floor for its
        /// link is loaded at no lower one after a crash at any moment; one that was being taken
        /// over may be seen as another link's.
        ensures crash { (slots : Slots) (floor : ℕ) → D.told disk.old ≡ Some slots
            → OneImage (D.told disk.old) (D.may_leave disk.old)
            → floor_of link.now slots ≡ Some floor
            → LeavesOnly D.moment D.left_since disk.old disk.new
            (KeepsLoadable link.now slots floor) }

        /// If it fails, a call failed; or no slot holds a number; or none holds one for this link
        /// but one does for another.
        ensures refused { IfErr result (RefusesLoad link.now (D.told disk.old) (D.told disk.new)
            (D.faults disk.old) (D.faults disk.new)) }
        /// If it fails and no call did, a crash leaves exactly what it might have left before.
        ensures untouched { IfErr result (IsUntouched (D.may_leave disk.old)
            (D.may_leave disk.new)) }
        /// The disk's count of faults never falls.
        ensures never_falls { D.faults disk.old ≤ D.faults disk.new }
        /// If it succeeds, the count of faults is as it was.
        ensures same { OnOk result (D.faults disk.new ≡ D.faults disk.old) }
    {
        let Ok(slots) = read_slots(disk) else {
            return Err(LoadError::Fault);
        };
        match slots.standing(link) {
            Standing::Kept { floor, kept } => Ok(Journal {
                link: *link,
                floor,
                kept,
                broken: false,
            }),
            Standing::OfAnother(slot) => Err(LoadError::WrongLink {
                slot: slots.slot(slot),
            }),
            Standing::Old(floor) => match Journal::begin(disk, link, floor) {
                Ok(journal) => Ok(journal),
                Err(Failed) => Err(LoadError::Fault),
            },
            Standing::Blank => Err(LoadError::Bad {
                a: slots.a,
                b: slots.b,
            }),
        }
    }

    /// Returns the floor: the last number that was committed.
    pub fn floor(&self) -> u64
        /// It is the journal's floor.
        ensures value { result ≡ journal_floor self.now }
        /// It is at most 2^48 - 1.
        ensures within { result ≤ LIMIT }
    {
        self.floor
    }

    /// Whether a commit has failed.
    pub fn broken(&self) -> bool
        ensures { result ≡ is_broken self.now }
    {
        self.broken
    }

    /// Makes `n` the floor: writes it into the slot that doesn't keep the floor, and then syncs.
    pub fn commit<D: SlotDisk>(&mut self, disk: &mut D, n: u64) -> Result<(), JournalFault>
        /// The disk is as the journal knows it.
        requires fits { Fits self.old (D.told disk.old) }
        /// The number is above the floor.
        requires rises { journal_floor self.old < n }
        /// The number is at most 2^48 - 1.
        requires within { n ≤ LIMIT }

        /// The link stays.
        ensures link { journal_link self.new ≡ journal_link self.old }
        /// If it succeeds, the disk is as the journal knows it.
        ensures fits { OnOk result (Fits self.new (D.told disk.new)) }
        /// If it succeeds, the number is the floor, the slot that didn't keep the floor holds it,
        /// all others are as they were, and a crash leaves just these slots.
        ensures committed { OnOk result (HasCommitted self.old self.new
            (D.told disk.old) (D.told disk.new) (D.may_leave disk.new) n) }
        /// If it succeeds, each image has the number as its floor.
        ensures image { OnOk result ((c : Slots) → D.may_leave disk.new c
            → floor_of (journal_link self.old) c ≡ Some n) }

        /// If it fails, the journal is broken and keeps its floor, and the slot that didn't keep it
        /// may have been set to the number.
        ensures failed { OnErr result
            (HasFailed self.old self.new (D.told disk.old) (D.told disk.new) n) }

        /// If each image was as the slots read, but for the slot that doesn't keep the floor, each
        /// still is.
        ensures kept { IsKept self.old (D.told disk.old) (D.may_leave disk.old)
            → IsKept self.new (D.told disk.new) (D.may_leave disk.new) }
        /// If each image was so, a crash at any moment of the call leaves no floor below the one
        /// before it.
        ensures any_moment { IsKept self.old (D.told disk.old) (D.may_leave disk.old)
            → LeavesOnly D.moment D.left_since disk.old disk.new (HasFloorFrom self.old) }
        /// If the journal was crash-safe, it still is.
        ensures crash_safe { IsCrashSafe self.old (D.told disk.old) (D.may_leave disk.old)
            → IsCrashSafe self.new (D.told disk.new) (D.may_leave disk.new) }
        /// If each image was so, the call is a step of an uptime, with the number `n`, or with none
        /// if it fails.
        ensures is_step { IsKept self.old (D.told disk.old) (D.may_leave disk.old)
            → IsStepOf D.SlotDisk self.old disk.old (record {
              numbers = numbers_answered (λ done. n ∷ []) result;
              after = disk.new;
            }) }

        /// The disk's count of faults rose if a call failed, and is as it was otherwise.
        ensures cause { HasCause (D.faults disk.old) (D.faults disk.new) result }
    {
        let slot = self.kept.other();
        let Ok(()) = write_and_sync(disk, slot, &slot_of(n, &self.link)) else {
            self.broken = true;
            return Err(JournalFault);
        };
        self.floor = n;
        self.kept = slot;
        Ok(())
    }

    fn fail(&mut self) -> JournalFault
        ensures { self.new ≡ record self.old { broken = true } }
    {
        self.broken = true;
        JournalFault
    }

    // Writes a number below the floor into the slot that doesn't keep the floor, and then syncs.
    fn fill<D: SlotDisk>(&mut self, disk: &mut D, n: u64) -> Result<(), JournalFault>
        requires fits { Fits self.old (D.told disk.old) }
        requires holds { HoldsFloor self.old (D.told disk.old) }
        requires below { n < journal_floor self.old }
        requires within { n ≤ LIMIT }

        ensures link { journal_link self.new ≡ journal_link self.old }
        ensures floor { journal_floor self.new ≡ journal_floor self.old }
        ensures kept_slot { kept_slot self.new ≡ kept_slot self.old }
        ensures fits { OnOk result (Fits self.new (D.told disk.new)) }
        ensures set { OnOk result (D.told disk.new ≡ told_with (D.told disk.old)
            (other_slot (kept_slot self.old)) (slot_bytes n (journal_link self.old))) }
        ensures synced { OnOk result (OneImage (D.told disk.new) (D.may_leave disk.new)) }
        ensures failed { OnErr result (IfSome (D.told disk.new) (λ slots.
            floor_of (journal_link self.old) slots ≡ Some (journal_floor self.old))) }
        ensures may_set { OnErr result (MaySet (D.told disk.old)
            (other_slot (kept_slot self.old)) (slot_bytes n (journal_link self.old))
            (D.told disk.new)) }
        ensures broken { is_broken self.new ≡ is_err result }
        ensures any_moment { IsKept self.old (D.told disk.old) (D.may_leave disk.old)
            → LeavesOnly D.moment D.left_since disk.old disk.new (HasFloorFrom self.old) }
        ensures crash_safe { IsCrashSafe self.old (D.told disk.old) (D.may_leave disk.old)
            → IsCrashSafe self.new (D.told disk.new) (D.may_leave disk.new) }
        ensures cause { HasCause (D.faults disk.old) (D.faults disk.new) result }
    {
        let other = self.kept.other();
        let Ok(()) = write_and_sync(disk, other, &slot_of(n, &self.link)) else {
            return Err(self.fail());
        };
        Ok(())
    }

    /// Commits two numbers, one after the other.
    pub(crate) fn commit_both<D: SlotDisk>(
        &mut self,
        disk: &mut D,
        first: u64,
        second: u64,
    ) -> Result<(), JournalFault>
        requires fits { Fits self.old (D.told disk.old) }
        requires rises { journal_floor self.old < first }
        requires more { first < second }
        requires within { second ≤ LIMIT }

        ensures link { journal_link self.new ≡ journal_link self.old }
        ensures floor { OnOk result (journal_floor self.new ≡ second) }
        ensures turned { OnOk result (kept_slot self.new ≡ kept_slot self.old) }
        ensures fits { OnOk result (Fits self.new (D.told disk.new)) }
        ensures set { OnOk result (D.told disk.new ≡ with_owed (journal_link self.old)
            (kept_slot self.old) (Even first second) (D.told disk.old)) }
        ensures synced { OnOk result (OneImage (D.told disk.new) (D.may_leave disk.new)) }
        ensures failed { OnErr result (IfSome (D.told disk.new)
            (HasFloorBetween (journal_link self.old) (journal_floor self.old) second)) }
        ensures writes { OnErr result (MayOwe (journal_link self.old) (kept_slot self.old)
            (Even first second) (D.told disk.old) (D.told disk.new)) }
        ensures broken { is_broken self.new ≡ is_err result }
        ensures not_below { journal_floor self.old ≤ journal_floor self.new }
        ensures any_moment { IsCrashSafe self.old (D.told disk.old) (D.may_leave disk.old)
            → LeavesOnly D.moment D.left_since disk.old disk.new
            (HasFloorFrom self.old) }
        ensures crash_safe { IsCrashSafe self.old (D.told disk.old) (D.may_leave disk.old)
            → IsCrashSafe self.new (D.told disk.new) (D.may_leave disk.new) }
        ensures cause { HasCause (D.faults disk.old) (D.faults disk.new) result }
    {
        self.commit(disk, first)?;
        self.commit(disk, second)
    }

    /// Commits the last of some numbers, an odd number of them, and then writes the one before it
    /// where a commit for each would have left it.
    pub(crate) fn commit_last<D: SlotDisk>(
        &mut self,
        disk: &mut D,
        before: u64,
        last: u64,
    ) -> Result<(), JournalFault>
        requires fits { Fits self.old (D.told disk.old) }
        requires rises { journal_floor self.old < before }
        requires more { before < last }
        requires within { last ≤ LIMIT }

        ensures link { journal_link self.new ≡ journal_link self.old }
        ensures floor { OnOk result (journal_floor self.new ≡ last) }
        ensures turned { OnOk result (kept_slot self.new ≡ other_slot (kept_slot self.old)) }
        ensures fits { OnOk result (Fits self.new (D.told disk.new)) }
        ensures set { OnOk result (D.told disk.new ≡ with_owed (journal_link self.old)
            (kept_slot self.old) (Odd before last) (D.told disk.old)) }
        ensures synced { OnOk result (OneImage (D.told disk.new) (D.may_leave disk.new)) }
        ensures failed { OnErr result (IfSome (D.told disk.new)
            (HasFloorBetween (journal_link self.old) (journal_floor self.old) last)) }
        ensures writes { OnErr result (MayOwe (journal_link self.old) (kept_slot self.old)
            (Odd before last) (D.told disk.old) (D.told disk.new)) }
        ensures broken { is_broken self.new ≡ is_err result }
        ensures not_below { journal_floor self.old ≤ journal_floor self.new }
        ensures any_moment { IsCrashSafe self.old (D.told disk.old) (D.may_leave disk.old)
            → LeavesOnly D.moment D.left_since disk.old disk.new
            (HasFloorFrom self.old) }
        ensures crash_safe { IsCrashSafe self.old (D.told disk.old) (D.may_leave disk.old)
            → IsCrashSafe self.new (D.told disk.new) (D.may_leave disk.new) }
        ensures cause { HasCause (D.faults disk.old) (D.faults disk.new) result }
    {
        self.commit(disk, last)?;
        self.fill(disk, before)
    }

    // Writes a number below the floor into the slot that keeps the floor, and then syncs, if the
    // other slot holds the number already.
    fn drop_to<D: SlotDisk>(&mut self, disk: &mut D, n: u64) -> Result<(), JournalFault>
        requires fits { Fits self.old (D.told disk.old) }
        requires other { HoldsInOther self.old n (D.told disk.old) }
        requires old_within { OldWithin n (D.told disk.old) }
        requires synced { OneImage (D.told disk.old) (D.may_leave disk.old) }
        requires below { n < journal_floor self.old }

        ensures link { journal_link self.new ≡ journal_link self.old }
        ensures floor { journal_floor self.new ≡ n }
        ensures fits { OnOk result (Fits self.new (D.told disk.new)) }
        ensures set { OnOk result (D.told disk.new ≡ told_with (D.told disk.old)
            (kept_slot self.old) (slot_bytes n (journal_link self.old))) }
        ensures synced { OnOk result (OneImage (D.told disk.new) (D.may_leave disk.new)) }
        ensures failed { OnErr result (IfSome (D.told disk.new)
            (IsEitherFloor (journal_link self.old) (journal_floor self.old) n)) }
        ensures may_set { OnErr result (MaySet (D.told disk.old) (kept_slot self.old)
            (slot_bytes n (journal_link self.old)) (D.told disk.new)) }
        ensures broken { is_broken self.new ≡ is_err result }
        ensures any_moment { LeavesOnly D.moment D.left_since disk.old disk.new
            (HasFloorAtLeast (journal_link self.old) n) }
        ensures crash_safe { IsCrashSafe self.new (D.told disk.new) (D.may_leave disk.new) }
        ensures cause { HasCause (D.faults disk.old) (D.faults disk.new) result }
    {
        let kept = self.kept;
        // If the write fails, it is the other slot that holds the number for sure.
        self.floor = n;
        self.kept = kept.other();
        let Ok(()) = write_and_sync(disk, kept, &slot_of(n, &self.link)) else {
            return Err(self.fail());
        };
        // Both slots hold the same number now, and then A counts.
        self.kept = Slot::A;
        Ok(())
    }

    /// Brings the floor down to `n`: first the slot that doesn't keep the floor is written and
    /// synced, and then the one that does.
    pub(crate) fn lower<D: SlotDisk>(&mut self, disk: &mut D, n: u64) -> Result<(), JournalFault>
        requires fits { Fits self.old (D.told disk.old) }
        requires old_within { OldWithin n (D.told disk.old) }
        requires below { n < journal_floor self.old }

        ensures link { journal_link self.new ≡ journal_link self.old }
        ensures floor { OnOk result (journal_floor self.new ≡ n) }
        ensures fits { OnOk result (Fits self.new (D.told disk.new)) }
        ensures old_within { OnOk result (OldWithin n (D.told disk.new)) }
        ensures set { OnOk result (D.told disk.new ≡ with_owed (journal_link self.old)
            (kept_slot self.old) (Even n n) (D.told disk.old)) }
        ensures writes { OnErr result (MayOwe (journal_link self.old) (kept_slot self.old)
            (Even n n) (D.told disk.old) (D.told disk.new)) }
        ensures synced { OnOk result (OneImage (D.told disk.new) (D.may_leave disk.new)) }
        ensures failed { OnErr result (IfSome (D.told disk.new)
            (HasFloorBetween (journal_link self.old) n (journal_floor self.old))) }
        ensures not_below { n ≤ journal_floor self.new }
        ensures broken { is_broken self.new ≡ is_err result }
        ensures any_moment { IsCrashSafe self.old (D.told disk.old) (D.may_leave disk.old)
            → LeavesOnly D.moment D.left_since disk.old disk.new
            (HasFloorAtLeast (journal_link self.old) n) }
        ensures crash_safe { IsCrashSafe self.old (D.told disk.old) (D.may_leave disk.old)
            → IsCrashSafe self.new (D.told disk.new) (D.may_leave disk.new) }
        ensures cause { HasCause (D.faults disk.old) (D.faults disk.new) result }
    {
        self.fill(disk, n)?;
        self.drop_to(disk, n)
    }
}
