//! A journal whose numbers go on in memory, while the disk holds a number ahead of them.
ghost use Rattle.std.specs.Prelude.{◌≤◌};
ghost use Rattle.sequence_journal.specs.declared.numbers.TheConstants.{LIMIT};

use crate::journal::{Journal, JournalFault};
use crate::numbers::LIMIT;
use yasir_io::SlotDisk;

/// A journal whose numbers go on in memory. `settle_ahead` writes a number that is ahead of them,
/// so that the next numbers need no write.
#[derive(Drop)]
pub struct AheadJournal {
    on_disk: Journal,
    number: u64,
    ahead: u64,
    ghost within: { number ≤ LIMIT },
}

impl AheadJournal {
    ghost use Rattle.std.specs.Prelude.{◌≡◌, ℕ, ◌<◌, ◌≤◌, List, [], Option, IfSome};
    ghost use Rattle.std.specs.Prelude.{Ok, OnOk, OnErr, is_err};
    ghost use Rattle.yasir_io.specs.Causes.{HasCause};
    ghost use Rattle.yasir_io.specs.Disks.{Slots, LeavesOnly, other_slot};
    ghost use Rattle.sequence_journal.specs.declared.numbers.TheConstants.{LIMIT};
    ghost use Rattle.sequence_journal.specs.Slots.{slot_bytes};
    ghost use Rattle.sequence_journal.specs.Journal.{journal_floor, is_broken, Fits, told_with};
    ghost use Rattle.sequence_journal.specs.Journal.{HasFloorAtLeast, HasFloorFrom, MaySet};
    ghost use Rattle.sequence_journal.specs.Late.{HasFloorBetween};
    ghost use Rattle.sequence_journal.specs.Ahead.{ahead_disk, ahead_link, ahead_floor, ahead_kept};
    ghost use Rattle.sequence_journal.specs.Ahead.{ahead_number, ahead_by, number_ahead};
    ghost use Rattle.sequence_journal.specs.Ahead.{StandsAhead, IsSafeAhead, lowered_slots, MayLower};
    ghost use Rattle.sequence_journal.specs.Uptimes.{RiseFrom, IsStep, numbers_answered};

    /// Returns the journal that was loaded from this disk, with no number used since.
    pub fn new(journal: Journal, ahead: u64) -> AheadJournal
        /// The disk is taken to hold this journal.
        ensures journal { ahead_disk result ≡ journal }
        /// The last number used is the journal's floor.
        ensures number { ahead_number result ≡ journal_floor journal }
        /// It writes numbers at most `ahead` above the last one used.
        ensures ahead { ahead_by result ≡ ahead }
        /// Over a disk that holds this journal, it is as the journal knows it.
        ensures stands { (told : Option Slots) → Fits journal told → StandsAhead result told }
    {
        let number = journal.floor();
        AheadJournal {
            on_disk: journal,
            number,
            ahead,
        }
    }

    /// Uses the numbers up to this one, in memory alone.
    pub fn follow(&mut self, n: u64)
        /// The number isn't below the last one used.
        requires not_below { ahead_number self.old ≤ n }
        /// The number is at most 2^48 - 1.
        requires within { n ≤ LIMIT }
        /// It is the last number used.
        ensures number { ahead_number self.new ≡ n }
        /// How far it writes ahead is as it was.
        ensures ahead { ahead_by self.new ≡ ahead_by self.old }
        /// What the disk is taken to hold is as it was.
        ensures disk { ahead_disk self.new ≡ ahead_disk self.old }
        /// A disk that was as the journal knew it still is.
        ensures stands { (told : Option Slots) → StandsAhead self.old told
            → StandsAhead self.new told }
    {
        self.number = n;
    }

    /// Uses a number, in memory alone.
    pub fn use_number(&mut self, n: u64)
        /// The number is above the last one used.
        requires rises { ahead_number self.old < n }
        /// The number is at most 2^48 - 1.
        requires within { n ≤ LIMIT }
        /// It is the last number used.
        ensures number { ahead_number self.new ≡ n }
        /// How far it writes ahead is as it was.
        ensures ahead { ahead_by self.new ≡ ahead_by self.old }
        /// What the disk is taken to hold is as it was.
        ensures disk { ahead_disk self.new ≡ ahead_disk self.old }
        /// A disk that was as the journal knew it still is.
        ensures stands { (told : Option Slots) → StandsAhead self.old told
            → StandsAhead self.new told }
    {
        self.number = n;
    }

    /// Writes and syncs a number ahead of the last one used, if the disk's floor is below the last
    /// one.
    pub fn settle_ahead<D: SlotDisk>(&mut self, disk: &mut D) -> Result<(), JournalFault>
        /// The disk is as the journal knows it.
        requires stands { StandsAhead self.old (D.told disk.old) }

        /// The link stays.
        ensures link { ahead_link self.new ≡ ahead_link self.old }
        /// The last number used stays.
        ensures number { ahead_number self.new ≡ ahead_number self.old }
        /// How far it writes ahead stays.
        ensures ahead { ahead_by self.new ≡ ahead_by self.old }
        /// If it succeeds, the disk is as the journal knows it.
        ensures stands { OnOk result (StandsAhead self.new (D.told disk.new)) }
        /// If the journal was crash-safe, it still is.
        ensures safe { IsSafeAhead self.old (D.told disk.old) (D.may_leave disk.old)
            → IsSafeAhead self.new (D.told disk.new) (D.may_leave disk.new) }
        /// The disk's floor doesn't fall.
        ensures not_below { ahead_floor self.old ≤ ahead_floor self.new }
        /// If it succeeds and the journal was crash-safe, no crash leaves a floor below the last
        /// number used.
        ensures image { IsSafeAhead self.old (D.told disk.old) (D.may_leave disk.old)
            → OnOk result ((c : Slots) → D.may_leave disk.new c
            → HasFloorAtLeast (ahead_link self.old) (ahead_number self.old) c) }
        /// If it succeeds, the disk's floor isn't below the last number used.
        ensures reached { OnOk result (ahead_number self.old ≤ ahead_floor self.new) }

        /// If the disk's floor wasn't below the last number used, nothing is written.
        ensures untouched { ahead_number self.old ≤ ahead_floor self.old
            → (disk.new ≡ disk.old) × (self.new ≡ self.old) × (result ≡ Ok tt) }
        /// If it was below and the call succeeds, the slot that didn't keep the floor holds the
        /// number ahead, and all others are as they were.
        ensures bytes { ahead_floor self.old < ahead_number self.old
            → OnOk result (D.told disk.new ≡ told_with (D.told disk.old)
            (other_slot (ahead_kept self.old))
            (slot_bytes (number_ahead self.old) (ahead_link self.old))) }
        /// If it was below and the call succeeds, the disk's floor is the number ahead.
        ensures floor { ahead_floor self.old < ahead_number self.old
            → OnOk result (ahead_floor self.new ≡ number_ahead self.old) }
        /// If it was below and the call succeeds, the other slot keeps the floor.
        ensures turned { ahead_floor self.old < ahead_number self.old
            → OnOk result (ahead_kept self.new ≡ other_slot (ahead_kept self.old)) }

        /// If it fails, the slots are as they were, or the one that didn't keep the floor holds the
        /// number ahead.
        ensures writes { OnErr result (MaySet (D.told disk.old) (other_slot (ahead_kept self.old))
            (slot_bytes (number_ahead self.old) (ahead_link self.old)) (D.told disk.new)) }
        /// If it fails, the floor of the slots is from the disk's floor before to the number ahead.
        ensures failed { OnErr result (IfSome (D.told disk.new)
            (HasFloorBetween (ahead_link self.old) (ahead_floor self.old)
            (number_ahead self.old))) }
        /// The journal is broken exactly if it fails.
        ensures broken { is_broken (ahead_disk self.new) ≡ is_err result }
        /// If the journal was crash-safe, a crash at any moment leaves no floor below the disk's
        /// before.
        ensures any_moment { IsSafeAhead self.old (D.told disk.old) (D.may_leave disk.old)
            → LeavesOnly D.moment D.left_since disk.old disk.new
            (HasFloorFrom (ahead_disk self.old)) }
        /// If the journal was crash-safe, it is a step of an uptime, with the numbers that are
        /// returned after it, or with none if it fails.
        ensures is_step { IsSafeAhead self.old (D.told disk.old) (D.may_leave disk.old)
            → (floor : ℕ) (numbers : List ℕ) → floor ≤ ahead_floor self.old
            → RiseFrom floor numbers
            → IsStep D.SlotDisk (ahead_link self.old) floor disk.old (record {
              numbers = numbers_answered (λ done. numbers) result;
              after = disk.new;
            }) }
        /// The disk's count of faults rose if a call failed, and is as it was otherwise.
        ensures cause { HasCause (D.faults disk.old) (D.faults disk.new) result }
    {
        if self.number <= self.on_disk.floor() {
            return Ok(());
        }
        let n = self.number + self.ahead.min(LIMIT - self.number);
        self.on_disk.commit(disk, n)
    }

    /// Brings the disk down to the last number used, at the end of the input: the slot that doesn't
    /// hold the disk's floor is written and synced, and then the one that does.
    pub fn lower<D: SlotDisk>(&mut self, disk: &mut D) -> Result<(), JournalFault>
        /// The disk is as the journal knows it.
        requires stands { StandsAhead self.old (D.told disk.old) }
        /// The disk's floor isn't below the last number used.
        requires settled { ahead_number self.old ≤ ahead_floor self.old }

        /// The link stays.
        ensures link { ahead_link self.new ≡ ahead_link self.old }
        /// The last number used stays.
        ensures number { ahead_number self.new ≡ ahead_number self.old }
        /// How far it writes ahead stays.
        ensures ahead { ahead_by self.new ≡ ahead_by self.old }
        /// If it succeeds, the disk is as the journal knows it.
        ensures stands { OnOk result (StandsAhead self.new (D.told disk.new)) }
        /// If the journal was crash-safe, it still is.
        ensures safe { IsSafeAhead self.old (D.told disk.old) (D.may_leave disk.old)
            → IsSafeAhead self.new (D.told disk.new) (D.may_leave disk.new) }
        /// The disk's floor isn't below the last number used.
        ensures not_below { ahead_number self.old ≤ ahead_floor self.new }
        /// If it succeeds, the disk's floor is the last number used.
        ensures lowered { OnOk result (ahead_floor self.new ≡ ahead_number self.old) }

        /// If the disk's floor is the last number already, nothing is written.
        ensures untouched { ahead_floor self.old ≤ ahead_number self.old
            → (disk.new ≡ disk.old) × (self.new ≡ self.old) × (result ≡ Ok tt) }
        /// If it was above and the call succeeds, both slots hold the last number used, and the old
        /// ones are as they were.
        ensures bytes { ahead_number self.old < ahead_floor self.old
            → OnOk result (D.told disk.new ≡ lowered_slots self.old (D.told disk.old)) }

        /// If it fails, none of the writes was made, or the first, or both.
        ensures writes { OnErr result (MayLower self.old (D.told disk.old) (D.told disk.new)) }
        /// If it fails, the floor of the slots is from the last number used to the disk's floor
        /// before.
        ensures failed { OnErr result (IfSome (D.told disk.new)
            (HasFloorBetween (ahead_link self.old) (ahead_number self.old)
            (ahead_floor self.old))) }
        /// The journal is broken exactly if it fails.
        ensures broken { is_broken (ahead_disk self.new) ≡ is_err result }
        /// If the journal was crash-safe, a crash at any moment leaves no floor below the last
        /// number used.
        ensures any_moment { IsSafeAhead self.old (D.told disk.old) (D.may_leave disk.old)
            → LeavesOnly D.moment D.left_since disk.old disk.new
            (HasFloorAtLeast (ahead_link self.old) (ahead_number self.old)) }
        /// If the journal was crash-safe, it is a step of an uptime, with no number.
        ensures is_step { IsSafeAhead self.old (D.told disk.old) (D.may_leave disk.old)
            → (floor : ℕ) → floor ≤ ahead_number self.old
            → IsStep D.SlotDisk (ahead_link self.old) floor disk.old (record {
              numbers = [];
              after = disk.new;
            }) }
        /// The disk's count of faults rose if a call failed, and is as it was otherwise.
        ensures cause { HasCause (D.faults disk.old) (D.faults disk.new) result }
    {
        if self.number < self.on_disk.floor() {
            self.on_disk.lower(disk, self.number)?;
        }
        Ok(())
    }
}
