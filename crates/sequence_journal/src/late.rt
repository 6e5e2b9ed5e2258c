//! A journal whose numbers go on in memory, and that brings the disk to them when it is told to.
ghost use Rattle.std.specs.Prelude.{◌≤◌};

use crate::journal::{Journal, JournalFault};
use yasir_io::SlotDisk;

/// The numbers that the disk doesn't hold yet: the last, and the one before it.
#[derive(Clone, Copy)]
pub(crate) enum Owed {
    /// The disk holds all.
    Nothing,
    /// One number was used.
    One { last: u64 },
    /// An even number of numbers was used.
    Even { before: u64, last: u64 },
    /// An odd number of numbers was used, three at least.
    Odd { before: u64, last: u64 },
}

/// A journal whose numbers go on in memory. `settle_all` brings the disk to them.
#[derive(Drop)]
pub struct LateJournal {
    on_disk: Journal,
    owed: Owed,
}

impl LateJournal {
    ghost use Rattle.std.specs.Prelude.{◌≡◌, ℕ, ◌<◌, ◌≤◌, List, Option, IfSome};
    ghost use Rattle.std.specs.Prelude.{Ok, OnOk, OnErr, is_err};
    ghost use Rattle.yasir_io.specs.Causes.{HasCause};
    ghost use Rattle.yasir_io.specs.Disks.{Slots, LeavesOnly, other_slot};
    ghost use Rattle.sequence_journal.specs.declared.numbers.TheConstants.{LIMIT};
    ghost use Rattle.sequence_journal.specs.Slots.{slot_bytes};
    ghost use Rattle.sequence_journal.specs.Journal.{journal_floor, is_broken, Fits, told_with};
    ghost use Rattle.sequence_journal.specs.Journal.{HasFloorAtLeast, HasFloorFrom};
    ghost use Rattle.sequence_journal.specs.Late.{disk_journal, disk_floor, late_link, late_number};
    ghost use Rattle.sequence_journal.specs.Late.{late_slots, late_kept, IsRising, Stands, IsSafe};
    ghost use Rattle.sequence_journal.specs.Late.{HasFloorBetween, MaySettle};
    ghost use Rattle.sequence_journal.specs.Uptimes.{RiseFrom, IsStep, numbers_answered};

    /// Returns the journal that was loaded, with no number used since.
    pub fn new(journal: Journal) -> LateJournal
        /// The disk is taken to hold this journal.
        ensures journal { disk_journal result ≡ journal }
        /// The last number used is the disk's floor.
        ensures number { late_number result ≡ disk_floor result }
        /// Over a disk that holds this journal, it is as the journal knows it.
        ensures stands { (told : Option Slots) → Fits journal told → Stands result told }
    {
        LateJournal {
            on_disk: journal,
            owed: Owed::Nothing,
        }
    }

    /// Returns the last number used.
    pub fn number(&self) -> u64
        ensures { result ≡ late_number self.now }
    {
        match self.owed {
            Owed::Nothing => self.on_disk.floor(),
            Owed::One { last } | Owed::Even { last, .. } | Owed::Odd { last, .. } => last,
        }
    }

    /// Uses a number, in memory alone. What the disk is to hold is what a commit of the number
    /// would make of it.
    pub fn use_number(&mut self, n: u64)
        /// The numbers that the disk doesn't hold yet rise from its floor on.
        requires rising { IsRising self.old }
        /// The number is above the last one used.
        requires rises { late_number self.old < n }
        /// The number is at most 2^48 - 1.
        requires within { n ≤ LIMIT }
        /// It is the last number used.
        ensures number { late_number self.new ≡ n }
        /// The numbers that the disk doesn't hold yet rise from its floor on.
        ensures rising { IsRising self.new }
        /// What the disk is taken to hold is as it was.
        ensures disk { disk_journal self.new ≡ disk_journal self.old }
        /// What the disk is to hold is what a commit of the number would make of what it was to
        /// hold.
        ensures bytes { (told : Option Slots) → late_slots self.new told
            ≡ told_with (late_slots self.old told) (other_slot (late_kept self.old))
            (slot_bytes n (late_link self.old)) }
        /// The other slot is to keep the floor.
        ensures turned { late_kept self.new ≡ other_slot (late_kept self.old) }
    {
        self.owed = match self.owed {
            Owed::Nothing => Owed::One { last: n },
            Owed::One { last } => Owed::Even {
                before: last,
                last: n,
            },
            Owed::Even { last, .. } => Owed::Odd {
                before: last,
                last: n,
            },
            Owed::Odd { last, .. } => Owed::Even {
                before: last,
                last: n,
            },
        };
    }

    /// Takes over the floor of a journal in memory, which may have gone on by one number.
    pub fn follow(&mut self, journal: &Journal)
        /// The numbers that the disk doesn't hold yet rise from its floor on.
        requires rising { IsRising self.old }
        /// The journal's floor isn't below the last number used.
        requires not_below { late_number self.old ≤ journal_floor journal.now }
        /// The last number used is the journal's floor.
        ensures number { late_number self.new ≡ journal_floor journal.now }
        /// The numbers that the disk doesn't hold yet rise from its floor on.
        ensures rising { IsRising self.new }
        /// What the disk is taken to hold is as it was.
        ensures disk { disk_journal self.new ≡ disk_journal self.old }
        /// If the journal's floor is the last number used already, nothing changes.
        ensures none { journal_floor journal.now ≡ late_number self.old → self.new ≡ self.old }
        /// If it is above, what the disk is to hold is what a commit of this floor would make of
        /// what it was to hold.
        ensures bytes { late_number self.old < journal_floor journal.now → (told : Option Slots)
            → late_slots self.new told
            ≡ told_with (late_slots self.old told) (other_slot (late_kept self.old))
            (slot_bytes (journal_floor journal.now) (late_link self.old)) }
        /// If it is above, the other slot is to keep the floor.
        ensures turned { late_number self.old < journal_floor journal.now
            → late_kept self.new ≡ other_slot (late_kept self.old) }
    {
        let n = journal.floor();
        if self.number() < n {
            self.use_number(n);
        }
    }

    /// Brings the disk to the journal: the slot that doesn't hold the disk's floor is written and
    /// synced, and then the other one, if it must change too.
    pub fn settle_all<D: SlotDisk>(&mut self, disk: &mut D) -> Result<(), JournalFault>
        /// The disk is as the journal knows it, and the numbers that it doesn't hold yet rise.
        requires stands { Stands self.old (D.told disk.old) }

        /// The link stays.
        ensures link { late_link self.new ≡ late_link self.old }
        /// The last number used stays.
        ensures number { late_number self.new ≡ late_number self.old }
        /// If it succeeds, the disk is as the journal knows it.
        ensures stands { OnOk result (Stands self.new (D.told disk.new)) }
        /// If the journal was crash-safe, it still is.
        ensures safe { IsSafe self.old (D.told disk.old) (D.may_leave disk.old)
            → IsSafe self.new (D.told disk.new) (D.may_leave disk.new) }
        /// The disk's floor doesn't fall.
        ensures not_below { disk_floor self.old ≤ disk_floor self.new }

        /// If it succeeds, the disk's floor is the last number used.
        ensures settled { OnOk result (disk_floor self.new ≡ late_number self.old) }
        /// If it succeeds and the journal was crash-safe, no crash leaves a floor below the last
        /// number used.
        ensures image { IsSafe self.old (D.told disk.old) (D.may_leave disk.old)
            → OnOk result ((c : Slots) → D.may_leave disk.new c
            → HasFloorAtLeast (late_link self.old) (late_number self.old) c) }
        /// If it succeeds, the slots are what one commit for each number would have left.
        ensures bytes { OnOk result (D.told disk.new ≡ late_slots self.old (D.told disk.old)) }
        /// If it succeeds, the slot that was to keep the floor does.
        ensures turned { OnOk result (late_kept self.new ≡ late_kept self.old) }
        /// If it succeeds, the disk is to hold what it holds.
        ensures nothing_owed { OnOk result ((told : Option Slots)
            → late_slots self.new told ≡ told) }

        /// If no number was used since the last settle, nothing is written.
        ensures untouched { late_number self.old ≤ disk_floor self.old
            → (disk.new ≡ disk.old) × (self.new ≡ self.old) × (result ≡ Ok tt) }

        /// If it fails, the floor is from that of the disk before to the last number used.
        ensures failed { OnErr result (IfSome (D.told disk.new)
            (HasFloorBetween (late_link self.old) (disk_floor self.old)
            (late_number self.old))) }

        /// If it fails, none of the writes was made, or the first, or all.
        ensures writes { OnErr result (MaySettle self.old (D.told disk.old) (D.told disk.new)) }
        /// The journal is broken exactly if it fails.
        ensures broken { is_broken (disk_journal self.new) ≡ is_err result }

        /// If the journal was crash-safe, a crash at any moment leaves no floor below that of the
        /// disk before.
        ensures any_moment { IsSafe self.old (D.told disk.old) (D.may_leave disk.old)
            → LeavesOnly D.moment D.left_since disk.old disk.new
            (HasFloorFrom (disk_journal self.old)) }
        /// If the journal was crash-safe, a settle is a step of an uptime, with the numbers that
        /// are returned after it, or with none if it fails.
        ensures is_step { IsSafe self.old (D.told disk.old) (D.may_leave disk.old)
            → (floor : ℕ) (numbers : List ℕ) → floor ≤ disk_floor self.old
            → RiseFrom floor numbers
            → IsStep D.SlotDisk (late_link self.old) floor disk.old (record {
              numbers = numbers_answered (λ done. numbers) result;
              after = disk.new;
            }) }
        /// The disk's count of faults rose if a call failed, and is as it was otherwise.
        ensures cause { HasCause (D.faults disk.old) (D.faults disk.new) result }
    {
        match self.owed {
            Owed::Nothing => {}
            Owed::One { last } => self.on_disk.commit(disk, last)?,
            Owed::Even { before, last } => self.on_disk.commit_both(disk, before, last)?,
            Owed::Odd { before, last } => self.on_disk.commit_last(disk, before, last)?,
        }
        self.owed = Owed::Nothing;
        Ok(())
    }
}
