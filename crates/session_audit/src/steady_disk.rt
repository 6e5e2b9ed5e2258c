//! A disk that never fails, with a journal that begins at a stated floor.
ghost use Rattle.std.specs.Prelude.{◌≡◌, ◌≤◌, None, IsSomeAnd};
ghost use Rattle.sequence_journal.specs.Journal.{Fits, journal_link, journal_floor};
ghost use Rattle.sequence_journal.specs.Links.{HasDirection};
ghost use Rattle.sequence_journal.specs.Slots.{greatest};
ghost use Rattle.sequence_journal.specs.declared.numbers.TheConstants.{LIMIT};

use sequence_journal::{Journal, LinkId};
use yasir_io::{SlotDisk, SteadySlots};

/// A disk whose calls never fail.
pub trait SteadyDisk: SlotDisk + Drop {
    /// A disk whose slots hold no number of any link.
    fn blank() -> Self
        ensures { IsSomeAnd (Self.SlotDisk.told result) (λ slots. greatest slots ≡ None) };

    /// Its count of faults is always 0.
    ghost steady: { (disk : Self) → Self.SlotDisk.faults disk ≡ 0 };
}

impl SteadyDisk for SteadySlots {
    ghost use Rattle.std.specs.Prelude.{refl};

    fn blank() -> Self {
        SteadySlots::new([0; 24], [0; 24])
    }

    ghost steady = { λ disk. refl };
}

// Returns a new journal for this link, on a blank disk, whose last number is `floor`.
pub(crate) fn journal_at<K: SteadyDisk>(disk: &mut K, link: &LinkId, floor: u64) -> Journal
    requires blank { IsSomeAnd (K.told disk.old) (λ slots. greatest slots ≡ None) }
    requires within { floor ≤ LIMIT }
    requires link { HasDirection link.now }
    ensures of_link { journal_link result ≡ link.now }
    ensures fits { Fits result (K.told disk.new) }
    ensures floor { journal_floor result ≡ floor }
{
    let mut journal = Journal::init(disk, link).unwrap();
    if floor > 0 {
        journal.commit(disk, floor).unwrap();
    }
    journal
}
