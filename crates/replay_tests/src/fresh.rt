//! New journals for the boxes that the tests drive themselves, over disks that never fail.
ghost use Rattle.std.specs.Prelude.{◌≡◌, IfOk, Some};
ghost use Rattle.yasir_io.specs.Steady.{steady_slots};
ghost use Rattle.sequence_journal.specs.Journal.{journal_link, Fits};
ghost use Rattle.sequence_journal.specs.Links.{HasDirection};

use sequence_journal::{Journal, LinkId, slot_of};
use std::test::Fail;
use yasir_io::SteadySlots;

/// A new journal, and its disk.
#[derive(Drop)]
pub struct FreshJournal {
    pub journal: Journal,
    pub disk: SteadySlots,
}

/// A disk with a new journal of this link, at floor 0.
pub fn fresh_disk(link: &LinkId) -> SteadySlots
    requires { HasDirection link.now }
{
    SteadySlots::new(slot_of(0, link), [0; 24])
}

/// Loads a new journal of this link.
pub fn load_fresh(link: &LinkId) -> Result<FreshJournal, Fail>
    requires { HasDirection link.now }
    ensures of_link { IfOk result (λ made. journal_link made.journal ≡ link.now) }
    ensures fits { IfOk result (λ made. Fits made.journal (Some (steady_slots made.disk))) }
{
    let mut disk = fresh_disk(link);
    let journal = Journal::load(&mut disk, link)?;
    Ok(FreshJournal { journal, disk })
}
