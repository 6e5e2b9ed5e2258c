//! A box with its journal in memory.
ghost use Rattle.std.specs.Prelude.{◌≡◌, ◌≤◌, false, Some, option_map};
ghost use Rattle.std.proofs.Props.{props};
ghost use Rattle.yasir_ticks.specs.declared.TheConstants.{MAX_TICKS};
ghost use Rattle.yasir_io.specs.Steady.{steady_slots};
ghost use Rattle.sequence_journal.specs.Journal.{journal_link, journal_floor, kept_slot, is_broken};
ghost use Rattle.sequence_journal.specs.Slots.{floor_of, floor_slot};
ghost use Rattle.any_box.specs.Boxes.{box_ticks_in, own_link};
ghost use Rattle.any_box.specs.Places.{slot_number};

use crate::any_box::AnyBox;
use crate::any_note::AnyNote;
use crate::defined::DefinedBox;
use crate::kind::Kind;
use crate::owed::Commit;
use frame_ending::RunBytes;
use link_format::Dir;
use sequence_journal::{Journal, LoadError};
use yasir_io::{Slot, SlotBytes, SteadySlots};
use yasir_ticks::{MAX_TICKS, Tick, TickRun};

/// What a step returns.
#[derive(Clone, Copy, Debug, PartialEq, Eq)]
pub struct HeldStep {
    /// The tick of the other line, at the same place.
    pub tick: Tick,
    /// The note that falls into this step.
    pub note: Option<AnyNote>,
    /// What the caller must write and sync before the tick leaves.
    pub commit: Option<Commit>,
}

/// A box has taken `MAX_TICKS` ticks, and takes no more.
#[derive(Clone, Copy, Debug, PartialEq, Eq)]
pub struct Full;

/// A box with its journal, over slots in memory that are those of the caller's disk.
#[derive(Drop)]
pub struct HeldBox {
    line_box: AnyBox,
    journal: Journal,
    disk: SteadySlots,
    ticks: u64,
    ghost counted: { box_ticks_in line_box ≡ ticks },
    ghost own_label: { (journal_link journal).label ≡ (own_link line_box).label },
    ghost own_dir: { (journal_link journal).dir ≡ (own_link line_box).dir },
    ghost own_profile: { (journal_link journal).profile ≡ (own_link line_box).profile },
    ghost room: { ticks ≤ MAX_TICKS },
    ghost whole: { is_broken journal ≡ false },
    ghost floor_is: { floor_of (journal_link journal) (steady_slots disk)
        ≡ Some (journal_floor journal) } by { Prim.hlevel props },
    ghost kept_is: { option_map slot_number (floor_slot (journal_link journal) (steady_slots disk))
        ≡ Some (slot_number (kept_slot journal)) } by { Prim.hlevel props },
}

impl HeldBox {
    ghost use Rattle.std.specs.Prelude.{◌≡◌, ◌≤◌, IfOk, IfErr, OnErr, length, take, Some};
    ghost use Rattle.yasir_ticks.specs.TickRun.{run_ticks};
    ghost use Rattle.frame_ending.specs.Answered.{answered};
    ghost use Rattle.sequence_journal.specs.Loading.{RefusesLoad};
    ghost use Rattle.any_box.specs.Kinds.{link_for};
    ghost use Rattle.any_box.specs.Held.{slots_given, floor_held, ticks_held, HeldBegins};
    ghost use Rattle.any_box.specs.Held.{StepsHeld, TakesHeld};

    /// Returns a box that has taken no tick, for a key of any length and a direction. Its journal
    /// is the one that the caller's slots `a` and `b` hold for its link.
    #[tactic(auto, using(crate::proofs::Places::fits_kept, crate::proofs::Loaded::loaded_link, crate::proofs::Loaded::loaded_floor, crate::proofs::Loaded::loaded_slots, crate::proofs::Loaded::refused_again, crate::proofs::Places::label_same, crate::proofs::Places::dir_same, crate::proofs::Places::profile_same))]
    pub fn new(
        kind: Kind,
        dir: Dir,
        key: &[u8],
        a: SlotBytes,
        b: SlotBytes,
    ) -> Result<HeldBox, LoadError>
        /// The box has begun by this kind, direction and key, from the floor of the slots for its
        /// link, and has taken no tick.
        ensures begins { IfOk result (HeldBegins ⟦<AnyBox as DefinedBox>⟧ kind dir key.now a b) }
        /// Otherwise the slots hold no number for its link, and the error says whether they hold
        /// none at all or only those of other links.
        ensures refused { IfErr result (RefusesLoad (link_for kind dir)
            (Some (slots_given a b)) (Some (slots_given a b)) 0 0) }
    {
        let mut disk = SteadySlots::new(a, b);
        let link = kind.link(dir);
        let journal = match Journal::load(&mut disk, &link) {
            Ok(journal) => journal,
            Err(error) => return Err(error),
        };
        Ok(HeldBox {
            line_box: AnyBox::new(kind, key, dir),
            journal,
            disk,
            ticks: 0,
        })
    }

    /// Takes the next tick, and returns the tick of the other line, the note that falls into this
    /// step, and what the caller must write to its disk and sync before the tick leaves.
    ///
    /// It fails if the box has taken `MAX_TICKS` ticks, and then changes nothing.
    #[tactic(auto, using(crate::proofs::Places::fits_back, crate::proofs::Places::fits_kept, crate::proofs::Places::own_back, crate::proofs::Places::label_kept, crate::proofs::Places::dir_kept, crate::proofs::Places::profile_kept))]
    pub fn step(&mut self, t: Tick) -> Result<HeldStep, Full>
        /// The box has taken the tick. The tick, the note and the slot to write are what its
        /// definition adds.
        ensures steps { IfOk result (StepsHeld ⟦<AnyBox as DefinedBox>⟧ self.old self.new t) }
        /// It fails only if 2^62 ticks were taken, and the box is then as it was.
        ensures full { OnErr result ((ticks_held self.old ≡ MAX_TICKS) × (self.new ≡ self.old)) }
    {
        if self.ticks >= MAX_TICKS {
            return Err(Full);
        }
        let a = self.disk.slot(Slot::A);
        let b = self.disk.slot(Slot::B);
        let step = self.line_box.step(t, &mut self.journal, &mut self.disk);
        let commit = Commit::between(&a, &b, &self.disk);
        self.ticks += 1;
        Ok(HeldStep {
            tick: step.tick,
            note: step.note,
            commit,
        })
    }

    /// Takes the first of these ticks, as long as the box returns silence for all of them or bytes
    /// for all of them, without a note and with nothing to write, and returns how many. Puts the
    /// bytes that the box returns into `sent`, one for each tick, or none for silence. If none is
    /// taken, the caller goes on by `step`.
    #[tactic(auto, using(crate::proofs::Places::label_kept, crate::proofs::Places::dir_kept, crate::proofs::Places::profile_kept, crate::proofs::Taking::within_whole, crate::proofs::Taking::takes_front, crate::proofs::Taking::taken_counted, crate::proofs::Taking::counted_taken))]
    pub fn take_alike(&mut self, run: TickRun<'_>, sent: &mut RunBytes) -> usize
        /// No more ticks are taken than there are.
        ensures within { result ≤ length (run_ticks run.entry) }
        /// The box has taken these ticks, and what leaves is what its definition adds, without a
        /// note and without a number.
        ensures takes { TakesHeld ⟦<AnyBox as DefinedBox>⟧ self.old self.new
            (take result (run_ticks run.entry)) (answered result sent.new.items) }
    {
        let room = MAX_TICKS - self.ticks;
        let most = run.len().min(room as usize);
        let count = self.line_box.take_alike(run.front(most), sent);
        self.ticks += count as u64;
        count
    }

    /// Returns the last number that the box used.
    pub fn floor(&self) -> u64
        ensures { result ≡ floor_held self.now }
    {
        self.journal.floor()
    }

    /// Returns how many ticks the box has taken.
    pub fn ticks(&self) -> u64
        ensures { result ≡ ticks_held self.now }
    {
        self.ticks
    }
}
