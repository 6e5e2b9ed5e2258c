//! Boxes over a journal in memory, and what each of their steps commits.
ghost use Rattle.std.specs.Prelude.{◌≡◌, ◌+◌, ◌≤◌, length, take, Some, option_map};
ghost use Rattle.yasir_io.specs.Steady.{steady_slots};
ghost use Rattle.yasir_ticks.specs.TickRun.{run_ticks};
ghost use Rattle.frame_ending.specs.Answered.{answered};
ghost use Rattle.sequence_journal.specs.Journal.{journal_link, journal_floor, Fits};
ghost use Rattle.link_box.specs.Stepping.{MayStep, BoxSteps};
ghost use Rattle.any_box.specs.Commits.{CommitsOneOrNone};
ghost use Rattle.any_box.specs.Noting.{defined_by, StepsOn, AnyTakesOn};
ghost use Rattle.any_box.specs.declared.any_note.AnyNote.{AnyNote};
ghost use Rattle.any_box.specs.declared.any_note.AnyNote.TheVariants.{OfSealer, OfChecker};

use crate::any_note::AnyNote;
use check_receiver::{CheckNote, Checker};
use frame_ending::{BoxStep, RunBytes};
use line_rules::LineRules;
use link_box::{LinkBox, take_alike};
use link_format::Mac;
use seal_transmitter::{SealNote, Sealer};
use sequence_journal::Journal;
use yasir_io::SteadySlots;
use yasir_ticks::{MAX_TICKS, Tick, TickRun};

/// A box whose steps commit to slots in memory.
pub(crate) trait CommittingBox: LinkBox {
    /// A note of the box, as a note of any box.
    ghost noted: { Self.Note → AnyNote };

    /// Returns a note of the box as a note of any box.
    fn wrap(note: Self::Note) -> AnyNote
        ensures { result ≡ noted note };

    /// Takes the next tick. This never fails, since no call of the disk does. The journal stays as
    /// it was, or one number above its floor is committed to the slot that didn't keep the floor.
    fn step_in_memory(
        &mut self,
        t: Tick,
        journal: &mut Journal,
        disk: &mut SteadySlots,
    ) -> BoxStep<Self::Note>
        requires { MayStep (Self.link_of self.old) (Self.taken self.old) journal.old
            (Some (steady_slots disk.old)) }
        ensures taken { Self.taken self.new ≡ Self.taken self.old + 1 }
        ensures link_of { Self.link_of self.new ≡ Self.link_of self.old }
        ensures steps { BoxSteps Self.walking Self.stands
            self.old (journal_floor journal.old) self.new (journal_floor journal.new)
            t result.tick result.note }
        ensures link { journal_link journal.new ≡ journal_link journal.old }
        ensures fits { Fits journal.new (Some (steady_slots disk.new)) }
        ensures commits { CommitsOneOrNone journal.old journal.new disk.old disk.new };
}

impl<R: LineRules, M: Mac, const B: usize> CommittingBox for Sealer<R, M, B> {
    ghost noted = { λ note. OfSealer note };

    fn wrap(note: SealNote) -> AnyNote {
        AnyNote::OfSealer(note)
    }

    fn step_in_memory(
        &mut self,
        t: Tick,
        journal: &mut Journal,
        disk: &mut SteadySlots,
    ) -> BoxStep<SealNote> {
        Sealer::step(self, t, journal, disk).unwrap()
    }
}

impl<R: LineRules, M: Mac, const B: usize, const D: usize> CommittingBox for Checker<R, M, B, D> {
    ghost noted = { λ note. OfChecker note };

    fn wrap(note: CheckNote) -> AnyNote {
        AnyNote::OfChecker(note)
    }

    fn step_in_memory(
        &mut self,
        t: Tick,
        journal: &mut Journal,
        disk: &mut SteadySlots,
    ) -> BoxStep<CheckNote> {
        Checker::step(self, t, journal, disk).unwrap()
    }
}

// Returns the note, if there is one, as a note of any box.
fn wrap_note<X: CommittingBox>(note: Option<X::Note>) -> Option<AnyNote>
    ensures { result ≡ option_map X.noted note }
{
    match note {
        Some(note) => Some(X::wrap(note)),
        None => None,
    }
}

/// Takes the next tick with this box, and returns its step, with the note as a note of any box.
pub(crate) fn step_any<X: CommittingBox>(
    line_box: &mut X,
    t: Tick,
    journal: &mut Journal,
    disk: &mut SteadySlots,
) -> BoxStep<AnyNote>
    requires { MayStep (X.link_of line_box.old) (X.taken line_box.old) journal.old
        (Some (steady_slots disk.old)) }
    ensures taken { X.taken line_box.new ≡ X.taken line_box.old + 1 }
    ensures link_of { X.link_of line_box.new ≡ X.link_of line_box.old }
    ensures steps { StepsOn (defined_by X.walking X.noted) (X.stands line_box.old)
        (X.stands line_box.new) (journal_floor journal.old) (journal_floor journal.new)
        t result.tick result.note }
    ensures link { journal_link journal.new ≡ journal_link journal.old }
    ensures fits { Fits journal.new (Some (steady_slots disk.new)) }
    ensures commits { CommitsOneOrNone journal.old journal.new disk.old disk.new }
{
    let step = line_box.step_in_memory(t, journal, disk);
    let note = wrap_note::<X>(step.note);
    BoxStep {
        tick: step.tick,
        note,
    }
}

/// Takes the first of these ticks with this box, as long as it returns silence for all of them or
/// bytes for all of them, without a note, and returns how many.
#[inline]
pub(crate) fn take_any<X: CommittingBox>(
    line_box: &mut X,
    run: TickRun<'_>,
    sent: &mut RunBytes,
) -> usize
    requires { X.taken line_box.old + length (run_ticks run) ≤ MAX_TICKS }
    ensures within { result ≤ length (run_ticks run.entry) }
    ensures taken { X.taken line_box.new
        ≡ X.taken line_box.old + length (take result (run_ticks run.entry)) }
    ensures link_of { X.link_of line_box.new ≡ X.link_of line_box.old }
    ensures takes { AnyTakesOn (defined_by X.walking X.noted) (X.stands line_box.old)
        (X.stands line_box.new)
        (take result (run_ticks run.entry)) (answered result sent.new.items) }
{
    take_alike(line_box, run, sent)
}
