//! The trait that the transmitter and the receiver implement: a key, a direction, a journal, and
//! steps.
ghost use Rattle.std.specs.Prelude.{◌≡◌, ℕ, ◌+◌, ◌≤◌, List, [], length, take, OnOk, OnErr, IfOk};
ghost use Rattle.yasir_ticks.specs.TickRun.{run_ticks};
ghost use Rattle.yasir_ticks.specs.declared.tick.Tick.{Tick};
ghost use Rattle.frame_ending.specs.Answered.{answered};
ghost use Rattle.link_format.specs.declared.dir.Dir.{Dir};
ghost use Rattle.link_format.specs.Setup.{Setup, setup_of};
ghost use Rattle.sequence_journal.specs.declared.link.LinkId.{LinkId};
ghost use Rattle.sequence_journal.specs.Links.{HasDirection};
ghost use Rattle.sequence_journal.specs.Journal.{journal_floor};
ghost use Rattle.link_box.specs.Walking.{Walking};
ghost use Rattle.link_box.specs.Stepping.{MayStep, BoxSteps, FailsStep, KeepsJournal};
ghost use Rattle.link_box.specs.Runs.{TakesRun};

use frame_ending::{BoxStep, RunBytes};
use link_format::Dir;
use sequence_journal::{Journal, JournalFault, LinkId};
use yasir_io::SlotDisk;
use yasir_ticks::{MAX_TICKS, Tick, TickRun};

/// A box between two lines, set up with a key and a direction. It takes one line tick by tick and
/// returns the other one. The numbers that it uses come from a journal, which serves the box's link
/// and is the same one in each step.
pub trait LinkBox: Drop {
    /// What the box notes in a step.
    type Note: Copy;

    /// Holds if the box began with this setup and has taken these ticks, and the last number that
    /// it used is this one.
    ghost stands: { Self → ℕ → Setup → List Tick → Type 0 };

    /// How many ticks the box has taken.
    ghost taken: { Self → ℕ };

    /// What the box makes of a line.
    ghost walking: { Walking Self.Note };

    /// What must hold of the widths with which a box is made.
    ghost widths_fit: { Type 0 };

    /// The link of a box. It never changes.
    ghost link_of: { Self → LinkId };

    /// The link of a box, by its direction.
    ghost link_in: { Dir → LinkId };

    /// Returns the link of a box of this direction. The box's journal must serve it, and journals
    /// can, whatever the rules and the widths of the box are.
    fn link(dir: Dir) -> LinkId
        /// The widths of the box are ones that it can be made with.
        requires { widths_fit }
        /// It is the link of a box of this direction.
        ensures value { result ≡ link_in dir }
        /// Its direction is 0 or 1.
        ensures right { HasDirection result };

    /// Returns a box that has taken no tick, for a key of any length and a direction.
    fn new(key: &[u8], dir: Dir) -> Self
        /// The widths of the box are ones that it can be made with.
        requires { widths_fit }
        /// It has taken 0 ticks.
        ensures taken { taken result ≡ 0 }
        /// Its link is that of its direction.
        ensures link { link_of result ≡ link_in dir }
        /// It begins with this key and direction, at whatever floor its journal has.
        ensures stands { (floor : ℕ) → stands result floor (setup_of key.now dir floor) [] };

    /// Takes the next tick, and returns the tick of the other line at the same place, with the note
    /// that falls into this step. The journal is the one of the steps before and serves the box's
    /// own link, and the disk is the journal's. Fewer than `MAX_TICKS` ticks were taken before.
    ///
    /// It fails if the number of a frame isn't committed. No step follows then.
    fn step<D: SlotDisk>(
        &mut self,
        t: Tick,
        journal: &mut Journal,
        disk: &mut D,
    ) -> Result<BoxStep<Self::Note>, JournalFault>
        /// Fewer than 2^62 ticks were taken before, the journal serves the box's own link, and the
        /// disk is as the journal knows it.
        requires { MayStep (link_of self.old) (taken self.old) journal.old (D.told disk.old) }
        /// The link of the box stays.
        ensures link { link_of self.new ≡ link_of self.old }
        /// A step that succeeds counts its tick.
        ensures taken { OnOk result (taken self.new ≡ taken self.old + 1) }
        /// What is returned is the tick, and the note that falls into this step, if one does, with
        /// which the other line and the notes of the box's walk go on.
        ensures steps { IfOk result (λ step. BoxSteps walking stands
            self.old (journal_floor journal.old) self.new (journal_floor journal.new)
            t step.tick step.note) }
        /// It fails only in a step in which the walk notes a frame whose number isn't committed.
        ensures fails { OnErr result (FailsStep walking stands self.old journal.old journal.new t
            (D.told disk.old) (D.told disk.new)) }
        /// The journal keeps its link, and its floor never falls. A fault comes only if the disk's
        /// count rose. If the journal was crash-safe, it still is, and a crash at any moment of the
        /// step leaves no floor below the one before.
        ensures journal { KeepsJournal D.SlotDisk journal.old journal.new disk.old disk.new
            result };

    /// Takes the first of these ticks, as long as the box returns each as it is, without a note and
    /// without using a number, and returns how many. If none is taken, the caller goes on by
    /// another call. There must be room for all of these ticks: the box takes at most `MAX_TICKS`.
    fn forward(&mut self, _run: TickRun<'_>) -> usize
        /// The box has then taken at most 2^62 ticks.
        requires { taken self.old + length (run_ticks _run) ≤ MAX_TICKS }
        /// No more ticks are taken than there are.
        ensures within { result ≤ length (run_ticks _run.entry) }
        /// The ticks that are taken are counted.
        ensures taken { taken self.new ≡ taken self.old + result }
        /// The link of the box stays.
        ensures link { link_of self.new ≡ link_of self.old }
        /// The other line goes on with these ticks themselves, no note falls into them, and no
        /// number is used.
        ensures run { TakesRun walking stands self.old self.new
            (take result (run_ticks _run.entry)) (take result (run_ticks _run.entry)) }
    {
        0
    }

    /// Takes the first of these ticks, as long as the box returns silence for all of them or bytes
    /// for all of them, without a note and without using a number, and returns how many. Puts the
    /// bytes that the box returns into `sent`, one for each tick, or none for silence. If none is
    /// taken, the caller goes on by another call. There must be room for all of these ticks: the
    /// box takes at most `MAX_TICKS`.
    fn pass(&mut self, _run: TickRun<'_>, sent: &mut RunBytes) -> usize
        /// The box has then taken at most 2^62 ticks.
        requires { taken self.old + length (run_ticks _run) ≤ MAX_TICKS }
        /// No more ticks are taken than there are.
        ensures within { result ≤ length (run_ticks _run.entry) }
        /// The ticks that are taken are counted.
        ensures taken { taken self.new ≡ taken self.old + result }
        /// The link of the box stays.
        ensures link { link_of self.new ≡ link_of self.old }
        /// What is returned is what the box's walk makes of these ticks, no note falls into them,
        /// and no number is used.
        ensures run { TakesRun walking stands self.old self.new
            (take result (run_ticks _run.entry)) (answered result sent.new.items) }
    {
        sent.clear();
        0
    }
}
