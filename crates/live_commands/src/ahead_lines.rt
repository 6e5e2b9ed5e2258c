//! A box whose numbers go on in memory, with the texts that are made of its line, and its journal,
//! whose disk holds a number ahead of them.
ghost use Rattle.std.specs.Prelude.{◌≡◌, ◌+◌, ◌<◌, ◌≤◌, [], length, true, false, Option};
ghost use Rattle.yasir_io.specs.Disks.{Slots};
ghost use Rattle.yasir_ticks.specs.TickRun.{run_ticks};
ghost use Rattle.yasir_ticks.specs.declared.TheConstants.{MAX_TICKS};
ghost use Rattle.link_format.specs.Setup.{setup_of};
ghost use Rattle.sequence_journal.specs.Journal.{journal_link, journal_floor, is_broken, Fits};
ghost use Rattle.sequence_journal.specs.Ahead.{StandsAhead};
ghost use Rattle.line_texts.specs.Adding.{TextHasRoom, Waits};
ghost use Rattle.line_commands.specs.BoxLines as memory;
ghost use Rattle.live_commands.specs.AheadLines.{box_in, waits_in, texts_at, number_in, settled_in};
ghost use Rattle.live_commands.specs.AheadLines.{disk_in, floor_in, most_in, StandsAfter, MayDrive};
ghost use Rattle.live_commands.specs.AheadLines.{MayHandOn, TakesSome, Empties, Settles, Lowers};
ghost use Rattle.live_commands.specs.AheadLines.{IsAhead};

use line_commands::{BoxLines, LineBox};
use link_format::Dir;
use sequence_journal::{AheadJournal, Journal, JournalFault, NoSlots};
use yasir_io::SlotDisk;
use yasir_ticks::TickRun;

/// A box with its texts, whose numbers go on in memory, and its journal.
#[derive(Drop)]
pub struct AheadLines<B> {
    lines: BoxLines<B>,
    kept: AheadJournal,
}

impl<B: LineBox> AheadLines<B> {
    /// Returns a box that has taken no tick, with no text yet. This journal, which serves the box's
    /// link, is what the disk holds. A settle writes a number that is `ahead` above the last one
    /// used.
    pub fn new(key: &[u8], dir: Dir, journal: Journal, ahead: u64) -> AheadLines<B>
        /// The widths of the box are ones that it can be made with.
        requires widths { B.widths_fit }
        /// The journal serves the link of a box of this direction.
        requires link { journal_link journal ≡ B.link_in dir }
        /// No call on the journal has failed.
        requires whole { is_broken journal ≡ false }
        /// The box has taken 0 ticks.
        ensures taken { B.taken (box_in result) ≡ 0 }
        /// The disk is taken to hold this journal.
        ensures disk { disk_in result ≡ journal }
        /// A settle writes a number at most `ahead` above the last one used.
        ensures most { most_in result ≡ ahead }
        /// Over a disk that holds this journal, the box may take ticks.
        ensures may { (told : Option Slots) → Fits journal told
            → MayDrive B.LinkBox B.line_of result told }
        /// The box begins with this key and direction at the journal's floor, with no tick taken.
        ensures stands { StandsAfter B.LinkBox B.line_of result
            (setup_of key.now dir (journal_floor journal)) [] }
        /// Nothing waits.
        ensures waits { Waits (waits_in result) [] [] }
        /// The last number used is the journal's floor.
        ensures number { number_in result ≡ journal_floor journal }
        /// The disk was settled for the journal's floor.
        ensures settled { settled_in result ≡ journal_floor journal }
    {
        let memory = journal.in_memory();
        AheadLines {
            lines: BoxLines::new(key, dir, memory),
            kept: AheadJournal::new(journal, ahead),
        }
    }

    /// Takes the first ticks of this run, in memory alone: as many of a few as the box takes at
    /// once, or one tick if that is none. Returns how many.
    pub fn take_some(&mut self, run: TickRun<'_>) -> usize
        /// There is at least one tick.
        requires some { 0 < length (run_ticks run) }
        /// The box has then taken at most 2^62 ticks.
        requires count { B.taken (box_in self.old) + length (run_ticks run) ≤ MAX_TICKS }
        /// Journal and box serve one link, and have the same last number.
        requires ready { memory.BoxLinesAreReady B.LinkBox B.line_of self.old.lines }
        /// There is room for what a few ticks complete.
        requires room { TextHasRoom (texts_at self.old) }
        ensures { TakesSome B.LinkBox B.line_of self.old self.new (run_ticks run.entry) result }
    {
        self.lines.take_some(run)
    }

    /// Brings the floor of the disk to the last number used, or to a number ahead of it, and then
    /// adds the line that isn't filled to the text that waits. All that waits may go out then,
    /// before the call of `empty` that must come next.
    pub fn settle<D: SlotDisk>(&mut self, disk: &mut D) -> Result<(), JournalFault>
        /// There is room for the line that isn't filled, no call on the journal has failed, and the
        /// disk is as the journal knows it.
        requires { MayHandOn B.LinkBox B.line_of self.old (D.told disk.old) }
        /// The floor of the disk is from the last number used to `ahead` above it, and the line
        /// that isn't filled waits with the rest; or the disk's count of faults rose, and its floor
        /// is between the one before and the number that was to be written. If the journal was
        /// crash-safe, it still is, and no crash at any moment leaves a lower floor.
        ensures { Settles B.LinkBox B.line_of D.SlotDisk self.old self.new disk.old disk.new
            result }
    {
        let number = self.lines.number();
        self.kept.follow(number);
        match self.kept.settle_ahead(disk) {
            Ok(()) => {}
            Err(JournalFault) => return Err(JournalFault),
        }
        self.lines.settle(&mut NoSlots)
    }

    /// Brings the floor of the disk down to the last number used, at the end of the input. Nothing
    /// waits, and the disk is settled for all numbers used.
    pub fn lower<D: SlotDisk>(&mut self, disk: &mut D) -> Result<(), JournalFault>
        /// The floor of the disk is from the last number for which it was settled to `ahead` above
        /// it.
        requires ahead { IsAhead self.old }
        /// The disk is as the journal knows it.
        requires stands { StandsAhead self.old.kept (D.told disk.old) }
        /// The floor of the disk is the last number for which it was settled, or the disk's count
        /// of faults rose. If the journal was crash-safe, no crash at any moment leaves a floor
        /// below that number.
        ensures { Lowers B.LinkBox B.line_of D.SlotDisk self.old self.new disk.old disk.new result }
    {
        self.kept.lower(disk)
    }

    /// Returns the notes that wait.
    pub fn note_text(&self) -> &[u8]
        ensures { result.now ≡ (waits_in self.now).notes }
    {
        self.lines.note_text()
    }

    /// Returns the lines of ticks that wait.
    pub fn tick_text(&self) -> &[u8]
        ensures { result.now ≡ (waits_in self.now).ticks }
    {
        self.lines.tick_text()
    }

    /// Discards the texts that wait, once they have been written.
    pub fn empty(&mut self)
        ensures { Empties B.LinkBox B.line_of self.old self.new }
    {
        self.lines.empty();
    }

    /// Whether there is room for what the next ticks complete.
    pub fn has_room(&self) -> bool
        /// If it is true, there is room for what the next few ticks complete.
        ensures room { result ≡ true → TextHasRoom (texts_at self.now) }
        /// If it is false, there isn't.
        ensures full { result ≡ false → TextHasRoom (texts_at self.now) → ⊥ }
    {
        self.lines.has_room()
    }
}
