//! A box whose numbers go on in memory, with the texts that are made of its line. Before anything
//! of these goes out, the disk is settled: it is brought to the box's last number.
ghost use Rattle.std.specs.Prelude.{◌≡◌, ◌+◌, ◌<◌, ◌≤◌, [], ◌∷◌, length, true, false, Option};
ghost use Rattle.yasir_io.specs.Disks.{Slots};
ghost use Rattle.yasir_ticks.specs.TickRun.{run_ticks};
ghost use Rattle.yasir_ticks.specs.declared.TheConstants.{MAX_TICKS};
ghost use Rattle.link_format.specs.Setup.{setup_of};
ghost use Rattle.sequence_journal.specs.declared.link.LinkId.{LinkId};
ghost use Rattle.sequence_journal.specs.Journal.{journal_link, journal_floor, is_broken, Fits};
ghost use Rattle.sequence_journal.specs.Late.{disk_journal};
ghost use Rattle.sequence_journal.specs.declared.numbers.TheConstants.{LIMIT};
ghost use Rattle.line_texts.specs.Adding.{TextHasRoom, HasLineRoom, IsShort, Waits};
ghost use Rattle.line_texts.specs.Sending.{SinkTexts};
ghost use Rattle.line_commands.specs.BoxLines.{state_of_lines, DrivesBox, BoxLinesAreReady, MayDrive, BoxLinesTakeOn};
ghost use Rattle.line_commands.specs.BoxLines.{BoxLinesTakeUpTo, TakesSome, HandsOn, Finishes, Settles};
ghost use Rattle.line_commands.specs.BoxLines.{Empties, StandsAfter, MayHandOut, box_in, late_in};
ghost use Rattle.line_commands.specs.BoxLines.{texts_at, waits_in, number_in};

use crate::line_box::LineBox;
use crate::noted_steps::add_step;
use frame_ending::RunBytes;
use line_texts::{Texts, answer_run, short_front};
use link_format::Dir;
use sequence_journal::{Journal, JournalFault, LateJournal, NoSlots};
use tick_drive::Stop;
use yasir_io::{Failed, Sink, SlotDisk};
use yasir_ticks::{Tick, TickRun};

#[cfg(test)]
mod turn_tests;

/// A box over a journal in memory, what the disk is to hold of that journal, and the texts that are
/// made of the box's line: the other line as canonical tick text, and a line for each note, which
/// goes to the log.
#[derive(Drop)]
pub struct BoxLines<B> {
    line_box: B,
    journal: Journal,
    late: LateJournal,
    texts: Texts,
}

impl<B: LineBox> BoxLines<B> {
    /// Returns a box that has taken no tick, with no text yet. This journal, which serves the box's
    /// link, is what the disk holds.
    pub fn new(key: &[u8], dir: Dir, journal: Journal) -> BoxLines<B>
        /// The widths of the box are ones that it can be made with.
        requires widths { B.widths_fit }
        /// The journal serves the link of a box of this direction.
        requires link { journal_link journal ≡ B.link_in dir }
        /// No call on the journal has failed.
        requires whole { is_broken journal ≡ false }
        /// The box has taken 0 ticks.
        ensures taken { B.taken (box_in result) ≡ 0 }
        /// The disk is taken to hold this journal.
        ensures disk { disk_journal (late_in result) ≡ journal }
        /// Over a disk that holds this journal, the box may take ticks.
        ensures may { (told : Option Slots) → Fits journal told
            → MayDrive B.LinkBox B.line_of result told }
        /// The box begins with this key and direction at the journal's floor, with no tick taken.
        ensures stands { StandsAfter B.LinkBox B.line_of result
            (setup_of key.now dir (journal_floor journal)) [] }
        /// Nothing waits.
        ensures waits { Waits (waits_in result) [] [] }
        /// The last number used is the journal's floor.
        ensures number { number_in result ≡ journal_floor journal }
        /// Over whatever the sinks hold and the disk tells, the box is driven from here on, and
        /// nothing has gone out yet.
        ensures drives { (link : LinkId) (texts : SinkTexts) (told : Option Slots)
            → journal_link journal ≡ link
            → DrivesBox B.LinkBox B.line_of result
            (record {
              link = link;
              setup = setup_of key.now dir (journal_floor journal);
              texts = texts;
            })
            (record { out = texts.out; log = texts.log; slots = told }) [] }
    {
        BoxLines {
            line_box: B::new(key, dir),
            journal: journal.in_memory(),
            late: LateJournal::new(journal),
            texts: Texts::new(),
        }
    }

    // Takes as many of the first ticks of this run as the box forwards, and returns how many.
    #[inline(always)]
    fn forward(&mut self, run: TickRun<'_>) -> usize
        requires count { B.taken self.old.line_box + length (run_ticks run) ≤ MAX_TICKS }
        requires ready { BoxLinesAreReady B.LinkBox B.line_of self.old }
        requires room { TextHasRoom self.old.texts }
        requires short { IsShort (run_ticks run) }
        ensures takes { BoxLinesTakeUpTo B.LinkBox B.line_of self.old self.new (run_ticks run.entry) result }
        ensures none { result ≡ 0 → TextHasRoom self.new.texts }
        ensures line_room { HasLineRoom self.new.texts }
    {
        let count = self.line_box.forward(run);
        if count > 0 {
            self.texts.add_run(run.front(count));
        }
        count
    }

    // Takes as many of the first ticks of this run as the box takes at once while the other line
    // has only silence or only bytes, and returns how many.
    #[inline(always)]
    fn pass(&mut self, run: TickRun<'_>) -> usize
        requires count { B.taken self.old.line_box + length (run_ticks run) ≤ MAX_TICKS }
        requires ready { BoxLinesAreReady B.LinkBox B.line_of self.old }
        requires room { TextHasRoom self.old.texts }
        requires short { IsShort (run_ticks run) }
        ensures takes { BoxLinesTakeUpTo B.LinkBox B.line_of self.old self.new (run_ticks run.entry) result }
        ensures none { result ≡ 0 → TextHasRoom self.new.texts }
        ensures line_room { HasLineRoom self.new.texts }
    {
        let mut sent = RunBytes::new();
        let count = self.line_box.pass(run, &mut sent);
        if count > 0 {
            self.texts
                .add_run(answer_run(count as u32, sent.as_slice()));
        }
        count
    }

    // Takes one tick. It is a separate function, since most ticks are taken in runs.
    #[inline(never)]
    fn step(&mut self, tick: Tick)
        requires count { B.taken self.old.line_box < MAX_TICKS }
        requires ready { BoxLinesAreReady B.LinkBox B.line_of self.old }
        requires room { TextHasRoom self.old.texts }
        ensures takes { BoxLinesTakeOn B.LinkBox B.line_of self.old self.new (tick ∷ []) }
        ensures line_room { HasLineRoom self.new.texts }
    {
        let step = self
            .line_box
            .step(tick, &mut self.journal, &mut NoSlots)
            .unwrap();
        self.late.follow(&self.journal);
        add_step::<B>(&mut self.texts, step.tick, step.note);
    }

    /// Takes the first ticks of this run, in memory alone: as many of a few as the box takes at
    /// once, or one tick if that is none. Returns how many.
    #[inline(always)]
    pub fn take_some(&mut self, run: TickRun<'_>) -> usize
        /// There is at least one tick.
        requires some { 0 < length (run_ticks run) }
        /// The box has then taken at most 2^62 ticks.
        requires count { B.taken (box_in self.old) + length (run_ticks run) ≤ MAX_TICKS }
        /// Journal and box serve one link, and have the same last number.
        requires ready { BoxLinesAreReady B.LinkBox B.line_of self.old }
        /// There is room for what a few ticks complete.
        requires room { TextHasRoom (texts_at self.old) }
        ensures { TakesSome B.LinkBox B.line_of self.old self.new (run_ticks run.entry) result }
    {
        let short = short_front(run);
        let forwarded = self.forward(short);
        if forwarded > 0 {
            return forwarded;
        }
        let passed = self.pass(short);
        if passed > 0 {
            return passed;
        }
        self.step(run.first());
        1
    }

    /// Brings the disk to the journal, and then adds the line that isn't filled to the text that
    /// waits. All that waits may go out then, before the call of `empty` that must come next.
    pub fn settle<D: SlotDisk>(&mut self, disk: &mut D) -> Result<(), JournalFault>
        /// Journal and box serve one link, there is room for the line that isn't filled, and the
        /// disk is as the journal knows it.
        requires { MayHandOut B.LinkBox B.line_of self.old (D.told disk.old) }
        /// The floor of the disk is the last number used, and the line that isn't filled waits with
        /// the rest; or the disk's count of faults rose, and its floor is between the one before
        /// and the last number used. If the journal was crash-safe, it still is, and no crash at
        /// any moment leaves a lower floor.
        ensures { Settles B.LinkBox B.line_of D.SlotDisk self.old self.new disk.old disk.new
            result }
    {
        match self.late.settle_all(disk) {
            Ok(()) => {
                self.texts.close();
                Ok(())
            }
            Err(JournalFault) => Err(JournalFault),
        }
    }

    /// Returns the last number that the box has used.
    pub fn number(&self) -> u64
        /// It is the last number that the box has used.
        ensures value { result ≡ number_in self.now }
        /// It is at most 2^48 - 1.
        ensures within { result ≤ LIMIT }
    {
        self.journal.floor()
    }

    /// Returns the notes that wait.
    pub fn note_text(&self) -> &[u8]
        ensures { result.now ≡ (waits_in self.now).notes }
    {
        self.texts.note_text()
    }

    /// Returns the lines of ticks that wait.
    pub fn tick_text(&self) -> &[u8]
        ensures { result.now ≡ (waits_in self.now).ticks }
    {
        self.texts.tick_text()
    }

    /// Discards the texts that wait, once they have been written.
    pub fn empty(&mut self)
        ensures { Empties B.LinkBox B.line_of self.old self.new }
    {
        self.texts.empty();
    }

    /// Whether there is room for what the next ticks complete.
    #[inline]
    pub fn has_room(&self) -> bool
        /// If it is true, there is room for what the next few ticks complete.
        ensures room { result ≡ true → TextHasRoom (texts_at self.now) }
        /// If it is false, there isn't.
        ensures full { result ≡ false → TextHasRoom (texts_at self.now) → ⊥ }
    {
        self.texts.has_room()
    }
    /// Settles the disk, and then writes the notes that wait to the log, and the lines of ticks
    /// that wait to `out`. It is a separate function, since most ticks leave room for more.
    #[inline(never)]
    pub fn hand_out<O: Sink, L: Sink, D: SlotDisk>(
        &mut self,
        out: &mut O,
        log: &mut L,
        disk: &mut D,
    ) -> Result<(), Stop>
        /// Journal and box serve one link, and have the same last number.
        requires ready { BoxLinesAreReady B.LinkBox B.line_of self.old }
        /// The disk is as the journal knows it.
        requires fits { Fits (disk_journal (late_in self.old)) (D.told disk.old) }
        /// The box is driven as before, and may take ticks; or it stopped at a settle that failed,
        /// behind which nothing went out, or at a write that failed, behind which each sink has a
        /// front, the notes first. Each fault comes only if its object's count rose.
        ensures { HandsOn B.LinkBox B.line_of O.Sink L.Sink D.SlotDisk
            (state_of_lines self.old out.old log.old disk.old)
            (state_of_lines self.new out.new log.new disk.new) result }
    {
        match self.late.settle_all(disk) {
            Ok(()) => {}
            Err(JournalFault) => return Err(Stop::JournalFault),
        }
        match self.texts.hand_out(out, log) {
            Ok(()) => Ok(()),
            Err(Failed) => Err(Stop::WriteFault),
        }
    }

    /// Settles the disk, and then writes all that waits, the notes first and the last line too.
    pub fn finish<O: Sink, L: Sink, D: SlotDisk>(
        self,
        out: &mut O,
        log: &mut L,
        disk: &mut D,
    ) -> Result<(), Stop>
        /// Journal and box serve one link, and have the same last number.
        requires ready { BoxLinesAreReady B.LinkBox B.line_of self }
        /// The disk is as the journal knows it.
        requires fits { Fits (disk_journal (late_in self)) (D.told disk.old) }
        /// The sinks have got all that the box makes of its line, and the disk's floor is the last
        /// number used; or it stopped at a settle or a write that failed, as in `hand_out`.
        ensures { Finishes B.LinkBox B.line_of O.Sink L.Sink D.SlotDisk
            (state_of_lines self out.old log.old disk.old) out.new log.new disk.new result }
    {
        let BoxLines {
            mut late,
            texts,
            ..
        } = self;
        match late.settle_all(disk) {
            Ok(()) => {}
            Err(JournalFault) => return Err(Stop::JournalFault),
        }
        match texts.finish(out, log) {
            Ok(()) => Ok(()),
            Err(Failed) => Err(Stop::WriteFault),
        }
    }
}
