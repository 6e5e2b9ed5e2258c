//! What one way of a live line makes of its ticks, with the journal of its numbers. It waits until
//! it is handed on, and before anything is handed on, the disk is settled for it.
ghost use Rattle.std.specs.Prelude.{◌≡◌, ◌<◌, ◌≤◌, [], ◌∷◌, true, false, Option};
ghost use Rattle.yasir_ticks.specs.TickRun.{run_items};
ghost use Rattle.yasir_ticks.specs.Ticks.Item.{tick as tick_item};
ghost use Rattle.tick_drive.specs.Consumers as consumers;
ghost use Rattle.yasir_io.specs.Disks.{Slots};
ghost use Rattle.yasir_ticks.specs.declared.TheConstants.{MAX_TICKS};
ghost use Rattle.link_format.specs.Setup.{Setup};
ghost use Rattle.sequence_journal.specs.Journal.{journal_floor, Fits};
ghost use Rattle.line_texts.specs.Adding.{TextHasRoom};
ghost use Rattle.live_line.specs.WayLines.{MayTake, MayHandOn, HasTakenOn, TakesTick, Settles};
ghost use Rattle.live_line.specs.WayLines.{HandsOn, IsAhead, StandsOver, way_outside};
ghost use Rattle.live_line.specs.WayLines.{settled_in, disk_in, most_in, way_in, Lowers};
ghost use Rattle.live_line.specs.WayRuns as runs;

use crate::sending::hand_on_way;
use crate::way_box::WayBox;
use crate::ways::Way;
use line_commands::Port;
use line_texts::Texts;
use sequence_journal::{AheadJournal, Journal, JournalFault};
use tick_drive::Stop;
use yasir_io::{Failed, SlotDisk};
use yasir_ticks::{Tick, TickRun};

/// One way of a live line, the journal of its numbers, and the texts that are made of its line.
#[derive(Drop)]
pub struct WayLines<X> {
    way_box: X,
    kept: AheadJournal,
    texts: Texts,
}

impl<X: WayBox> WayLines<X> {
    /// Returns the lines of a way of which nothing waits. The disk holds this journal, and a settle
    /// writes a number that is `ahead` above the last one used.
    pub fn new(way_box: X, journal: Journal, ahead: u64) -> WayLines<X>
        /// It may take ticks.
        requires ready { X.ready way_box }
        /// The last number used is the journal's floor.
        requires number { X.number way_box ≡ journal_floor journal }
        /// It is the same box.
        ensures same { way_in result ≡ way_box }
        /// The disk is taken to hold this journal.
        ensures journal { disk_in result ≡ journal }
        /// A settle writes a number at most `ahead` above the last one used.
        ensures most { most_in result ≡ ahead }
        /// It may take ticks.
        ensures may { MayTake X.WayBox result }
        /// The disk's floor is the number for which it was settled.
        ensures ahead { IsAhead result }
        /// A disk that holds the journal is as the journal knows it.
        ensures stands { (told : Option Slots) → Fits journal told → StandsOver result told }
        /// If the box has taken no tick, nothing waits.
        ensures taken { (setup : Setup) → X.stands way_box setup []
            → HasTakenOn X.WayBox result setup [] [] }
    {
        WayLines {
            way_box,
            kept: AheadJournal::new(journal, ahead),
            texts: Texts::new(),
        }
    }

    /// Takes the next tick, in memory alone.
    pub fn take(&mut self, tick: Tick)
        /// It has taken fewer than 2^62 ticks.
        requires count { X.taken (way_in self.old) < MAX_TICKS }
        /// There is room for what a few ticks make.
        requires may { MayTake X.WayBox self.old }
        /// It has taken the tick, and what it makes of it waits.
        ensures { TakesTick X.WayBox self.old self.new tick }
    {
        self.way_box.take(tick, &mut self.texts);
    }

    /// Whether there is room for what the next tick makes.
    pub fn has_room(&self) -> bool
        /// What waits may be handed on.
        requires { MayHandOn X.WayBox self.now }
        /// If it is true, it may take ticks.
        ensures room { result ≡ true → MayTake X.WayBox self.now }
        /// If it is false, it may not.
        ensures full { result ≡ false → MayTake X.WayBox self.now → ⊥ }
    {
        self.texts.has_room()
    }

    // Brings the floor of the disk to the last number used, or to a number ahead of it, and then
    // adds the line that isn't filled to the text that waits.
    fn settle<D: SlotDisk>(&mut self, disk: &mut D) -> Result<(), JournalFault>
        requires may { MayHandOn X.WayBox self.old }
        requires stands { StandsOver self.old (D.told disk.old) }
        ensures { Settles X.WayBox D.SlotDisk self.old self.new disk.old disk.new result }
    {
        self.kept.follow(self.way_box.last_number());
        match self.kept.settle_ahead(disk) {
            Ok(()) => {}
            Err(JournalFault) => return Err(JournalFault),
        }
        self.texts.close();
        Ok(())
    }

    /// Hands on all that waits: settles the disk, then writes and flushes the notes, and then the
    /// text of the other line, each line with the letter of the way before it.
    pub fn hand_on<P: Port, D: SlotDisk>(
        &mut self,
        way: Way,
        port: &mut P,
        disk: &mut D,
    ) -> Result<(), Stop>
        /// There is room for the line that isn't filled.
        requires may { MayHandOn X.WayBox self.old }
        /// The disk is as the journal knows it.
        requires stands { StandsOver self.old (D.told disk.old) }
        /// Nothing waits then, and all is handed on; or a settle failed, and nothing was written to
        /// the port; or a write or a flush failed, and each output has got a front, the notes
        /// first. Unless the settle failed, no crash leaves a floor below the last number used.
        ensures { HandsOn X.WayBox P.Port D.SlotDisk way
            (way_outside self.old port.old disk.old) (way_outside self.new port.new disk.new)
            result }
    {
        match self.settle(disk) {
            Ok(()) => {}
            Err(JournalFault) => return Err(Stop::JournalFault),
        }
        match hand_on_way(port, way, self.texts.note_text(), self.texts.tick_text()) {
            Ok(()) => {}
            Err(Failed) => return Err(Stop::WriteFault),
        }
        self.texts.empty();
        Ok(())
    }

    /// Hands on all that waits, for a caller that goes on with what a run of ticks leaves.
    pub fn hand_all<P: Port, D: SlotDisk>(
        &mut self,
        way: Way,
        port: &mut P,
        disk: &mut D,
    ) -> Result<(), Stop>
        /// There is room for the line that isn't filled.
        requires may { MayHandOn X.WayBox self.old }
        /// The floor of the disk is from the number for which it was settled to `ahead` above it.
        requires ahead { IsAhead self.old }
        /// The disk is as the journal knows it.
        requires stands { StandsOver self.old (D.told disk.old) }
        /// Nothing waits then, and all is handed on; or it was stopped by a settle, or by a write
        /// or a flush.
        ensures { runs.HandsAll X.WayBox P.Port D.SlotDisk way
            (way_outside self.old port.old disk.old) (way_outside self.new port.new disk.new)
            result }
    {
        self.hand_on(way, port, disk)
    }

    // Takes a tick, and hands on all that waits if there is no room for more.
    fn take_tick<P: Port, D: SlotDisk>(
        &mut self,
        way: Way,
        port: &mut P,
        disk: &mut D,
        tick: Tick,
    ) -> Result<(), Stop>
        requires count { X.taken (way_in self.old) < MAX_TICKS }
        requires able { runs.IsAbleWay X.WayBox P.Port D.SlotDisk way
            (way_outside self.old port.old disk.old) }
        ensures { consumers.Gives (runs.way_filtering X.WayBox P.Port D.SlotDisk way)
            (way_outside self.old port.old disk.old) (way_outside self.new port.new disk.new)
            (tick_item tick ∷ []) result }
    {
        self.take(tick);
        if self.has_room() {
            return Ok(());
        }
        self.hand_all(way, port, disk)
    }

    /// Takes the ticks of a run, in order. What is made of them waits, and is handed on whenever
    /// there is no room for more.
    pub fn take_run<P: Port, D: SlotDisk>(
        &mut self,
        way: Way,
        port: &mut P,
        disk: &mut D,
        run: TickRun<'_>,
    ) -> Result<(), Stop>
        /// The box may count these ticks, the disk is as its journal knows it, and there is room
        /// for what a few ticks make.
        requires { consumers.MayTake (runs.way_filtering X.WayBox P.Port D.SlotDisk way)
            (way_outside self.old port.old disk.old) (run_items run) }
        /// It has taken the ticks of the run, and what it makes of them is handed on or waits; or
        /// it was stopped at one of them by a settle, or by a write or a flush.
        ensures { consumers.Gives (runs.way_filtering X.WayBox P.Port D.SlotDisk way)
            (way_outside self.old port.old disk.old) (way_outside self.new port.new disk.new)
            (run_items run.entry) result }
    {
        let mut following = run;
        while !following.is_empty() {
            match self.take_tick(way, port, disk, following.first()) {
                Ok(()) => following = following.behind(1),
                Err(stop) => return Err(stop),
            }
        }
        Ok(())
    }

    /// Brings the floor of the disk down to the last number for which it was settled, at the end of
    /// the input.
    pub fn lower<D: SlotDisk>(&mut self, disk: &mut D) -> Result<(), JournalFault>
        /// The floor of the disk is from the number for which it was settled to `ahead` above it.
        requires ahead { IsAhead self.old }
        /// The disk is as the journal knows it.
        requires stands { StandsOver self.old (D.told disk.old) }
        /// The floor of the disk is that number, or the disk's count of faults rose. If the journal
        /// was crash-safe, no crash at any moment leaves a floor below that number.
        ensures { Lowers D.SlotDisk self.old self.new disk.old disk.new result }
    {
        self.kept.lower(disk)
    }
}
