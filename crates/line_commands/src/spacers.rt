//! The spacers that a command drives, as one trait without constant parameters.
ghost use Rattle.std.specs.Prelude.{◌≡◌, ◌+◌, ◌-◌, ◌<◌, ◌≤◌, ℕ, List, [], ◌++◌, length, take};
ghost use Rattle.std.specs.Prelude.{drop, IfOk, Some, true, false};
ghost use Rattle.yasir_ticks.specs.TickRun.{run_ticks};
ghost use Rattle.yasir_ticks.specs.declared.TheConstants.{MAX_TICKS};
ghost use Rattle.yasir_ticks.specs.declared.tick.Tick.{Tick};
ghost use Rattle.frame_ending.specs.Answered.{answered};
ghost use Rattle.device_model.specs.Frames.{FrameRead, frames_lent};
ghost use Rattle.line_spacer.specs.Owing.{still_read};
ghost use Rattle.line_spacer.specs.Stands.{AnswersSpaced};
ghost use Rattle.line_commands.specs.SpacedTexts.{most_waiting};

use device_model::{Device, Met};
use line_spacer::{SpaceRun, Spacer};
use std::alloc::Global;
use yasir_io::NoMemory;
use yasir_ticks::TickRun;

/// How many frames may wait.
const MOST_WAITING: usize = 64;

/// A spacer as a command drives it, with room for 64 frames to wait. With this trait, a function
/// that is generic over spacers takes no type with a constant parameter.
pub trait LineSpacer: Drop {
    /// What is read of a line by the device as which the spacer hears it.
    ghost reads: { List Tick → List FrameRead };

    /// The least number of silent ticks between frames.
    ghost gap: { ℕ };

    /// There is at least one silent tick between frames.
    ghost gap_fits: { Type 0 };

    /// Holds if the spacer has answered a line, and has also heard these ticks after it, whose
    /// answers it owes. Of the frames that were read in these ticks it has taken in all but these,
    /// which were read in the last one.
    ghost owes: { Self → List Tick → List Tick → List FrameRead → Type 0 };

    /// How many ticks it has taken.
    ghost taken: { Self → ℕ };

    /// The bytes that it lends of the other line: those that left in the last ticks answered.
    ghost sent: { Self → List ℕ };

    /// The bytes that it lends of a frame: the one that is read or lost, if the last call says so.
    ghost lent: { Self → List ℕ };

    /// A spacer that has taken no tick. It takes its memory here, and none later.
    fn new(alloc: Global) -> Result<Self, NoMemory>
        /// There is at least one silent tick between frames.
        requires { gap_fits }
        /// It has taken 0 ticks.
        ensures taken { IfOk result (λ spacer. taken spacer ≡ 0) }
        /// It has answered no tick, and owes none.
        ensures owes { IfOk result (λ spacer. owes spacer [] [] []) };

    /// Takes the first ticks of this run, at least one of them, up to the first one in which a
    /// frame is read. It owes their answers, which `give_front` returns.
    fn hear_front(&mut self, run: TickRun<'_>) -> Met
        /// The spacer has then taken at most 2^62 ticks.
        requires room { taken self.old + length (run_ticks run) ≤ MAX_TICKS }
        /// There is at least one tick.
        requires some { 0 < length (run_ticks run) }
        /// At least one tick is taken.
        ensures some { 0 < result.taken }
        /// No more ticks are taken than there are.
        ensures within { result.taken ≤ length (run_ticks run.entry) }
        /// The ticks that are taken are counted.
        ensures taken { taken self.new ≡ taken self.old + result.taken }
        /// If no frame that was read is owed yet, the spacer owes the answers of these ticks too,
        /// and the frame that was read in the last of them, if one was.
        ensures owes { (line owed : List Tick) → owes self.old line owed []
            → owes self.new line (owed ++ take result.taken (run_ticks run.entry))
            (frames_lent result.start (lent self.new)) };

    /// Takes in the frame that was read in the last of the `owed` ticks that are owed, before they
    /// are answered, if it is sure to find room, and to wait until they are answered. Returns
    /// whether it did.
    fn queue_read(&mut self, owed: usize) -> bool
        /// At least one tick is owed.
        requires { 0 < owed }
        /// No tick is taken.
        ensures taken { taken self.new ≡ taken self.old }
        /// If it returns false, the spacer is as it was.
        ensures stays { result ≡ false → self.new ≡ self.old }
        /// If it returns true, the spacer has taken in the frame, and owes the same ticks.
        ensures owes { result ≡ true → (start : ℕ) (line ticks : List Tick) → length ticks ≡ owed
            → owes self.old line ticks (frames_lent (Some start) (lent self.old))
            → owes self.new line ticks [] };

    /// Answers the first of the `owed` ticks that are owed: at least one of them, and no further
    /// than the other line stays all bytes or all silence. `read` is the tick of the first byte of
    /// the frame that was read in the last of the owed ticks, if one was. Lends the bytes that
    /// leave, one in each tick, or none if silence leaves.
    fn give_front(&mut self, owed: usize, read: Option<u64>) -> SpaceRun
        /// At least one tick is owed.
        requires { 0 < owed }
        /// At least one tick is answered.
        ensures some { 0 < result.taken }
        /// No more ticks are answered than are owed.
        ensures within { result.taken ≤ owed }
        /// Fewer than 1,000,000 ticks are answered.
        ensures short { result.taken < 1000000 }
        /// No tick is taken.
        ensures taken { taken self.new ≡ taken self.old }
        /// The bytes of the frame that it lends are as they were.
        ensures lent { lent self.new ≡ lent self.old }
        /// The answered ticks are owed no more, and neither is the frame, unless it was read in a
        /// tick that still is.
        ensures owes { (line ticks : List Tick) → length ticks ≡ owed
            → owes self.old line ticks (frames_lent read (lent self.old))
            → owes self.new (line ++ take result.taken ticks) (drop result.taken ticks)
            (still_read (drop result.taken ticks) (frames_lent read (lent self.old))) }
        /// What leaves, and the frames that are lost, are what the definition of the spaced line
        /// adds for the answered ticks.
        ensures answer { (line ticks : List Tick) → length ticks ≡ owed
            → owes self.old line ticks (frames_lent read (lent self.old))
            → AnswersSpaced reads gap most_waiting line (take result.taken ticks)
            (answered result.taken (sent self.new)) (length line + (result.taken - 1))
            (frames_lent result.lost (lent self.new)) };

    /// The bytes that left in the last ticks answered, one in each tick, or none if silence left.
    fn sent_bytes(&self) -> &[u8]
        /// They are the bytes that left in the last ticks answered.
        ensures bytes { result.now ≡ sent self.now }
        /// There are at most 292.
        ensures few { length result.now ≤ 292 };

    /// The bytes of the frame that was read in the last tick taken.
    fn frame_bytes(&self) -> &[u8]
        /// They are the bytes of the frame that was read or lost, if the last call says so.
        ensures bytes { result.now ≡ lent self.now }
        /// There are at most 292.
        ensures few { length result.now ≤ 292 };
}

impl<V: Device + Drop, const GAP: usize> LineSpacer for Spacer<V, GAP> {
    ghost use Rattle.line_spacer.specs.Owing.{Owes};
    ghost use Rattle.line_spacer.specs.Stands.{ticks_spaced, bytes_sent, spaced_bytes_lent};

    ghost reads = { V.reads };

    ghost gap = { GAP };

    ghost gap_fits = { 0 < GAP };

    ghost owes = { Owes V.Device most_waiting };

    ghost taken = { ticks_spaced V.Device };

    ghost sent = { bytes_sent };

    ghost lent = { spaced_bytes_lent V.lent };

    fn new(alloc: Global) -> Result<Self, NoMemory> {
        Spacer::new(alloc, MOST_WAITING)
    }

    #[inline(always)]
    fn hear_front(&mut self, run: TickRun<'_>) -> Met {
        self.hear_some(run)
    }

    #[inline(always)]
    fn queue_read(&mut self, owed: usize) -> bool {
        Spacer::queue_read(self, owed)
    }

    #[inline(always)]
    fn give_front(&mut self, owed: usize, read: Option<u64>) -> SpaceRun {
        self.give_some(owed, read)
    }

    #[inline(always)]
    fn sent_bytes(&self) -> &[u8] {
        Spacer::sent_bytes(self)
    }

    #[inline(always)]
    fn frame_bytes(&self) -> &[u8] {
        Spacer::frame_bytes(self)
    }
}
