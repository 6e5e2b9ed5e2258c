//! The consumer that takes two recordings, and keeps the frames that are sealed, passed and read.
ghost use Rattle.std.specs.Prelude.{◌≡◌, ℕ, ◌+◌, ◌<◌, ◌≤◌, List, [], ◌∷◌, ◌++◌, IfOk, OnOk, false};
ghost use Rattle.std.specs.Prelude.{length, take};
ghost use Rattle.yasir_ticks.specs.declared.tick.Tick.{Tick};
ghost use Rattle.yasir_ticks.specs.Ticks.{silent};
ghost use Rattle.yasir_ticks.specs.TickRun.{run_ticks};
ghost use Rattle.frame_ending.specs.Answered.{answered};
ghost use Rattle.link_format.specs.Setup.{Setup, setup_of};
ghost use Rattle.device_model.specs.declared.device.Device.{Ghosts as Device};
ghost use Rattle.session_lists.specs.FrameBox.{AnswersFrameRun, kept_frames};
ghost use Rattle.session_lists.specs.FrameList.{KeptFrames, Holds, list_len};
ghost use Rattle.session_lists.specs.ReplayLists.{KeepsFrames, Listens, StepsInto};
ghost use Rattle.session_lists.specs.declared.frame_box.Numbered.{Numbered};

use crate::frame_box::{FrameBox, Numbered};
use crate::frame_list::FrameList;
use crate::hearing::{hear_answered, keep_lent};
use device_model::Device;
use frame_ending::RunBytes;
use link_format::Dir;
use std::alloc::Global;
use tick_drive::{Consumer, Stop};
use yasir_io::NoMemory;
use yasir_ticks::{MAX_TICKS, Tick, TickRun};

#[cfg(test)]
pub(crate) mod turn_tests;

/// Makes one step of a box, and keeps the frame that falls into it, if there is one. Returns the
/// tick of the other line.
#[inline]
pub fn step_into<B: FrameBox>(
    line_box: &mut B,
    frames: &mut FrameList<Numbered>,
    t: Tick,
) -> Result<Tick, NoMemory>
    /// Fewer than 2^62 ticks were taken before.
    requires room { B.taken line_box.old < MAX_TICKS }
    /// The box may go on.
    requires able { B.able line_box.old }
    /// The box may go on.
    ensures able { B.able line_box.new }
    /// One more tick is taken.
    ensures taken { B.taken line_box.new ≡ B.taken line_box.old + 1 }
    /// If there was memory, the list has at most one frame more.
    ensures few { OnOk result (list_len frames.new ≤ list_len frames.old + 1) }
    /// If there was memory, the tick that is returned is what the other line goes on with, and the
    /// list holds the frames of the line with this tick.
    ensures ok { IfOk result (λ tick. (setup : Setup) (line : List Tick)
        → KeepsFrames B.FrameBox line_box.old frames.old setup line
        → StepsInto B.FrameBox line_box.new frames.new setup line t tick) }
{
    let step = line_box.step(t);
    match step.frame {
        None => Ok(step.tick),
        Some(head) => match frames.push(head, line_box.bytes()) {
            Ok(()) => Ok(step.tick),
            Err(NoMemory) => Err(NoMemory),
        },
    }
}

// Gives this run to a box, which takes the first ticks at once. Returns how many it took, and puts
// the bytes that it sent into `sent`, or none for silence.
#[inline(always)]
pub(crate) fn pass_run<B: FrameBox>(
    line_box: &mut B,
    run: TickRun<'_>,
    sent: &mut RunBytes,
) -> usize
    requires room { B.taken line_box.old + length (run_ticks run) ≤ MAX_TICKS }
    requires able { B.able line_box.old }
    ensures within { result ≤ length (run_ticks run.entry) }
    ensures taken { B.taken line_box.new ≡ B.taken line_box.old + result }
    ensures able { B.able line_box.new }
    ensures stands { (setup : Setup) (line : List Tick) → B.stands line_box.old setup line
        → B.stands line_box.new setup (line ++ take result (run_ticks run.entry)) }
    ensures answers { (setup : Setup) (line : List Tick) → B.stands line_box.old setup line
        → AnswersFrameRun (B.numbering setup) line (take result (run_ticks run.entry))
        (answered result sent.new.items) }
{
    match run {
        TickRun::Bytes(bytes) => line_box.pass_bytes(bytes, sent),
        TickRun::Silence(ticks) => line_box.pass_silence(ticks, sent) as usize,
    }
}

/// Makes one step of a device, and keeps the frame that it reads in it, if there is one.
#[inline]
pub fn hear_into<V: Device>(
    device: &mut V,
    frames: &mut FrameList<u64>,
    t: Tick,
) -> Result<(), NoMemory>
    /// Fewer than 2^62 ticks were taken before.
    requires { V.taken device.old < MAX_TICKS }
    /// One more tick is taken.
    ensures taken { V.taken device.new ≡ V.taken device.old + 1 }
    /// If there was memory, the list has at most one frame more.
    ensures few { OnOk result (list_len frames.new ≤ list_len frames.old + 1) }
    /// If there was memory, the list holds the frames that are read of the line with this tick.
    ensures ok { OnOk result ((line : List Tick) → Listens V.Device device.old frames.old line
        → Listens V.Device device.new frames.new (line ++ t ∷ [])) }
{
    let start = device.step(t);
    keep_lent(device, start, frames)
}

/// Takes two recordings that a mark separates: the device's line, which goes to a transmitter `S`,
/// and the link, which goes to a receiver `C`. A device `V` hears what the receiver sends. The
/// frames that are sealed, passed and read are kept, and nothing is written.
#[derive(Drop)]
pub struct ReplayLists<S, C, V> {
    sealer: S,
    checker: C,
    device: V,
    sealed: FrameList<Numbered>,
    passed: FrameList<Numbered>,
    read: FrameList<u64>,
    marked: bool,
}

impl<S: FrameBox, C: FrameBox, V: Device + Drop> ReplayLists<S, C, V> {
    ghost use Rattle.yasir_ticks.specs.Ticks.Item.{tick as tick_item};
    ghost use Rattle.yasir_ticks.specs.TickRun.{run_items};
    ghost use Rattle.session_lists.specs.ReplayLists.{ChecksLists, HasListed, ListsAreReady, lists_taken};
    ghost use Rattle.session_lists.specs.ReplayLists.{GoesOnBy};
    ghost use Rattle.session_lists.specs.Listed.{MayList};
    ghost use Rattle.session_lists.specs.ReplayLists.{kept_reads};

    /// Lists of no frames, with boxes that have taken no tick, for a key of any length and a
    /// direction.
    pub fn new(alloc: Global, key: &[u8], dir: Dir) -> ReplayLists<S, C, V>
        /// The widths of the transmitter are ones that it can be made with.
        requires sealer { S.widths_fit }
        /// The widths of the receiver are ones that it can be made with.
        requires checker { C.widths_fit }
        /// The lists hold the frames of no ticks, of boxes with this key and direction at floor 0.
        ensures listed { HasListed S.FrameBox C.FrameBox V.Device result
            (setup_of key.now dir 0) [] [] }
        /// The lists have taken no item.
        ensures may_list { MayList S.FrameBox C.FrameBox V.Device result }
    {
        ReplayLists {
            sealer: S::new(key, dir, 0),
            checker: C::new(key, dir, 0),
            device: V::fresh(),
            sealed: FrameList::new(alloc),
            passed: FrameList::new(alloc),
            read: FrameList::new(alloc),
            marked: false,
        }
    }

    // Gives a tick to the transmitter.
    #[inline]
    fn seal(&mut self, t: Tick) -> Result<(), NoMemory>
        requires room { S.taken self.old.sealer < MAX_TICKS }
        requires able { S.able self.old.sealer }
        ensures able { S.able self.new.sealer }
        ensures others { self.new ≡ record self.old {
          sealer = self.new.sealer;
          sealed = self.new.sealed;
        } }
        ensures taken { S.taken self.new.sealer ≡ S.taken self.old.sealer + 1 }
        ensures ok { OnOk result ((setup : Setup) (line : List Tick)
            → KeepsFrames S.FrameBox self.old.sealer self.old.sealed setup line
            → KeepsFrames S.FrameBox self.new.sealer self.new.sealed setup (line ++ t ∷ [])) }
    {
        match step_into(&mut self.sealer, &mut self.sealed, t) {
            Ok(_) => Ok(()),
            Err(NoMemory) => Err(NoMemory),
        }
    }

    // Gives a tick to the receiver, and the tick that the receiver returns to the device.
    #[inline]
    fn check(&mut self, t: Tick) -> Result<(), NoMemory>
        requires room { C.taken self.old.checker < MAX_TICKS }
        requires ready { ListsAreReady S.FrameBox C.FrameBox V.Device self.old }
        ensures others { self.new ≡ record self.old {
          checker = self.new.checker;
          device = self.new.device;
          passed = self.new.passed;
          read = self.new.read;
        } }
        ensures taken { C.taken self.new.checker ≡ C.taken self.old.checker + 1 }
        ensures ready { OnOk result (ListsAreReady S.FrameBox C.FrameBox V.Device self.new) }
        ensures ok { OnOk result ((setup : Setup) (link : List Tick)
            → ChecksLists S.FrameBox C.FrameBox V.Device self.old setup link
            → ChecksLists S.FrameBox C.FrameBox V.Device self.new setup (link ++ t ∷ [])) }
    {
        let received = match step_into(&mut self.checker, &mut self.passed, t) {
            Ok(tick) => tick,
            Err(NoMemory) => return Err(NoMemory),
        };
        hear_into(&mut self.device, &mut self.read, received)
    }

    // Gives the first ticks of this run to the transmitter at once, and returns how many.
    #[inline(always)]
    fn seal_run(&mut self, run: TickRun<'_>) -> usize
        requires room { S.taken self.old.sealer + length (run_ticks run) ≤ MAX_TICKS }
        requires able { S.able self.old.sealer }
        ensures within { result ≤ length (run_ticks run.entry) }
        ensures able { S.able self.new.sealer }
        ensures others { self.new ≡ record self.old {
          sealer = self.new.sealer;
          sealed = self.new.sealed;
        } }
        ensures taken { S.taken self.new.sealer ≡ S.taken self.old.sealer + result }
        ensures ok { (setup : Setup) (line : List Tick)
            → KeepsFrames S.FrameBox self.old.sealer self.old.sealed setup line
            → KeepsFrames S.FrameBox self.new.sealer self.new.sealed setup
            (line ++ take result (run_ticks run.entry)) }
    {
        let mut sent = RunBytes::new();
        pass_run(&mut self.sealer, run, &mut sent)
    }

    // Gives the first ticks of this run to the receiver at once, and what it sends for them to the
    // device. Returns how many.
    #[inline(always)]
    fn check_run(&mut self, run: TickRun<'_>) -> Result<usize, NoMemory>
        requires room { C.taken self.old.checker + length (run_ticks run) ≤ MAX_TICKS }
        requires ready { ListsAreReady S.FrameBox C.FrameBox V.Device self.old }
        ensures within { IfOk result (λ n. n ≤ length (run_ticks run.entry)) }
        ensures others { self.new ≡ record self.old {
          checker = self.new.checker;
          device = self.new.device;
          passed = self.new.passed;
          read = self.new.read;
        } }
        ensures taken { IfOk result (λ n.
            C.taken self.new.checker ≡ C.taken self.old.checker + n) }
        ensures ready { OnOk result (ListsAreReady S.FrameBox C.FrameBox V.Device self.new) }
        ensures ok { IfOk result (λ n. (setup : Setup) (link : List Tick)
            → ChecksLists S.FrameBox C.FrameBox V.Device self.old setup link
            → ChecksLists S.FrameBox C.FrameBox V.Device self.new setup
            (link ++ take n (run_ticks run.entry))) }
    {
        let mut sent = RunBytes::new();
        let count = pass_run(&mut self.checker, run, &mut sent);
        match hear_answered(&mut self.device, &mut self.read, count, sent.as_slice()) {
            Ok(()) => Ok(count),
            Err(NoMemory) => Err(NoMemory),
        }
    }

    // Takes the first ticks of this run at once, and returns how many, which may be 0.
    #[inline(always)]
    fn take_front(&mut self, run: TickRun<'_>) -> Result<usize, NoMemory>
        requires room { lists_taken S.FrameBox C.FrameBox V.Device self.old
            + length (run_ticks run) ≤ MAX_TICKS }
        requires ready { ListsAreReady S.FrameBox C.FrameBox V.Device self.old }
        ensures within { IfOk result (λ n. n ≤ length (run_ticks run.entry)) }
        ensures goes { IfOk result (λ n. GoesOnBy S.FrameBox C.FrameBox V.Device self.old self.new
            (take n (run_items run.entry))) }
    {
        if !self.marked {
            return Ok(self.seal_run(run));
        }
        match self.check_run(run) {
            Ok(count) => Ok(count),
            Err(NoMemory) => Err(NoMemory),
        }
    }

    // Takes one tick.
    #[inline(never)]
    fn take_tick(&mut self, tick: Tick) -> Result<(), NoMemory>
        requires room { lists_taken S.FrameBox C.FrameBox V.Device self.old < MAX_TICKS }
        requires ready { ListsAreReady S.FrameBox C.FrameBox V.Device self.old }
        ensures { OnOk result (GoesOnBy S.FrameBox C.FrameBox V.Device self.old self.new
            (tick_item tick ∷ [])) }
    {
        if self.marked {
            match self.check(tick) {
                Ok(()) => Ok(()),
                Err(NoMemory) => Err(NoMemory),
            }
        } else {
            match self.seal(tick) {
                Ok(()) => Ok(()),
                Err(NoMemory) => Err(NoMemory),
            }
        }
    }

    /// The frames that were sealed.
    pub fn sealed(&self) -> &FrameList<Numbered>
        ensures { (setup : Setup) (device link : List Tick)
            → HasListed S.FrameBox C.FrameBox V.Device self.now setup device link
            → Holds result.now (kept_frames ((S.numbering setup).frames device)) }
    {
        &self.sealed
    }

    /// The frames that have passed.
    pub fn passed(&self) -> &FrameList<Numbered>
        ensures { (setup : Setup) (device link : List Tick)
            → HasListed S.FrameBox C.FrameBox V.Device self.now setup device link
            → Holds result.now (kept_frames ((C.numbering setup).frames link)) }
    {
        &self.passed
    }

    /// The frames that were read, each with the tick of its first byte.
    pub fn read(&self) -> &FrameList<u64>
        ensures { (setup : Setup) (device link : List Tick)
            → HasListed S.FrameBox C.FrameBox V.Device self.now setup device link
            → Holds result.now (kept_reads (V.reads ((C.numbering setup).other_line link))) }
    {
        &self.read
    }

    /// Gives the transmitter `ticks` silent ticks after its recording, the one before the mark.
    pub fn rest(&mut self, ticks: u32) -> Result<(), NoMemory>
        /// The transmitter has then taken at most 2^62 ticks.
        requires room { S.taken self.old.sealer + ticks ≤ MAX_TICKS }
        /// The transmitter may go on.
        requires able { S.able self.old.sealer }
        /// If there was memory, the lists hold what is sealed of the device's line with this
        /// silence after it.
        ensures { OnOk result ((setup : Setup) (device link : List Tick)
            → HasListed S.FrameBox C.FrameBox V.Device self.old setup device link
            → HasListed S.FrameBox C.FrameBox V.Device self.new setup (device ++ silent ticks)
            link) }
    {
        for _ in 0..ticks {
            match self.seal(Tick::Silent) {
                Ok(()) => {}
                Err(NoMemory) => return Err(NoMemory),
            }
        }
        Ok(())
    }
}

impl<S: FrameBox, C: FrameBox, V: Device + Drop> Consumer for ReplayLists<S, C, V> {
    ghost use Rattle.session_lists.specs.ReplayLists.{listing};

    ghost meaning = { listing S.FrameBox C.FrameBox V.Device };

    // Gives as many ticks at once as the box takes that way or, if it takes none, a single one.
    #[inline(always)]
    fn take_some(&mut self, run: TickRun<'_>) -> Result<usize, Stop> {
        let count = match self.take_front(run) {
            Ok(count) => count,
            Err(NoMemory) => return Err(Stop::NoMemory),
        };
        if count > 0 {
            return Ok(count);
        }
        let first = run.first();
        match self.take_tick(first) {
            Ok(()) => Ok(1),
            Err(NoMemory) => Err(Stop::NoMemory),
        }
    }

    fn take_mark(&mut self) -> Result<(), Stop> {
        self.marked = true;
        Ok(())
    }

    ghost went_none = { λ lists ready. tt };

    ghost went_then = { λ a b c result first second. tt };
}
