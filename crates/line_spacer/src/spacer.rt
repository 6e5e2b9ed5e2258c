//! The spacer: its queue of frames, and what it returns for a tick and for a run of ticks.
ghost use Rattle.std.specs.Prelude.{◌≡◌, ◌≤◌, ◌<◌, None};

use crate::frame_queue::{FrameQueue, LONGEST, fill_front};
use device_model::{Device, Met, hear_run};
use std::alloc::Global;
use yasir_io::NoMemory;
use yasir_ticks::{MAX_TICKS, Tick, TickRun};

// The most ticks that are answered at once.
const MOST_TICKS: usize = 999_999;

/// What a spacer returns for a tick.
#[derive(Clone, Copy)]
pub struct SpaceStep {
    /// The tick of the other line.
    pub tick: Tick,
    /// The tick of the first byte of the frame that was read in this step and is lost since too
    /// many wait, if there is one. The spacer lends the frame's bytes.
    pub lost: Option<u64>,
}

/// What a spacer returns for some ticks. It lends the bytes that left.
#[derive(Clone, Copy)]
pub struct SpaceRun {
    /// How many ticks of the run it has taken, or how many of the ticks that it owed it has
    /// answered.
    pub taken: usize,
    /// The tick of the first byte of the frame that was read in the last of these ticks and is lost
    /// since too many wait, if there is one. The spacer lends the frame's bytes.
    pub lost: Option<u64>,
}

// Returns `read`, which was read in the last of the ticks that are owed, if the first `ticks` of
// them include that one, and `None` if they don't.
#[inline(always)]
fn read_in_front(ticks: usize, owed: usize, read: Option<u64>) -> Option<u64>
    ensures part { ticks < owed → result ≡ None }
    ensures all { owed ≤ ticks → result ≡ read }
{
    if ticks < owed {
        return None;
    }
    read
}

/// A box that hears a line as the device `V` does. Each frame that it reads is sent again on
/// another line, whole and in order, at least `GAP` silent ticks after the one before. Frames that
/// can't be sent yet wait in a queue, and a frame that finds no room there is lost. Nothing else of
/// the line is sent on.
#[derive(Drop)]
pub struct Spacer<V, const GAP: usize> {
    device: V,
    queue: FrameQueue,
    // the frame that was begun last, or is the next to begin, is at the front of this room
    room: [u8; LONGEST],
    size: usize,
    // whether that frame is still to begin, and so waits
    ready: bool,
    // how many of its bytes were sent before the last ticks that were taken, and how many by the
    // end of those ticks
    before: usize,
    sent: usize,
    // the silent ticks that are still to pass after the frame that was begun last
    pause: usize,
    ghost grows: { before ≤ sent },
    ghost within: { sent ≤ size },
    ghost fits: { size ≤ 292 },
}

impl<V: Device, const GAP: usize> Spacer<V, GAP> {
    ghost use Rattle.std.specs.Prelude.{ℕ, ◌+◌, List, [], ◌∷◌, ◌++◌, length};
    ghost use Rattle.std.specs.Prelude.{IfOk, ◌-◌, take, drop, Some, true, false};
    ghost use Rattle.yasir_ticks.specs.TickRun.{run_ticks};
    ghost use Rattle.frame_ending.specs.Answered.{answered};
    ghost use Rattle.line_spacer.specs.Runs.{IsMade, StaysAlike, SendsRunBy};
    ghost use Rattle.line_spacer.specs.Owing.{Owes, still_read, busy_ticks};
    ghost use Rattle.yasir_ticks.specs.Bursts.{Burst};
    ghost use Rattle.yasir_ticks.specs.declared.tick.Tick.{Tick};
    ghost use Rattle.device_model.specs.Frames.{frames_lent};
    ghost use Rattle.line_spacer.specs.Spacing.{Spaced, waiting_of};
    ghost use Rattle.line_spacer.specs.Stands.{SpacerStandsFor, AnswersSpaced, ticks_spaced, spaced_bytes_lent};
    ghost use Rattle.line_spacer.specs.Stands.{SentBy, TakesIn, taken_in, bytes_sent};
    ghost use Rattle.line_spacer.specs.Stands.{frames_waiting, tick_of};

    /// A spacer that has taken no tick, with room for `cap` frames to wait. It takes its memory
    /// here, and none later.
    pub fn new(alloc: Global, cap: usize) -> Result<Spacer<V, GAP>, NoMemory>
        /// There is at least one silent tick between frames.
        requires gap { 0 < GAP }
        /// It has taken 0 ticks.
        ensures taken { IfOk result (λ spacer. ticks_spaced V.Device spacer ≡ 0) }
        /// It begins with room for `cap` waiting frames, with no tick taken.
        ensures stands { IfOk result (λ spacer. SpacerStandsFor V.Device cap spacer []) }
        /// It has answered no tick, and owes none.
        ensures owes { IfOk result (λ spacer. Owes V.Device cap spacer [] [] []) }
    {
        let queue = FrameQueue::with_capacity(alloc, cap)?;
        Ok(Spacer {
            device: V::fresh(),
            queue,
            room: [0; LONGEST],
            size: 0,
            ready: false,
            before: 0,
            sent: 0,
            pause: 0,
        })
    }

    // Makes the first frame of the queue the next to begin. It is kept separate, since few runs
    // begin a frame.
    #[inline(never)]
    fn make_next(&mut self)
        requires begun { self.old.ready ≡ false }
        requires sent { self.old.size ≤ self.old.sent }
        requires some { 0 < length self.old.queue.frames }
        ensures device { self.new.device ≡ self.old.device }
        ensures room { self.new.queue.capacity ≡ self.old.queue.capacity }
        ensures ready { self.new.ready ≡ true }
        ensures sent { (m : ℕ) (accepted : List Burst) → SentBy self.old m accepted
            → SentBy self.new m accepted }
    {
        self.before = 0;
        self.sent = 0;
        self.size = 0;
        self.size = self.queue.pop_front(&mut self.room);
        self.ready = true;
    }

    // Makes the first frame of the queue the next to begin, if there is one, and if nothing is left
    // of the frame before it and of the silence between them.
    #[inline(always)]
    fn make_ready(&mut self)
        ensures device { self.new.device ≡ self.old.device }
        ensures room { self.new.queue.capacity ≡ self.old.queue.capacity }
        ensures made { IsMade self.new }
        ensures sent { (m : ℕ) (accepted : List Burst) → SentBy self.old m accepted
            → SentBy self.new m accepted }
    {
        if self.pause > 0 {
            return;
        }
        if self.ready {
            return;
        }
        if self.sent < self.size {
            return;
        }
        if self.queue.is_empty() {
            return;
        }
        self.make_next();
    }

    // Returns for how many ticks, at least, the other line stays alike: all bytes of one frame, or
    // all silence.
    #[inline(always)]
    fn alike(&self) -> usize
        requires { IsMade self.now }
        ensures some { 0 < result }
        ensures alike { StaysAlike self.now result }
    {
        if self.ready {
            if self.pause > 0 {
                return self.pause;
            }
            return self.size.max(1);
        }
        if self.sent < self.size {
            return self.size - self.sent;
        }
        if self.pause > 0 {
            return self.pause;
        }
        usize::MAX
    }

    // Sends the next ticks of the other line, in which it stays alike, when a frame is ready to
    // begin: silence before it, or its first bytes. It is kept separate, since few runs begin a
    // frame.
    #[inline(never)]
    fn send_next(&mut self, ticks: usize)
        requires some { 0 < ticks }
        requires ready { self.old.ready ≡ true }
        requires alike { StaysAlike self.old ticks }
        ensures device { self.new.device ≡ self.old.device }
        ensures room { self.new.queue.capacity ≡ self.old.queue.capacity }
        ensures sends { (m : ℕ) (accepted : List Burst) → SentBy self.old m accepted
            → SendsRunBy self.new m accepted (answered ticks (bytes_sent self.new)) }
        ensures long { length (answered ticks (bytes_sent self.new)) ≡ ticks }
    {
        if self.pause > 0 {
            self.before = self.sent;
            self.pause = self.pause.saturating_sub(ticks);
            return;
        }
        self.ready = false;
        self.before = 0;
        self.sent = ticks.min(self.size);
        if self.size == 0 {
            self.pause = GAP.saturating_sub(1);
            return;
        }
        self.pause = GAP;
    }

    // Sends the next ticks of the other line, in which it stays alike.
    #[inline(always)]
    fn send_some(&mut self, ticks: usize)
        requires some { 0 < ticks }
        requires alike { StaysAlike self.old ticks }
        ensures device { self.new.device ≡ self.old.device }
        ensures room { self.new.queue.capacity ≡ self.old.queue.capacity }
        ensures sends { (m : ℕ) (accepted : List Burst) → SentBy self.old m accepted
            → SendsRunBy self.new m accepted (answered ticks (bytes_sent self.new)) }
        ensures long { length (answered ticks (bytes_sent self.new)) ≡ ticks }
    {
        if self.ready {
            return self.send_next(ticks);
        }
        if self.sent < self.size {
            self.before = self.sent;
            self.sent += ticks;
            return;
        }
        self.before = self.sent;
        self.pause = self.pause.saturating_sub(ticks);
    }

    // Adds the frame that the device lends to the queue.
    fn queue_frame(&mut self)
        requires few { length (frames_waiting self.old) < self.old.queue.capacity }
        ensures device { self.new.device ≡ self.old.device }
        ensures room { self.new.queue.capacity ≡ self.old.queue.capacity }
        ensures lent { bytes_sent self.new ≡ bytes_sent self.old }
        ensures sent { (start step : ℕ) (s : Spaced) → SentBy self.old (step + 1) s.accepted
            → SentBy self.new (step + 1) (taken_in GAP self.old.queue.capacity step s
            (frames_lent (Some start) (spaced_bytes_lent V.lent self.old))).accepted }
    {
        self.queue.push_back(self.device.frame_bytes());
    }

    // Makes the frame that the device lends the next to begin.
    fn hold_frame(&mut self)
        requires few { length (frames_waiting self.old) < self.old.queue.capacity }
        requires none { length (frames_waiting self.old) ≤ 0 }
        requires free { self.old.size ≤ self.old.before }
        ensures device { self.new.device ≡ self.old.device }
        ensures room { self.new.queue.capacity ≡ self.old.queue.capacity }
        ensures lent { bytes_sent self.new ≡ bytes_sent self.old }
        ensures sent { (start step : ℕ) (s : Spaced) → SentBy self.old (step + 1) s.accepted
            → SentBy self.new (step + 1) (taken_in GAP self.old.queue.capacity step s
            (frames_lent (Some start) (spaced_bytes_lent V.lent self.old))).accepted }
    {
        self.before = 0;
        self.sent = 0;
        self.size = 0;
        self.size = fill_front(&mut self.room, self.device.frame_bytes());
        self.ready = true;
    }

    // Queues the frame that the device lends, or returns its start if too many wait. If none waits,
    // and nothing of the frame before it is still to be sent or is lent, it becomes the next to
    // begin. It is kept separate, since few ticks end a frame.
    #[inline(never)]
    fn keep_frame(&mut self, start: u64) -> Option<u64>
        ensures device { self.new.device ≡ self.old.device }
        ensures room { self.new.queue.capacity ≡ self.old.queue.capacity }
        ensures lent { bytes_sent self.new ≡ bytes_sent self.old }
        ensures sent { (step : ℕ) (s : Spaced) → SentBy self.old (step + 1) s.accepted
            → SentBy self.new (step + 1) (taken_in GAP self.old.queue.capacity step s
            (frames_lent (Some start) (spaced_bytes_lent V.lent self.old))).accepted }
        ensures takes { (step : ℕ) (s : Spaced) → SentBy self.old (step + 1) s.accepted
            → TakesIn GAP self.old.queue.capacity step s
            (frames_lent (Some start) (spaced_bytes_lent V.lent self.old))
            (frames_lent result (spaced_bytes_lent V.lent self.new)) }
    {
        let waiting = self.waiting();
        if waiting >= self.queue.capacity() {
            return Some(start);
        }
        if waiting > 0 || self.before < self.size {
            self.queue_frame();
            return None;
        }
        self.hold_frame();
        None
    }

    // Queues the frame that is read, if one is, or returns its start if too many wait.
    #[inline(always)]
    fn keep(&mut self, read: Option<u64>) -> Option<u64>
        ensures device { self.new.device ≡ self.old.device }
        ensures room { self.new.queue.capacity ≡ self.old.queue.capacity }
        ensures lent { bytes_sent self.new ≡ bytes_sent self.old }
        ensures sent { (step : ℕ) (s : Spaced) → SentBy self.old (step + 1) s.accepted
            → SentBy self.new (step + 1)
            (taken_in GAP self.old.queue.capacity step s
            (frames_lent read (spaced_bytes_lent V.lent self.old))).accepted }
        ensures takes { (step : ℕ) (s : Spaced) → SentBy self.old (step + 1) s.accepted
            → TakesIn GAP self.old.queue.capacity step s
            (frames_lent read (spaced_bytes_lent V.lent self.old))
            (frames_lent result (spaced_bytes_lent V.lent self.new)) }
    {
        let Some(start) = read else {
            return None;
        };
        self.keep_frame(start)
    }

    /// Takes the first ticks of this run, at least one of them. It goes no further than the other
    /// line stays alike, all bytes or all silence, and no further than the first tick in which a
    /// frame is read. Lends the bytes that leave, one in each tick, or none if silence leaves.
    #[inline(always)]
    pub fn take_some(&mut self, run: TickRun<'_>) -> SpaceRun
        /// The spacer has then taken at most 2^62 ticks.
        requires room { ticks_spaced V.Device self.old + length (run_ticks run) ≤ MAX_TICKS }
        /// There is at least one tick.
        requires some { 0 < length (run_ticks run) }
        /// At least one tick is taken.
        ensures some { 0 < result.taken }
        /// No more ticks are taken than there are.
        ensures within { result.taken ≤ length (run_ticks run.entry) }
        /// The ticks that are taken are counted.
        ensures taken { ticks_spaced V.Device self.new
            ≡ ticks_spaced V.Device self.old + result.taken }
        /// There is a byte for each tick that is taken, or none at all.
        ensures long { length (answered result.taken (bytes_sent self.new)) ≡ result.taken }
        /// The spacer has taken these ticks after its line.
        ensures stands { (cap : ℕ) (line : List Tick) → SpacerStandsFor V.Device cap self.old line
            → SpacerStandsFor V.Device cap self.new
            (line ++ take result.taken (run_ticks run.entry)) }
        /// What leaves is what the spaced line goes on with, and a frame that is lost was read in
        /// the last of these ticks.
        ensures answer { (cap : ℕ) (line : List Tick) → SpacerStandsFor V.Device cap self.old line
            → AnswersSpaced V.reads GAP cap line (take result.taken (run_ticks run.entry))
            (answered result.taken (bytes_sent self.new)) (length line + (result.taken - 1))
            (frames_lent result.lost (spaced_bytes_lent V.lent self.new)) }
    {
        self.make_ready();
        let most = self.alike().min(run.len());
        let front = run.front(most);
        let Met { taken, start } = hear_run(&mut self.device, front);
        self.send_some(taken);
        let lost = self.keep(start);
        SpaceRun { taken, lost }
    }

    /// Takes the first ticks of this run, at least one of them, up to the first one in which a
    /// frame is read, whose bytes it then lends. It owes what leaves in these ticks: `give_some`
    /// answers them.
    #[inline(always)]
    pub fn hear_some(&mut self, run: TickRun<'_>) -> Met
        /// The spacer has then taken at most 2^62 ticks.
        requires room { ticks_spaced V.Device self.old + length (run_ticks run) ≤ MAX_TICKS }
        /// There is at least one tick.
        requires some { 0 < length (run_ticks run) }
        /// At least one tick is taken.
        ensures some { 0 < result.taken }
        /// No more ticks are taken than there are.
        ensures within { result.taken ≤ length (run_ticks run.entry) }
        /// The ticks that are taken are counted.
        ensures taken { ticks_spaced V.Device self.new
            ≡ ticks_spaced V.Device self.old + result.taken }
        /// If no frame that was read is owed yet, the spacer owes the answers of these ticks too,
        /// and the frame that was read in the last of them, if one was.
        ensures owes { (cap : ℕ) (line owed : List Tick) → Owes V.Device cap self.old line owed []
            → Owes V.Device cap self.new line (owed ++ take result.taken (run_ticks run.entry))
            (frames_lent result.start (spaced_bytes_lent V.lent self.new)) }
    {
        hear_run(&mut self.device, run)
    }

    // Returns for how many ticks, at least, the other line is busy.
    #[inline(always)]
    fn busy(&self) -> usize
        ensures { result ≤ busy_ticks self.now }
    {
        let gaps = self.queue.len().saturating_mul(GAP);
        let queued = self.queue.bytes_waiting().saturating_add(gaps);
        let behind = queued.saturating_add(self.pause);
        if self.ready {
            let next = self.size.saturating_add(GAP);
            return behind.saturating_add(next);
        }
        behind.saturating_add(self.size - self.sent)
    }

    /// Queues the frame that was read in the last of the `owed` ticks that are owed, before they
    /// are answered, if it is sure to find room, and to wait until they are answered. Returns
    /// whether it did.
    #[inline(never)]
    pub fn queue_read(&mut self, owed: usize) -> bool
        /// At least one tick is owed.
        requires { 0 < owed }
        /// No tick is taken.
        ensures taken { ticks_spaced V.Device self.new ≡ ticks_spaced V.Device self.old }
        /// If it returns false, the spacer is as it was.
        ensures stays { result ≡ false → self.new ≡ self.old }
        /// If it returns true, the frame is queued, and the spacer owes the same ticks.
        ensures owes { result ≡ true → (cap start : ℕ) (line ticks : List Tick)
            → length ticks ≡ owed
            → Owes V.Device cap self.old line ticks
            (frames_lent (Some start) (spaced_bytes_lent V.lent self.old))
            → Owes V.Device cap self.new line ticks [] }
    {
        if self.waiting() >= self.queue.capacity() {
            return false;
        }
        if self.busy() < owed {
            return false;
        }
        self.queue.push_back(self.device.frame_bytes());
        true
    }

    /// Answers the first of the `owed` ticks that are owed: at least one of them, and no further
    /// than the other line stays alike, all bytes or all silence. `read` is the tick of the first
    /// byte of the frame that was read in the last of the owed ticks, if one was. Lends the bytes
    /// that leave, one in each tick, or none if silence leaves.
    #[inline(always)]
    pub fn give_some(&mut self, owed: usize, read: Option<u64>) -> SpaceRun
        /// At least one tick is owed.
        requires { 0 < owed }
        /// At least one tick is answered.
        ensures some { 0 < result.taken }
        /// No more ticks are answered than are owed.
        ensures within { result.taken ≤ owed }
        /// Fewer than 1,000,000 ticks are answered.
        ensures short { result.taken < 1000000 }
        /// No tick is taken.
        ensures taken { ticks_spaced V.Device self.new ≡ ticks_spaced V.Device self.old }
        /// The bytes of the frame that it lends are as they were.
        ensures lent { spaced_bytes_lent V.lent self.new ≡ spaced_bytes_lent V.lent self.old }
        /// There is a byte for each tick that is answered, or none at all.
        ensures long { length (answered result.taken (bytes_sent self.new)) ≡ result.taken }
        /// The answered ticks are owed no more, and neither is the frame, unless it was read in a
        /// tick that still is.
        ensures owes { (cap : ℕ) (line ticks : List Tick) → length ticks ≡ owed
            → Owes V.Device cap self.old line ticks (frames_lent read (spaced_bytes_lent V.lent self.old))
            → Owes V.Device cap self.new (line ++ take result.taken ticks)
            (drop result.taken ticks) (still_read (drop result.taken ticks)
            (frames_lent read (spaced_bytes_lent V.lent self.old))) }
        /// What leaves is what the spaced line goes on with for these ticks, and a frame that is
        /// lost was read in the last of them.
        ensures answer { (cap : ℕ) (line ticks : List Tick) → length ticks ≡ owed
            → Owes V.Device cap self.old line ticks (frames_lent read (spaced_bytes_lent V.lent self.old))
            → AnswersSpaced V.reads GAP cap line (take result.taken ticks)
            (answered result.taken (bytes_sent self.new)) (length line + (result.taken - 1))
            (frames_lent result.lost (spaced_bytes_lent V.lent self.new)) }
    {
        self.make_ready();
        let most = self.alike().min(MOST_TICKS);
        let count = most.min(owed);
        self.send_some(count);
        let found = read_in_front(count, owed, read);
        let kept = self.keep(found);
        SpaceRun {
            taken: count,
            lost: kept,
        }
    }

    // The first of the ticks that left last: a byte, or silence if no bytes left.
    fn tick_left(&self) -> Tick
        ensures { result ≡ tick_of 0 (bytes_sent self.now) 0 }
    {
        match self.sent_bytes().first() {
            Some(byte) => Tick::Byte(*byte),
            None => Tick::Silent,
        }
    }

    // Takes the one tick of this run.
    fn take_one(&mut self, run: TickRun<'_>) -> SpaceStep
        requires room { ticks_spaced V.Device self.old < MAX_TICKS }
        requires one { length (run_ticks run) ≡ 1 }
        ensures taken { ticks_spaced V.Device self.new ≡ ticks_spaced V.Device self.old + 1 }
        ensures stands { (cap : ℕ) (line : List Tick) → SpacerStandsFor V.Device cap self.old line
            → SpacerStandsFor V.Device cap self.new (line ++ run_ticks run.entry) }
        ensures answer { (cap : ℕ) (line : List Tick) → SpacerStandsFor V.Device cap self.old line
            → AnswersSpaced V.reads GAP cap line (run_ticks run.entry) (result.tick ∷ [])
            (length line) (frames_lent result.lost (spaced_bytes_lent V.lent self.new)) }
    {
        let SpaceRun { taken: _, lost } = self.take_some(run);
        let tick = self.tick_left();
        SpaceStep { tick, lost }
    }

    /// Takes the next tick of the line, and returns the tick of the other line at the same place,
    /// and the frame that is lost in this step, if one is. Fewer than `MAX_TICKS` ticks were taken
    /// before.
    pub fn step(&mut self, t: Tick) -> SpaceStep
        /// Fewer than 2^62 ticks were taken before.
        requires { ticks_spaced V.Device self.old < MAX_TICKS }
        /// One more tick is taken.
        ensures taken { ticks_spaced V.Device self.new ≡ ticks_spaced V.Device self.old + 1 }
        /// The spacer has taken this tick after its line.
        ensures stands { (cap : ℕ) (line : List Tick) → SpacerStandsFor V.Device cap self.old line
            → SpacerStandsFor V.Device cap self.new (line ++ t ∷ []) }
        /// The tick that leaves is the one that the spaced line goes on with, and the frame that is
        /// returned is lost by the definition in this step.
        ensures answer { (cap : ℕ) (line : List Tick) → SpacerStandsFor V.Device cap self.old line
            → AnswersSpaced V.reads GAP cap line (t ∷ []) (result.tick ∷ []) (length line)
            (frames_lent result.lost (spaced_bytes_lent V.lent self.new)) }
    {
        match t {
            Tick::Silent => self.take_one(TickRun::Silence(1)),
            Tick::Byte(byte) => self.take_one(TickRun::Bytes(&[byte])),
        }
    }

    /// The bytes that left in the last ticks taken, one in each tick, or none if silence left.
    #[inline(always)]
    pub fn sent_bytes(&self) -> &[u8]
        /// They are the bytes that left in the last ticks taken.
        ensures bytes { result.now ≡ bytes_sent self.now }
        /// There are at most 292.
        ensures few { length result.now ≤ 292 }
    {
        &self.room[self.before..self.sent]
    }

    /// The bytes of the frame that was read in the last tick taken, which the device lends.
    #[inline]
    pub fn frame_bytes(&self) -> &[u8]
        /// They are the bytes that the device lends.
        ensures bytes { result.now ≡ spaced_bytes_lent V.lent self.now }
        /// There are at most 292.
        ensures few { length result.now ≤ 292 }
    {
        self.device.frame_bytes()
    }

    /// How many frames wait: those that are accepted and haven't begun.
    pub fn waiting(&self) -> usize
        /// It is the number of frames in the queue.
        ensures queued { result ≡ length (frames_waiting self.now) }
        /// It is the number of frames that the definition has accepted and not begun.
        ensures count { (cap : ℕ) (line : List Tick) → SpacerStandsFor V.Device cap self.now line
            → result ≡ waiting_of V.reads GAP cap line }
    {
        let queued = self.queue.len();
        if self.ready {
            return queued + 1;
        }
        queued
    }
}
