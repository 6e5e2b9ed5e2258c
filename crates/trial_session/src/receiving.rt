//! The receiver and the device behind it, over the link of a session.
use crate::counting_box::CountingBox;
use crate::link::Link;
use crate::listening::Listening;
use crate::side::Side;
use crate::waiting::Waiting;
use device_model::Device;
use frame_ending::RunBytes;
use yasir_ticks::{MAX_TICKS, TickRun};

/// The receiver `C`, and the device `V` that hears the receiver's line.
#[derive(Drop)]
pub struct Receiving<C, V> {
    checking: Side<C>,
    listening: Listening<V>,
}

impl<C: CountingBox, V: Device + Drop> Receiving<C, V> {
    ghost use Rattle.std.specs.Prelude.{◌≡◌, ◌+◌, ◌<◌, ◌≤◌, List, [], ◌++◌, length, take};
    ghost use Rattle.yasir_ticks.specs.Ticks.{silent};
    ghost use Rattle.yasir_ticks.specs.TickRun.{run_ticks};
    ghost use Rattle.yasir_ticks.specs.declared.tick.Tick.{Tick};
    ghost use Rattle.trial_session.specs.Counting.{CountsNothing};
    ghost use Rattle.trial_session.specs.Links.{link_sent};
    ghost use Rattle.trial_session.specs.Sides.{MayReceive, HasReceived};
    ghost use Rattle.trial_session.specs.Sides.{MayGoOnReceiving, IsReceiving};

    /// A receiver and a device, neither of which has taken a tick.
    pub fn new() -> Receiving<C, V>
        requires widths { C.widths_fit }
        ensures able { MayReceive C.LinkBox V.Device result }
        ensures taken { C.taken result.checking.line_box ≡ 0 }
        ensures received { HasReceived C.LinkBox C.counting V.Device result [] }
        ensures nothing { CountsNothing C.counting }
    {
        Receiving {
            checking: Side::new(),
            listening: Listening::new(),
        }
    }

    /// How many bursts the receiver passed.
    pub fn passed(&self) -> u64
        ensures { result ≡ self.now.checking.through }
    {
        self.checking.through()
    }

    /// How many bursts the receiver refused.
    pub fn refused(&self) -> u64
        ensures { result ≡ self.now.checking.refused }
    {
        self.checking.refused()
    }

    /// How many bursts the receiver dropped.
    pub fn dropped(&self) -> u64
        ensures { result ≡ self.now.checking.dropped }
    {
        self.checking.dropped()
    }

    /// How many frames the device has read.
    pub fn read(&self) -> u64
        ensures { result ≡ self.now.listening.read }
    {
        self.listening.read()
    }

    // Takes the first of these ticks, at least one of them, and returns how many. Bytes that the
    // device is still to hear wait.
    #[inline]
    fn take_some(&mut self, run: TickRun<'_>, waiting: &mut Waiting) -> usize
        requires some { 0 < length (run_ticks run) }
        requires able { MayGoOnReceiving C.LinkBox V.Device self.old waiting.old.items }
        requires room { C.taken self.old.checking.line_box + length (run_ticks run) ≤ MAX_TICKS }
        ensures able { MayGoOnReceiving C.LinkBox V.Device self.new waiting.new.items }
        ensures some { 0 < result }
        ensures within { result ≤ length (run_ticks run.entry) }
        ensures taken { C.taken self.new.checking.line_box
            ≡ C.taken self.old.checking.line_box + result }
        ensures received { (link : List Tick)
            → IsReceiving C.LinkBox C.counting V.Device self.old waiting.old.items link
            → IsReceiving C.LinkBox C.counting V.Device self.new waiting.new.items
            (link ++ take result (run_ticks run.entry)) }
    {
        let mut sent = RunBytes::new();
        let taken = self.checking.pass(run, &mut sent);
        if taken > 0 {
            self.listening.hear(taken, sent.as_slice(), waiting);
            return taken;
        }
        let tick = self.checking.step(run.first());
        self.listening.hear_tick(tick, waiting);
        1
    }

    // Takes these ticks. Bytes that the device is still to hear wait.
    fn take_run(&mut self, run: TickRun<'_>, waiting: &mut Waiting)
        requires able { MayGoOnReceiving C.LinkBox V.Device self.old waiting.old.items }
        requires room { C.taken self.old.checking.line_box + length (run_ticks run) ≤ MAX_TICKS }
        ensures able { MayGoOnReceiving C.LinkBox V.Device self.new waiting.new.items }
        ensures taken { C.taken self.new.checking.line_box
            ≡ C.taken self.old.checking.line_box + length (run_ticks run.entry) }
        ensures received { (link : List Tick)
            → IsReceiving C.LinkBox C.counting V.Device self.old waiting.old.items link
            → IsReceiving C.LinkBox C.counting V.Device self.new waiting.new.items
            (link ++ run_ticks run.entry) }
    {
        let mut at = 0;
        while at < run.len() {
            at += self.take_some(run.behind(at), waiting);
        }
    }

    /// Takes this many silent ticks.
    pub fn take_silence(&mut self, ticks: u32)
        requires able { MayReceive C.LinkBox V.Device self.old }
        requires room { C.taken self.old.checking.line_box + ticks ≤ MAX_TICKS }
        ensures able { MayReceive C.LinkBox V.Device self.new }
        ensures taken { C.taken self.new.checking.line_box
            ≡ C.taken self.old.checking.line_box + ticks }
        ensures received { (link : List Tick)
            → HasReceived C.LinkBox C.counting V.Device self.old link
            → HasReceived C.LinkBox C.counting V.Device self.new (link ++ silent ticks) }
    {
        let mut waiting = Waiting::new();
        self.take_run(TickRun::Silence(ticks), &mut waiting);
        self.listening.settle(&mut waiting);
    }

    /// Takes the link of a period.
    pub fn take(&mut self, link: &Link)
        requires able { MayReceive C.LinkBox V.Device self.old }
        requires room { C.taken self.old.checking.line_box + link.now.len ≤ MAX_TICKS }
        ensures able { MayReceive C.LinkBox V.Device self.new }
        ensures taken { C.taken self.new.checking.line_box
            ≡ C.taken self.old.checking.line_box + link.now.len }
        ensures received { (line : List Tick)
            → HasReceived C.LinkBox C.counting V.Device self.old line
            → HasReceived C.LinkBox C.counting V.Device self.new (line ++ link_sent link.now) }
    {
        let mut waiting = Waiting::new();
        let mut at = 0;
        while at < link.len() {
            let run = link.run_from(at);
            self.take_run(run, &mut waiting);
            at += run.len();
        }
        self.listening.settle(&mut waiting);
    }
}
