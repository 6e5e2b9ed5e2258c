//! A box of one direction over a new journal, and the ticks with which it drives its wires.
ghost use Rattle.std.specs.Prelude.{◌≡◌, ◌≤◌, [], ◌∷◌, length, None, Some};
ghost use Rattle.yasir_io.specs.Steady.{steady_slots};
ghost use Rattle.frame_ending.specs.Answered.{answered};
ghost use Rattle.sequence_journal.specs.Journal.{journal_link, journal_floor, Fits};
ghost use Rattle.sequence_journal.specs.Links.{HasDirection};
ghost use Rattle.sequence_journal.specs.Slots.{greatest};

use frame_ending::RunBytes;
use line_commands::LineBox;
use line_texts::answer_run;
use link_box::take_alike;
use link_format::Dir;
use sequence_journal::{Journal, LinkId};
use yasir_io::{SLOT_LEN, SteadySlots};
use yasir_ticks::{MAX_TICKS, Tick, TickRun};

/// A box over a new journal on a disk that never fails. It may have taken more ticks than have been
/// on its wires. Each tick that it returns leaves one tick later.
#[derive(Drop)]
pub(crate) struct WireBox<B> {
    line_box: B,
    journal: Journal,
    disk: SteadySlots,
    // the tick that leaves now
    first: Tick,
    // the bytes that follow it, from this place on, and if there are none, how many silent ticks do
    bytes: RunBytes,
    at: usize,
    next: u32,
    ghost inside: { at ≤ length bytes.items },
}

// Returns a new journal of this link, on a disk whose slots hold no number.
fn new_journal(disk: &mut SteadySlots, link: &LinkId) -> Journal
    requires none { greatest (steady_slots disk.old) ≡ None }
    requires link { HasDirection link.now }
    ensures of_link { journal_link result ≡ link.now }
    ensures fits { Fits result (Some (steady_slots disk.new)) }
    ensures floor { journal_floor result ≡ 0 }
{
    Journal::init(disk, link).unwrap()
}

// Puts the byte of this tick in place of what is there, or nothing if it is silent.
fn put_tick(bytes: &mut RunBytes, tick: Tick)
    ensures { answered 1 bytes.new.items ≡ tick ∷ [] }
{
    bytes.clear();
    match tick {
        Tick::Silent => {}
        Tick::Byte(byte) => bytes.push(byte),
    }
}

impl<B: LineBox> WireBox<B> {
    ghost use Rattle.std.specs.Prelude.{◌≡◌, ◌+◌, ◌<◌, ◌≤◌, [], ◌∷◌, length};
    ghost use Rattle.yasir_ticks.specs.TickRun.{run_ticks};
    ghost use Rattle.yasir_ticks.specs.declared.TheConstants.{MAX_TICKS};
    ghost use Rattle.link_format.specs.Setup.{setup_of};
    ghost use Rattle.wire_commands.specs.WireBox.{next_of, silent_behind, IsServed, ticks_gone};
    ghost use Rattle.wire_commands.specs.WireBox.{HasLeft, TakesFirst, Leaves};

    /// Returns a box that has taken no tick.
    pub(crate) fn new(key: &[u8], dir: Dir) -> WireBox<B>
        requires widths { B.widths_fit }
        ensures none { next_of result ≡ [] }
        ensures gone { ticks_gone B.LinkBox result ≡ 0 }
        ensures served { IsServed B.LinkBox result }
        ensures left { HasLeft B.LinkBox result (setup_of key.now dir 0) [] [] }
    {
        let mut disk = SteadySlots::new([0; SLOT_LEN], [0; SLOT_LEN]);
        let link = B::link(dir);
        let journal = new_journal(&mut disk, &link);
        WireBox {
            line_box: B::new(key, dir),
            journal,
            disk,
            first: Tick::Silent,
            bytes: RunBytes::new(),
            at: 0,
            next: 0,
        }
    }

    /// The tick that leaves now.
    #[inline]
    pub(crate) fn now(&self) -> Tick
        ensures { result ≡ self.now.first }
    {
        self.first
    }

    /// The ticks that leave behind it.
    #[inline]
    pub(crate) fn next(&self) -> TickRun<'_>
        ensures { run_ticks result ≡ next_of self.now }
    {
        answer_run(self.next, &self.bytes.as_slice()[self.at..])
    }

    /// How many silent ticks leave behind it, 0 if bytes do.
    #[inline]
    pub(crate) fn silence(&self) -> u32
        ensures { result ≡ silent_behind self.now }
    {
        if self.at < self.bytes.len() {
            0
        } else {
            self.next
        }
    }

    // Takes one tick. It is a separate function, since most ticks are taken in runs.
    #[inline(never)]
    fn step(&mut self, tick: Tick) -> Option<B::Note>
        requires none { next_of self.old ≡ [] }
        requires served { IsServed B.LinkBox self.old }
        requires room { B.taken self.old.line_box < MAX_TICKS }
        ensures { TakesFirst B.LinkBox self.old self.new (tick ∷ []) result }
    {
        let step = self
            .line_box
            .step(tick, &mut self.journal, &mut self.disk)
            .unwrap();
        self.at = 0;
        put_tick(&mut self.bytes, step.tick);
        self.next = 1;
        step.note
    }

    /// Takes the first of these ticks, if nothing follows the tick that leaves now: as many as the
    /// box takes at once, or one if that is none. Returns the note of the first one.
    #[inline(always)]
    pub(crate) fn take(&mut self, run: TickRun<'_>) -> Option<B::Note>
        requires none { next_of self.old ≡ [] }
        requires some { 0 < length (run_ticks run) }
        requires few { length (run_ticks run) ≤ 256 }
        requires served { IsServed B.LinkBox self.old }
        requires room { B.taken self.old.line_box + length (run_ticks run) ≤ MAX_TICKS }
        ensures { TakesFirst B.LinkBox self.old self.new (run_ticks run.entry) result }
    {
        self.at = 0;
        let count = take_alike(&mut self.line_box, run, &mut self.bytes);
        if count > 0 {
            self.next = count as u32;
            return None;
        }
        self.bytes.clear();
        self.step(run.first())
    }

    /// Lets this many ticks leave, at least one and no more than follow.
    #[inline]
    pub(crate) fn leave(&mut self, ticks: u32)
        requires some { 0 < ticks }
        requires within { ticks ≤ length (next_of self.old) }
        ensures { Leaves self.old self.new ticks }
    {
        if self.at < self.bytes.len() {
            let last = self.at + (ticks - 1) as usize;
            self.first = Tick::Byte(self.bytes.as_slice()[last]);
            self.at += ticks as usize;
            self.next = 0;
        } else {
            self.first = Tick::Silent;
            self.next -= ticks;
        }
    }
}
