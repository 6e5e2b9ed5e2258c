//! A box of a session over a journal in memory, and the counts of its bursts.
use crate::counting_box::CountingBox;
use crate::fate::Fate;
use crate::link::Link;
use frame_ending::RunBytes;
use link_format::Dir;
use sequence_journal::Journal;
use yasir_io::SteadySlots;
use yasir_ticks::{MAX_TICKS, Tick, TickRun};

/// A box over a new journal on a disk that never fails, and how many bursts have each fate.
#[derive(Drop)]
pub struct Side<X> {
    line_box: X,
    journal: Journal,
    disk: SteadySlots,
    through: u64,
    refused: u64,
    dropped: u64,
}

impl<X: CountingBox> Side<X> {
    ghost use Rattle.std.specs.Prelude.{◌≡◌, ◌+◌, ◌<◌, ◌≤◌, List, [], ◌∷◌, ◌++◌, length};
    ghost use Rattle.std.specs.Prelude.{take, Option};
    ghost use Rattle.yasir_ticks.specs.TickRun.{run_ticks};
    ghost use Rattle.trial_session.specs.Links.{link_sent};
    ghost use Rattle.yasir_ticks.specs.declared.tick.Tick.{Tick};
    ghost use Rattle.trial_session.specs.Boxes.{told_in_trial};
    ghost use Rattle.trial_session.specs.Counting.{through_in, refused_in, dropped_in};
    ghost use Rattle.trial_session.specs.Counting.{CountsNothing};
    ghost use Rattle.trial_session.specs.Sides.{SideMayTake, HasTaken, SideHasSent, HasPassed};
    ghost use Rattle.frame_ending.specs.Answered.{answered};

    /// A new box over a new journal.
    pub fn new() -> Side<X>
        requires widths { X.widths_fit }
        ensures able { SideMayTake X.LinkBox result }
        ensures taken { X.taken result.line_box ≡ 0 }
        ensures counts { HasTaken X.LinkBox X.counting result [] }
        ensures nothing { CountsNothing X.counting }
    {
        let mut disk = SteadySlots::new([0; 24], [0; 24]);
        let link = X::link(Dir::Ab);
        let journal = Journal::init(&mut disk, &link).unwrap();
        Side {
            line_box: X::new(&[0; 16], Dir::Ab),
            journal,
            disk,
            through: 0,
            refused: 0,
            dropped: 0,
        }
    }

    /// How many bursts the box let through.
    pub fn through(&self) -> u64
        ensures { result ≡ self.now.through }
    {
        self.through
    }

    /// How many bursts the box refused.
    pub fn refused(&self) -> u64
        ensures { result ≡ self.now.refused }
    {
        self.refused
    }

    /// How many bursts the box dropped.
    pub fn dropped(&self) -> u64
        ensures { result ≡ self.now.dropped }
    {
        self.dropped
    }

    // Counts a burst by its fate, if there is one.
    #[inline]
    fn count(&mut self, fate: Option<Fate>)
        requires through { self.old.through < MAX_TICKS }
        requires refused { self.old.refused < MAX_TICKS }
        requires dropped { self.old.dropped < MAX_TICKS }
        ensures { self.new ≡ record self.old {
          through = self.old.through + through_in fate;
          refused = self.old.refused + refused_in fate;
          dropped = self.old.dropped + dropped_in fate;
        } }
    {
        match fate {
            Some(Fate::Through) => self.through += 1,
            Some(Fate::Refused) => self.refused += 1,
            Some(Fate::Dropped) => self.dropped += 1,
            None => {}
        }
    }

    // The fate of the burst that a step's note is about, if there is a note.
    #[inline]
    fn fate_in(note: Option<X::Note>) -> Option<Fate>
        ensures { result ≡ told_in_trial X.fate_of note }
    {
        match note {
            Some(note) => Some(X::fate(note)),
            None => None,
        }
    }

    /// Takes the next tick, and returns the tick of the other line.
    #[inline]
    pub fn step(&mut self, t: Tick) -> Tick
        requires able { SideMayTake X.LinkBox self.old }
        requires room { X.taken self.old.line_box < MAX_TICKS }
        ensures able { SideMayTake X.LinkBox self.new }
        ensures taken { X.taken self.new.line_box ≡ X.taken self.old.line_box + 1 }
        ensures sent { (line : List Tick) → HasTaken X.LinkBox X.counting self.old line
            → SideHasSent X.LinkBox X.counting self.new line (t ∷ []) (result ∷ []) }
    {
        let step = self
            .line_box
            .step(t, &mut self.journal, &mut self.disk)
            .unwrap();
        self.count(Self::fate_in(step.note));
        step.tick
    }

    /// Takes the first of these ticks, as far as the box answers all of them with silence or all of
    /// them with bytes, without a note, and returns how many. `sent` gets the bytes of the other
    /// line, one for each tick, or none if that line is silent. If it returns 0, the caller goes on
    /// with `step`.
    #[inline]
    pub fn pass(&mut self, run: TickRun<'_>, sent: &mut RunBytes) -> usize
        requires able { SideMayTake X.LinkBox self.old }
        requires room { X.taken self.old.line_box + length (run_ticks run) ≤ MAX_TICKS }
        ensures able { SideMayTake X.LinkBox self.new }
        ensures within { result ≤ length (run_ticks run.entry) }
        ensures taken { X.taken self.new.line_box ≡ X.taken self.old.line_box + result }
        ensures sent { (line : List Tick) → HasTaken X.LinkBox X.counting self.old line
            → HasPassed X.LinkBox X.counting self.new line (take result (run_ticks run.entry))
            (answered result sent.new.items) }
    {
        self.line_box.pass(run, sent)
    }

    // Takes the first of these ticks, at least one of them, and sends on the link what the other
    // line has in them. What the box forwards goes on as it is. Returns how many ticks it took.
    #[inline]
    fn send_on(&mut self, run: TickRun<'_>, link: &mut Link) -> usize
        requires some { 0 < length (run_ticks run) }
        requires able { SideMayTake X.LinkBox self.old }
        requires room { X.taken self.old.line_box + length (run_ticks run) ≤ MAX_TICKS }
        requires link { link.old.len + length (run_ticks run) ≤ 640 }
        ensures able { SideMayTake X.LinkBox self.new }
        ensures some { 0 < result }
        ensures within { result ≤ length (run_ticks run.entry) }
        ensures taken { X.taken self.new.line_box ≡ X.taken self.old.line_box + result }
        ensures len { link.new.len ≡ link.old.len + result }
        ensures sent { (line more : List Tick)
            → SideHasSent X.LinkBox X.counting self.old line more (link_sent link.old)
            → SideHasSent X.LinkBox X.counting self.new line
            (more ++ take result (run_ticks run.entry)) (link_sent link.new) }
    {
        let forwarded = self.line_box.forward(run);
        if forwarded > 0 {
            link.add_run(run.front(forwarded));
            return forwarded;
        }
        let mut sent = RunBytes::new();
        let taken = self.pass(run, &mut sent);
        if taken > 0 {
            link.add(taken, sent.as_slice());
            return taken;
        }
        link.add_tick(self.step(run.first()));
        1
    }

    /// Takes these ticks, and sends on the link what the other line has in them.
    pub fn forward(&mut self, run: TickRun<'_>, link: &mut Link)
        requires able { SideMayTake X.LinkBox self.old }
        requires room { X.taken self.old.line_box + length (run_ticks run) ≤ MAX_TICKS }
        requires link { link.old.len + length (run_ticks run) ≤ 640 }
        ensures able { SideMayTake X.LinkBox self.new }
        ensures taken { X.taken self.new.line_box
            ≡ X.taken self.old.line_box + length (run_ticks run.entry) }
        ensures len { link.new.len ≡ link.old.len + length (run_ticks run.entry) }
        ensures sent { (line more : List Tick)
            → SideHasSent X.LinkBox X.counting self.old line more (link_sent link.old)
            → SideHasSent X.LinkBox X.counting self.new line (more ++ run_ticks run.entry)
            (link_sent link.new) }
    {
        let mut at = 0;
        while at < run.len() {
            at += self.send_on(run.behind(at), link);
        }
    }
}
