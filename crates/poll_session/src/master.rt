//! The master of a session of polls.
ghost use Rattle.std.specs.Prelude.{◌≤◌};

use trial_session::{DrawnFrames, Draws, FrameBytes};
use two_wire::{Spoken, Waits};
use yasir_ticks::Tick;

/// A master who asks requests, one after the other, as they are drawn from a seed.
#[derive(Drop)]
pub struct Master {
    draws: Draws,
    // for all that isn't a request: when it begins, and whether it is deaf when it may be
    moods: Draws,
    // the request that is asked or comes next, and how many of its bytes are said
    frame: FrameBytes,
    at: usize,
    asked: u64,
    count: u64,
    late: u64,
    sleepy: bool,
    ghost within: { asked ≤ count },
}

impl Master {
    ghost use Rattle.std.specs.Prelude.{◌≡◌, ◌⊎◌, ℕ, ◌+◌, ◌<◌, ◌≤◌, List, [], ◌∷◌, ◌++◌};
    ghost use Rattle.yasir_ticks.specs.declared.tick.Tick.{Tick};
    ghost use Rattle.yasir_ticks.specs.declared.tick.Tick.TheVariants.{Silent, Byte};
    ghost use Rattle.poll_session.specs.Asking.{HasAsked, wanted};

    /// Returns a master who has said nothing, and is to ask this many requests.
    pub fn new<R: DrawnFrames>(seed: u32, count: u64) -> Master
        ensures count { result.count ≡ count }
        ensures asked { result.asked ≡ 0 }
        ensures asks { HasAsked R.drawing seed result [] }
    {
        let mut draws = Draws::new(seed);
        let frame = R::draw_frame(&mut draws);
        Master {
            draws,
            moods: Draws::new(!seed),
            frame,
            at: 0,
            asked: 0,
            count,
            late: 0,
            sleepy: true,
        }
    }

    /// How many requests the master has asked whole.
    pub fn asked(&self) -> u64
        ensures value { result ≡ self.now.asked }
        ensures within { result ≤ self.now.count }
    {
        self.asked
    }

    /// Whether the master is deaf when it may be.
    pub fn sleepy(&self) -> bool {
        self.sleepy
    }

    /// Whether the next byte is the first one of a request, and how long the request is.
    pub fn begins(&self) -> Option<usize> {
        if self.at == 0 {
            Some(self.frame.as_slice().len())
        } else {
            None
        }
    }

    // The byte that comes next, if there is one.
    fn wanted(&self) -> Tick
        ensures { result ≡ wanted self.now }
    {
        if self.asked >= self.count {
            return Tick::Silent;
        }
        match self.frame.as_slice().get(self.at) {
            Some(byte) => Tick::Byte(*byte),
            None => Tick::Silent,
        }
    }

    // Whether the master begins to ask: some time after an answer, or at once if there is none.
    fn is_ready(&self, turn: Spoken, waits: Waits) -> bool {
        let window = u64::from(waits.window);
        let pause = u64::from(waits.pause);
        match turn {
            Spoken::Nobody(quiet) => window <= quiet,
            Spoken::Asker(quiet) => window <= quiet,
            Spoken::Answerer(quiet) => pause <= quiet && self.late <= quiet - pause,
        }
    }

    /// Returns what the master wishes to say, when it was so long ago that somebody spoke last.
    pub fn wish(&self, turn: Spoken, waits: Waits) -> Tick
        ensures { (result ≡ Silent) ⊎ (result ≡ wanted self.now) }
    {
        if self.at == 0 && !self.is_ready(turn, waits) {
            return Tick::Silent;
        }
        self.wanted()
    }

    // Goes on after the master has said its next byte.
    fn say_next<R: DrawnFrames>(&mut self, byte: u8)
        requires { wanted self.old ≡ Byte byte }
        ensures count { self.new.count ≡ self.old.count }
        ensures grows { self.old.asked ≤ self.new.asked }
        ensures asks { (seed : ℕ) (ticks : List Tick) → HasAsked R.drawing seed self.old ticks
            → HasAsked R.drawing seed self.new (ticks ++ Byte byte ∷ []) }
    {
        let len = self.frame.as_slice().len();
        self.at += 1;
        if self.at < len {
            return;
        }
        self.at = 0;
        self.asked += 1;
        self.frame = R::draw_frame(&mut self.draws);
        self.late = u64::from(self.moods.draw() % 16);
        self.sleepy = self.moods.draw() % 4 != 0;
    }

    /// Goes on after the master has said this.
    pub fn note<R: DrawnFrames>(&mut self, said: Tick)
        requires { (said ≡ Silent) ⊎ (said ≡ wanted self.old) }
        ensures count { self.new.count ≡ self.old.count }
        ensures grows { self.old.asked ≤ self.new.asked }
        ensures asks { (seed : ℕ) (ticks : List Tick) → HasAsked R.drawing seed self.old ticks
            → HasAsked R.drawing seed self.new (ticks ++ said ∷ []) }
    {
        match said {
            Tick::Silent => {}
            Tick::Byte(byte) => self.say_next::<R>(byte),
        }
    }
}
