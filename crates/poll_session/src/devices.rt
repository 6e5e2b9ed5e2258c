//! The devices of a session of polls.
use trial_session::{DrawnFrames, Draws, FrameBytes};
use two_wire::{Spoken, Waits};
use yasir_ticks::Tick;

/// In how many ticks an answer begins, if nobody speaks before, and how many bytes its first frame
/// has.
#[derive(Clone, Copy)]
pub struct Reply {
    pub ticks: u64,
    pub len: u64,
}

/// Devices that answer most of the requests that they read, with one frame or two.
#[derive(Drop)]
pub struct Devices {
    draws: Draws,
    // the frame that is said or comes next, and how many of its bytes are said
    frame: FrameBytes,
    at: usize,
    // how many frames of the answer are to be said
    left: u8,
    // whether the answer has begun with an earlier frame
    goes_on: bool,
    // the silent ticks between a request and its answer
    late: u64,
    sleepy: bool,
}

impl Devices {
    /// Devices that have nothing to say.
    pub fn new(seed: u32) -> Devices {
        Devices {
            draws: Draws::new(seed),
            frame: FrameBytes::new(),
            at: 0,
            left: 0,
            goes_on: false,
            late: 0,
            sleepy: true,
        }
    }

    /// Whether the device that hears is deaf when it may be.
    pub fn sleepy(&self) -> bool {
        self.sleepy
    }

    /// Whether the next byte is the first one of a frame, and how long the frame is.
    pub fn begins(&self) -> Option<usize> {
        if self.at == 0 {
            Some(self.frame.as_slice().len())
        } else {
            None
        }
    }

    // Whether the next frame begins: the first one so late after a request, a further one just
    // before the answer would have ended.
    fn is_ready(&self, turn: Spoken, waits: Waits) -> bool {
        match turn {
            Spoken::Nobody(_) => false,
            Spoken::Asker(quiet) => !self.goes_on && self.late <= quiet,
            Spoken::Answerer(quiet) => self.goes_on
                && u64::from(waits.pause) <= quiet.saturating_add(1),
        }
    }

    /// Returns what the devices wish to say, when it was so long ago that somebody spoke last.
    pub fn wish(&self, turn: Spoken, waits: Waits) -> Tick {
        if self.left == 0 || (self.at == 0 && !self.is_ready(turn, waits)) {
            return Tick::Silent;
        }
        match self.frame.as_slice().get(self.at) {
            Some(byte) => Tick::Byte(*byte),
            None => Tick::Silent,
        }
    }

    /// When the answer begins to a request that was read in this tick, if one was and is to be
    /// answered, and it was so long ago that somebody spoke last.
    pub fn reply(&self, is_read: bool, turn: Spoken) -> Option<Reply> {
        if !is_read || self.left == 0 || self.at != 0 || self.goes_on {
            return None;
        }
        match turn {
            Spoken::Asker(quiet) => Some(Reply {
                ticks: self.late.saturating_sub(quiet).saturating_add(1),
                len: self.frame.as_slice().len() as u64,
            }),
            Spoken::Nobody(_) | Spoken::Answerer(_) => None,
        }
    }

    // Draws four frames, and keeps the shortest, since most answers are short.
    fn draw_answer<R: DrawnFrames>(&mut self) {
        self.frame = R::draw_frame(&mut self.draws);
        for _ in 0..3u32 {
            let other = R::draw_frame(&mut self.draws);
            if other.as_slice().len() < self.frame.as_slice().len() {
                self.frame = other;
            }
        }
    }

    /// Goes on after a tick in which a request was read or not.
    pub fn hear<R: DrawnFrames>(&mut self, is_read: bool) {
        if !is_read || self.at != 0 {
            return;
        }
        self.draw_answer::<R>();
        self.left = match self.draws.draw() % 8 {
            0 => 0,
            1 | 2 => 2,
            _ => 1,
        };
        self.goes_on = false;
        self.late = u64::from(self.draws.draw() % 37) + 4;
        self.sleepy = self.draws.draw() % 4 != 0;
    }

    /// Goes on after the devices have said this.
    pub fn note<R: DrawnFrames>(&mut self, said: Tick) {
        let Tick::Byte(_) = said else {
            return;
        };
        self.at = self.at.saturating_add(1);
        if self.at < self.frame.as_slice().len() {
            return;
        }
        self.at = 0;
        self.left = self.left.saturating_sub(1);
        self.goes_on = true;
        if self.left > 0 {
            self.frame = R::draw_frame(&mut self.draws);
        }
    }
}
