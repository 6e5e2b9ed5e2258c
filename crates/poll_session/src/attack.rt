//! An attacker on the link of a session of polls, who has no key.
ghost use Rattle.std.specs.Prelude.{◌≡◌, length};

use crate::devices::Reply;
use trial_session::{DrawnFrames, Draws, FrameBytes};
use yasir_ticks::Tick;

/// How many ticks of the link the attacker remembers.
const REMEMBERED: u64 = 2048;

/// What is put on the link in place of what is there.
#[derive(Clone, Copy)]
enum Act {
    /// The byte there with these bits turned, and in a silent tick this byte.
    Turn(u8),
    /// Silence.
    Cut,
    /// So many first bytes of one frame, and then another frame.
    Burst(usize),
    /// What was there so many ticks earlier.
    Repeat(u64),
}

/// An act, and for which ticks.
#[derive(Clone, Copy)]
struct Plan {
    act: Act,
    start: u64,
    len: u64,
}

const NOTHING: Plan = Plan {
    act: Act::Cut,
    start: 0,
    len: 0,
};

/// A tick of a session, how late each receiver is, and how many silent ticks end an answer.
#[derive(Clone, Copy)]
pub struct Moment {
    pub now: u64,
    pub delay: u64,
    pub pause: u64,
}

/// An attacker who hears the link, and knows when people begin to speak.
#[derive(Drop)]
pub struct Attack {
    draws: Draws,
    // a frame that nobody seals, and the one whose first bytes come before it
    frame: FrameBytes,
    lead: FrameBytes,
    past: [Tick; 2048],
    first: Plan,
    second: Plan,
    ghost room: { length past ≡ 2048 },
}

impl Attack {
    /// An attacker who has heard nothing.
    pub fn new(seed: u32) -> Attack {
        Attack {
            draws: Draws::new(seed),
            frame: FrameBytes::new(),
            lead: FrameBytes::new(),
            past: [Tick::Silent; 2048],
            first: NOTHING,
            second: NOTHING,
        }
    }

    // A number below a bound above 0.
    fn below(&mut self, bound: u64) -> u64 {
        u64::from(self.draws.draw()) % bound.max(1)
    }

    // What is on the link, by a plan.
    fn put(&self, plan: Plan, now: u64, link: Tick) -> Tick {
        if now < plan.start || plan.len <= now - plan.start {
            return link;
        }
        match plan.act {
            Act::Turn(bits) => match link {
                Tick::Silent => Tick::Byte(bits),
                Tick::Byte(byte) => Tick::Byte(byte ^ bits),
            },
            Act::Cut => Tick::Silent,
            Act::Burst(front) => self.burst_tick((now - plan.start) as usize, front),
            Act::Repeat(back) => self.past[(now.wrapping_sub(back) % REMEMBERED) as usize],
        }
    }

    // A tick of the first bytes of the one frame, and then of the other one.
    fn burst_tick(&self, at: usize, front: usize) -> Tick {
        let byte = if at < front {
            self.lead.as_slice().get(at)
        } else {
            self.frame.as_slice().get(at - front)
        };
        match byte {
            Some(byte) => Tick::Byte(*byte),
            None => Tick::Silent,
        }
    }

    /// Hears what the boxes put on the link in this tick, and returns what is on it.
    pub fn turn(&mut self, now: u64, link: Tick) -> Tick {
        self.past[(now % REMEMBERED) as usize] = link;
        let first = self.put(self.first, now, link);
        self.put(self.second, now, first)
    }

    // A frame behind some bytes of its own, aimed so that the frame begins on the wires to a device
    // so many ticks after what is being said there, this many ticks long, has ended. It isn't aimed
    // if that is too soon.
    fn aim<R: DrawnFrames>(&mut self, len: u64, quiet: u64, moment: Moment) -> Plan {
        self.lead = R::draw_frame(&mut self.draws);
        self.frame = R::draw_frame(&mut self.draws);
        let front = if self.below(2) == 0 { 1 } else { 10 };
        let ahead = moment.delay.saturating_add(1 + front);
        let behind = len.saturating_add(quiet);
        if behind <= ahead {
            return NOTHING;
        }
        Plan {
            act: Act::Burst(front as usize),
            start: moment.now.saturating_add(behind - ahead),
            len: front + self.frame.as_slice().len() as u64,
        }
    }

    // Plans to hold back a packet that begins at a tick, if it is to be held, and to repeat it
    // later.
    fn repeat(&mut self, held: bool, start: u64, len: u64) {
        let back = len.saturating_add(self.below(200));
        if held {
            self.first = Plan {
                act: Act::Cut,
                start,
                len,
            };
        }
        self.second = Plan {
            act: Act::Repeat(back),
            start: start.saturating_add(back),
            len,
        };
    }

    // What the attacker does with a packet of this length that begins at this tick: turns bits,
    // cuts it, puts a frame of its own somewhere, repeats it, or holds it back.
    fn alter<R: DrawnFrames>(&mut self, kind: u64, start: u64, len: u64) {
        let place = start.saturating_add(self.below(len));
        match kind {
            0 => {
                let bits = (self.draws.draw() % 255) as u8;
                self.first = Plan {
                    act: Act::Turn(bits ^ 255),
                    start: place,
                    len: 1,
                };
            }
            1 => {
                self.first = Plan {
                    act: Act::Cut,
                    start: place,
                    len: self.below(200),
                };
            }
            2 => {
                self.frame = R::draw_frame(&mut self.draws);
                self.first = Plan {
                    act: Act::Burst(0),
                    start: place.saturating_add(self.below(200)),
                    len: self.frame.as_slice().len() as u64,
                };
            }
            _ => self.repeat(kind == 3, start, len),
        }
    }

    // Draws a frame of at most so many bytes, if one of the next 64 is as short, and one whose first
    // bytes come before it. Returns whether one was.
    fn draw_short<R: DrawnFrames>(&mut self, most: u64) -> bool {
        self.lead = R::draw_frame(&mut self.draws);
        for _ in 0..64u32 {
            self.frame = R::draw_frame(&mut self.draws);
            if self.frame.as_slice().len() as u64 <= most {
                return true;
            }
        }
        false
    }

    /// Plans what to do if a device has read a request, and its answer comes: a frame that begins on
    /// the wires to the device in the tick in which the answer has ended, behind some bytes of
    /// another one. All of it is on the link before the answer is: then the box there hears nothing.
    pub fn on_reply<R: DrawnFrames>(&mut self, reply: Option<Reply>, moment: Moment) {
        let Some(Reply { ticks, len }) = reply else {
            return;
        };
        if self.below(4) != 0 {
            return;
        }
        let most = moment.delay.saturating_add(2).saturating_sub(len);
        if most < 4 || !self.draw_short::<R>(most) {
            return;
        }
        let front = if self.below(2) == 0 { 1 } else { 10 };
        let ahead = moment.delay.saturating_add(1 + front);
        let behind = ticks.saturating_add(len);
        if behind <= ahead {
            return;
        }
        self.second = Plan {
            act: Act::Burst(front as usize),
            start: moment.now.saturating_add(behind - ahead),
            len: front + self.frame.as_slice().len() as u64,
        };
    }

    /// Plans what to do if the master begins a request of this length.
    pub fn on_request<R: DrawnFrames>(
        &mut self,
        said: Tick,
        begins: Option<usize>,
        moment: Moment,
    ) {
        let (Tick::Byte(_), Some(len)) = (said, begins) else {
            return;
        };
        self.first = NOTHING;
        self.second = NOTHING;
        let len = len as u64;
        let kind = self.below(16);
        if kind < 5 {
            let start = moment.now.saturating_add(1);
            self.alter::<R>(kind, start, len.saturating_add(moment.delay));
        } else if kind < 8 {
            let quiet = if self.below(2) == 0 { 0 } else { 4 };
            self.first = self.aim::<R>(len, quiet, moment);
        }
    }

    /// Plans what to do if a device begins a frame of this length.
    pub fn on_answer<R: DrawnFrames>(&mut self, said: Tick, begins: Option<usize>, moment: Moment) {
        let (Tick::Byte(_), Some(len)) = (said, begins) else {
            return;
        };
        let len = len as u64;
        let kind = self.below(16);
        if kind < 5 {
            let start = moment.now.saturating_add(1);
            self.alter::<R>(kind, start, len.saturating_add(moment.delay));
        } else if kind < 9 {
            let quiet = if self.below(2) == 0 { 0 } else { moment.pause };
            self.second = self.aim::<R>(len, quiet, moment);
        }
    }
}
