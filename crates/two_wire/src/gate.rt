//! Ports on shared wires: what a port hears, whose turn it is, and the gate between a receiver and
//! the wires to its device.
ghost use Rattle.std.specs.Prelude.{◌≡◌, ◌+◌, ◌<◌, ◌≤◌};
ghost use Rattle.two_wire.specs.Turns.{quiet_of};
ghost use Rattle.two_wire.specs.Wires.{heard, driven};

use yasir_ticks::{MAX_TICKS, T1_5_TICKS, T3_5_TICKS, Tick};

/// For which side a box speaks on the wires to its device: for the one that asks, if devices that
/// answer are on them, and for the one that answers, if a master is.
#[derive(Clone, Copy, Debug, PartialEq, Eq)]
pub enum Side {
    Asks,
    Answers,
}

/// How many silent ticks the side that asks waits for an answer to begin, and how many end an answer.
#[derive(Clone, Copy, Debug, PartialEq, Eq)]
pub struct Waits {
    pub window: u32,
    pub pause: u32,
}

/// Who spoke last on a pair of wires, and how many silent ticks ago; or that nobody has spoken for so
/// many ticks, and what was before isn't known.
#[derive(Clone, Copy, Debug, PartialEq, Eq)]
pub enum Spoken {
    Nobody(u64),
    Asker(u64),
    Answerer(u64),
}

/// Returns what a port hears in a tick, if it drives the wires with this tick of its own and these
/// ticks are on them: nothing while it drives them. So it doesn't matter whether its adapter echoes.
#[inline]
pub fn hear(own: Tick, wires: Tick) -> Tick
    ensures { result ≡ heard own wires }
{
    match own {
        Tick::Silent => wires,
        Tick::Byte(_) => Tick::Silent,
    }
}

/// Returns what is on the wires in a tick, if a port drives them with this tick of its own, and this
/// other tick is on them otherwise.
#[inline]
pub fn drive(own: Tick, other: Tick) -> Tick
    ensures { result ≡ driven own other }
{
    match own {
        Tick::Silent => other,
        Tick::Byte(_) => own,
    }
}

impl Spoken {
    ghost use Rattle.std.specs.Prelude.{◌≡◌, ◌+◌, ◌<◌, ◌≤◌, ◌||◌};
    ghost use Rattle.two_wire.specs.Turns.{quiet_of};
    ghost use Rattle.two_wire.specs.Turns.{after, may_ask, may_answer, may_ask_on, may_speak};
    ghost use Rattle.two_wire.specs.Gate.{known_after};

    /// Returns who spoke last after one more tick, in which the asker and the answerer drive the
    /// wires with these.
    pub fn after(self, ask: Tick, answer: Tick) -> Spoken
        /// Fewer than 2^62 silent ticks have come since somebody spoke.
        requires { quiet_of self < MAX_TICKS }
        /// It is who spoke last, and how many silent ticks ago, by the definition.
        ensures last { result ≡ after self ask answer }
        /// At most one more silent tick is counted.
        ensures counted { quiet_of result ≤ quiet_of self + 1 }
    {
        match (ask, answer) {
            (Tick::Byte(_), _) => Spoken::Asker(0),
            (Tick::Silent, Tick::Byte(_)) => Spoken::Answerer(0),
            (Tick::Silent, Tick::Silent) => match self {
                Spoken::Nobody(quiet) => Spoken::Nobody(quiet + 1),
                Spoken::Asker(quiet) => Spoken::Asker(quiet + 1),
                Spoken::Answerer(quiet) => Spoken::Answerer(quiet + 1),
            },
        }
    }

    // Returns who spoke last, as a box that speaks for this side knows it, after one more tick of
    // its own and of what it hears.
    fn known_after(self, side: Side, own: Tick, heard: Tick) -> Spoken
        requires { quiet_of self < MAX_TICKS }
        ensures last { result ≡ known_after side self own heard }
        ensures counted { quiet_of result ≤ quiet_of self + 1 }
    {
        match side {
            Side::Answers => self.after(heard, own),
            Side::Asks => match (self, own, heard) {
                (Spoken::Nobody(_), Tick::Silent, Tick::Byte(_)) => Spoken::Nobody(0),
                _ => self.after(own, heard),
            },
        }
    }

    // Whether the side that asks may speak now.
    fn may_ask(self, waits: Waits) -> bool
        ensures { result ≡ (may_ask waits self || may_ask_on self) }
    {
        match self {
            Spoken::Nobody(quiet) => u64::from(waits.window) <= quiet,
            Spoken::Asker(quiet) => {
                u64::from(waits.window) <= quiet || quiet < u64::from(T3_5_TICKS)
            }
            Spoken::Answerer(quiet) => u64::from(waits.pause) <= quiet,
        }
    }

    // Whether the side that answers may.
    fn may_answer(self, waits: Waits) -> bool
        ensures { result ≡ may_answer waits self }
    {
        match self {
            Spoken::Nobody(_) => false,
            Spoken::Asker(quiet) => {
                u64::from(T3_5_TICKS) <= quiet && quiet < u64::from(waits.window)
            }
            Spoken::Answerer(quiet) => quiet < u64::from(waits.pause),
        }
    }

    /// Whether this side may speak now.
    pub fn may_speak(self, side: Side, waits: Waits) -> bool
        ensures { result ≡ may_speak side waits self }
    {
        match side {
            Side::Asks => self.may_ask(waits),
            Side::Answers => self.may_answer(waits),
        }
    }
}

/// Lets a burst of a receiver through to the wires of its device, whole or not at all: if it begins
/// when the box may speak there.
#[derive(Drop)]
pub struct Gate {
    side: Side,
    waits: Waits,
    spoken: Spoken,
    // the silent ticks that the receiver has returned since its last byte
    quiet: u64,
    open_now: bool,
    ticks: u64,
    ghost few: { quiet ≤ ticks + 2 },
    ghost fewer: { quiet_of spoken ≤ ticks },
}

impl Gate {
    ghost use Rattle.std.specs.Prelude.{◌≡◌, ◌+◌, ◌<◌, ◌≤◌};
    ghost use Rattle.two_wire.specs.Gate.{GateState, gate_state, gate_side, gate_waits, gate_ticks};
    ghost use Rattle.two_wire.specs.Gate.{at_rest, lets, let_through, holds_back, gate_after};

    /// Returns a gate that has taken no tick, for a box that speaks for this side. It doesn't know
    /// who spoke before: the side that asks waits first until nobody has said anything for `window`
    /// ticks, and the other one says nothing unasked.
    pub fn new(side: Side, waits: Waits) -> Gate
        /// It knows of nobody who has spoken.
        ensures state { gate_state result ≡ at_rest }
        /// It speaks for this side.
        ensures side { gate_side result ≡ side }
        /// It waits for so long.
        ensures waits { gate_waits result ≡ waits }
        /// It has counted 0 ticks.
        ensures ticks { gate_ticks result ≡ 0 }
    {
        Gate {
            side,
            waits,
            spoken: Spoken::Nobody(0),
            quiet: u64::from(T1_5_TICKS),
            open_now: false,
            ticks: 0,
        }
    }

    // Whether a byte that the receiver returns now is let through.
    fn lets(&self) -> bool
        ensures { result ≡ lets (gate_side self.now) (gate_waits self.now) (gate_state self.now) }
    {
        if self.quiet < u64::from(T1_5_TICKS) {
            return self.open_now;
        }
        self.spoken.may_speak(self.side, self.waits)
    }

    /// Returns whether a burst begins with this tick of the receiver that the gate keeps back.
    pub fn holds(&self, tick: Tick) -> bool
        ensures { result ≡ holds_back (gate_side self.now) (gate_waits self.now)
            (gate_state self.now) tick }
    {
        match tick {
            Tick::Silent => false,
            Tick::Byte(_) => u64::from(T1_5_TICKS) <= self.quiet && !self.lets(),
        }
    }

    /// Returns the tick with which the box drives the wires now, if its receiver has returned this
    /// one. It doesn't depend on what is heard now.
    pub fn pass(&self, tick: Tick) -> Tick
        ensures { result ≡ let_through tick
            (lets (gate_side self.now) (gate_waits self.now) (gate_state self.now)) }
    {
        match tick {
            Tick::Silent => Tick::Silent,
            Tick::Byte(byte) => {
                if self.lets() {
                    Tick::Byte(byte)
                } else {
                    Tick::Silent
                }
            }
        }
    }

    /// Goes on after a tick for which the receiver has returned this one, while this was heard of the
    /// others. Fewer than `MAX_TICKS` ticks were taken before.
    pub fn follow(&mut self, tick: Tick, heard: Tick)
        /// Fewer than 2^62 ticks were taken before.
        requires { gate_ticks self.old < MAX_TICKS }
        /// The gate knows who spoke last and how many silent ticks ago, the box by what it let
        /// through.
        ensures state { gate_state self.new
            ≡ gate_after (gate_side self.old) (gate_waits self.old) (gate_state self.old) tick heard }
        /// The side stays.
        ensures side { gate_side self.new ≡ gate_side self.old }
        /// The waits stay.
        ensures waits { gate_waits self.new ≡ gate_waits self.old }
        /// One more tick is counted.
        ensures ticks { gate_ticks self.new ≡ gate_ticks self.old + 1 }
    {
        let own = self.pass(tick);
        let open_now = match tick {
            Tick::Silent => self.open_now,
            Tick::Byte(_) => self.lets(),
        };
        self.spoken = self.spoken.known_after(self.side, own, heard);
        self.quiet = match tick {
            Tick::Silent => self.quiet + 1,
            Tick::Byte(_) => 0,
        };
        self.open_now = open_now;
        self.ticks += 1;
    }
}
