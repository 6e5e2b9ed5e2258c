//! A two-wire box and the people beside it, who keep the turns.
ghost use Rattle.std.specs.Prelude.{◌≡◌};
ghost use Rattle.two_wire.specs.Turns.{may_be_deaf, opposite};

use link_box::LinkBox;
use link_format::Dir;
use two_wire::{Side, Spoken, Waits, drive};
use two_wire_box::SteadyEnd;
use yasir_ticks::{MAX_TICKS, T3_5_TICKS, Tick};

/// What was on both pairs of wires of a box in a tick, with what the box drove them, what the
/// people beside it said, and whether one of them was deaf, which is a byte.
#[derive(Clone, Copy, Debug, PartialEq, Eq)]
pub struct EndTick {
    pub device_wires: Tick,
    pub link_wires: Tick,
    pub to_device: Tick,
    pub to_link: Tick,
    pub said: Tick,
    pub deaf: Tick,
}

/// A two-wire box over new journals, and who spoke last on the wires to its device. The people on
/// these wires say only what they may.
#[derive(Drop)]
pub struct TurnedEnd<S, C> {
    wires: SteadyEnd<S, C>,
    side: Side,
    waits: Waits,
    turn: Spoken,
}

// Whether one of the people may be deaf now, beside a box that speaks for this side.
fn may_be_deaf(side: Side, waits: Waits, spoken: Spoken) -> bool
    ensures { result ≡ may_be_deaf side waits 0 spoken }
{
    let window = u64::from(waits.window);
    let pause = u64::from(waits.pause);
    let ends = u64::from(T3_5_TICKS);
    match side {
        Side::Asks => match spoken {
            Spoken::Nobody(quiet) => quiet < window,
            Spoken::Asker(quiet) => ends <= quiet && quiet < window,
            Spoken::Answerer(quiet) => quiet < pause && quiet < window,
        },
        Side::Answers => match spoken {
            Spoken::Nobody(_) => true,
            Spoken::Asker(quiet) => quiet < ends || window <= quiet,
            Spoken::Answerer(quiet) => pause <= quiet,
        },
    }
}

// The other side.
fn opposite(side: Side) -> Side
    ensures { result ≡ opposite side }
{
    match side {
        Side::Asks => Side::Answers,
        Side::Answers => Side::Asks,
    }
}

impl<S: LinkBox, C: LinkBox> TurnedEnd<S, C> {
    ghost use Rattle.std.specs.Prelude.{◌≡◌, ◌⊎◌, ◌+◌, ◌<◌, ◌≤◌, List, [], ◌∷◌, ◌++◌};
    ghost use Rattle.yasir_ticks.specs.declared.tick.Tick.{Tick};
    ghost use Rattle.yasir_ticks.specs.declared.tick.Tick.TheVariants.{Silent};
    ghost use Rattle.link_format.specs.Directions.{opposite_of};
    ghost use Rattle.two_wire.specs.Turns.{opposite, after_own, quiet_of, MaySay, MayBeDeaf};
    ghost use Rattle.two_wire.specs.Turns.{IsWithin};
    ghost use Rattle.two_wire.specs.TwoWire.{EndWires};
    ghost use Rattle.two_wire_box.specs.Ends.{link_now};
    ghost use Rattle.two_wire_box.specs.Steady.{AreLinksOfLine, steady_ticks};
    ghost use Rattle.poll_session.specs.TurnedEnds.{MayTurn, EndHasTurned, wires_and};

    /// Returns an end whose box has taken no tick. Its device sends in this direction, and the box
    /// speaks to it for this side.
    pub fn new(dir: Dir, side: Side, waits: Waits) -> TurnedEnd<S, C>
        requires outgoing_fits { S.widths_fit }
        requires incoming_fits { C.widths_fit }
        requires links { AreLinksOfLine dir (S.link_in dir) (C.link_in (opposite_of dir)) }
        requires pauses { waits.pause ≤ waits.window }
        ensures able { MayTurn S.LinkBox C.LinkBox result }
        ensures ticks { steady_ticks result.wires ≡ 0 }
        ensures side { result.side ≡ side }
        ensures waits { result.waits ≡ waits }
        ensures turned { EndHasTurned S.LinkBox C.LinkBox dir result (record {
          device_wires = [];
          link_wires = [];
          to_device = [];
          to_link = [];
        }) [] [] }
    {
        TurnedEnd {
            wires: SteadyEnd::new(&[0; 16], dir, side, waits),
            side,
            waits,
            turn: Spoken::Nobody(0),
        }
    }

    /// Returns the tick with which the box drives the wires of the link now.
    pub fn link_tick(&self) -> Tick {
        self.wires.link_tick()
    }

    /// Who spoke last on the wires to the device, and how many silent ticks ago.
    pub fn turn(&self) -> Spoken {
        self.turn
    }

    // What the people say now, if they wish to say this: nothing if they may not.
    fn said(&self, wish: Tick) -> Tick
        ensures may { MaySay (opposite self.now.side) self.now.waits self.now.turn result }
        ensures is { (result ≡ Silent) ⊎ (result ≡ wish) }
    {
        if self.turn.may_speak(opposite(self.side), self.waits) {
            wish
        } else {
            Tick::Silent
        }
    }

    // Whether one of them is deaf now, which is a byte: while it says this, and otherwise if it may
    // be and wishes to.
    fn deaf(&self, said: Tick, sleepy: bool) -> Tick
        requires pauses { self.now.waits.pause ≤ self.now.waits.window }
        requires may { MaySay (opposite self.now.side) self.now.waits self.now.turn said }
        ensures may { MayBeDeaf self.now.side self.now.waits 0 self.now.turn result }
        ensures within { IsWithin said result }
    {
        match said {
            Tick::Byte(byte) => Tick::Byte(byte),
            Tick::Silent => {
                if sleepy && may_be_deaf(self.side, self.waits, self.turn) {
                    Tick::Byte(0)
                } else {
                    Tick::Silent
                }
            }
        }
    }

    // Who has spoken last after one more tick of the box and of the people.
    fn turn_after(&self, own: Tick, said: Tick) -> Spoken
        requires { quiet_of self.now.turn < MAX_TICKS }
        ensures last { result ≡ after_own self.now.side self.now.turn own said }
        ensures counted { quiet_of result ≤ quiet_of self.now.turn + 1 }
    {
        match self.side {
            Side::Asks => self.turn.after(own, said),
            Side::Answers => self.turn.after(said, own),
        }
    }

    /// Takes one more tick, in which the people beside the box wish to say this, one of them wishes
    /// to be deaf or not, and this is on the wires of the link.
    pub fn step(&mut self, wish: Tick, sleepy: bool, link: Tick) -> EndTick
        requires able { MayTurn S.LinkBox C.LinkBox self.old }
        requires room { steady_ticks self.old.wires < MAX_TICKS }
        ensures able { MayTurn S.LinkBox C.LinkBox self.new }
        ensures ticks { steady_ticks self.new.wires ≡ steady_ticks self.old.wires + 1 }
        ensures side { self.new.side ≡ self.old.side }
        ensures waits { self.new.waits ≡ self.old.waits }
        ensures said { (result.said ≡ Silent) ⊎ (result.said ≡ wish) }
        ensures link { result.link_wires ≡ link }
        ensures turned { (dir : Dir) (w : EndWires) (others deaf : List Tick)
            → EndHasTurned S.LinkBox C.LinkBox dir self.old w others deaf
            → EndHasTurned S.LinkBox C.LinkBox dir self.new (wires_and w result)
            (others ++ result.said ∷ []) (deaf ++ result.deaf ∷ []) }
    {
        let to_device = self.wires.device_tick();
        let to_link = self.wires.link_tick();
        let said = self.said(wish);
        let deaf = self.deaf(said, sleepy);
        let device_wires = drive(to_device, said);
        self.turn = self.turn_after(to_device, said);
        let _step = self.wires.step(device_wires, link);
        EndTick {
            device_wires,
            link_wires: link,
            to_device,
            to_link,
            said,
            deaf,
        }
    }
}
