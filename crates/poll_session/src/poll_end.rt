//! One end of a session of polls.
use crate::turned_end::{EndTick, TurnedEnd};
use crate::watch::Watch;
use device_model::Device;
use link_box::LinkBox;
use link_format::Dir;
use session_lists::{FrameBox, FrameList, NoMemory, Numbered, hear_into};
use std::alloc::Global;
use two_wire::{Side, Spoken, Waits, hear};
use yasir_ticks::{MAX_TICKS, Tick};

/// A two-wire box, the people beside it, what is counted of what the box hears, and the frames that
/// one of the people reads.
#[derive(Drop)]
pub struct PollEnd<S, C, X, Y, V> {
    turned: TurnedEnd<S, C>,
    watch: Watch<X, Y>,
    ear: V,
    read: FrameList<u64>,
}

impl<S: LinkBox, C: LinkBox, X: FrameBox, Y: FrameBox, V: Device + Drop> PollEnd<S, C, X, Y, V> {
    ghost use Rattle.std.specs.Prelude.{◌≡◌, ◌⊎◌, ℕ, ◌+◌, ◌<◌, ◌≤◌, List, [], ◌∷◌, ◌++◌};
    ghost use Rattle.std.specs.Prelude.{OnOk, IfOk};
    ghost use Rattle.yasir_ticks.specs.declared.tick.Tick.{Tick};
    ghost use Rattle.yasir_ticks.specs.declared.tick.Tick.TheVariants.{Silent};
    ghost use Rattle.link_format.specs.Directions.{opposite_of};
    ghost use Rattle.link_format.specs.declared.dir.Dir.{Dir as LinkDir};
    ghost use Rattle.two_wire.specs.TwoWire.{EndWires};
    ghost use Rattle.two_wire_box.specs.Steady.{AreLinksOfLine};
    ghost use Rattle.poll_session.specs.TurnedEnds.{wires_and};
    ghost use Rattle.poll_session.specs.PollEnds.{MayPoll, HasPolled};

    /// Returns an end that has taken no tick. Its device sends in this direction, and its box
    /// speaks to it for this side.
    pub fn new(alloc: Global, dir: Dir, side: Side, waits: Waits) -> PollEnd<S, C, X, Y, V>
        requires outgoing_fits { S.widths_fit }
        requires incoming_fits { C.widths_fit }
        requires sealing { X.widths_fit }
        requires checking { Y.widths_fit }
        requires links { AreLinksOfLine dir (S.link_in dir) (C.link_in (opposite_of dir)) }
        requires pauses { waits.pause ≤ waits.window }
        ensures able { MayPoll S.LinkBox C.LinkBox X.FrameBox Y.FrameBox V.Device result 0 }
        ensures side { result.turned.side ≡ side }
        ensures waits { result.turned.waits ≡ waits }
        ensures polled { HasPolled S.LinkBox C.LinkBox X.FrameBox Y.FrameBox V.Device dir result
            (record { device_wires = []; link_wires = []; to_device = []; to_link = [] }) [] [] }
    {
        PollEnd {
            turned: TurnedEnd::new(dir, side, waits),
            watch: Watch::new(alloc, dir),
            ear: V::fresh(),
            read: FrameList::new(alloc),
        }
    }

    /// Returns the tick with which the box drives the wires of the link now.
    pub fn link_tick(&self) -> Tick {
        self.turned.link_tick()
    }

    /// Who spoke last on the wires to the device, and how many silent ticks ago.
    pub fn turn(&self) -> Spoken {
        self.turned.turn()
    }

    /// Takes one more tick, in which the people beside the box wish to say this, one of them wishes
    /// to be deaf or not, and this is on the wires of the link.
    pub fn step(&mut self, wish: Tick, sleepy: bool, link: Tick) -> Result<EndTick, NoMemory>
        requires able { MayPoll S.LinkBox C.LinkBox X.FrameBox Y.FrameBox V.Device self.old
            (V.taken self.old.ear) }
        requires room { V.taken self.old.ear < MAX_TICKS }
        ensures able { OnOk result (MayPoll S.LinkBox C.LinkBox X.FrameBox Y.FrameBox V.Device
            self.new (V.taken self.old.ear + 1)) }
        ensures side { self.new.turned.side ≡ self.old.turned.side }
        ensures waits { self.new.turned.waits ≡ self.old.turned.waits }
        ensures said { IfOk result (λ tick. (tick.said ≡ Silent) ⊎ (tick.said ≡ wish)) }
        ensures link { IfOk result (λ tick. tick.link_wires ≡ link) }
        ensures polled { IfOk result (λ tick. (dir : LinkDir) (w : EndWires)
            (others deaf : List Tick)
            → HasPolled S.LinkBox C.LinkBox X.FrameBox Y.FrameBox V.Device dir self.old w others deaf
            → HasPolled S.LinkBox C.LinkBox X.FrameBox Y.FrameBox V.Device dir self.new
            (wires_and w tick) (others ++ tick.said ∷ []) (deaf ++ tick.deaf ∷ [])) }
    {
        let tick = self.turned.step(wish, sleepy, link);
        let device = hear(tick.to_device, tick.device_wires);
        let from_link = hear(tick.to_link, tick.link_wires);
        let Ok(()) = self.watch.step(device, from_link, tick.to_device) else {
            return Err(NoMemory);
        };
        let heard = hear(tick.deaf, tick.device_wires);
        let Ok(()) = hear_into(&mut self.ear, &mut self.read, heard) else {
            return Err(NoMemory);
        };
        Ok(tick)
    }

    /// The frames that were sealed here, of what the device says.
    pub fn sealed(&self) -> &FrameList<Numbered>
        ensures { result.now ≡ self.now.watch.sealed }
    {
        self.watch.sealed()
    }

    /// The frames that have passed here, of what was heard on the link.
    pub fn passed(&self) -> &FrameList<Numbered>
        ensures { result.now ≡ self.now.watch.passed }
    {
        self.watch.passed()
    }

    /// The frames that were read here, each with the tick of its first byte.
    pub fn read(&self) -> &FrameList<u64>
        ensures { result.now ≡ self.now.read }
    {
        &self.read
    }

    /// How many bursts the gate has kept back.
    pub fn held(&self) -> u64
        ensures { result ≡ self.now.watch.held }
    {
        self.watch.held()
    }
}
