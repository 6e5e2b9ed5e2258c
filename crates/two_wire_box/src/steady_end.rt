//! A two-wire box over journals in memory.
ghost use Rattle.std.specs.Prelude.{◌≡◌, None, Some};
ghost use Rattle.sequence_journal.specs.Journal.{journal_link, journal_floor, Fits};
ghost use Rattle.sequence_journal.specs.Links.{HasDirection};
ghost use Rattle.sequence_journal.specs.Slots.{greatest};
ghost use Rattle.yasir_io.specs.Steady.{steady_slots};

use crate::end_box::TwoWire;
use duplex_box::PairStep;
use link_box::LinkBox;
use link_format::Dir;
use sequence_journal::{Journal, LinkId};
use two_wire::{Side, Waits};
use yasir_io::{SLOT_LEN, SteadySlots};
use yasir_ticks::{MAX_TICKS, Tick};

/// A two-wire box over new journals on disks that never fail.
#[derive(Drop)]
pub struct SteadyEnd<S, C> {
    wires: TwoWire<S, C>,
    sent: Journal,
    sent_disk: SteadySlots,
    got: Journal,
    got_disk: SteadySlots,
    ticks: u64,
}

// Returns a new journal of this link, on a disk whose slots hold no number.
fn new_journal(disk: &mut SteadySlots, link: &LinkId) -> Journal
    requires none { greatest (steady_slots disk.old) ≡ None }
    requires link { HasDirection link.now }
    ensures of_link { journal_link result ≡ link.now }
    ensures fits { Fits result (Some (steady_slots disk.new)) }
    ensures floor { journal_floor result ≡ 0 }
{
    Journal::init(disk, link).unwrap()
}

impl<S: LinkBox, C: LinkBox> SteadyEnd<S, C> {
    ghost use Rattle.std.specs.Prelude.{◌≡◌, ◌+◌, ◌<◌, ℕ, List, [], ◌∷◌, ◌++◌};
    ghost use Rattle.link_format.specs.Setup.{Setup, setup_of};
    ghost use Rattle.link_format.specs.Directions.{opposite_of};
    ghost use Rattle.two_wire.specs.declared.gate.Side.{Side};
    ghost use Rattle.two_wire.specs.declared.gate.Waits.{Waits};
    ghost use Rattle.two_wire_box.specs.Ends.{device_now, link_now};
    ghost use Rattle.two_wire_box.specs.Lines.{WireStep, MakesWires};
    ghost use Rattle.two_wire_box.specs.Steady.{AreLinksOfLine, MayGoOn, HasDriven};
    ghost use Rattle.two_wire_box.specs.Steady.{steady_ticks};

    /// Returns a box that has taken no tick, for a key of any length, the line's direction in which
    /// its device sends, and the side for which it speaks to its device.
    pub fn new(key: &[u8], outgoing: Dir, side: Side, waits: Waits) -> SteadyEnd<S, C>
        /// The widths of the transmitter are ones that it can be made with.
        requires outgoing_fits { S.widths_fit }
        /// The widths of the receiver are ones that it can be made with.
        requires incoming_fits { C.widths_fit }
        /// The links of both boxes are the two directions of one line.
        requires links { AreLinksOfLine outgoing (S.link_in outgoing)
            (C.link_in (opposite_of outgoing)) }
        /// The box may go on.
        ensures able { MayGoOn S.LinkBox C.LinkBox result }
        /// It has taken 0 ticks.
        ensures ticks { steady_ticks result ≡ 0 }
        /// It begins with this key, at floor 0 both ways, with no step taken.
        ensures driven { HasDriven S.LinkBox C.LinkBox side waits
            (setup_of key.now outgoing 0) (setup_of key.now (opposite_of outgoing) 0) result [] }
    {
        let mut sent_disk = SteadySlots::new([0; SLOT_LEN], [0; SLOT_LEN]);
        let sent_link = S::link(outgoing);
        let sent = new_journal(&mut sent_disk, &sent_link);
        let mut got_disk = SteadySlots::new([0; SLOT_LEN], [0; SLOT_LEN]);
        let got_link = C::link(outgoing.opposite());
        let got = new_journal(&mut got_disk, &got_link);
        SteadyEnd {
            wires: TwoWire::new(key, outgoing, side, waits),
            sent,
            sent_disk,
            got,
            got_disk,
            ticks: 0,
        }
    }

    /// Returns the tick with which the box drives the wires to its device now.
    pub fn device_tick(&self) -> Tick
        ensures { result ≡ device_now self.now.wires }
    {
        self.wires.device_tick()
    }

    /// Returns the tick with which the box drives the wires of the link now.
    pub fn link_tick(&self) -> Tick
        ensures { result ≡ link_now self.now.wires }
    {
        self.wires.link_tick()
    }

    /// Takes what was on both pairs of wires in the tick in which the box drove them with
    /// `device_tick` and `link_tick`, with or without an echo of that. Fewer than `MAX_TICKS` ticks
    /// were taken before.
    pub fn step(&mut self, device_wires: Tick, link_wires: Tick) -> PairStep<S::Note, C::Note>
        /// The box may go on.
        requires able { MayGoOn S.LinkBox C.LinkBox self.old }
        /// Fewer than 2^62 ticks were taken before.
        requires room { steady_ticks self.old < MAX_TICKS }
        /// The box may go on.
        ensures able { MayGoOn S.LinkBox C.LinkBox self.new }
        /// One more tick is taken.
        ensures ticks { steady_ticks self.new ≡ steady_ticks self.old + 1 }
        /// The step is one more of the steps that the definition of a two-wire box describes.
        ensures driven { (side : Side) (waits : Waits) (sent_setup got_setup : Setup)
            (steps : List (WireStep S.Note C.Note))
            → HasDriven S.LinkBox C.LinkBox side waits sent_setup got_setup
            self.old steps
            → HasDriven S.LinkBox C.LinkBox side waits sent_setup got_setup
            self.new (steps ++ record {
              device_wires = device_wires;
              link_wires = link_wires;
              to_device = device_now self.old.wires;
              to_link = link_now self.old.wires;
              step = result;
            } ∷ []) }
    {
        let step = self
            .wires
            .step(
                device_wires,
                link_wires,
                &mut self.sent,
                &mut self.sent_disk,
                &mut self.got,
                &mut self.got_disk,
            )
            .unwrap();
        self.ticks += 1;
        step
    }
}
