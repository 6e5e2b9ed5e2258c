//! A pair of boxes whose ports each share one pair of wires.
ghost use Rattle.std.specs.Prelude.{◌≡◌};

use duplex_box::{BoxPair, DuplexFault, PairStep};
use link_box::LinkBox;
use link_format::Dir;
use sequence_journal::Journal;
use two_wire::{Gate, Side, Waits, hear};
use yasir_io::SlotDisk;
use yasir_ticks::{MAX_TICKS, Tick};

/// A box at one end of a two-wire line. Each tick that its boxes return leaves in the tick after the
/// one for which they return it, those for its device through a gate.
#[derive(Drop)]
pub struct TwoWire<S, C> {
    pair: BoxPair<S, C>,
    gate: Gate,
    for_device: Tick,
    for_link: Tick,
}

impl<S: LinkBox, C: LinkBox> TwoWire<S, C> {
    ghost use Rattle.std.specs.Prelude.{◌≡◌, ◌+◌, ◌<◌, ℕ, [], OnOk, IfOk};
    ghost use Rattle.yasir_ticks.specs.declared.tick.Tick.TheVariants.{Silent};
    ghost use Rattle.link_format.specs.Setup.{setup_of};
    ghost use Rattle.link_box.specs.Stepping.{MayStep};
    ghost use Rattle.link_format.specs.Directions.{opposite_of};
    ghost use Rattle.duplex_box.specs.Directions.{AreOfLine};
    ghost use Rattle.duplex_box.specs.Pairs.{outgoing_direction, outgoing_box, incoming_box};
    ghost use Rattle.duplex_box.specs.Pairs.{ways_of, StepsBoth};
    ghost use Rattle.two_wire.specs.Gate.{gate_state, gate_side, gate_waits, gate_ticks};
    ghost use Rattle.two_wire.specs.Gate.{at_rest, gate_after};
    ghost use Rattle.two_wire.specs.Wires.{heard};
    ghost use Rattle.two_wire_box.specs.Ends.{pair_of, gate_of, for_device, link_now, device_now};

    /// Returns a box that has taken no tick, for a key of any length, the line's direction in which
    /// its device sends, and the side for which it speaks to its device. For so long is
    /// waited there.
    pub fn new(key: &[u8], outgoing: Dir, side: Side, waits: Waits) -> TwoWire<S, C>
        /// The widths of the transmitter are ones that it can be made with.
        requires outgoing_fits { S.widths_fit }
        /// The widths of the receiver are ones that it can be made with.
        requires incoming_fits { C.widths_fit }

        /// Its outgoing direction is this one.
        ensures direction { outgoing_direction (pair_of result) ≡ outgoing }
        /// The transmitter has taken 0 ticks.
        ensures none_sent { S.taken (outgoing_box (pair_of result)) ≡ 0 }
        /// The receiver has taken 0 ticks.
        ensures none_got { C.taken (incoming_box (pair_of result)) ≡ 0 }
        /// The transmitter's link is that of its direction.
        ensures outgoing_link { S.link_of (outgoing_box (pair_of result)) ≡ S.link_in outgoing }
        /// The receiver's link is that of the other direction.
        ensures incoming_link { C.link_of (incoming_box (pair_of result))
            ≡ C.link_in (opposite_of outgoing) }
        /// The transmitter begins with this key, at whatever floor its journal has.
        ensures sends { (floor : ℕ) → S.stands (outgoing_box (pair_of result)) floor
            (setup_of key.now outgoing floor) [] }
        /// The receiver begins with this key, at whatever floor its journal has.
        ensures gets { (floor : ℕ) → C.stands (incoming_box (pair_of result)) floor
            (setup_of key.now (opposite_of outgoing) floor) [] }
        /// The gate is at rest.
        ensures gate { gate_state (gate_of result) ≡ at_rest }
        /// The gate has counted 0 ticks.
        ensures ticks { gate_ticks (gate_of result) ≡ 0 }
        /// The gate speaks for this side.
        ensures side { gate_side (gate_of result) ≡ side }
        /// The gate waits for so long.
        ensures waits { gate_waits (gate_of result) ≡ waits }
        /// It drives the device's wires with silence first.
        ensures device_silent { for_device result ≡ Silent }
        /// It drives the link's wires with silence first.
        ensures link_silent { link_now result ≡ Silent }
    {
        TwoWire {
            pair: BoxPair::new(key, outgoing),
            gate: Gate::new(side, waits),
            for_device: Tick::Silent,
            for_link: Tick::Silent,
        }
    }

    /// Returns the tick with which the box drives the wires to its device now.
    pub fn device_tick(&self) -> Tick
        ensures { result ≡ device_now self.now }
    {
        self.gate.pass(self.for_device)
    }

    /// Returns the tick with which the box drives the wires of the link now.
    pub fn link_tick(&self) -> Tick
        ensures { result ≡ link_now self.now }
    {
        self.for_link
    }

    /// Takes what was on both pairs of wires in the tick in which the box drove them with
    /// `device_tick` and `link_tick`, with or without an echo of that. The journals, disks and faults
    /// are those of `BoxPair::step`.
    pub fn step<X: SlotDisk, Y: SlotDisk>(
        &mut self,
        device_wires: Tick,
        link_wires: Tick,
        sent: &mut Journal,
        sent_disk: &mut X,
        got: &mut Journal,
        got_disk: &mut Y,
    ) -> Result<PairStep<S::Note, C::Note>, DuplexFault>
        /// The journals serve the two directions of one line.
        requires journals { AreOfLine (outgoing_direction (pair_of self.old)) sent.old got.old }
        /// The transmitter may take a tick, with this journal over its disk.
        requires outgoing { MayStep (S.link_of (outgoing_box (pair_of self.old)))
            (S.taken (outgoing_box (pair_of self.old))) sent.old (X.told sent_disk.old) }
        /// The receiver may take a tick, with this journal over its disk.
        requires incoming { MayStep (C.link_of (incoming_box (pair_of self.old)))
            (C.taken (incoming_box (pair_of self.old))) got.old (Y.told got_disk.old) }
        /// Fewer than 2^62 ticks were taken before.
        requires room { gate_ticks (gate_of self.old) < MAX_TICKS }

        /// Its outgoing direction stays.
        ensures direction { outgoing_direction (pair_of self.new)
            ≡ outgoing_direction (pair_of self.old) }
        /// Each box takes what was heard on its wires, which is silence while the box drove them.
        /// All else is as `BoxPair::step` says.
        ensures heard { StepsBoth S.LinkBox C.LinkBox X.SlotDisk Y.SlotDisk
            (heard (device_now self.old) device_wires) (heard (link_now self.old) link_wires)
            (ways_of (pair_of self.old) sent.old sent_disk.old got.old got_disk.old)
            (ways_of (pair_of self.new) sent.new sent_disk.new got.new got_disk.new) result }
        /// After a step that succeeds, the gate has gone on by what it drove the device's wires
        /// with, and by what was heard there.
        ensures gate { OnOk result (gate_state (gate_of self.new)
            ≡ gate_after (gate_side (gate_of self.old)) (gate_waits (gate_of self.old))
            (gate_state (gate_of self.old)) (for_device self.old)
            (heard (device_now self.old) device_wires)) }
        /// After a step that succeeds, the gate has counted one more tick.
        ensures ticks { OnOk result (gate_ticks (gate_of self.new)
            ≡ gate_ticks (gate_of self.old) + 1) }
        /// After a step that succeeds, the gate speaks for the same side.
        ensures side { OnOk result (gate_side (gate_of self.new) ≡ gate_side (gate_of self.old)) }
        /// After a step that succeeds, the gate waits for as long as before.
        ensures waits { OnOk result (gate_waits (gate_of self.new)
            ≡ gate_waits (gate_of self.old)) }
        /// It will drive the device's wires with the tick that the step returns for them.
        ensures made { IfOk result (λ step. for_device self.new ≡ step.device) }
        /// It will drive the link's wires with the tick that the step returns for them.
        ensures sent { IfOk result (λ step. link_now self.new ≡ step.link) }
    {
        let from_device = hear(self.device_tick(), device_wires);
        let from_link = hear(self.for_link, link_wires);
        let step = match self
            .pair
            .step(from_device, from_link, sent, sent_disk, got, got_disk)
        {
            Ok(step) => step,
            Err(fault) => return Err(fault),
        };
        self.gate.follow(self.for_device, from_device);
        self.for_device = step.device;
        self.for_link = step.link;
        Ok(step)
    }
}
