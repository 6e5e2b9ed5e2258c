//! A two-wire box, and what it has made of both pairs of wires, kept in memory.
ghost use Rattle.std.specs.Prelude.{◌≡◌, ◌+◌, ◌<◌, ◌≤◌, ℕ, List, [], ◌∷◌, ◌++◌, length, take, drop};
ghost use Rattle.std.specs.Prelude.{OnOk, IfOk, if◌then◌else◌};
ghost use Rattle.yasir_ticks.specs.Ticks.{silent};
ghost use Rattle.yasir_ticks.specs.TickRun.{run_ticks};
ghost use Rattle.yasir_ticks.specs.declared.tick.Tick.{Tick};
ghost use Rattle.yasir_ticks.specs.declared.TheConstants.{MAX_TICKS};
ghost use Rattle.link_format.specs.Setup.{Setup, setup_of};
ghost use Rattle.link_format.specs.Directions.{opposite_of};
ghost use Rattle.line_commands.specs.Boxes.{line_of_note};
ghost use Rattle.line_commands.specs.KeptBox.{timed_of};
ghost use Rattle.line_commands.specs.Recording.{BothTexts, HoldsTexts, filled_recording};
ghost use Rattle.two_wire.specs.Gate.{gate_state, gate_side, gate_waits, gate_ticks};
ghost use Rattle.wire_commands.specs.WireLines.{held_line, AreTextsOfWires};
ghost use Rattle.wire_commands.specs.Hearing.{gate_through};
ghost use Rattle.wire_commands.specs.WireBox.{next_of, IsServed, ticks_gone, CatchesUp};
ghost use Rattle.wire_commands.specs.Making.{HasMade, IsAble, MayPass, MakesSome, ticks_made};

use crate::heard::{heard_run, tick_at};
use crate::tick_lines::TickLines;
use crate::wire_box::WireBox;
use frame_ending::RunBytes;
use line_commands::{LineBox, Recorded, placed_line};
use line_texts::answer_run;
use link_format::Dir;
use std::alloc::Global;
use two_wire::{Gate, Side, Waits, hear};
use yasir_io::NoMemory;
use yasir_ticks::{MAX_TICKS, Tick, TickRun};

/// Where a box stands on a two-wire line: in which direction its device sends, for which side it
/// speaks to its device, and how long is waited there.
#[derive(Clone, Copy, Debug, PartialEq, Eq)]
pub struct WireEnd {
    pub outgoing: Dir,
    pub side: Side,
    pub waits: Waits,
}

/// A two-wire box over new journals that never fail, the texts of the ticks with which it has driven
/// both pairs of wires, and the lines of what it has noted.
#[derive(Drop)]
pub(crate) struct WireLines<S, C> {
    sender: WireBox<S>,
    receiver: WireBox<C>,
    gate: Gate,
    link_text: TickLines,
    device_text: TickLines,
    notes: Vec<u8>,
    ticks: u64,
}

// Adds the line of a note, if there is one.
fn add_note<B: LineBox>(notes: &mut Vec<u8>, note: Option<B::Note>) -> Result<(), NoMemory>
    ensures { OnOk result (notes.new.items ≡ notes.old.items ++ line_of_note B.line_of note) }
{
    let Some(note) = note else {
        return Ok(());
    };
    let line = B::note_line(&note);
    match notes.extend_from_slice(line.as_slice()) {
        Ok(()) => Ok(()),
        Err(_) => Err(NoMemory),
    }
}

// Adds the line of a burst that is kept back in this step.
fn add_held(notes: &mut Vec<u8>, held: bool, tick: u64) -> Result<(), NoMemory>
    ensures { OnOk result
        (notes.new.items ≡ notes.old.items ++ (if held then held_line tick else [])) }
{
    if !held {
        return Ok(());
    }
    let line = placed_line(b"held at ", tick, b"\n");
    match notes.extend_from_slice(line.as_slice()) {
        Ok(()) => Ok(()),
        Err(_) => Err(NoMemory),
    }
}

// Adds the lines of the notes of a step, and of a burst that is kept back in it.
fn add_notes<S: LineBox, C: LineBox>(
    notes: &mut Vec<u8>,
    sealed: Option<S::Note>,
    checked: Option<C::Note>,
    held: bool,
    tick: u64,
) -> Result<(), NoMemory>
    ensures { OnOk result (notes.new.items ≡ ((notes.old.items ++ line_of_note S.line_of sealed)
        ++ line_of_note C.line_of checked) ++ (if held then held_line tick else [])) }
{
    let Ok(()) = add_note::<S>(notes, sealed) else {
        return Err(NoMemory);
    };
    let Ok(()) = add_note::<C>(notes, checked) else {
        return Err(NoMemory);
    };
    add_held(notes, held, tick)
}

// The ticks of a line behind a place.
fn behind(line: &[Tick], place: usize) -> &[Tick]
    ensures { result.now ≡ drop place line.now }
{
    &line[place.min(line.len())..]
}

// Lets a box be ahead of its wires, if it isn't: it takes what its port surely hears of these ticks,
// if it drives the wires with `own` and then with `next`. Returns the note of the first tick.
#[inline(always)]
fn catch_up<B: LineBox>(
    wire_box: &mut WireBox<B>,
    own: Tick,
    next: TickRun<'_>,
    line: &[Tick],
    left: usize,
) -> Option<B::Note>
    requires some { 0 < left }
    requires served { IsServed B.LinkBox wire_box.old }
    requires within { length (next_of wire_box.old) ≤ left }
    requires room { ticks_gone B.LinkBox wire_box.old + left ≤ MAX_TICKS }
    ensures { CatchesUp B.LinkBox wire_box.old wire_box.new (own ∷ run_ticks next.entry)
        (filled_recording left line.now) left result }
{
    if !wire_box.next().is_empty() {
        return None;
    }
    let mut bytes = RunBytes::new();
    let count = heard_run(own, next, line, left, &mut bytes);
    wire_box.take(answer_run(count, bytes.as_slice()))
}

// Returns how many ticks may go by now, if both boxes are ahead.
fn ready<S: LineBox, C: LineBox>(sender: &WireBox<S>, receiver: &WireBox<C>) -> u32
    requires sent { 0 < length (next_of sender.now) }
    requires got { 0 < length (next_of receiver.now) }
    requires few { length (next_of sender.now) ≤ 256 }
    ensures { MayPass sender.now receiver.now result }
{
    let silent = receiver.silence();
    if silent == 0 {
        return 1;
    }
    match receiver.now() {
        Tick::Silent => silent.min(sender.next().len() as u32),
        Tick::Byte(_) => 1,
    }
}

// Lets a gate go on while its receiver has silent ticks, this many, and these are on the wires.
fn wait(gate: &mut Gate, device: &[Tick], count: u32)
    requires room { gate_ticks gate.old + count ≤ MAX_TICKS }
    ensures side { gate_side gate.new ≡ gate_side gate.old }
    ensures waits { gate_waits gate.new ≡ gate_waits gate.old }
    ensures ticks { gate_ticks gate.new ≡ gate_ticks gate.old + count }
    ensures state { (left : ℕ) → count ≤ left → gate_state gate.new
        ≡ gate_through (gate_side gate.old) (gate_waits gate.old) (gate_state gate.old)
        (silent count) (take count (filled_recording left device.now)) }
{
    let mut done: u32 = 0;
    while done < count {
        gate.follow(Tick::Silent, tick_at(device, done as usize));
        done += 1;
    }
}

impl<S: LineBox, C: LineBox> WireLines<S, C> {
    pub(crate) fn new(alloc: Global, key: &[u8], at: WireEnd) -> WireLines<S, C>
        requires outgoing { S.widths_fit }
        requires incoming { C.widths_fit }
        ensures none { ticks_made result ≡ 0 }
        ensures able { (left : ℕ) → IsAble S.LinkBox C.LinkBox result left }
        ensures made { (device_rest link_rest : List Tick)
            → HasMade S.LinkBox S.line_of C.LinkBox C.line_of at.side at.waits
            (setup_of key.now at.outgoing 0) (setup_of key.now (opposite_of at.outgoing) 0)
            result [] [] device_rest link_rest }
    {
        WireLines {
            sender: WireBox::new(key, at.outgoing),
            receiver: WireBox::new(key, at.outgoing.opposite()),
            gate: Gate::new(at.side, at.waits),
            link_text: TickLines::new(alloc),
            device_text: TickLines::new(alloc),
            notes: Vec::new(alloc),
            ticks: 0,
        }
    }

    // Lets ticks go by: as many as both boxes have taken, once each of them is ahead. Returns how
    // many.
    fn take_some(&mut self, device: &[Tick], link: &[Tick], left: usize) -> Result<usize, NoMemory>
        requires some { 0 < left }
        requires room { ticks_made self.old + left ≤ MAX_TICKS }
        requires able { IsAble S.LinkBox C.LinkBox self.old left }
        ensures { IfOk result (λ n. MakesSome S.LinkBox S.line_of C.LinkBox C.line_of self.old
            self.new (filled_recording left device.now) (filled_recording left link.now) left n) }
    {
        let for_device = self.receiver.now();
        let to_device = self.gate.pass(for_device);
        let silence = TickRun::Silence(self.receiver.silence());
        let sealed = catch_up(&mut self.sender, to_device, silence, device, left);
        let now = self.sender.now();
        let next = self.sender.next();
        let checked = catch_up(&mut self.receiver, now, next, link, left);
        let held = self.gate.holds(for_device);
        let Ok(()) = add_notes::<S, C>(&mut self.notes, sealed, checked, held, self.ticks) else {
            return Err(NoMemory);
        };
        let count = ready(&self.sender, &self.receiver);
        self.gate
            .follow(for_device, hear(to_device, tick_at(device, 0)));
        wait(&mut self.gate, behind(device, 1), count - 1);
        let Ok(()) = self
            .device_text
            .add_first(to_device, TickRun::Silence(count - 1))
        else {
            return Err(NoMemory);
        };
        let sent = self.sender.next().front((count - 1) as usize);
        let Ok(()) = self.link_text.add_first(self.sender.now(), sent) else {
            return Err(NoMemory);
        };
        self.sender.leave(count);
        self.receiver.leave(count);
        self.ticks += u64::from(count);
        Ok(count as usize)
    }

    /// Takes both recordings, filled with silence to this many ticks.
    pub(crate) fn take_all(
        &mut self,
        device: &[Tick],
        link: &[Tick],
        steps: usize,
    ) -> Result<(), NoMemory>
        requires none { ticks_made self.old ≡ 0 }
        requires few { steps ≤ MAX_TICKS }
        requires able { IsAble S.LinkBox C.LinkBox self.old steps }
        ensures { OnOk result ((side : Side) (waits : Waits) (sent_setup got_setup : Setup)
            → HasMade S.LinkBox S.line_of C.LinkBox C.line_of side waits sent_setup got_setup
            self.old [] [] (filled_recording steps device.now) (filled_recording steps link.now)
            → HasMade S.LinkBox S.line_of C.LinkBox C.line_of side waits sent_setup got_setup
            self.new (take steps (filled_recording steps device.now))
            (take steps (filled_recording steps link.now))
            (drop steps (filled_recording steps device.now))
            (drop steps (filled_recording steps link.now))) }
    {
        let mut count = 0;
        while count < steps {
            match self.take_some(behind(device, count), behind(link, count), steps - count) {
                Ok(some) => count += some,
                Err(NoMemory) => return Err(NoMemory),
            }
        }
        Ok(())
    }

    /// Returns the texts of what the box has driven its wires with, and the lines of its notes.
    pub(crate) fn finish(self) -> Result<Recorded, NoMemory>
        ensures { IfOk result (λ recorded. (side : Side) (waits : Waits)
            (sent_setup got_setup : Setup) (device link : List Tick)
            → HasMade S.LinkBox S.line_of C.LinkBox C.line_of side waits sent_setup got_setup self
            device link [] []
            → (texts : BothTexts) × HoldsTexts recorded texts
            × AreTextsOfWires (timed_of S.walking S.line_of sent_setup)
            (timed_of C.walking C.line_of got_setup) side waits device link texts) }
    {
        let WireLines {
            link_text,
            device_text,
            notes,
            ..
        } = self;
        let Ok(link) = link_text.finish() else {
            return Err(NoMemory);
        };
        match device_text.finish() {
            Ok(device) => Ok(Recorded::new(link, device, notes)),
            Err(NoMemory) => Err(NoMemory),
        }
    }
}
