//! The command `two_wire`: runs a two-wire box over recordings of both pairs of wires.
ghost use Rattle.std.specs.Prelude.{◌≡◌, Some};
ghost use Rattle.command_ends.specs.Causes.{InputCause, SinkCause};
ghost use Rattle.command_ends.specs.Ends.{outside_before, outside_after};
ghost use Rattle.command_ends.specs.Flushes.{FlushesAtEnd};
ghost use Rattle.command_ends.specs.StreamCauses.{HasStreamCauses};
ghost use Rattle.line_commands.specs.KeptBox.{timed_of};
ghost use Rattle.link_replay.specs.declared.words.Command.TheVariants.{TwoWire};
ghost use Rattle.link_replay.specs.Commands.{HasCauses};
ghost use Rattle.link_replay.specs.BothLines.{RunsOverBoth, RunsOverBothKeyed};
ghost use Rattle.link_replay.specs.TwoWireCommand.{DrivesTwoWires, wires_in_dir};
ghost use Rattle.wire_commands.specs.WireLines.{wire_texts_with};

use check_receiver::Checker;
use command_ends::{Ends, KeyError, Profile, Proto, Status, read_key, status_of, with_link};
use line_commands::{LineBox, print_both};
use link_format::Dir;
use seal_transmitter::Sealer;
use std::alloc::Global;
use two_wire::{Side, Waits};
use wire_commands::{WireEnd, record_wires};
use yasir_io::{Sink, SlotDisk, Source};

/// A line of this protocol, profile and direction, and a box on it whose wires others share: for which
/// side it speaks to its device, and how long is waited there.
#[derive(Clone, Copy)]
pub struct SharedLine {
    pub proto: Proto,
    pub profile: Profile,
    pub dir: Dir,
    pub side: Side,
    pub waits: Waits,
}

// Takes both recordings with this key, and writes what the box makes of them if the input has ended
// well.
fn drive_keyed<S: LineBox, C: LineBox, K: Source, I: Source, O: Sink, L: Sink, D: SlotDisk>(
    alloc: Global,
    key: &[u8],
    at: WireEnd,
    ends: Ends<K, I, O, L, D>,
) -> Status
    requires outgoing { S.widths_fit }
    requires incoming { C.widths_fit }
    ensures drives { RunsOverBoth (wire_texts_with (timed_of S.walking S.line_of)
        (timed_of C.walking C.line_of) at.side at.waits key.now at.outgoing)
        (I.left ends.entry.input.now) (I.left (outside_after ends.exit).input)
        (O.held ends.entry.out.now) (O.held (outside_after ends.exit).out)
        (L.held ends.entry.log.now) (L.held (outside_after ends.exit).log) result }
    ensures key { (outside_after ends.exit).key ≡ ends.entry.key.now }
    ensures disk { (outside_after ends.exit).disk ≡ ends.entry.disk.now }
    ensures input { InputCause (I.faults ends.entry.input.now)
        (I.faults (outside_after ends.exit).input) result }
    ensures sinks { SinkCause (O.faults ends.entry.out.now)
        (O.faults (outside_after ends.exit).out) (L.faults ends.entry.log.now)
        (L.faults (outside_after ends.exit).log) result }
    ensures flushes { FlushesAtEnd O.Sink L.Sink ends.entry.out.now
        (outside_after ends.exit).out ends.entry.log.now (outside_after ends.exit).log result }
{
    let Ends {
        input,
        out,
        log,
        ..
    } = ends;
    let recorded = match record_wires::<S, C, I>(alloc, key, at, input) {
        Ok(recorded) => recorded,
        Err(end) => return status_of(end),
    };
    print_both(&recorded, out, log)
}

// Reads the key, and then takes both recordings with it.
fn drive_with<S: LineBox, C: LineBox, K: Source, I: Source, O: Sink, L: Sink, D: SlotDisk>(
    alloc: Global,
    at: WireEnd,
    ends: Ends<K, I, O, L, D>,
) -> Status
    requires outgoing { S.widths_fit }
    requires incoming { C.widths_fit }
    ensures drives { RunsOverBothKeyed K.Source I.Source O.Sink L.Sink
        (wires_in_dir (timed_of S.walking S.line_of) (timed_of C.walking C.line_of) at.outgoing
        at.side at.waits)
        (outside_before ends.entry) (outside_after ends.exit) result }
    ensures disk { (outside_after ends.exit).disk ≡ ends.entry.disk.now }
    ensures causes { HasStreamCauses K.Source I.Source O.Sink L.Sink (outside_before ends.entry)
        (outside_after ends.exit) result }
{
    match read_key(ends.key) {
        Ok(key) => drive_keyed::<S, C, K, I, O, L, D>(alloc, key.as_slice(), at, ends),
        Err(KeyError::Fault) => Status::ReadFault,
        Err(KeyError::Bad { place }) => Status::BadKey { place },
    }
}

// Runs the transmitter and the receiver of a protocol and a profile.
macro_rules! drive_by {
    (
        [$rules:ty, $device:ty, $mac:ty, $word:literal, $delay:literal, $gap:literal],
        $alloc:expr, $at:expr, $ends:expr
    ) => {
        drive_with::<
            Sealer<$rules, $mac, $word>,
            Checker<$rules, $mac, $word, $delay>,
            K,
            S,
            O,
            L,
            D,
        >($alloc, $at, $ends)
    };
}

/// Takes what was on both pairs of wires through a box that drives them too, with or without an echo
/// of that. If the input has ended well, the log gets a line for each note of the transmitter, the
/// receiver and the gate, in the order of steps. After that, `out` gets the ticks with which the box
/// drives the wires of the link, a mark, and those with which it drives the wires to its device.
pub fn drive_two_wires<K: Source, S: Source, O: Sink, L: Sink, D: SlotDisk>(
    alloc: Global,
    of: SharedLine,
    ends: Ends<K, S, O, L, D>,
) -> Status
    ensures drives { DrivesTwoWires K.Source S.Source O.Sink L.Sink of.proto of.profile of.dir
        of.side of.waits (outside_before ends.entry) (outside_after ends.exit) result }
    ensures causes { HasCauses K.Source S.Source O.Sink L.Sink D.SlotDisk
        (Some (TwoWire of.proto of.profile of.dir of.side of.waits)) (outside_before ends.entry)
        (outside_after ends.exit) result }
{
    let at = WireEnd {
        outgoing: of.dir,
        side: of.side,
        waits: of.waits,
    };
    with_link!(of.proto, of.profile, drive_by(alloc, at, ends))
}
