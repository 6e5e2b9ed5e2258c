//! The command `duplex`: runs a duplex box over two recordings.
ghost use Rattle.std.specs.Prelude.{◌≡◌, Some};
ghost use Rattle.command_ends.specs.Causes.{InputCause, SinkCause};
ghost use Rattle.command_ends.specs.Ends.{outside_before, outside_after};
ghost use Rattle.command_ends.specs.Flushes.{FlushesAtEnd};
ghost use Rattle.command_ends.specs.StreamCauses.{HasStreamCauses};
ghost use Rattle.line_commands.specs.KeptBox.{timed_of};
ghost use Rattle.link_replay.specs.declared.words.Command.TheVariants.{Duplex};
ghost use Rattle.link_replay.specs.Commands.{HasCauses};
ghost use Rattle.link_replay.specs.BothLines.{RunsOverBoth, RunsOverBothKeyed};
ghost use Rattle.link_replay.specs.DuplexCommand.{Duplexes, both_in};

use check_receiver::Checker;
use command_ends::{Ends, KeyError, Profile, Proto, Status, read_key, status_of, with_link};
use line_commands::{LineBox, print_both, record_both};
use link_format::Dir;
use seal_transmitter::Sealer;
use std::alloc::Global;
use yasir_io::{Sink, SlotDisk, Source};

// Takes both recordings with this key, and writes what the boxes make of them if the input has
// ended well.
fn duplex_keyed<S: LineBox, C: LineBox, K: Source, I: Source, O: Sink, L: Sink, D: SlotDisk>(
    alloc: Global,
    key: &[u8],
    dir: Dir,
    ends: Ends<K, I, O, L, D>,
) -> Status
    requires outgoing { S.widths_fit }
    requires incoming { C.widths_fit }
    ensures duplexes { RunsOverBoth (both_in (timed_of S.walking S.line_of)
        (timed_of C.walking C.line_of) dir key.now)
        (I.left ends.entry.input.now) (I.left (outside_after ends.exit).input)
        (O.held ends.entry.out.now) (O.held (outside_after ends.exit).out)
        (L.held ends.entry.log.now) (L.held (outside_after ends.exit).log) result }
    ensures key { (outside_after ends.exit).key ≡ ends.entry.key.now }
    ensures disk { (outside_after ends.exit).disk ≡ ends.entry.disk.now }
    ensures input { InputCause (I.faults ends.entry.input.now)
        (I.faults (outside_after ends.exit).input) result }
    ensures sinks { SinkCause (O.faults ends.entry.out.now)
        (O.faults (outside_after ends.exit).out) (L.faults ends.entry.log.now)
        (L.faults (outside_after ends.exit).log) result }
    ensures flushes { FlushesAtEnd O.Sink L.Sink ends.entry.out.now
        (outside_after ends.exit).out ends.entry.log.now (outside_after ends.exit).log result }
{
    let Ends {
        input,
        out,
        log,
        ..
    } = ends;
    let recorded = match record_both::<S, C, I>(alloc, key, dir, input) {
        Ok(recorded) => recorded,
        Err(end) => return status_of(end),
    };
    print_both(&recorded, out, log)
}

// Reads the key, and then takes both recordings with it.
fn duplex_with<S: LineBox, C: LineBox, K: Source, I: Source, O: Sink, L: Sink, D: SlotDisk>(
    alloc: Global,
    dir: Dir,
    ends: Ends<K, I, O, L, D>,
) -> Status
    requires outgoing { S.widths_fit }
    requires incoming { C.widths_fit }
    ensures duplexes { RunsOverBothKeyed K.Source I.Source O.Sink L.Sink
        (both_in (timed_of S.walking S.line_of) (timed_of C.walking C.line_of) dir)
        (outside_before ends.entry) (outside_after ends.exit) result }
    ensures disk { (outside_after ends.exit).disk ≡ ends.entry.disk.now }
    ensures causes { HasStreamCauses K.Source I.Source O.Sink L.Sink (outside_before ends.entry)
        (outside_after ends.exit) result }
{
    match read_key(ends.key) {
        Ok(key) => duplex_keyed::<S, C, K, I, O, L, D>(alloc, key.as_slice(), dir, ends),
        Err(KeyError::Fault) => Status::ReadFault,
        Err(KeyError::Bad { place }) => Status::BadKey { place },
    }
}

// Runs the transmitter and the receiver of a protocol and a profile.
macro_rules! duplex_by {
    (
        [$rules:ty, $device:ty, $mac:ty, $word:literal, $delay:literal, $gap:literal],
        $alloc:expr, $dir:expr, $ends:expr
    ) => {
        duplex_with::<
            Sealer<$rules, $mac, $word>,
            Checker<$rules, $mac, $word, $delay>,
            K,
            S,
            O,
            L,
            D,
        >($alloc, $dir, $ends)
    };
}

/// Takes the line of a device through the transmitter of this direction, and a link through the
/// receiver of the other direction. If the input has ended well, the log gets a line for each note
/// of the two boxes, in the order of steps. After that, `out` gets the ticks that are sent on the
/// link, a mark, and the ticks that are sent to the device.
pub fn duplex<K: Source, S: Source, O: Sink, L: Sink, D: SlotDisk>(
    alloc: Global,
    proto: Proto,
    profile: Profile,
    dir: Dir,
    ends: Ends<K, S, O, L, D>,
) -> Status
    ensures duplexes { Duplexes K.Source S.Source O.Sink L.Sink proto profile dir
        (outside_before ends.entry) (outside_after ends.exit) result }
    ensures causes { HasCauses K.Source S.Source O.Sink L.Sink D.SlotDisk
        (Some (Duplex proto profile dir)) (outside_before ends.entry) (outside_after ends.exit)
        result }
{
    with_link!(proto, profile, duplex_by(alloc, dir, ends))
}
