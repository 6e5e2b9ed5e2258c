//! The command `replay`: prints what was sealed, passed, read and forged in two recordings.
ghost use Rattle.std.specs.Prelude.{Some};
ghost use Rattle.command_ends.specs.Ends.{outside_before, outside_after};
ghost use Rattle.link_replay.specs.declared.words.Command.TheVariants.{Replay};
ghost use Rattle.link_replay.specs.Commands.{HasCauses};
ghost use Rattle.link_replay.specs.ReplayCommand.{Replays};

use check_receiver::Checker;
use command_ends::{Ends, Profile, Proto, Status, with_link};
use link_format::Dir;
use session_audit::{SealedFrames, ShownFrames, replay_recordings};
use std::alloc::Global;
use yasir_io::{Sink, SlotDisk, Source, SteadySlots};

/// How many silent ticks follow the line of the device in addition to the receiver's delay, so that
/// its last burst is closed and the trailer is sent.
const REST: u32 = 6;

// Runs both boxes over the two recordings, with the bytes of their frames, and the device behind
// the receiver. The transmitter makes no tags, since nobody asks for its link.
macro_rules! replay_by {
    (
        [$rules:ty, $device:ty, $mac:ty, $word:literal, $delay:literal, $gap:literal],
        $alloc:expr, $dir:expr, $ends:expr
    ) => {
        replay_recordings::<
            SealedFrames<$rules, $mac, $word, SteadySlots>,
            ShownFrames<Checker<$rules, $mac, $word, $delay>, $rules, SteadySlots>,
            $device,
            K,
            S,
            O,
            L,
            D,
        >($alloc, $dir, $delay + REST, $ends)
    };
}

/// Takes the line of a device through the transmitter and a link through the receiver, and prints
/// what was sealed, passed, read and forged.
pub fn replay<K: Source, S: Source, O: Sink, L: Sink, D: SlotDisk>(
    alloc: Global,
    proto: Proto,
    profile: Profile,
    dir: Dir,
    ends: Ends<K, S, O, L, D>,
) -> Status
    ensures replays { Replays K.Source S.Source O.Sink L.Sink proto profile dir
        (outside_before ends.entry) (outside_after ends.exit) result }
    ensures causes { HasCauses K.Source S.Source O.Sink L.Sink D.SlotDisk
        (Some (Replay proto profile dir)) (outside_before ends.entry) (outside_after ends.exit)
        result }
{
    with_link!(proto, profile, replay_by(alloc, dir, ends))
}
