//! The command `seal`: runs the transmitter over the recorded line of a device.
ghost use Rattle.std.specs.Prelude.{Some};
ghost use Rattle.command_ends.specs.Ends.{outside_before, outside_after};
ghost use Rattle.line_commands.specs.ReplaysBox.{KeepsFloorThroughout};
ghost use Rattle.link_replay.specs.declared.words.Command.TheVariants.{Seal};
ghost use Rattle.link_replay.specs.Commands.{HasCauses};
ghost use Rattle.command_ends.specs.Links.{link_of};
ghost use Rattle.link_replay.specs.SealCommand.{Seals};

use command_ends::{Ends, Profile, Proto, Status, link_of, with_link};
use line_commands::{SEAL_REST, replay_box};
use link_format::Dir;
use seal_transmitter::Sealer;
use yasir_io::{Sink, SlotDisk, Source};

// Runs the transmitter over the input.
macro_rules! seal_by {
    (
        [$rules:ty, $device:ty, $mac:ty, $word:literal, $delay:literal, $gap:literal],
        $link:expr, $dir:expr, $ends:expr
    ) => {
        replay_box::<Sealer<$rules, $mac, $word>, K, S, O, L, D>(
            $link, $dir, $delay + SEAL_REST, $ends,
        )
    };
}

/// Seals the frames of a device's recorded line.
pub fn seal<K: Source, S: Source, O: Sink, L: Sink, D: SlotDisk>(
    proto: Proto,
    profile: Profile,
    dir: Dir,
    ends: Ends<K, S, O, L, D>,
) -> Status
    ensures seals { Seals K.Source S.Source O.Sink L.Sink D.SlotDisk proto profile dir
        (outside_before ends.entry) (outside_after ends.exit) result }
    ensures any_moment { KeepsFloorThroughout D.SlotDisk (link_of proto profile dir)
        ends.entry.disk.now (outside_after ends.exit).disk }
    ensures causes { HasCauses K.Source S.Source O.Sink L.Sink D.SlotDisk
        (Some (Seal proto profile dir)) (outside_before ends.entry) (outside_after ends.exit)
        result }
{
    let link = link_of(proto, profile, dir);
    with_link!(proto, profile, seal_by(&link, dir, ends))
}
