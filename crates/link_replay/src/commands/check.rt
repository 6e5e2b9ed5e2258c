//! The command `check`: runs the receiver over a recorded link.
ghost use Rattle.std.specs.Prelude.{Some};
ghost use Rattle.command_ends.specs.Ends.{outside_before, outside_after};
ghost use Rattle.line_commands.specs.ReplaysBox.{KeepsFloorThroughout};
ghost use Rattle.link_replay.specs.declared.words.Command.TheVariants.{Check};
ghost use Rattle.link_replay.specs.Commands.{HasCauses};
ghost use Rattle.command_ends.specs.Links.{link_of};
ghost use Rattle.link_replay.specs.CheckCommand.{Checks};

use check_receiver::Checker;
use command_ends::{Ends, Profile, Proto, Status, link_of, with_link};
use line_commands::{CHECK_REST, replay_box};
use link_format::Dir;
use yasir_io::{Sink, SlotDisk, Source};

// Runs the receiver over the input.
macro_rules! check_by {
    (
        [$rules:ty, $device:ty, $mac:ty, $word:literal, $delay:literal, $gap:literal],
        $link:expr, $dir:expr, $ends:expr
    ) => {
        replay_box::<Checker<$rules, $mac, $word, $delay>, K, S, O, L, D>(
            $link, $dir, CHECK_REST, $ends,
        )
    };
}

/// Checks the packets of a recorded link. The receiver's delay is 18 ticks, or 24 in the profile
/// whose words have four bytes and whose tags have sixteen.
pub fn check<K: Source, S: Source, O: Sink, L: Sink, D: SlotDisk>(
    proto: Proto,
    profile: Profile,
    dir: Dir,
    ends: Ends<K, S, O, L, D>,
) -> Status
    ensures checks { Checks K.Source S.Source O.Sink L.Sink D.SlotDisk proto profile dir
        (outside_before ends.entry) (outside_after ends.exit) result }
    ensures any_moment { KeepsFloorThroughout D.SlotDisk (link_of proto profile dir)
        ends.entry.disk.now (outside_after ends.exit).disk }
    ensures causes { HasCauses K.Source S.Source O.Sink L.Sink D.SlotDisk
        (Some (Check proto profile dir)) (outside_before ends.entry) (outside_after ends.exit)
        result }
{
    let link = link_of(proto, profile, dir);
    with_link!(proto, profile, check_by(&link, dir, ends))
}
