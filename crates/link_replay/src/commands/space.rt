//! The command `space`: runs a spacer over a recorded line.
ghost use Rattle.std.specs.Prelude.{Some};
ghost use Rattle.command_ends.specs.Ends.{outside_before, outside_after};
ghost use Rattle.link_replay.specs.declared.words.Command.TheVariants.{Space};
ghost use Rattle.link_replay.specs.Commands.{HasCauses};
ghost use Rattle.link_replay.specs.SpaceCommand.{Spaces, SpacesTexts};
ghost use Rattle.command_ends.specs.declared.link.Profile.{Profile};
ghost use Rattle.command_ends.specs.declared.link.Proto.{Proto};
ghost use Rattle.line_commands.specs.SpacedTexts.{spaced_texts};

use command_ends::{Ends, Profile, Proto, Status, with_link};
use line_commands::{LineSpacer, space_frames};
use line_spacer::Spacer;
use std::alloc::Global;
use yasir_io::{Sink, SlotDisk, Source};

// Runs a spacer over the input. It is proved once, for any spacer: with the four spacers in place of
// `B` the same proof takes several times as long.
fn space_with<B: LineSpacer, K: Source, S: Source, O: Sink, L: Sink, D: SlotDisk>(
    alloc: Global,
    ends: Ends<K, S, O, L, D>,
) -> Status
    requires { B.gap_fits }
    ensures spaces { SpacesTexts S.Source O.Sink L.Sink (spaced_texts B.reads B.gap)
        (outside_before ends.entry) (outside_after ends.exit) result }
    ensures causes { (proto : Proto) (profile : Profile)
        → HasCauses K.Source S.Source O.Sink L.Sink D.SlotDisk (Some (Space proto profile))
        (outside_before ends.entry) (outside_after ends.exit) result }
{
    let Ends {
        input,
        out,
        log,
        ..
    } = ends;
    space_frames::<B, S, O, L>(alloc, input, out, log)
}

// Runs a spacer of the protocol's device over the input.
macro_rules! space_by {
    (
        [$rules:ty, $device:ty, $mac:ty, $word:literal, $delay:literal, $gap:literal],
        $alloc:expr, $ends:expr
    ) => {
        space_with::<Spacer<$device, $gap>, K, S, O, L, D>($alloc, $ends)
    };
}

/// Sends on the frames that the device of a protocol reads from a recorded line, with as much
/// silence between them as the profile asks for.
pub fn space<K: Source, S: Source, O: Sink, L: Sink, D: SlotDisk>(
    alloc: Global,
    proto: Proto,
    profile: Profile,
    ends: Ends<K, S, O, L, D>,
) -> Status
    ensures spaces { Spaces S.Source O.Sink L.Sink proto profile (outside_before ends.entry)
        (outside_after ends.exit) result }
    ensures causes { HasCauses K.Source S.Source O.Sink L.Sink D.SlotDisk
        (Some (Space proto profile)) (outside_before ends.entry) (outside_after ends.exit) result }
{
    with_link!(proto, profile, space_by(alloc, ends))
}
