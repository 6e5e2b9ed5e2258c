//! The command `read`: prints the frames that a device reads from a recorded line.
ghost use Rattle.std.specs.Prelude.{Some};
ghost use Rattle.command_ends.specs.Ends.{outside_before, outside_after};
ghost use Rattle.link_replay.specs.declared.words.Command.TheVariants.{Read};
ghost use Rattle.link_replay.specs.Commands.{HasCauses};
ghost use Rattle.link_replay.specs.ReadCommand.{ReadsOverInput};

use command_ends::{Ends, Proto, Status, with_device};
use line_commands::read_frames;
use yasir_io::{Sink, SlotDisk, Source};

// Prints the frames that a device reads from the input.
macro_rules! read_by {
    ($device:ty, $input:expr, $out:expr, $log:expr) => {
        read_frames::<$device, S, O, L>($input, $out, $log)
    };
}

/// Prints the frames that the device of a protocol reads from a recorded line. It isn't inlined:
/// beside the loops of the other commands, its loops take up to 3 % more instructions.
#[inline(never)]
pub fn read_line<K: Source, S: Source, O: Sink, L: Sink, D: SlotDisk>(
    proto: Proto,
    ends: Ends<K, S, O, L, D>,
) -> Status
    ensures reads { ReadsOverInput S.Source O.Sink L.Sink proto (outside_before ends.entry)
        (outside_after ends.exit) result }
    ensures causes { HasCauses K.Source S.Source O.Sink L.Sink D.SlotDisk (Some (Read proto))
        (outside_before ends.entry) (outside_after ends.exit) result }
{
    let Ends {
        input,
        out,
        log,
        ..
    } = ends;
    with_device!(proto, read_by(input, out, log))
}
