//! Prints a text, which is all that some commands do.
ghost use Rattle.command_ends.specs.Causes.{InputCause, DiskCause};
ghost use Rattle.command_ends.specs.Ends.{outside_before, outside_after};
ghost use Rattle.command_ends.specs.StreamCauses.{HasStreamCauses};
ghost use Rattle.link_replay.specs.Printing.{Prints};

use command_ends::{Ends, Status, print_text};
use yasir_io::{Sink, SlotDisk, Source};

/// Prints a text to the output, and then flushes both sinks. Nothing is read.
pub(crate) fn print_alone<K: Source, S: Source, O: Sink, L: Sink, D: SlotDisk>(
    text: &[u8],
    ends: Ends<K, S, O, L, D>,
) -> Status
    ensures prints { Prints O.Sink L.Sink text.now (outside_before ends.entry)
        (outside_after ends.exit) result }
    ensures streams { HasStreamCauses K.Source S.Source O.Sink L.Sink (outside_before ends.entry)
        (outside_after ends.exit) result }
    ensures own { InputCause (S.faults ends.entry.input.now)
        (S.faults (outside_after ends.exit).input) result
        × DiskCause (D.faults ends.entry.disk.now) (D.faults (outside_after ends.exit).disk) result }
{
    let Ends { out, log, .. } = ends;
    print_text(text, out, log)
}
