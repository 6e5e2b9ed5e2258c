//! A box on the input of a run, which is driven through it as it comes.
ghost use Rattle.std.specs.Prelude.{◌≡◌};
ghost use Rattle.command_ends.specs.Causes.{DiskCause};
ghost use Rattle.command_ends.specs.Outside.{outside};
ghost use Rattle.sequence_journal.specs.Links.{HasDirection};
ghost use Rattle.line_commands.specs.LinkBoxed.{boxed_of};
ghost use Rattle.line_commands.specs.ReplaysBox.{KeepsFloorThroughout};
ghost use Rattle.live_commands.specs.LineEnds.{LivesOver, HasCounts};

use crate::command::{LiveLink, live_line};
use command_ends::Status;
use line_commands::{LineBox, Streams};
use yasir_io::{Sink, SlotDisk, Source};

/// Does what `live_line` does over the streams of a run. What it does is said of the input and of
/// each sink.
pub fn live_over<B: LineBox, K: Source, S: Source, O: Sink, L: Sink, D: SlotDisk>(
    of: &LiveLink,
    key: &mut K,
    streams: &mut Streams<S, O, L>,
    disk: &mut D,
) -> Status
    /// The widths of the box are ones that it can be made with.
    requires widths { B.widths_fit }
    /// The direction of the link is 0 or 1.
    requires link { HasDirection of.now.link }
    /// The link is that of a box of this direction.
    requires of_box { of.now.link ≡ B.link_in of.now.dir }
    /// What was read and written, and the floor of the disk at the end, are what the record of the
    /// command says for the status, as far as the streams tell it.
    ensures lives { LivesOver K.Source S.Source O.Sink L.Sink D.SlotDisk
        (boxed_of B.walking B.line_of) of.now.link of.now.dir of.now.rest of.now.ahead
        (outside key.old streams.old.input streams.old.out streams.old.log disk.old)
        (outside key.new streams.new.input streams.new.out streams.new.log disk.new) result }
    /// If a crash before the run would have left the slots as they read, with a floor, no crash at
    /// any moment leaves a floor below it, or an old journal was being taken over.
    ensures any_moment { KeepsFloorThroughout D.SlotDisk of.now.link disk.old disk.new }
    /// The status of a failed read or write comes only if a count of such faults rose.
    ensures counts { HasCounts K.Source S.Source O.Sink L.Sink
        (outside key.old streams.old.input streams.old.out streams.old.log disk.old)
        (outside key.new streams.new.input streams.new.out streams.new.log disk.new) result }
    /// The disk's count of faults rose if the status is that of a failed journal, and is as it was
    /// otherwise.
    ensures disk { DiskCause (D.faults disk.old) (D.faults disk.new) result }
{
    live_line::<B, K, Streams<S, O, L>, D>(of, key, streams, disk)
}
