//! The commands of a box: read the key, load the journal, and drive the whole input through the
//! box.
ghost use Rattle.std.specs.Prelude.{◌≡◌, List};
ghost use Rattle.line_commands.specs.LinkBoxed.{boxed_of};
ghost use Rattle.line_commands.specs.ReplaysBox.{around_of, boxed_with, RunsBox, ReplaysBox};
ghost use Rattle.line_commands.specs.ReplaysBox.{KeepsFloorThroughout};
ghost use Rattle.line_commands.specs.OverInput.{has_stopped};
ghost use Rattle.sequence_journal.specs.Links.{HasDirection};
ghost use Rattle.command_ends.specs.Causes.{InputCause, DiskCause, SinkCause};
ghost use Rattle.command_ends.specs.Flushes.{FlushesAtEnd};
ghost use Rattle.command_ends.specs.Ends.{outside_before, outside_after};
ghost use Rattle.command_ends.specs.StreamCauses.{HasStreamCauses};

use crate::box_lines::BoxLines;
use crate::driven_box::DrivenBox;
use crate::line_box::LineBox;
use crate::run_end::end_run;
use command_ends::{Ends, KeyError, Status, read_key, status_of};
use link_format::Dir;
use sequence_journal::{Journal, LinkId, LoadError};
use tick_drive::{End, drive_to_rest};
use yasir_io::{Sink, SlotDisk, Source};

// Whether the consumer stopped the drive.
fn is_stopped(end: &End) -> bool
    ensures { result ≡ has_stopped end.now }
{
    match end {
        End::Stopped(_) => true,
        End::Whole | End::Refused(_) | End::TooLong { .. } | End::ReadFault => false,
    }
}

// Replays the input through a box with this key, over the journal of its link that the disk holds.
fn replay_keyed<B: LineBox, K: Source, S: Source, O: Sink, L: Sink, D: SlotDisk>(
    key: &[u8],
    link: &LinkId,
    dir: Dir,
    rest: u32,
    ends: Ends<K, S, O, L, D>,
) -> Status
    requires widths { B.widths_fit }
    requires link { HasDirection link.now }
    requires of_box { link.now ≡ B.link_in dir }
    ensures runs { RunsBox S.Source O.Sink L.Sink D.SlotDisk link.now
        (boxed_with (boxed_of B.walking B.line_of) key.now dir)
        (around_of (outside_before ends.entry)) (around_of (outside_after ends.exit)) rest result }
    ensures any_moment { KeepsFloorThroughout D.SlotDisk link.now ends.entry.disk.now
        (outside_after ends.exit).disk }
    ensures key { (outside_after ends.exit).key ≡ ends.entry.key.now }
    ensures input { InputCause (S.faults ends.entry.input.now)
        (S.faults (outside_after ends.exit).input) result }
    ensures disk { DiskCause (D.faults ends.entry.disk.now)
        (D.faults (outside_after ends.exit).disk) result }
    ensures sinks { SinkCause (O.faults ends.entry.out.now)
        (O.faults (outside_after ends.exit).out) (L.faults ends.entry.log.now)
        (L.faults (outside_after ends.exit).log) result }
    ensures flushes { FlushesAtEnd O.Sink L.Sink ends.entry.out.now
        (outside_after ends.exit).out ends.entry.log.now (outside_after ends.exit).log result }
{
    let Ends {
        input,
        out,
        log,
        disk,
        ..
    } = ends;
    let journal = match Journal::load(disk, link) {
        Ok(journal) => journal,
        Err(LoadError::Fault) => return Status::JournalFault,
        Err(LoadError::Bad { a, b }) => return Status::BadJournal { a, b },
        Err(LoadError::WrongLink { slot }) => return Status::WrongLink { slot },
    };
    let mut lines = BoxLines::<B>::new(key, dir, journal);
    let mut driven = DrivenBox::new(&mut lines, out, log, disk);
    let end = drive_to_rest(0, rest, input, &mut driven);
    if is_stopped(&end) {
        return status_of(end);
    }
    match lines.finish(out, log, disk) {
        Ok(()) => {}
        Err(stop) => return status_of(End::Stopped(stop)),
    }
    end_run(end, out, log)
}

/// Reads a key, loads the journal of this link that the disk holds, and replays the input through a
/// box of this link: the other line goes to `out`, and a line for each note to the log. After a
/// whole input, `rest` silent ticks follow.
pub fn replay_box<B: LineBox, K: Source, S: Source, O: Sink, L: Sink, D: SlotDisk>(
    link: &LinkId,
    dir: Dir,
    rest: u32,
    ends: Ends<K, S, O, L, D>,
) -> Status
    /// The widths of the box are ones that it can be made with.
    requires widths { B.widths_fit }
    /// The direction of the link is 0 or 1.
    requires link { HasDirection link.now }
    /// The link is that of a box of this direction.
    requires of_box { link.now ≡ B.link_in dir }
    /// What was read and written, the floor of the disk at the end, and the uptimes that a crash
    /// then leaves, are what the record of the command says for the status.
    ensures replays { ReplaysBox K.Source S.Source O.Sink L.Sink D.SlotDisk
        (boxed_of B.walking B.line_of) link.now dir rest (outside_before ends.entry) (outside_after ends.exit) result }
    /// If a crash before the run would have left the slots as they read, with a floor, no crash at
    /// any moment leaves a floor below it, or an old journal was being taken over.
    ensures any_moment { KeepsFloorThroughout D.SlotDisk link.now ends.entry.disk.now
        (outside_after ends.exit).disk }
    /// The status of a failed read or write comes only if a count of such faults rose, and the
    /// sinks are flushed as the status says.
    ensures causes { HasStreamCauses K.Source S.Source O.Sink L.Sink (outside_before ends.entry)
        (outside_after ends.exit) result }
    /// The disk's count of faults rose if the status is that of a failed journal, and is as it was
    /// otherwise.
    ensures disk { DiskCause (D.faults ends.entry.disk.now)
        (D.faults (outside_after ends.exit).disk) result }
{
    match read_key(ends.key) {
        Ok(key) => replay_keyed::<B, K, S, O, L, D>(key.as_slice(), link, dir, rest, ends),
        Err(KeyError::Fault) => Status::ReadFault,
        Err(KeyError::Bad { place }) => Status::BadKey { place },
    }
}
