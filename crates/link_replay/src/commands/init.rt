//! The command `init`: makes a new journal.
ghost use Rattle.std.specs.Prelude.{Some};
ghost use Rattle.yasir_io.specs.declared.disk.Slot.TheVariants.{A};
ghost use Rattle.yasir_io.specs.Disks.{LeavesOnly};
ghost use Rattle.sequence_journal.specs.Journal.{IsBut};
ghost use Rattle.command_ends.specs.Ends.{outside_before, outside_after};
ghost use Rattle.link_replay.specs.declared.words.Command.TheVariants.{Init};
ghost use Rattle.link_replay.specs.Commands.{HasCauses};
ghost use Rattle.link_replay.specs.InitCommand.{Inits};
ghost use Rattle.command_ends.specs.Links.{link_of};

use command_ends::{Ends, Profile, Proto, Status, flush_both, link_of};
use link_format::Dir;
use sequence_journal::{InitError, Journal};
use yasir_io::{Sink, SlotDisk, Source};

/// Makes a new journal for a link, at floor 0, if no slot, old or new, holds a number.
pub fn make_journal<K: Source, S: Source, O: Sink, L: Sink, D: SlotDisk>(
    proto: Proto,
    profile: Profile,
    dir: Dir,
    ends: Ends<K, S, O, L, D>,
) -> Status
    ensures inits { Inits O.Sink L.Sink D.SlotDisk (link_of proto profile dir)
        (outside_before ends.entry) (outside_after ends.exit) result }
    ensures any_moment { LeavesOnly D.moment D.left_since ends.entry.disk.now
        (outside_after ends.exit).disk (IsBut A (D.may_leave ends.entry.disk.now)) }
    ensures causes { HasCauses K.Source S.Source O.Sink L.Sink D.SlotDisk
        (Some (Init proto profile dir)) (outside_before ends.entry) (outside_after ends.exit)
        result }
{
    let Ends { out, log, disk, .. } = ends;
    match Journal::init(disk, &link_of(proto, profile, dir)) {
        Ok(_) => {}
        Err(InitError::Fault) => return Status::JournalFault,
        Err(InitError::Stands { floor }) => return Status::HasJournal { floor },
    }
    flush_both(out, log)
}
