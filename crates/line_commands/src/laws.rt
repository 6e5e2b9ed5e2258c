//! The law that runs of a box's command over one disk are uptimes that share it.
ghost use Rattle.std.specs.Prelude.{◌≡◌, ℕ, Some};
ghost use Rattle.yasir_io.specs.Disks.{Slots, OneImage};
ghost use Rattle.link_format.specs.declared.dir.Dir.{Dir};
ghost use Rattle.link_format.specs.Setup.{Setup};
ghost use Rattle.sequence_journal.specs.declared.link.LinkId.{LinkId};
ghost use Rattle.sequence_journal.specs.Links.{HasDirection};
ghost use Rattle.command_ends.specs.Outside.{Outside};
ghost use Rattle.command_ends.specs.declared.status.Status.{Status};
ghost use Rattle.line_commands.specs.Boxes.{Boxed};
ghost use Rattle.line_commands.specs.ReplaysBox.{ReplaysBox};
ghost use Rattle.line_commands.specs.Uptimes.{IsUptimeOrNone};

use yasir_io::{Sink, SlotDisk, Source};

/// A law about what each status says of a box's command, for every box, over a disk that tells its
/// slots, if a crash before the run would have left them as they read. Each image that a crash may
/// leave at the end of the run, however it ended, is one of three: it makes the run an uptime of
/// the box, it is the slots as they were, or, after a fault that cut off the taking over of an old
/// journal, it makes the run an uptime that has loaded no floor. So the runs of a command over one
/// disk are uptimes that share it.
pub fn runs_are_uptimes<K: Source, S: Source, O: Sink, L: Sink, D: SlotDisk>()
    ensures { (boxed : Setup → Boxed) (link : LinkId) (dir : Dir) (rest : ℕ)
        (before after : Outside K S O L D) (status : Status) (begins image : Slots)
        → HasDirection link
        → ReplaysBox K.Source S.Source O.Sink L.Sink D.SlotDisk boxed link dir rest before after
        status
        → D.told before.disk ≡ Some begins
        → OneImage (D.told before.disk) (D.may_leave before.disk)
        → D.may_leave after.disk image
        → IsUptimeOrNone K.Source S.Source O.Sink L.Sink D.SlotDisk boxed link dir rest before
        after status begins image }
{}
