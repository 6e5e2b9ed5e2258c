//! The command of a box on a live line: it reads the key, loads the journal, and drives the line
//! through the box as it comes.
ghost use Rattle.std.specs.Prelude.{◌≡◌, ◌≤◌};
ghost use Rattle.command_ends.specs.Causes.{DiskCause};
ghost use Rattle.sequence_journal.specs.Links.{HasDirection};
ghost use Rattle.line_commands.specs.LinkBoxed.{boxed_of};
ghost use Rattle.line_commands.specs.ReplaysBox.{boxed_with, KeepsFloorThroughout};
ghost use Rattle.live_commands.specs.LiveCommand.{around, RunsLine, LivesBox, PortCauses};

use crate::live_box::LiveBox;
use command_ends::{KeyError, Status, read_key, status_of};
use line_commands::{LineBox, Port};
use link_format::Dir;
use sequence_journal::{Journal, LinkId, LoadError};
use yasir_io::{SlotDisk, Source};

/// The link of a box, the direction of that link, and how many silent ticks follow a whole line.
#[derive(Clone, Copy, Debug, PartialEq, Eq)]
pub struct LiveLink {
    /// The link, as its journal names it.
    pub link: LinkId,
    /// The direction of the link.
    pub dir: Dir,
    /// How many silent ticks follow a line that was read to its end.
    pub rest: u32,
    /// How far above the last number used the disk's number may be while the line comes.
    pub ahead: u64,
}

// Drives the line through a box with this key, over the journal of its link that the disk holds.
fn live_keyed<B: LineBox, P: Port, D: SlotDisk>(
    key: &[u8],
    of: &LiveLink,
    port: &mut P,
    disk: &mut D,
) -> Status
    requires widths { B.widths_fit }
    requires link { HasDirection of.now.link }
    requires of_box { of.now.link ≡ B.link_in of.now.dir }
    ensures runs { RunsLine P.Port D.SlotDisk of.now.link
        (boxed_with (boxed_of B.walking B.line_of) key.now of.now.dir) of.now.rest of.now.ahead
        (around port.old disk.old) (around port.new disk.new) result }
    ensures any_moment { KeepsFloorThroughout D.SlotDisk of.now.link disk.old disk.new }
    ensures disk { DiskCause (D.faults disk.old) (D.faults disk.new) result }
    ensures port { PortCauses P.Port port.old port.new result }
{
    let journal = match Journal::load(disk, &of.link) {
        Ok(journal) => journal,
        Err(LoadError::Fault) => return Status::JournalFault,
        Err(LoadError::Bad { a, b }) => return Status::BadJournal { a, b },
        Err(LoadError::WrongLink { slot }) => return Status::WrongLink { slot },
    };
    let mut live_box = LiveBox::<B>::new(key, of.dir, journal, of.ahead);
    status_of(live_box.drive(of.rest, port, disk))
}

/// Reads a key, loads the journal of this link that the disk holds, and drives a line through a box
/// of this link as it comes. What the box makes of the lines of text that have ended is written and
/// flushed before the next read, the notes first, and the disk holds its numbers before that.
pub fn live_line<B: LineBox, K: Source, P: Port, D: SlotDisk>(
    of: &LiveLink,
    key: &mut K,
    port: &mut P,
    disk: &mut D,
) -> Status
    /// The widths of the box are ones that it can be made with.
    requires widths { B.widths_fit }
    /// The direction of the link is 0 or 1.
    requires link { HasDirection of.now.link }
    /// The link is that of a box of this direction.
    requires of_box { of.now.link ≡ B.link_in of.now.dir }
    /// What was read, written and flushed, in which order, and the floor of the disk at the end,
    /// are what the record of the command says for the status.
    ensures lives { LivesBox K.Source P.Port D.SlotDisk (boxed_of B.walking B.line_of) of.now.link
        of.now.dir of.now.rest of.now.ahead key.old key.new (around port.old disk.old)
        (around port.new disk.new) result }
    /// If a crash before the run would have left the slots as they read, with a floor, no crash at
    /// any moment leaves a floor below it, or an old journal was being taken over.
    ensures any_moment { KeepsFloorThroughout D.SlotDisk of.now.link disk.old disk.new }
    /// The disk's count of faults rose if the status is that of a failed journal, and is as it was
    /// otherwise.
    ensures disk { DiskCause (D.faults disk.old) (D.faults disk.new) result }
    /// An output's count of faults rose if the status is that of a failed write, and none did
    /// otherwise. The input's changes only if the status is that of a failed read.
    ensures port { PortCauses P.Port port.old port.new result }
{
    match read_key(key) {
        Ok(text) => live_keyed::<B, P, D>(text.as_slice(), of, port, disk),
        Err(KeyError::Fault) => Status::ReadFault,
        Err(KeyError::Bad { place }) => Status::BadKey { place },
    }
}
