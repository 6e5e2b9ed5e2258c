//! The journals of both ways of a live line, as they are loaded from their disks.
ghost use Rattle.std.specs.Prelude.{◌≡◌, IfOk, IfErr, Some};
ghost use Rattle.sequence_journal.specs.Links.{HasDirection};
ghost use Rattle.line_commands.specs.ReplaysBox.{KeepsFloorThroughout};
ghost use Rattle.live_ways.specs.BothDisks.{disk_on};
ghost use Rattle.live_ways.specs.WayLoads.{LoadsJournal, RefusesJournal, LoadsBoth, StopsLoading};
ghost use Rattle.live_ways.specs.WayStreams.{links_of};

use crate::both_disks::BothDisks;
use crate::line_status::Ended;
use command_ends::Status;
use live_commands::LiveLink;
use live_line::Way;
use sequence_journal::{Journal, LinkId, LoadError};
use yasir_io::SlotDisk;

/// Both ways of a line at one end of a link.
#[derive(Clone, Copy, Debug, PartialEq, Eq)]
pub struct LineLinks {
    /// The link of the outgoing way, its direction, how many silent ticks follow its text, and how
    /// far above the last number used the disk's number may be while the line comes.
    pub sent: LiveLink,
    /// The same for the incoming way.
    pub got: LiveLink,
}

/// The journals of both ways.
#[derive(Drop)]
pub struct BothJournals {
    /// That of the outgoing way.
    pub sent: Journal,
    /// That of the incoming way.
    pub got: Journal,
}

// Loads the journal of a way.
fn load_way<D: SlotDisk>(way: Way, disk: &mut D, link: &LinkId) -> Result<Journal, Ended>
    requires { HasDirection link.now }
    ensures loaded { IfOk result (LoadsJournal D.SlotDisk link.now disk.old disk.new) }
    ensures about { IfErr result (λ ended. ended.way ≡ Some way) }
    ensures refused { IfErr result (λ ended.
        RefusesJournal D.SlotDisk link.now disk.old disk.new ended.status) }
    ensures any_moment { KeepsFloorThroughout D.SlotDisk link.now disk.old disk.new }
{
    match Journal::load(disk, link) {
        Ok(journal) => Ok(journal),
        Err(LoadError::Fault) => Err(Ended::about(way, Status::JournalFault)),
        Err(LoadError::Bad { a, b }) => Err(Ended::about(way, Status::BadJournal { a, b })),
        Err(LoadError::WrongLink { slot }) => Err(Ended::about(way, Status::WrongLink { slot })),
    }
}

/// Loads the journals of both ways, that of the outgoing way first.
pub(crate) fn load_both<D: SlotDisk>(
    of: &LineLinks,
    disks: &mut BothDisks<D>,
) -> Result<BothJournals, Ended>
    /// The direction of the outgoing way's link is 0 or 1.
    requires sent { HasDirection of.now.sent.link }
    /// So is that of the incoming way's link.
    requires got { HasDirection of.now.got.link }
    /// If both are loaded, each serves its link, and the disk of its way is as it knows it.
    ensures loaded { IfOk result (LoadsBoth D.SlotDisk (links_of of.now) disks.old disks.new) }
    /// If one isn't, the status tells of which way, and why. If it is that of the outgoing way, the
    /// disk of the incoming way is as it was, and otherwise the journal of the outgoing way was
    /// loaded.
    ensures refused { IfErr result (StopsLoading D.SlotDisk (links_of of.now) disks.old disks.new) }
    /// If a crash before would have left the slots of a way as they read, with a floor, no crash at
    /// any moment leaves a floor below it, or an old journal was being taken over.
    ensures any_moment { (way : Way) → KeepsFloorThroughout D.SlotDisk (links_of of.now way)
        (disk_on disks.old way) (disk_on disks.new way) }
{
    let sent = match load_way(Way::Outgoing, &mut disks.first, &of.sent.link) {
        Ok(journal) => journal,
        Err(ended) => return Err(ended),
    };
    let got = match load_way(Way::Incoming, &mut disks.second, &of.got.link) {
        Ok(journal) => journal,
        Err(ended) => return Err(ended),
    };
    Ok(BothJournals { sent, got })
}
