//! The commands `live seal` and `live check`: run the transmitter over a device's line, or the
//! receiver over a link, as it comes. And `live line`: both over both ways of a line, with a spacer
//! behind the receiver.
ghost use Rattle.std.specs.Prelude.{◌≡◌, ◌⊎◌, Some};
ghost use Rattle.command_ends.specs.Links.{link_of};
ghost use Rattle.line_commands.specs.ReplaysBox.{KeepsFloorThroughout};
ghost use Rattle.link_replay.specs.declared.words.Command.TheVariants.{LiveSeal, LiveCheck};
ghost use Rattle.link_replay.specs.Commands.{HasCauses};
ghost use Rattle.link_replay.specs.LiveCommands.{SealsLive, ChecksLive, own_line};
ghost use Rattle.link_replay.specs.OverFiles.{outside_of};
ghost use Rattle.live_line.specs.declared.ways.Way.{Way};
ghost use Rattle.live_ways.specs.BothDisks.{disk_on};
ghost use Rattle.live_ways.specs.WayCommand.{IsLineLivable};
ghost use Rattle.live_ways.specs.WayStreams.{LivesWays, HasLineCauses, IsLineCalm};

use check_receiver::Checker;
use command_ends::{Profile, Proto, Status, link_of, with_link};
use line_commands::{CHECK_REST, SEAL_REST, Streams};
use line_spacer::Spacer;
use link_format::Dir;
use live_commands::{LiveLink, live_over};
use live_ways::{BothDisks, Ended, LineLinks, line_over};
use seal_transmitter::Sealer;
use std::alloc::Global;
use yasir_io::{Sink, SlotDisk, Source};

/// How far above the last number used the transmitter's journal is kept, so that most frames wait
/// for no write to the disk.
pub const LIVE_AHEAD: u64 = 15;

/// How many silent ticks follow a link whose receiver has a spacer behind it, so that all frames
/// leave both: those of `check`, and those of `space`.
pub const GUARDED_REST: u32 = CHECK_REST + 21_000;

/// The protocol, the profile and the direction of a live line's link.
#[derive(Clone, Copy, Debug, PartialEq, Eq)]
pub struct Linked {
    /// The protocol of the link.
    pub proto: Proto,
    /// The profile of the link.
    pub profile: Profile,
    /// The direction of the link.
    pub dir: Dir,
}

// Runs the transmitter on the line.
macro_rules! seal_by {
    (
        [$rules:ty, $device:ty, $mac:ty, $word:literal, $delay:literal, $gap:literal],
        $link:expr, $dir:expr, $key:expr, $streams:expr, $disk:expr
    ) => {
        live_over::<Sealer<$rules, $mac, $word>, K, S, O, L, D>(
            &LiveLink {
                link: $link,
                dir: $dir,
                rest: $delay + SEAL_REST,
                ahead: LIVE_AHEAD,
            },
            $key,
            $streams,
            $disk,
        )
    };
}

// Runs the receiver on the line.
macro_rules! check_by {
    (
        [$rules:ty, $device:ty, $mac:ty, $word:literal, $delay:literal, $gap:literal],
        $link:expr, $dir:expr, $key:expr, $streams:expr, $disk:expr
    ) => {
        live_over::<Checker<$rules, $mac, $word, $delay>, K, S, O, L, D>(
            &LiveLink {
                link: $link,
                dir: $dir,
                rest: CHECK_REST,
                ahead: 0,
            },
            $key,
            $streams,
            $disk,
        )
    };
}

/// Seals the frames of a device's live line.
pub fn live_seal<K: Source, S: Source, O: Sink, L: Sink, D: SlotDisk>(
    of: Linked,
    key: &mut K,
    streams: &mut Streams<S, O, L>,
    disk: &mut D,
) -> Status
    ensures seals { SealsLive K.Source S.Source O.Sink L.Sink D.SlotDisk of.proto of.profile of.dir
        (outside_of key.old streams.old disk.old) (outside_of key.new streams.new disk.new)
        result }
    ensures any_moment { KeepsFloorThroughout D.SlotDisk (link_of of.proto of.profile of.dir)
        disk.old disk.new }
    ensures causes { HasCauses K.Source S.Source O.Sink L.Sink D.SlotDisk
        (Some (LiveSeal of.proto of.profile of.dir)) (outside_of key.old streams.old disk.old)
        (outside_of key.new streams.new disk.new) result }
{
    let Linked {
        proto,
        profile,
        dir,
    } = of;
    let link = link_of(proto, profile, dir);
    with_link!(proto, profile, seal_by(link, dir, key, streams, disk))
}

/// Checks the packets of a live link. The receiver's delay is 18 ticks, or 24 in the profile whose
/// words have four bytes and whose tags have sixteen.
pub fn live_check<K: Source, S: Source, O: Sink, L: Sink, D: SlotDisk>(
    of: Linked,
    key: &mut K,
    streams: &mut Streams<S, O, L>,
    disk: &mut D,
) -> Status
    ensures checks { ChecksLive K.Source S.Source O.Sink L.Sink D.SlotDisk of.proto of.profile of.dir
        (outside_of key.old streams.old disk.old) (outside_of key.new streams.new disk.new)
        result }
    ensures any_moment { KeepsFloorThroughout D.SlotDisk (link_of of.proto of.profile of.dir)
        disk.old disk.new }
    ensures causes { HasCauses K.Source S.Source O.Sink L.Sink D.SlotDisk
        (Some (LiveCheck of.proto of.profile of.dir)) (outside_of key.old streams.old disk.old)
        (outside_of key.new streams.new disk.new) result }
{
    let Linked {
        proto,
        profile,
        dir,
    } = of;
    let link = link_of(proto, profile, dir);
    with_link!(proto, profile, check_by(link, dir, key, streams, disk))
}

// Runs the box at one end of a line, with the links and the directions of what is sent and of what
// comes.
macro_rules! line_by {
    (
        [$rules:ty, $device:ty, $mac:ty, $word:literal, $delay:literal, $gap:literal],
        $alloc:expr, $links:expr, $dirs:expr, $key:expr, $streams:expr, $disks:expr
    ) => {
        line_over::<
            Sealer<$rules, $mac, $word>,
            Checker<$rules, $mac, $word, $delay>,
            Spacer<$device, $gap>,
            K,
            S,
            O,
            L,
            D,
        >(
            $alloc,
            &LineLinks {
                sent: LiveLink {
                    link: $links.0,
                    dir: $dirs.0,
                    rest: $delay + SEAL_REST,
                    ahead: LIVE_AHEAD,
                },
                got: LiveLink {
                    link: $links.1,
                    dir: $dirs.1,
                    rest: GUARDED_REST,
                    ahead: 0,
                },
            },
            $key,
            $streams,
            $disks,
        )
    };
}

/// Runs the box at one end of a live line: seals what its device sends, in this direction, checks
/// what the link brings, and sends on what passes with silence between frames. The first disk has
/// the journal of the numbers sent, and the second one that of the numbers that came.
pub fn live_line<K: Source, S: Source, O: Sink, L: Sink, D: SlotDisk>(
    alloc: Global,
    of: Linked,
    key: &mut K,
    streams: &mut Streams<S, O, L>,
    disks: &mut BothDisks<D>,
) -> Ended
    ensures lives { LivesWays K.Source S.Source O.Sink L.Sink D.SlotDisk
        (own_line of.proto of.profile of.dir) (outside_of key.old streams.old disks.old)
        (outside_of key.new streams.new disks.new) result }
    ensures any_moment { (way : Way) → KeepsFloorThroughout D.SlotDisk
        ((own_line of.proto of.profile of.dir).link way) (disk_on disks.old way)
        (disk_on disks.new way) }
    ensures causes { HasLineCauses K.Source S.Source O.Sink L.Sink D.SlotDisk
        (outside_of key.old streams.old disks.old) (outside_of key.new streams.new disks.new)
        result }
    ensures done { IsLineLivable (own_line of.proto of.profile of.dir).link (K.left key.old)
        (λ way. D.told (disk_on disks.old way)) (S.left streams.old.input)
        → IsLineCalm K.Source S.Source O.Sink L.Sink D.SlotDisk
        (outside_of key.old streams.old disks.old) (outside_of key.new streams.new disks.new)
        → (result.status ≡ Status.Done) ⊎ (result.status ≡ Status.NoMemory) }
{
    let Linked {
        proto,
        profile,
        dir,
    } = of;
    let back = dir.opposite();
    let sent = link_of(proto, profile, dir);
    let got = link_of(proto, profile, back);
    with_link!(
        proto,
        profile,
        line_by(alloc, (sent, got), (dir, back), key, streams, disks)
    )
}
