//! The command of a live line of two ways: it reads the key, loads both journals, and drives the
//! stream of both ways through their boxes as it comes.
ghost use Rattle.std.specs.Prelude.{◌≡◌, ◌⊎◌, IfOk, false};
ghost use Rattle.command_ends.specs.Causes.{DiskCause};
ghost use Rattle.command_ends.specs.Outside.{outside};
ghost use Rattle.sequence_journal.specs.Journal.{journal_link, is_broken};
ghost use Rattle.sequence_journal.specs.Links.{HasDirection};
ghost use Rattle.line_commands.specs.ReplaysBox.{KeepsFloorThroughout};
ghost use Rattle.live_ways.specs.BothDisks.{disk_on, status_about};
ghost use Rattle.live_ways.specs.LineBegins.{BeginsBoth, plain_way, guarded_way, setups};
ghost use Rattle.live_ways.specs.WayCommand.{around, IsLineLivable};
ghost use Rattle.live_ways.specs.WayLoads.{journal_on};
ghost use Rattle.live_ways.specs.WayStreams.{LivesWays, HasLineCauses, IsLineCalm, RunsWays};
ghost use Rattle.live_ways.specs.WayStreams.{HasStreamCounts, ends_of, line_of_boxes, links_of};

use crate::both_disks::BothDisks;
use crate::both_ways::LiveLine;
use crate::line_status::Ended;
use crate::loads::{BothJournals, LineLinks, load_both};
use crate::rests::Rests;
use command_ends::{Status, read_key};
use line_commands::{LineSpacer, Streams};
use live_line::{EndedNotes, GuardedBox, PlainBox, Way, WayLines};
use std::alloc::Global;
use yasir_io::{NoMemory, Sink, SlotDisk, Source};

// Returns both ways of a line with this key, over these journals. Nothing was read yet.
fn begin_line<B: EndedNotes, C: EndedNotes, G: LineSpacer>(
    alloc: Global,
    key: &[u8],
    of: &LineLinks,
    journals: BothJournals,
) -> Result<LiveLine<PlainBox<B>, GuardedBox<C, G>>, NoMemory>
    requires widths { B.widths_fit × C.widths_fit }
    requires gap { G.gap_fits }
    requires sent { journal_link journals.sent ≡ B.link_in of.now.sent.dir }
    requires got { journal_link journals.got ≡ C.link_in of.now.got.dir }
    requires whole { (way : Way) → is_broken (journal_on journals way) ≡ false }
    ensures { IfOk result (λ line. let of_boxes = line_of_boxes B.LinkBox B.line_of C.LinkBox
        C.line_of G.LineSpacer of.now in
        BeginsBoth (plain_way B.LinkBox B.line_of) (guarded_way C.LinkBox C.line_of G.LineSpacer)
        line journals of_boxes.ahead (setups of_boxes key.now journals)) }
{
    let BothJournals { sent, got } = journals;
    let plain = PlainBox::<B>::new(key, of.sent.dir, &sent);
    let guarded = match GuardedBox::<C, G>::new(alloc, key, of.got.dir, &got) {
        Ok(guarded) => guarded,
        Err(NoMemory) => return Err(NoMemory),
    };
    let outgoing = WayLines::new(plain, sent, of.sent.ahead);
    let incoming = WayLines::new(guarded, got, of.got.ahead);
    Ok(LiveLine::new(outgoing, incoming))
}

// Drives the stream through the boxes with this key, over the journals that the disks hold.
fn line_keyed<
    B: EndedNotes,
    C: EndedNotes,
    G: LineSpacer,
    S: Source,
    O: Sink,
    L: Sink,
    D: SlotDisk,
>(
    alloc: Global,
    key: &[u8],
    of: &LineLinks,
    streams: &mut Streams<S, O, L>,
    disks: &mut BothDisks<D>,
) -> Ended
    requires widths { B.widths_fit × C.widths_fit }
    requires gap { G.gap_fits }
    requires sent_link { HasDirection of.now.sent.link }
    requires sent_box { of.now.sent.link ≡ B.link_in of.now.sent.dir }
    requires got_link { HasDirection of.now.got.link }
    requires got_box { of.now.got.link ≡ C.link_in of.now.got.dir }
    ensures runs { RunsWays S.Source O.Sink L.Sink D.SlotDisk
        (line_of_boxes B.LinkBox B.line_of C.LinkBox C.line_of G.LineSpacer of.now) key.now
        (around (ends_of streams.old) disks.old) (around (ends_of streams.new) disks.new) result }
    ensures any_moment { (way : Way) → KeepsFloorThroughout D.SlotDisk (links_of of.now way)
        (disk_on disks.old way) (disk_on disks.new way) }
    ensures counts { HasStreamCounts S.Source O.Sink L.Sink (ends_of streams.old)
        (ends_of streams.new) result.status }
    ensures disks { (way : Way) → DiskCause (D.faults (disk_on disks.old way))
        (D.faults (disk_on disks.new way)) (status_about result.way result.status way) }
{
    let journals = match load_both(of, disks) {
        Ok(journals) => journals,
        Err(ended) => return ended,
    };
    let mut line = match begin_line::<B, C, G>(alloc, key, of, journals) {
        Ok(line) => line,
        Err(NoMemory) => return Ended::of_line(Status::NoMemory),
    };
    let rests = Rests {
        outgoing: of.sent.rest,
        incoming: of.got.rest,
    };
    Ended::of_end(line.drive(rests, streams, disks))
}

/// Reads a key, loads both journals, and drives both ways of the input of a run through their boxes
/// as they come: the outgoing way through `B`, and the incoming way through `C` and then the spacer
/// `G`. What they make of the lines that have ended is written and flushed before the next read,
/// for each way the notes first, and the disk of the way holds its numbers before that.
pub fn line_over<
    B: EndedNotes,
    C: EndedNotes,
    G: LineSpacer,
    K: Source,
    S: Source,
    O: Sink,
    L: Sink,
    D: SlotDisk,
>(
    alloc: Global,
    of: &LineLinks,
    key: &mut K,
    streams: &mut Streams<S, O, L>,
    disks: &mut BothDisks<D>,
) -> Ended
    /// The widths of the boxes are ones that they can be made with.
    requires widths { B.widths_fit × C.widths_fit }
    /// There is at least one silent tick between frames.
    requires gap { G.gap_fits }
    /// The direction of the outgoing way's link is 0 or 1.
    requires sent_link { HasDirection of.now.sent.link }
    /// That link is the one of a box of its direction.
    requires sent_box { of.now.sent.link ≡ B.link_in of.now.sent.dir }
    /// The direction of the incoming way's link is 0 or 1.
    requires got_link { HasDirection of.now.got.link }
    /// That link is the one of a box of its direction.
    requires got_box { of.now.got.link ≡ C.link_in of.now.got.dir }
    /// What was read and written of each way, and the floor of its disk at the end, are what the
    /// record of the command says for the status and the way, as far as the streams tell it.
    ensures lives { LivesWays K.Source S.Source O.Sink L.Sink D.SlotDisk
        (line_of_boxes B.LinkBox B.line_of C.LinkBox C.line_of G.LineSpacer of.now)
        (outside key.old streams.old.input streams.old.out streams.old.log disks.old)
        (outside key.new streams.new.input streams.new.out streams.new.log disks.new) result }
    /// If a crash before the run would have left the slots of a way as they read, with a floor, no
    /// crash at any moment leaves a floor below it, or an old journal was being taken over.
    ensures any_moment { (way : Way) → KeepsFloorThroughout D.SlotDisk (links_of of.now way)
        (disk_on disks.old way) (disk_on disks.new way) }
    /// The status of a failed read, write or journal comes only if a count of such faults rose.
    /// That of a failed journal comes only if the count of its way's disk did, and the count of the
    /// other way's disk is as it was.
    ensures causes { HasLineCauses K.Source S.Source O.Sink L.Sink D.SlotDisk
        (outside key.old streams.old.input streams.old.out streams.old.log disks.old)
        (outside key.new streams.new.input streams.new.out streams.new.log disks.new) result }
    /// If all that is given is right and no count of faults rose, the status is Done, or there was
    /// no memory for the frames that wait.
    ensures done { IsLineLivable (links_of of.now) (K.left key.old)
        (λ way. D.told (disk_on disks.old way)) (S.left streams.old.input)
        → IsLineCalm K.Source S.Source O.Sink L.Sink D.SlotDisk
        (outside key.old streams.old.input streams.old.out streams.old.log disks.old)
        (outside key.new streams.new.input streams.new.out streams.new.log disks.new)
        → (result.status ≡ Status.Done) ⊎ (result.status ≡ Status.NoMemory) }
{
    match read_key(key) {
        Ok(text) => line_keyed::<B, C, G, S, O, L, D>(alloc, text.as_slice(), of, streams, disks),
        Err(error) => Ended::of_key(error),
    }
}
