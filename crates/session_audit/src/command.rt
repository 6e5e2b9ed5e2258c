//! The command `replay`: both boxes and a device over two recordings.
ghost use Rattle.std.specs.Prelude.{◌≡◌, List};
ghost use Rattle.yasir_ticks.specs.declared.tick.Tick.{Tick};
ghost use Rattle.link_format.specs.NumberedFrame.{AreNumberedFrom};
ghost use Rattle.link_format.specs.Setup.{Setup};
ghost use Rattle.command_ends.specs.Causes.{InputCause, SinkCause};
ghost use Rattle.command_ends.specs.Ends.{outside_before, outside_after};
ghost use Rattle.command_ends.specs.Flushes.{FlushesAtEnd};
ghost use Rattle.command_ends.specs.StreamCauses.{HasStreamCauses};
ghost use Rattle.session_audit.specs.Listing.{listing_with};
ghost use Rattle.session_audit.specs.PrintsKeyed.{PrintsKeyed};
ghost use Rattle.session_audit.specs.Recorded.{PrintsRecorded};

use crate::printing::print_listing;
use command_ends::{Ends, KeyError, Status, read_key, status_of};
use device_model::Device;
use link_format::Dir;
use session_lists::{FrameBox, ReplayLists, list_recordings};
use std::alloc::Global;
use tick_drive::End;
use yasir_io::{Sink, SlotDisk, Source};

// Lists the frames of both recordings with this key, and prints them after the input has ended
// well.
fn replay_keyed<
    S: FrameBox,
    C: FrameBox,
    V: Device + Drop,
    K: Source,
    I: Source,
    O: Sink,
    L: Sink,
    D: SlotDisk,
>(alloc: Global, key: &[u8], dir: Dir, device_rest: u32, ends: Ends<K, I, O, L, D>) -> Status
    requires sealer { S.widths_fit }
    requires checker { C.widths_fit }
    requires in_turn { (setup : Setup) (line : List Tick)
        → AreNumberedFrom setup.floor ((S.numbering setup).frames line) }
    ensures prints { PrintsRecorded (listing_with S.FrameBox C.FrameBox V.Device dir key.now)
        device_rest (I.left ends.entry.input.now) (I.left (outside_after ends.exit).input)
        (O.held ends.entry.out.now) (O.held (outside_after ends.exit).out) result }
    ensures log { L.held (outside_after ends.exit).log ≡ L.held ends.entry.log.now }
    ensures key { (outside_after ends.exit).key ≡ ends.entry.key.now }
    ensures disk { (outside_after ends.exit).disk ≡ ends.entry.disk.now }
    ensures input { InputCause (I.faults ends.entry.input.now)
        (I.faults (outside_after ends.exit).input) result }
    ensures sinks { SinkCause (O.faults ends.entry.out.now)
        (O.faults (outside_after ends.exit).out) (L.faults ends.entry.log.now)
        (L.faults (outside_after ends.exit).log) result }
    ensures flushes { FlushesAtEnd O.Sink L.Sink ends.entry.out.now
        (outside_after ends.exit).out ends.entry.log.now (outside_after ends.exit).log result }
{
    let Ends {
        input,
        out,
        log,
        ..
    } = ends;
    let mut lists = ReplayLists::<S, C, V>::new(alloc, key, dir);
    let end = list_recordings(device_rest, &mut lists, input, out, log);
    match end {
        End::Whole => {}
        End::Stopped(_) => return Status::NoMemory,
        _ => return status_of(end),
    }
    print_listing(lists.sealed(), lists.passed(), lists.read(), out, log)
}

/// Reads a key, and takes two recordings that a mark separates in the input. The line of a device,
/// followed by `device_rest` silent ticks, goes through a transmitter `S`. The link goes through a
/// receiver `C`, and a device `V` reads what the receiver sends. After the input has ended well,
/// `out` gets a line for each frame that was sealed, then for each that has passed, then for each
/// that was read, and then for each that has passed and was never sealed with its number. Before
/// that it gets nothing. The disk isn't touched.
///
/// The frames are kept in memory. If there isn't enough of it, `Status::NoMemory` is returned.
pub fn replay_recordings<
    S: FrameBox,
    C: FrameBox,
    V: Device + Drop,
    K: Source,
    I: Source,
    O: Sink,
    L: Sink,
    D: SlotDisk,
>(alloc: Global, dir: Dir, device_rest: u32, ends: Ends<K, I, O, L, D>) -> Status
    /// The widths of the transmitter are ones that it can be made with.
    requires sealer { S.widths_fit }
    /// The widths of the receiver are ones that it can be made with.
    requires checker { C.widths_fit }
    /// The frames that the transmitter's definition gives for a line are numbered one after the
    /// other, from its floor on.
    requires in_turn { (setup : Setup) (line : List Tick)
        → AreNumberedFrom setup.floor ((S.numbering setup).frames line) }
    /// If the key is right and the input ends well, `out` gets the four groups of lines of these
    /// two recordings, or a front of them if a write fails; before that, and for want of memory, it
    /// gets nothing. If the key isn't right or can't be read, input and sinks are as they were.
    ensures lists { PrintsKeyed K.Source I.Source O.Sink
        (listing_with S.FrameBox C.FrameBox V.Device dir) device_rest
        (outside_before ends.entry) (outside_after ends.exit) result }
    /// The log holds what it held.
    ensures log { L.held (outside_after ends.exit).log ≡ L.held ends.entry.log.now }
    /// The disk is as it was.
    ensures disk { (outside_after ends.exit).disk ≡ ends.entry.disk.now }
    /// The status of a failed read or write comes only if a count of such faults rose, and the
    /// sinks are flushed as the status says.
    ensures causes { HasStreamCauses K.Source I.Source O.Sink L.Sink (outside_before ends.entry)
        (outside_after ends.exit) result }
{
    match read_key(ends.key) {
        Ok(key) => {
            replay_keyed::<S, C, V, K, I, O, L, D>(alloc, key.as_slice(), dir, device_rest, ends)
        }
        Err(KeyError::Fault) => Status::ReadFault,
        Err(KeyError::Bad { place }) => Status::BadKey { place },
    }
}
