//! Lists the frames of two recordings in one input, with silence after each.
ghost use Rattle.std.specs.Prelude.{◌≡◌, List, []};
ghost use Rattle.yasir_io.specs.Flushed.{NoneFlushed};
ghost use Rattle.tick_drive.specs.Input.{IsReadCause, is_read_fault};
ghost use Rattle.session_lists.specs.Listed.{ListsRecordings, MayList};

use crate::frame_box::FrameBox;
use crate::replay_lists::ReplayLists;
use device_model::Device;
use tick_drive::{End, Stop, drive_to_rest};
use yasir_io::{NoMemory, Sink, Source};

/// How many silent ticks follow the recording of a link, so that the last verdict falls in them, and
/// what passes is sent and read.
pub const LINK_REST: u32 = 320;

/// Lists the frames of two recordings, which a mark separates in the input. The one before the mark
/// is followed by `device_rest` silent ticks, so that its last burst is judged and its trailer is
/// sent. Nothing is written.
pub fn list_recordings<S: FrameBox, C: FrameBox, V: Device + Drop, I: Source, O: Sink, L: Sink>(
    device_rest: u32,
    lists: &mut ReplayLists<S, C, V>,
    input: &mut I,
    out: &mut O,
    log: &mut L,
) -> End
    /// The lists have taken no item.
    requires { MayList S.FrameBox C.FrameBox V.Device lists.old }
    /// If the input ends whole, with one mark, the lists hold what is sealed of the ticks before it
    /// and what passes and is read of those behind it, each with its silence. Otherwise it is said
    /// how it ended and what was taken of it; it is stopped only for want of memory.
    ensures listed { ListsRecordings S.FrameBox C.FrameBox V.Device device_rest lists.old
        lists.new (I.left input.old) (I.left input.new) result }
    /// The output holds what it held.
    ensures out { O.held out.new ≡ O.held out.old }
    /// The log holds what it held.
    ensures log { L.held log.new ≡ L.held log.old }
    /// It ends with a failed read only if the input's count of faults rose.
    ensures read { IsReadCause (I.faults input.old) (I.faults input.new) (is_read_fault result) }
    /// The output's count of faults is as it was.
    ensures out_faults { O.faults out.new ≡ O.faults out.old }
    /// The log's count of faults is as it was.
    ensures log_faults { L.faults log.new ≡ L.faults log.old }
    /// Neither sink is flushed.
    ensures flushes { NoneFlushed O.Sink L.Sink out.old out.new log.old log.new }
{
    match drive_to_rest(1, LINK_REST, input, lists) {
        End::Whole => {}
        end => return end,
    }
    match lists.rest(device_rest) {
        Ok(()) => End::Whole,
        Err(NoMemory) => End::Stopped(Stop::NoMemory),
    }
}
