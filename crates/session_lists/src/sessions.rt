//! Lists the frames of three recordings, in one input or in memory, with silence after each.
ghost use Rattle.std.specs.Prelude.{◌+◌, ◌≤◌, ◌^◌, length, OnOk};
ghost use Rattle.tick_drive.specs.Input.{IsReadCause, is_read_fault};
ghost use Rattle.session_lists.specs.SessionListed.{ListsLines, ListsSession, MayListSession};

use crate::frame_box::FrameBox;
use crate::guard::Guard;
use crate::session_lists::SessionLists;
use device_model::Device;
use tick_drive::{End, Stop, drive_with_room};
use yasir_io::{NoMemory, Source};
use yasir_ticks::Tick;

/// Lists the frames of three recordings, which two marks separate in the input. Each is followed by
/// its silence.
pub fn list_session<S: FrameBox, C: FrameBox, V: Device + Drop, G: Guard, I: Source>(
    lists: &mut SessionLists<S, C, V, G>,
    input: &mut I,
) -> End
    /// The lists have taken no item.
    requires fresh { MayListSession S.FrameBox C.FrameBox V.Device G.Guard lists.old }
    /// If the input ends whole, with two marks, the lists are those of its three recordings, each
    /// with its silence. Otherwise it is said how it ended and what was taken of it; it is stopped
    /// only for want of memory.
    ensures listed { ListsSession S.FrameBox C.FrameBox V.Device G.Guard lists.old lists.new
        (I.left input.old) (I.left input.new) result }
    /// It ends with a failed read only if the input's count of faults rose.
    ensures read { IsReadCause (I.faults input.old) (I.faults input.new) (is_read_fault result) }
{
    match drive_with_room(2, input, lists) {
        End::Whole => {}
        end => return end,
    }
    match lists.rest() {
        Ok(()) => End::Whole,
        Err(NoMemory) => End::Stopped(Stop::NoMemory),
    }
}

/// Lists the frames of three recordings in memory. Each is followed by its silence.
pub fn list_lines<S: FrameBox, C: FrameBox, V: Device + Drop, G: Guard>(
    lists: &mut SessionLists<S, C, V, G>,
    device: &[Tick],
    link: &[Tick],
    received: &[Tick],
) -> Result<(), NoMemory>
    /// The lists have taken no item.
    requires fresh { MayListSession S.FrameBox C.FrameBox V.Device G.Guard lists.old }
    /// The recordings have at most 67,108,864 ticks together.
    requires short { length device.now + length link.now + length received.now ≤ 2 ^ 26 }
    /// If there was memory, the lists are those of these recordings, each with its silence.
    ensures { OnOk result (ListsLines S.FrameBox C.FrameBox V.Device G.Guard lists.old lists.new
        device.now link.now received.now) }
{
    let Ok(()) = lists.take_lines(device, link, received) else {
        return Err(NoMemory);
    };
    let Ok(()) = lists.rest() else {
        return Err(NoMemory);
    };
    Ok(())
}
