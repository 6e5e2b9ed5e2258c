//! The frames that should be read, as lists in memory have them.
ghost use Rattle.std.specs.Prelude.{◌≡◌, ◌+◌, ◌<◌, ◌≤◌, ◌^◌, IfSome, List, length, slice_get};
ghost use Rattle.device_model.specs.Frames.{FrameRead};
ghost use Rattle.session_lists.specs.Expected.{AreInTime, AreLater, AreWhole, Expects, StartInTime};
ghost use Rattle.session_lists.specs.Expected.{due_frame, is_due};
ghost use Rattle.session_lists.specs.Comparison.{is_same_read};
ghost use Rattle.session_lists.specs.FrameList.{Holds, ListIsWhole, longest_frame};
ghost use Rattle.session_lists.specs.ReplayLists.{kept_reads};

use crate::frame_box::Numbered;
use crate::frame_list::FrameList;
use crate::lateness::Lateness;
use crate::read_frame::ReadFrame;

/// The frames from which those follow that should be read.
#[derive(Clone, Copy)]
pub(crate) enum Origin<'a> {
    /// They are those that have passed, each later by the receiver's delay.
    Passed(&'a FrameList<Numbered>),
    /// They are those that a device behind a spacer reads.
    Spaced(&'a FrameList<u64>),
}

/// The frames that should be read, and how late each one may be.
#[derive(Clone, Copy)]
pub(crate) struct Expected<'a> {
    pub(crate) late: Lateness,
    pub(crate) origin: Origin<'a>,
}

/// A frame that a device has read: the tick of its first byte, and its bytes.
#[derive(Clone, Copy)]
pub(crate) struct Read<'a> {
    pub(crate) start: u64,
    pub(crate) bytes: &'a [u8],
}

/// A frame that should be read: the tick of its first byte, and its bytes.
#[derive(Clone, Copy)]
struct Due<'a> {
    start: u128,
    bytes: &'a [u8],
}

// Whether the frame that was read is the one that is due, and starts neither too early nor too late.
fn is_same(late: Lateness, due: Due<'_>, read: Read<'_>) -> bool
    ensures { result ≡ is_same_read late
        (record { start = due.entry.start; frame = due.entry.bytes.now })
        (record { start = read.entry.start; frame = read.entry.bytes.now }) }
{
    let at = u128::from(read.start);
    if at < due.start {
        return false;
    }
    let wait = at - due.start;
    if wait < u128::from(late.least) || u128::from(late.most) < wait {
        return false;
    }
    due.bytes == read.bytes
}

// The frame that has passed at this place, as it should be read `late` ticks later. `None` if no frame
// has passed there.
fn passed_at(late: u64, list: &FrameList<Numbered>, place: u64) -> Option<Due<'_>>
    requires { ListIsWhole list.now }
    ensures due { (frames : List FrameRead) → AreLater late list.now frames
        → due_frame result ≡ slice_get frames place }
    ensures short { IfSome result (λ due. length due.bytes.now ≤ longest_frame) }
    ensures in_time { StartInTime late list.now → IfSome result (λ due. due.start < 2 ^ 64) }
{
    let index = place as usize;
    if index >= list.len() {
        return None;
    }
    Some(Due {
        start: u128::from(late) + u128::from(list.head(index).start),
        bytes: list.bytes(index),
    })
}

// The frame that was read at this place behind a spacer. `None` if none was read there.
fn spaced_at(list: &FrameList<u64>, place: u64) -> Option<Due<'_>>
    requires { ListIsWhole list.now }
    ensures due { (frames : List FrameRead) → Holds list.now (kept_reads frames)
        → due_frame result ≡ slice_get frames place }
    ensures short { IfSome result (λ due. length due.bytes.now ≤ longest_frame) }
    ensures in_time { IfSome result (λ due. due.start < 2 ^ 64) }
{
    let index = place as usize;
    if index >= list.len() {
        return None;
    }
    Some(Due {
        start: u128::from(list.head(index)),
        bytes: list.bytes(index),
    })
}

impl<'a> Expected<'a> {
    /// Returns how many frames should be read.
    pub(crate) fn len(self) -> usize
        ensures { (frames : List FrameRead) → Expects self.entry frames → result ≡ length frames }
    {
        match self.origin {
            Origin::Passed(list) => list.len(),
            Origin::Spaced(list) => list.len(),
        }
    }

    // The frame that should be read at `place`. `None` if none should be.
    fn due_at(self, place: u64) -> Option<Due<'a>>
        requires { AreWhole self }
        ensures due { (frames : List FrameRead) → Expects self.entry frames
            → due_frame result ≡ slice_get frames place }
        ensures short { IfSome result (λ due. length due.bytes.now ≤ longest_frame) }
        ensures in_time { AreInTime self.entry → IfSome result (λ due. due.start < 2 ^ 64) }
    {
        match self.origin {
            Origin::Passed(list) => passed_at(self.late.late, list, place),
            Origin::Spaced(list) => spaced_at(list, place),
        }
    }

    /// Whether the frame that was read is the one that should be read at `place`.
    pub(crate) fn is_next(self, place: u64, read: Read<'_>) -> bool
        requires { AreWhole self }
        ensures { (frames : List FrameRead) → Expects self.entry frames
            → result ≡ is_due self.entry.late (slice_get frames place)
            (record { start = read.entry.start; frame = read.entry.bytes.now }) }
    {
        match self.due_at(place) {
            None => false,
            Some(due) => is_same(self.late, due, read),
        }
    }

    /// Returns the frame that should be read at `place`. `None` if none should be.
    pub(crate) fn at(self, place: u64) -> Option<ReadFrame>
        requires whole { AreWhole self }
        requires in_time { AreInTime self }
        ensures { (frames : List FrameRead) → Expects self.entry frames
            → result ≡ slice_get frames place }
    {
        match self.due_at(place) {
            None => None,
            Some(due) => Some(ReadFrame::new(due.start as u64, due.bytes)),
        }
    }
}
