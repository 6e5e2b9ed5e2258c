//! Compares the frames that a device reads, one by one, with those that should be read. Of the
//! frames read only the first one that wasn't expected is kept.
ghost use Rattle.std.specs.Prelude.{◌≡◌, ℕ, ◌+◌, ◌<◌, ◌≤◌, ◌++◌, ◌∷◌, [], List};
ghost use Rattle.std.specs.Prelude.{Some, length, slice_get};
ghost use Rattle.yasir_ticks.specs.declared.TheConstants.{MAX_TICKS};
ghost use Rattle.device_model.specs.Frames.{FrameRead};
ghost use Rattle.session_lists.specs.Comparison.{Found};
ghost use Rattle.session_lists.specs.Comparison.{difference_of, first_difference};
ghost use Rattle.session_lists.specs.Expected.{Expects, AreInTime, AreWhole};
ghost use Rattle.session_lists.specs.FrameList.{longest_frame};
ghost use Rattle.session_lists.specs.declared.lateness.Lateness.{Lateness};

use crate::expected::{Expected, Read};
use crate::read_frame::ReadFrame;

/// A frame that was read and isn't the one that is expected at its place.
#[derive(Drop)]
struct Unexpected {
    place: u64,
    frame: ReadFrame,
}

/// Where the frames that were read and those that should have been read differ first.
#[derive(Drop)]
pub struct Difference {
    /// The first place, counted from 0, at which the two lists of frames differ.
    pub place: u64,
    /// The frame that should have been read there, if there is one.
    pub expected: Option<ReadFrame>,
    /// The frame that was read there, if there is one.
    pub found: Option<ReadFrame>,
}

/// How the frames that a device has read so far compare with those that should be read: how many
/// were read, and the first one that isn't the frame that is expected at its place.
#[derive(Drop)]
pub(crate) struct Comparison {
    read: u64,
    unexpected: Option<Unexpected>,
}

impl Comparison {
    /// The comparison before any frame is read.
    pub(crate) fn new() -> Comparison
        ensures none { result.read ≡ 0 }
        ensures found { (late : Lateness) (expected : List FrameRead)
            → Found late result expected [] }
    {
        Comparison {
            read: 0,
            unexpected: None,
        }
    }

    /// Takes the next frame that was read.
    #[inline]
    pub(crate) fn take(&mut self, expected: Expected<'_>, read: Read<'_>)
        requires room { self.old.read < MAX_TICKS }
        requires whole { AreWhole expected }
        requires short { length read.bytes.now ≤ longest_frame }
        ensures counted { self.new.read ≡ self.old.read + 1 }
        ensures found { (frames reads : List FrameRead) → Expects expected.entry frames
            → Found expected.entry.late self.old frames reads
            → Found expected.entry.late self.new frames
            (reads ++ record { start = read.entry.start; frame = read.entry.bytes.now } ∷ []) }
    {
        let place = self.read;
        self.read += 1;
        match &self.unexpected {
            None => {}
            Some(_) => return,
        }
        if expected.is_next(place, read) {
            return;
        }
        let frame = ReadFrame::new(read.start, read.bytes);
        self.unexpected = Some(Unexpected { place, frame });
    }

    /// How many frames were read.
    pub(crate) fn read(&self) -> u64
        ensures value { result ≡ self.now.read }
        ensures count { (late : Lateness) (expected reads : List FrameRead)
            → Found late self.now expected reads → result ≡ length reads }
    {
        self.read
    }

    // Returns the first place, counted from 0, at which the frames that were read and those that
    // should be differ: the frame there isn't the one that should be, or only one of the two lists
    // has a frame there.
    fn place(&self, expected: Expected<'_>) -> Option<u64>
        ensures { (late : Lateness) (frames reads : List FrameRead)
            → Expects expected.entry frames → Found late self.now frames reads
            → result ≡ first_difference late frames reads }
    {
        match &self.unexpected {
            None => {}
            Some(unexpected) => return Some(unexpected.place),
        }
        if self.read < expected.len() as u64 {
            return Some(self.read);
        }
        None
    }

    // Returns the frame that was read at the place of the first difference. `None` if no frame was
    // read there.
    fn found(&self) -> Option<ReadFrame>
        ensures { (late : Lateness) (expected reads : List FrameRead) (place : ℕ)
            → Found late self.now expected reads
            → first_difference late expected reads ≡ Some place
            → result ≡ slice_get reads place }
    {
        match &self.unexpected {
            None => None,
            Some(unexpected) => Some(unexpected.frame.copied()),
        }
    }

    /// Returns the first difference between the frames that should be read and those that were.
    /// `None` if there is no difference.
    pub(crate) fn difference(&self, expected: Expected<'_>) -> Option<Difference>
        requires whole { AreWhole expected }
        requires in_time { AreInTime expected }
        ensures { (frames reads : List FrameRead) → Expects expected.entry frames
            → Found expected.entry.late self.now frames reads
            → result ≡ difference_of expected.entry.late frames reads }
    {
        match self.place(expected) {
            None => None,
            Some(place) => Some(Difference {
                place,
                expected: expected.at(place),
                found: self.found(),
            }),
        }
    }
}
