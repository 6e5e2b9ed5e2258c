//! The verdict of an audit.
use session_lists::Difference;

/// How many frames were sealed, have passed and were read.
#[derive(Clone, Copy, Debug, PartialEq, Eq)]
pub struct Counts {
    /// How many frames were sealed.
    pub sealed: u32,
    /// How many frames have passed.
    pub passed: u32,
    /// How many frames were read.
    pub read: u32,
}

/// What an audit finds.
#[derive(Drop)]
pub enum Finding {
    /// No frame was sealed, passed or read.
    Empty,
    /// A frame passed that wasn't sealed with its number. `number` is the number of the first such
    /// frame, and `start` is the tick of the link at which it starts, counted from 0.
    Forged { number: u64, start: u64 },
    /// No frame that passed is forged, and the frames read from the device's line aren't those that
    /// should be, or one was read in a tick in which it may not be.
    Differs(Difference),
    /// No frame that passed is forged, and the frames read from the device's line are exactly those
    /// that should be, in their order, each in a tick in which it may be read: those that passed or,
    /// behind a spacer, those of them that it hasn't lost. At least one frame was sealed.
    Clean,
}

/// The verdict of an audit.
#[derive(Drop)]
pub struct Verdict {
    /// How many frames were sealed, have passed and were read.
    pub counts: Counts,
    /// What was found of them.
    pub finding: Finding,
}
