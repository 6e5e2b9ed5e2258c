//! How the bytes of a capture are placed on a line.

use crate::rate::Rate;

/// How the silence between the records of a capture is found.
#[derive(Clone, Copy, Debug, PartialEq, Eq)]
pub enum Spacing {
    /// By their times only.
    ByTime,
    /// Each record is taken for a frame: four silent ticks or more come before it, whatever its
    /// time says. This is for captures with the times of an operating system, whose records may
    /// begin before the previous one could have ended.
    ByRecord,
}

/// How the bytes of one way of a capture are placed on a line.
#[derive(Clone, Copy, Debug, PartialEq, Eq)]
pub struct Timing {
    /// The rate of the line.
    pub rate: Rate,
    /// How the silence between records is found.
    pub spacing: Spacing,
    /// The time at which tick 0 begins, in nanoseconds since the epoch of the capture.
    pub origin: u64,
}
