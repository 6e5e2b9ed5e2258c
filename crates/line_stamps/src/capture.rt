//! A byte of a capture, with the time stamp that it comes with.

/// The two ways of a line.
#[derive(Clone, Copy, Debug, PartialEq, Eq)]
pub enum Way {
    /// In an RTAC capture the bytes sent, in an export of a logic analyser the first channel.
    A,
    /// In an RTAC capture the bytes received, in an export of a logic analyser the second channel.
    B,
}

/// A byte of a capture. A capture has records of one or more bytes, each record with a time stamp.
/// The first byte of a record starts at its time stamp, and each other byte starts one character
/// after the byte before it.
#[derive(Clone, Copy, Debug, PartialEq, Eq)]
pub struct CaptureByte {
    /// The way that it goes.
    pub way: Way,
    /// The time stamp of its record, in nanoseconds since the epoch of the capture.
    pub start: u64,
    /// Whether it is the first byte of its record.
    pub first: bool,
    /// Its value.
    pub byte: u8,
}
