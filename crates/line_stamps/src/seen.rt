//! What a capture has in it: bytes of the line, and events.

use crate::capture::{CaptureByte, Way};

/// What a capture has besides the bytes of the line: an error, a break, a change of a control line.
#[derive(Clone, Copy, Debug, PartialEq, Eq)]
pub struct LineEvent {
    /// The way on which it was seen, if the capture says so. An RTAC capture doesn't.
    pub way: Option<Way>,
    /// When it was seen, in nanoseconds since the epoch of the capture.
    pub start: u64,
    /// The number of the event, as RTAC serial captures have it: 0 is a change of a control line,
    /// 3 and 4 the end of data sent and received, 5 that data is lost, 6 the end of the capture,
    /// 7 a framing error, 8 a parity error, 9 a break and 10 an overflow.
    pub event: u8,
    /// How many bytes its record has. They aren't bytes of the line.
    pub bytes: u32,
}

/// What a capture has in the order of its records: a byte of the line, or an event.
#[derive(Clone, Copy, Debug, PartialEq, Eq)]
pub enum Seen {
    /// A byte of the line.
    Byte(CaptureByte),
    /// An event, which isn't a byte of the line.
    Event(LineEvent),
}
