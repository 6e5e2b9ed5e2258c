//! Why a tick text is refused, and in which line.

/// Why a tick text is refused.
#[derive(Clone, Copy, Debug, PartialEq, Eq)]
pub enum TickFault {
    /// A byte that may not come at its place.
    Char,
    /// The end of a `+` line after an odd number of hex digits.
    Odd,
    /// The 65th hex digit of a `+` line, or the 121st byte after `#`.
    Long,
    /// A `-` line whose number begins with 0 or is above 1000000.
    Count,
    /// A `+` or `-` line with nothing after its sign.
    Empty,
    /// The end of a text that has fewer marks than stated.
    Mark,
}

/// A refusal of a tick text. The line is that of the refused byte, or of the end of the text,
/// counted from 1.
#[derive(Clone, Copy, Debug, PartialEq, Eq)]
pub struct BadTicks {
    pub line: u32,
    pub why: TickFault,
}
