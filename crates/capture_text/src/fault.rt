//! Why a text capture is refused.

/// Why a text capture is refused.
#[derive(Clone, Copy, Debug, PartialEq, Eq)]
pub enum TextFault {
    /// A byte that may not come at its place.
    Char,
    /// A digit of a time that makes it 2^64 nanoseconds (about 584 years) or more.
    Late,
    /// The end of a line after an odd number of hex digits.
    Odd,
    /// The end of a line after a time without bytes.
    Empty,
}

/// A refusal of a text capture.
#[derive(Clone, Copy, Debug, PartialEq, Eq)]
pub struct BadText {
    /// How many bytes come before the refused one, or before the end of the text.
    pub offset: u64,
    /// The line, counted from 1, that holds the refused byte or the end of the text.
    pub line: u64,
    /// Why the text is refused.
    pub why: TextFault,
}
