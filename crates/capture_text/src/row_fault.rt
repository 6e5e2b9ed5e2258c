//! Why an export is refused.

/// Why an export is refused.
#[derive(Clone, Copy, Debug, PartialEq, Eq)]
pub enum RowFault {
    /// A line of more than 255 bytes.
    Long,
    /// A line that isn't one of this form, such as a wrong heading, or that can't come at its
    /// place, such as a row after the end of a trace.
    Line,
    /// A time that isn't written as digits, with or without a point and digits after it, or one of
    /// 2^64 nanoseconds or more.
    Time,
    /// A row that has neither a byte in two hex digits nor a known error.
    Data,
    /// A third channel, or one whose name is empty or has more than 64 bytes.
    Channel,
    /// The export ends within a line, or before its last line.
    End,
}

/// A refusal of an export.
#[derive(Clone, Copy, Debug, PartialEq, Eq)]
pub struct BadRow {
    /// How many bytes come before the refused line.
    pub offset: u64,
    /// The refused line, counted from 1.
    pub line: u64,
    /// Why the line is refused.
    pub why: RowFault,
}
