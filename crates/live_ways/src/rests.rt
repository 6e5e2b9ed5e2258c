//! How many silent ticks follow the texts of both ways of a live line.

/// How many silent ticks follow the whole text of each way.
#[derive(Clone, Copy, Debug, PartialEq, Eq)]
pub struct Rests {
    /// Those that follow the text of the outgoing way.
    pub outgoing: u32,
    /// Those that follow the text of the incoming way.
    pub incoming: u32,
}
