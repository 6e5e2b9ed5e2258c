//! What the first bytes of a burst say about a frame's header.

/// What the first bytes of a list say about a header, if a frame of the protocol begins with one.
#[derive(Clone, Copy, Debug, PartialEq, Eq)]
pub enum Head {
    /// The header isn't whole yet.
    Short,
    /// The header is that of a frame.
    Good,
    /// No frame begins with such a header.
    Bad,
}
