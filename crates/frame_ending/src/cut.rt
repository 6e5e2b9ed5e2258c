//! What a tick of a line is to the machine that cuts it into bursts.

/// What a tick of a line is.
#[derive(Clone, Copy, Debug, PartialEq, Eq)]
pub enum Cut {
    /// The first byte of a burst.
    Start(u8),
    /// A live byte of a burst, but not its first byte.
    Live(u8),
    /// A byte of a burst that isn't live.
    Extra(u8),
    /// The first, second or third silent tick in a row after a byte: 1, 2 or 3.
    Pause(u8),
    /// The fourth silent tick in a row after a byte, which closes the burst.
    Closed,
    /// Any other silence.
    Quiet,
}
