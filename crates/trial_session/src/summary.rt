//! What is counted of a session.

/// What is counted of a session.
#[derive(Clone, Copy, Debug, PartialEq, Eq)]
pub struct Summary {
    /// The frames that the transmitter sealed.
    pub sealed: u64,
    /// The bursts that the receiver passed.
    pub passed: u64,
    /// The bursts that the receiver refused.
    pub refused: u64,
    /// The bursts that the receiver dropped.
    pub dropped: u64,
    /// The frames that the device read.
    pub read: u64,
}
