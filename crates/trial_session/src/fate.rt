//! What happens to a burst in a session.

/// What happens to a burst at a box.
#[derive(Clone, Copy, Debug, PartialEq, Eq)]
pub enum Fate {
    /// The transmitter seals it, or the receiver passes it.
    Through,
    /// The transmitter doesn't seal it, or the receiver refuses it.
    Refused,
    /// The receiver drops it.
    Dropped,
}
