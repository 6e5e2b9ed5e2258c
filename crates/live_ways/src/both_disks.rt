//! The disks of the journals of both ways of a live line.

/// The disks of the journals of both ways.
#[derive(Drop)]
pub struct BothDisks<D> {
    /// The disk of the first journal: for a live line that of the transmitter, for its outgoing way.
    pub first: D,
    /// The disk of the second journal: for a live line that of the receiver, for its incoming way.
    pub second: D,
}
