//! The notes of all boxes as one type.
use check_receiver::CheckNote;
use seal_transmitter::SealNote;

/// A note of any of the boxes.
#[derive(Clone, Copy, Debug, PartialEq, Eq)]
pub enum AnyNote {
    /// A note of a transmitter.
    OfSealer(SealNote),
    /// A note of a receiver.
    OfChecker(CheckNote),
}
