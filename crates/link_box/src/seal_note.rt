//! The notes of a transmitter: what happened to a burst of the device, and why.

/// Why a burst of the device isn't sealed.
#[derive(Clone, Copy, Debug, PartialEq, Eq)]
pub enum UnsealedWhy {
    /// It starts too soon after a sealed burst: before four silent ticks could follow the trailer
    /// of that one.
    Early,
    /// Some of its bytes aren't live, or its bytes aren't a frame.
    Form,
    /// The greatest number has been used.
    Spent,
}

/// What is noted of a burst of the device, in the step that closes it. Ticks are counted from 0, as
/// the transmitter takes them.
#[derive(Clone, Copy, Debug, PartialEq, Eq)]
pub enum SealNote {
    /// It is a frame of `len` bytes and is sealed with this number; its first byte came at tick
    /// `start`.
    Sealed { number: u64, start: u64, len: u16 },
    /// It isn't sealed; its first byte came at tick `start`.
    Unsealed { start: u64, why: UnsealedWhy },
}
