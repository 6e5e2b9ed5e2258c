//! The notes of a transmitter of several stations.

/// Why a burst of the control centre isn't sealed.
#[derive(Clone, Copy, Debug, PartialEq, Eq)]
pub enum UnsealedStationWhy {
    /// It starts too soon after a sealed burst: before four silent ticks could follow the trailer
    /// of that one.
    Early,
    /// Some of its bytes aren't live, or its bytes aren't a frame.
    Form,
    /// It is a frame, and names a station that isn't in the table.
    Station,
    /// The greatest number of its station has been used.
    Spent,
}

/// What is noted of a burst of the control centre, in the step that closes it. Ticks are counted
/// from 0, as the transmitter takes them.
#[derive(Clone, Copy, Debug, PartialEq, Eq)]
pub enum StationNote {
    /// It is a frame of `len` bytes that names this station, and is sealed with this number of the
    /// station; its first byte came at tick `start`.
    Sealed {
        station: u16,
        number: u64,
        start: u64,
        len: u16,
    },
    /// It isn't sealed; its first byte came at tick `start`.
    Unsealed {
        start: u64,
        why: UnsealedStationWhy,
    },
}
