//! The notes of a receiver of several stations.
use link_box::DroppedWhy;

/// Why a burst of the link is refused: its bytes leave, with a spoiled ending.
#[derive(Clone, Copy, Debug, PartialEq, Eq)]
pub enum RefusedStationWhy {
    /// Its live bytes aren't followed, tick by tick, by a pause and a trailer.
    Trailer,
    /// Its live bytes aren't a frame.
    Form,
    /// It is a frame, and names a station that isn't in the table.
    Station,
    /// No number above the floor of its station, up to the greatest one, has the word of its
    /// trailer.
    Number,
    /// Its trailer doesn't have the tag of the number and the frame under the key of its station.
    Tag,
}

/// What is noted about a burst of the link, in the step in which its verdict falls. Ticks are
/// counted from 0, as the receiver takes them.
#[derive(Clone, Copy, Debug, PartialEq, Eq)]
pub enum StationCheckNote {
    /// It is a frame of `len` bytes that names this station and has the tag of `number` under the
    /// station's key, and passes. Its first byte came at tick `start`.
    Passed {
        station: u16,
        number: u64,
        start: u64,
        len: u16,
    },
    /// It leaves spoiled. Its first byte came at tick `start`.
    Refused {
        start: u64,
        why: RefusedStationWhy,
    },
    /// It doesn't leave. Its first byte came at tick `start`.
    Dropped {
        start: u64,
        why: DroppedWhy,
    },
}
