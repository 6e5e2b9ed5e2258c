//! The notes of a receiver: what happened to a burst of the link, and why.

/// Why a burst of the link is refused: its bytes leave, with a spoiled ending.
#[derive(Clone, Copy, Debug, PartialEq, Eq)]
pub enum RefusedWhy {
    /// Its live bytes aren't followed, tick by tick, by a pause and a trailer.
    Trailer,
    /// Its live bytes aren't a frame.
    Form,
    /// No number above the floor, up to the greatest one, has the word of its trailer.
    Number,
    /// Its trailer doesn't have the tag of the number and the frame.
    Tag,
}

/// Why a burst of the link is dropped: nothing of it leaves.
#[derive(Clone, Copy, Debug, PartialEq, Eq)]
pub enum DroppedWhy {
    /// It starts while bytes of an earlier burst are still leaving.
    Busy,
    /// It doesn't begin with a good header.
    Head,
}

/// What is noted about a burst of the link, in the step in which its verdict falls. Ticks are
/// counted from 0, as the receiver takes them.
#[derive(Clone, Copy, Debug, PartialEq, Eq)]
pub enum CheckNote {
    /// It is a frame of `len` bytes with the tag of `number`, and passes. Its first byte came at
    /// tick `start`.
    Passed { number: u64, start: u64, len: u16 },
    /// It leaves spoiled. Its first byte came at tick `start`.
    Refused { start: u64, why: RefusedWhy },
    /// It doesn't leave. Its first byte came at tick `start`.
    Dropped { start: u64, why: DroppedWhy },
}
