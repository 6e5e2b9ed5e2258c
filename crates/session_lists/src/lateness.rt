//! When the frames that are expected must be read, on the line of the device that receives.

/// When the frames that are expected must be read.
#[derive(Clone, Copy, Debug, PartialEq, Eq)]
pub struct Lateness {
    /// How many ticks after its start on the link a frame starts on the receiver's line.
    pub late: u64,
    /// How many ticks later than it should a frame must start at least.
    pub least: u32,
    /// How many ticks later than it should a frame may start at most.
    pub most: u32,
}
