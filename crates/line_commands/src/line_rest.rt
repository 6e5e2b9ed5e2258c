//! The silence after a whole line.

/// How many silent ticks, in addition to the receiver's delay, follow a device's whole line, so
/// that its last burst is closed and the trailer of this burst leaves.
pub const SEAL_REST: u32 = 6;

/// How many silent ticks follow a link's whole line, so that the verdict on its last burst falls
/// and all that the receiver holds back leaves.
pub const CHECK_REST: u32 = 320;
