//! A tick: what a line carries in one byte time.

/// What a line carries in one byte time: silence, or a byte.
#[derive(Clone, Copy, Debug, PartialEq, Eq)]
pub enum Tick {
    Silent,
    Byte(u8),
}
