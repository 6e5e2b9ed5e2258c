//! What one line of a tick text represents.
use arrayvec::ArrayVec;

/// The bytes of one line of tick text.
pub type LineBytes = ArrayVec<u8, 32>;

/// What one line of a tick text adds to the recorded line.
#[derive(Drop)]
pub enum Run {
    /// Neither a tick nor a mark: the line hasn't ended yet, is empty or is a comment.
    Nothing,
    /// These bytes, one for each tick.
    Bytes(LineBytes),
    /// That many silent ticks.
    Silence(u32),
    /// A mark, which is no tick.
    Mark,
}
