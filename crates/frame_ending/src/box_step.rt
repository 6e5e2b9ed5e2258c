//! What a box returns for a tick, and for a run of ticks.
use arrayvec::ArrayVec;
use yasir_ticks::Tick;

/// What a box between two lines returns for a tick of one of them. Few steps have a note.
#[derive(Clone, Copy, Debug, PartialEq, Eq)]
pub struct BoxStep<N> {
    /// The tick of the other line, at the same place.
    pub tick: Tick,
    /// The note that falls into this step.
    pub note: Option<N>,
}

/// The bytes that a box returns for a run of ticks, one for each tick; none if the other line is
/// silent.
pub type RunBytes = ArrayVec<u8, 64>;
