//! What a step of a spacer returns, as C reads it.
ghost use Rattle.std.specs.Prelude.{◌≡◌};
ghost use Rattle.yasir_c.specs.Answers.{tick_bytes};
ghost use Rattle.yasir_c.specs.SpacerEdge.{spaced_of, lost_numbers};

use crate::answer::tick_bytes;
use line_spacer::SpaceStep;

/// What a step of a spacer returns. Its fields are those of `yasir_spaced` in `yasir.h`, in that
/// order.
#[repr(C)]
#[derive(Clone, Copy, Debug, PartialEq, Eq)]
pub struct Spaced {
    /// The tick of the first byte of the frame that is lost, counted from 0, or 0 if none is.
    pub lost_start: u64,
    /// 1 if the tick of the other line carries a byte, and 0 if it is silent.
    pub is_byte: u8,
    /// The byte of the tick of the other line, or 0 if it is silent.
    pub byte: u8,
    /// 1 if a frame is lost in this step, and 0 if none is.
    pub is_lost: u8,
    /// Always 0.
    pub unused: u8,
}

// Returns whether a frame is lost, and the tick of its first byte.
fn lost_numbers(lost: Option<u64>) -> (u8, u64)
    ensures { result ≡ lost_numbers lost }
{
    match lost {
        None => (0, 0),
        Some(start) => (1, start),
    }
}

impl Spaced {
    /// Returns what C reads of a step.
    pub(crate) fn of(step: &SpaceStep) -> Spaced
        ensures { result ≡ spaced_of step.now }
    {
        let (is_byte, byte) = tick_bytes(step.tick);
        let (is_lost, lost_start) = lost_numbers(step.lost);
        Spaced {
            lost_start,
            is_byte,
            byte,
            is_lost,
            unused: 0,
        }
    }
}
