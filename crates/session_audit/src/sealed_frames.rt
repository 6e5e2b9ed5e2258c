//! The frames that a transmitter seals, if its tags aren't needed.
ghost use Rattle.std.specs.Prelude.{◌≤◌};
ghost use Rattle.link_format.specs.Profile.{IsWordLen};
ghost use Rattle.session_audit.specs.NoTags.{sealed_numbering, untagged};

use crate::shown_frames::ShownFrames;
use crate::steady_disk::SteadyDisk;
use crate::untagged::Untagged;
use line_rules::LineRules;
use link_format::{Dir, Mac};
use seal_transmitter::Sealer;
use session_lists::{FrameBox, FrameStep, RunBytes};
use yasir_ticks::Tick;

/// The frames that a transmitter seals, by the rules `R`, with words of `B` bytes and tags by `M`.
/// The tags aren't made, since no frame, number or place depends on one.
#[derive(Drop)]
pub struct SealedFrames<R, M, const B: usize, K> {
    shown: ShownFrames<Sealer<R, Untagged<M>, B>, R, K>,
}

impl<R: LineRules, M: Mac, const B: usize, K: SteadyDisk> FrameBox for SealedFrames<R, M, B, K> {
    ghost stands = { λ value.
        ⟦<ShownFrames<Sealer<R, Untagged<M>, B>, R, K> as FrameBox>⟧.stands value.shown };

    ghost taken = { λ value.
        ⟦<ShownFrames<Sealer<R, Untagged<M>, B>, R, K> as FrameBox>⟧.taken value.shown };

    ghost able = { λ value.
        ⟦<ShownFrames<Sealer<R, Untagged<M>, B>, R, K> as FrameBox>⟧.able value.shown };

    ghost numbering = { sealed_numbering R.LineRules M.Mac (untagged M.Mac) B };

    ghost widths_fit = { IsWordLen B × (R.MAX ≤ 292) };

    ghost shown = { λ value.
        ⟦<ShownFrames<Sealer<R, Untagged<M>, B>, R, K> as FrameBox>⟧.shown value.shown };

    fn new(key: &[u8], dir: Dir, floor: u64) -> Self {
        SealedFrames {
            shown: ShownFrames::new(key, dir, floor),
        }
    }

    #[inline]
    fn step(&mut self, t: Tick) -> FrameStep {
        self.shown.step(t)
    }

    #[inline]
    fn pass_bytes(&mut self, bytes: &[u8], sent: &mut RunBytes) -> usize {
        self.shown.pass_bytes(bytes, sent)
    }

    #[inline]
    fn pass_silence(&mut self, ticks: u32, sent: &mut RunBytes) -> u32 {
        self.shown.pass_silence(ticks, sent)
    }

    #[inline]
    fn bytes(&self) -> &[u8] {
        self.shown.bytes()
    }
}
