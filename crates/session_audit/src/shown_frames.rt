//! A box over a journal of its own, with the bytes of the frames that it numbers.
ghost use Rattle.std.specs.Prelude.{◌≡◌, ◌≤◌, take};
ghost use Rattle.session_audit.specs.FramesOf.{told_by};
ghost use Rattle.session_audit.specs.ShownFrames.{ShowsFrames, IsSteadyBox, numbering_of};

use crate::burst_bytes::BurstBytes;
use crate::noting_box::NotingBox;
use crate::steady_disk::{SteadyDisk, journal_at};
use line_rules::LineRules;
use link_box::take_alike;
use link_format::Dir;
use sequence_journal::Journal;
use session_lists::{FrameBox, FrameStep, Numbered, RunBytes};
use std::marker::PhantomData;
use yasir_ticks::{Tick, TickRun};

// Returns number and start of the frame of a step's note, if the note has one.
#[inline]
fn numbered<R: LineRules, X: NotingBox<R>>(note: Option<X::Note>) -> Option<Numbered>
    ensures { result ≡ told_by X.told note }
{
    match note {
        Some(note) => X::numbered(note),
        None => None,
    }
}

/// A box by the rules `R`, with a new journal that begins at a floor, on a disk of its own that
/// never fails, and the bytes of the frames that it numbers.
#[derive(Drop)]
pub struct ShownFrames<X, R, K> {
    line_box: X,
    burst: BurstBytes,
    // how many bytes of the burst are live, as of the last single step
    live: u16,
    journal: Journal,
    disk: K,
    rules: PhantomData<R>,
}

impl<R: LineRules, X: NotingBox<R>, K: SteadyDisk> FrameBox for ShownFrames<X, R, K> {
    ghost stands = { ShowsFrames R.LineRules X.stands };

    ghost taken = { λ value. X.taken value.line_box };

    ghost able = { IsSteadyBox X.link_of K.told };

    ghost numbering = { numbering_of X.walking };

    ghost widths_fit = { X.widths_fit × (R.MAX ≤ 292) };

    ghost shown = { λ value. take value.live value.burst.bytes.items };

    fn new(key: &[u8], dir: Dir, floor: u64) -> Self {
        let mut disk = K::blank();
        let link = X::link(dir);
        let journal = journal_at(&mut disk, &link, floor);
        ShownFrames {
            line_box: X::new(key, dir),
            burst: BurstBytes::new(),
            live: 0,
            journal,
            disk,
            rules: PhantomData,
        }
    }

    fn step(&mut self, t: Tick) -> FrameStep {
        self.burst.step(t);
        let step = self
            .line_box
            .step(t, &mut self.journal, &mut self.disk)
            .unwrap();
        self.live = self.line_box.live().len();
        FrameStep {
            tick: step.tick,
            frame: numbered::<R, X>(step.note),
        }
    }

    fn pass_bytes(&mut self, bytes: &[u8], sent: &mut RunBytes) -> usize {
        let count = take_alike(&mut self.line_box, TickRun::Bytes(bytes), sent);
        self.burst.hear_bytes(&bytes[..count]);
        count
    }

    fn pass_silence(&mut self, ticks: u32, sent: &mut RunBytes) -> u32 {
        let count = take_alike(&mut self.line_box, TickRun::Silence(ticks), sent) as u32;
        self.burst.wait_some(count);
        count
    }

    // The live bytes are the first ones of the burst.
    fn bytes(&self) -> &[u8] {
        let kept = self.burst.bytes();
        let count = usize::from(self.live);
        if count < kept.len() {
            return &kept[..count];
        }
        kept
    }
}
