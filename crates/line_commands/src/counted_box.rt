//! A box for tests that counts how often it is called.
ghost use Rattle.std.specs.Prelude.{◌≡◌};

use crate::line_box::LineBox;
use crate::note_lines::NoteLine;
use frame_ending::{BoxStep, RunBytes};
use link_box::LinkBox;
use link_format::Dir;
use sequence_journal::{Journal, JournalFault, LinkId};
use yasir_io::SlotDisk;
use yasir_ticks::{Tick, TickRun};

/// How often `forward`, `pass` and `step` of a box were called.
#[derive(Clone, Copy, Debug, PartialEq, Eq)]
pub(crate) struct Calls {
    pub(crate) forward: u32,
    pub(crate) pass: u32,
    pub(crate) step: u32,
}

const NO_CALLS: Calls = Calls {
    forward: 0,
    pass: 0,
    step: 0,
};

/// A box, and how often it was called.
#[derive(Drop)]
pub(crate) struct Counted<X> {
    inner: X,
    pub(crate) calls: Calls,
}

impl<X: LinkBox> LinkBox for Counted<X> {
    type Note = X::Note;

    ghost stands = { λ value. X.stands value.inner };

    ghost taken = { λ value. X.taken value.inner };

    ghost walking = { X.walking };

    ghost widths_fit = { X.widths_fit };

    ghost link_of = { λ value. X.link_of value.inner };

    ghost link_in = { X.link_in };

    fn link(dir: Dir) -> LinkId {
        X::link(dir)
    }

    fn new(key: &[u8], dir: Dir) -> Self {
        Counted {
            inner: X::new(key, dir),
            calls: NO_CALLS,
        }
    }

    fn step<D: SlotDisk>(
        &mut self,
        t: Tick,
        journal: &mut Journal,
        disk: &mut D,
    ) -> Result<BoxStep<X::Note>, JournalFault> {
        self.calls.step = self.calls.step.saturating_add(1);
        self.inner.step(t, journal, disk)
    }

    fn forward(&mut self, run: TickRun<'_>) -> usize {
        self.calls.forward = self.calls.forward.saturating_add(1);
        self.inner.forward(run)
    }

    fn pass(&mut self, run: TickRun<'_>, sent: &mut RunBytes) -> usize {
        self.calls.pass = self.calls.pass.saturating_add(1);
        self.inner.pass(run, sent)
    }
}

impl<X: LineBox> LineBox for Counted<X> {
    ghost line_of = { X.line_of };

    fn note_line(note: &X::Note) -> NoteLine {
        X::note_line(note)
    }

    ghost rising = { X.rising };

    ghost causal = { λ value. X.causal value.inner };
}
