//! The transmitter as a box of a link.
ghost use Rattle.std.specs.Prelude.{◌≡◌};
ghost use Rattle.link_format.specs.Profile.{IsWordLen};
ghost use Rattle.seal_transmitter.specs.Boxed.{seal_walking};
ghost use Rattle.seal_transmitter.specs.Stands.{SealerStandsAt, sealer_direction, sealer_ticks};
ghost use Rattle.link_format.specs.Tag.{direction_number};
ghost use Rattle.link_box.specs.Links.{link_by};

use crate::{SealNote, Sealer};
use frame_ending::{BoxStep, RunBytes};
use line_rules::LineRules;
use link_box::LinkBox;
use link_format::{Dir, Mac};
use sequence_journal::{Journal, JournalFault, LinkId};
use yasir_io::SlotDisk;
use yasir_ticks::{Tick, TickRun};

impl<R: LineRules, M: Mac, const B: usize> LinkBox for Sealer<R, M, B> {
    type Note = SealNote;

    ghost stands = { λ value. SealerStandsAt R.LineRules M.Mac value };

    ghost taken = { λ value. sealer_ticks value };

    ghost walking = { seal_walking R.LineRules M.Mac B };

    ghost widths_fit = { IsWordLen B };

    ghost link_of = { λ value. link_by R.LineRules M.Mac B (sealer_direction value) };

    ghost link_in = { λ dir. link_by R.LineRules M.Mac B (direction_number dir) };

    fn link(dir: Dir) -> LinkId {
        LinkId {
            label: R::LABEL,
            dir: dir.number(),
            profile: (4 + B + M::TAG) as u8,
        }
    }

    fn new(key: &[u8], dir: Dir) -> Self {
        Sealer::new(key, dir)
    }

    #[inline(always)]
    fn step<D: SlotDisk>(
        &mut self,
        t: Tick,
        journal: &mut Journal,
        disk: &mut D,
    ) -> Result<BoxStep<SealNote>, JournalFault> {
        match Sealer::step(self, t, journal, disk) {
            Ok(step) => Ok(step),
            Err(JournalFault) => Err(JournalFault),
        }
    }

    #[inline(always)]
    fn forward(&mut self, run: TickRun<'_>) -> usize {
        match run {
            TickRun::Bytes(bytes) => Sealer::forward(self, bytes),
            TickRun::Silence(ticks) => self.keep_silent(ticks) as usize,
        }
    }

    #[inline(always)]
    fn pass(&mut self, run: TickRun<'_>, sent: &mut RunBytes) -> usize {
        match run {
            TickRun::Bytes(bytes) => self.pass_bytes(bytes, sent),
            TickRun::Silence(ticks) => self.pass_silence(ticks, sent) as usize,
        }
    }
}
