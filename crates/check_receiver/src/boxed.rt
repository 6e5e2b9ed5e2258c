//! The receiver as a box of a link.
ghost use Rattle.std.specs.Prelude.{◌≡◌, ◌+◌, ◌≤◌};
ghost use Rattle.link_format.specs.Profile.{IsWordLen};
ghost use Rattle.check_receiver.specs.Boxed.{check_walking};
ghost use Rattle.check_receiver.specs.Stands.{CheckerStandsAt, checker_direction, checker_ticks};
ghost use Rattle.link_format.specs.Tag.{direction_number};
ghost use Rattle.link_box.specs.Links.{link_by};

use crate::{CheckNote, Checker};
use frame_ending::{BoxStep, RunBytes};
use line_rules::LineRules;
use link_box::LinkBox;
use link_format::{Dir, Mac};
use sequence_journal::{Journal, JournalFault, LinkId};
use yasir_io::SlotDisk;
use yasir_ticks::{Tick, TickRun};

impl<R: LineRules, M: Mac, const B: usize, const D: usize> LinkBox for Checker<R, M, B, D> {
    type Note = CheckNote;

    ghost stands = { λ value. CheckerStandsAt R.LineRules M.Mac value };

    ghost taken = { λ value. checker_ticks value };

    ghost walking = { check_walking R.LineRules M.Mac B };

    ghost widths_fit = { IsWordLen B × (2 ≤ B) × (D ≡ 4 + B + M.TAG) };

    ghost link_of = { λ value. link_by R.LineRules M.Mac B (checker_direction value) };

    ghost link_in = { λ dir. link_by R.LineRules M.Mac B (direction_number dir) };

    fn link(dir: Dir) -> LinkId {
        LinkId {
            label: R::LABEL,
            dir: dir.number(),
            profile: (4 + B + M::TAG) as u8,
        }
    }

    fn new(key: &[u8], dir: Dir) -> Self {
        Checker::new(key, dir)
    }

    #[inline(always)]
    fn step<S: SlotDisk>(
        &mut self,
        t: Tick,
        journal: &mut Journal,
        disk: &mut S,
    ) -> Result<BoxStep<CheckNote>, JournalFault> {
        match Checker::step(self, t, journal, disk) {
            Ok(step) => Ok(step),
            Err(JournalFault) => Err(JournalFault),
        }
    }

    #[inline(always)]
    fn pass(&mut self, run: TickRun<'_>, sent: &mut RunBytes) -> usize {
        match run {
            TickRun::Bytes(bytes) => self.pass_bytes(bytes, sent),
            TickRun::Silence(ticks) => self.pass_silence(ticks, sent) as usize,
        }
    }
}
