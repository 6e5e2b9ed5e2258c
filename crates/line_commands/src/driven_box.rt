//! A box and its sinks as one consumer of a recorded input.
ghost use Rattle.std.specs.Prelude.{◌≡◌};
ghost use Rattle.line_commands.specs.BoxLines.{state_of_lines};

use crate::box_lines::BoxLines;
use crate::line_box::LineBox;
use tick_drive::{Consumer, Stop};
use yasir_io::{Sink, SlotDisk};
use yasir_ticks::TickRun;

/// References to a box and to what it writes to.
#[derive(Drop)]
pub struct DrivenBox<'a, B, O, L, D> {
    lines: &'a mut BoxLines<B>,
    out: &'a mut O,
    log: &'a mut L,
    disk: &'a mut D,
}

impl<'a, B, O, L, D> DrivenBox<'a, B, O, L, D> {
    ghost use Rattle.line_commands.specs.DrivenBox.{state_in};

    /// Returns a consumer that drives this box. What the box makes of its line goes to these sinks
    /// whenever there is no room for more, and before that this disk is settled.
    pub fn new(
        lines: &'a mut BoxLines<B>,
        out: &'a mut O,
        log: &'a mut L,
        disk: &'a mut D,
    ) -> DrivenBox<'a, B, O, L, D>
        ensures lines { result.lines ≡ lines.entry }
        ensures out { result.out ≡ out.entry }
        ensures log { result.log ≡ log.entry }
        ensures disk { result.disk ≡ disk.entry }
        ensures state { state_in result ≡ state_of_lines lines.old out.old log.old disk.old }
    {
        DrivenBox {
            lines,
            out,
            log,
            disk,
        }
    }
}

impl<'a, B: LineBox, O: Sink, L: Sink, D: SlotDisk> Consumer for DrivenBox<'a, B, O, L, D> {
    ghost use Rattle.line_commands.specs.DrivenBox.{driven_by, holds-none, holds-then};

    ghost meaning = { driven_by B.LinkBox B.line_of O.Sink L.Sink D.SlotDisk };

    #[inline(always)]
    fn take_some(&mut self, run: TickRun<'_>) -> Result<usize, Stop> {
        let count = self.lines.take_some(run);
        if self.lines.has_room() {
            return Ok(count);
        }
        match self.lines.hand_out(self.out, self.log, self.disk) {
            Ok(()) => Ok(count),
            Err(stop) => Err(stop),
        }
    }

    // A mark isn't a tick of the line, so nothing is done.
    fn take_mark(&mut self) -> Result<(), Stop> {
        Ok(())
    }

    ghost went_none = { holds-none B.LinkBox B.line_of O.Sink L.Sink (record {
      told = D.told;
      may_leave = D.may_leave;
      moment = D.moment;
      left_since = D.left_since;
      faults = D.faults;
    }) D.only_now };

    ghost went_then = { holds-then B.LinkBox B.line_of O.Sink L.Sink (record {
      told = D.told;
      may_leave = D.may_leave;
      moment = D.moment;
      left_since = D.left_since;
      faults = D.faults;
    }) };
}
