//! A box for each direction of a line, and the two recordings of an input that the boxes take.
ghost use Rattle.std.specs.Prelude.{◌≡◌, ◌+◌, ◌≤◌, [], length, false};
ghost use Rattle.yasir_ticks.specs.Ticks.{silent};
ghost use Rattle.yasir_ticks.specs.TickRun.{run_ticks, run_items};
ghost use Rattle.yasir_ticks.specs.declared.TheConstants.{MAX_TICKS};
ghost use Rattle.link_format.specs.Setup.{setup_of};
ghost use Rattle.link_format.specs.Directions.{opposite_of};
ghost use Rattle.line_commands.specs.KeptBox.{ticks_kept};
ghost use Rattle.line_commands.specs.BothBoxes.{keeping, KeepsBoth, AreSteady, both_taken};

use crate::kept_box::KeptBox;
use crate::line_box::LineBox;
use link_format::Dir;
use std::alloc::Global;
use tick_drive::{Consumer, Stop};
use yasir_io::NoMemory;
use yasir_ticks::{MAX_TICKS, TickRun};

/// A box of the outgoing direction of a line, which takes the ticks before a mark, and a box of the
/// incoming direction, which takes those after it. Neither knows of the other.
#[derive(Drop)]
pub(crate) struct BothBoxes<S, C> {
    pub(crate) outgoing: KeptBox<S>,
    pub(crate) incoming: KeptBox<C>,
    marked: bool,
}

impl<S: LineBox, C: LineBox> BothBoxes<S, C> {
    /// Returns boxes that have taken no tick.
    pub(crate) fn new(alloc: Global, key: &[u8], outgoing: Dir) -> BothBoxes<S, C>
        requires outgoing { S.widths_fit }
        requires incoming { C.widths_fit }
        ensures none { both_taken S.LinkBox S.line_of C.LinkBox C.line_of result ≡ 0 }
        ensures steady { AreSteady S.LinkBox S.line_of C.LinkBox C.line_of result }
        ensures unmarked { result.marked ≡ false }
        ensures keeps { KeepsBoth S.LinkBox S.line_of C.LinkBox C.line_of result (record {
          outgoing = setup_of key.now outgoing 0;
          incoming = setup_of key.now (opposite_of outgoing) 0;
        }) [] [] }
    {
        BothBoxes {
            outgoing: KeptBox::new(alloc, key, outgoing),
            incoming: KeptBox::new(alloc, key, outgoing.opposite()),
            marked: false,
        }
    }
}

impl<S: LineBox, C: LineBox> Consumer for BothBoxes<S, C> {
    ghost meaning = { keeping S.LinkBox S.line_of C.LinkBox C.line_of };

    #[inline(always)]
    fn take_some(&mut self, run: TickRun<'_>) -> Result<usize, Stop> {
        if self.marked {
            return match self.incoming.take_some(run) {
                Ok(count) => Ok(count),
                Err(NoMemory) => Err(Stop::NoMemory),
            };
        }
        match self.outgoing.take_some(run) {
            Ok(count) => Ok(count),
            Err(NoMemory) => Err(Stop::NoMemory),
        }
    }

    fn take_mark(&mut self) -> Result<(), Stop> {
        self.marked = true;
        Ok(())
    }

    ghost went_none = { λ both able. tt };

    ghost went_then = { λ a b c result first second. tt };
}
