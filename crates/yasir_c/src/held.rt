//! What a handle holds.
ghost use Rattle.std.specs.Prelude.{◌≡◌, IfOk, IfErr, Some};
ghost use Rattle.yasir_ticks.specs.TickRun.{run_ticks};
ghost use Rattle.yasir_c.specs.Holding.{HandleTakesTick, TakesNoTick, HandleHandsOut, HandsNothing};
ghost use Rattle.yasir_c.specs.Holding.{HandleTakesRun};
ghost use Rattle.yasir_c.specs.Holding.{floor_told, SpacesTick, SpacesNoTick};

use crate::answer::Answer;
use crate::status::Status;
use crate::withholding::WithholdingBox;
use any_box::{AnyBox, AnySpacer, DefinedBox, DefinedSpacer, HeldSpacer, HeldStep};
use frame_ending::RunBytes;
use line_spacer::SpaceStep;
use yasir_ticks::{Tick, TickRun};

/// What a handle holds.
#[derive(Drop)]
pub enum Held {
    /// A box of a link.
    LineBox(WithholdingBox),
    /// A spacer.
    Spacer(HeldSpacer),
}

impl Held {
    /// Takes the next tick with the box that is held. If the step uses a number, its answer is then
    /// withheld.
    pub(crate) fn step(&mut self, t: Tick) -> Result<HeldStep, Status>
        ensures steps { IfOk result (HandleTakesTick ⟦<AnyBox as DefinedBox>⟧ (Some self.old)
            (Some self.new) t) }
        ensures kept { IfErr result (λ why. (self.new ≡ self.old)
            × TakesNoTick (Some self.old) why) }
    {
        match self {
            Held::LineBox(line_box) => line_box.step(t),
            Held::Spacer(_) => Err(Status::Empty),
        }
    }

    /// Returns the answer that the box withholds if C has confirmed the number (1), and stops the
    /// box if C couldn't write it (0).
    pub(crate) fn committed(&mut self, ok: u8) -> Result<Answer, Status>
        ensures handed { IfOk result (λ answer. (ok ≡ 1)
            × HandleHandsOut (Some self.old) (Some self.new) answer) }
        ensures kept { IfErr result (HandsNothing ok (Some self.old) (Some self.new)) }
    {
        match self {
            Held::LineBox(line_box) => line_box.committed(ok),
            Held::Spacer(_) => Err(Status::Empty),
        }
    }

    /// Takes the first of these ticks with the box that is held, as long as it returns silence for
    /// all of them or bytes for all of them, and returns how many.
    pub(crate) fn take_alike(&mut self, run: TickRun<'_>, sent: &mut RunBytes) -> usize
        ensures { HandleTakesRun ⟦<AnyBox as DefinedBox>⟧ (Some self.old) (Some self.new)
            (run_ticks run.entry)
            sent.new.items result }
    {
        match self {
            Held::LineBox(line_box) => line_box.take_alike(run, sent),
            Held::Spacer(_) => {
                sent.clear();
                0
            }
        }
    }

    /// Returns the last number that the box that is held has used, or 0 if it is a spacer.
    pub(crate) fn floor(&self) -> u64
        ensures { result ≡ floor_told (Some self.now) }
    {
        match self {
            Held::LineBox(line_box) => line_box.floor(),
            Held::Spacer(_) => 0,
        }
    }

    /// Takes the next tick with the spacer that is held.
    pub(crate) fn space(&mut self, t: Tick) -> Result<SpaceStep, Status>
        ensures steps { IfOk result (SpacesTick ⟦<AnySpacer as DefinedSpacer>⟧ (Some self.old)
            (Some self.new) t) }
        ensures kept { IfErr result (λ why. (self.new ≡ self.old)
            × SpacesNoTick (Some self.old) why) }
    {
        match self {
            Held::Spacer(spacer) => spacer.step(t).ok_or(Status::Full),
            Held::LineBox(_) => Err(Status::Empty),
        }
    }
}
