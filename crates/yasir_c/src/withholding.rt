//! A box that withholds what a step returns if the step uses a number.
ghost use Rattle.std.specs.Prelude.{◌≡◌, IfOk, IfErr, Some};
ghost use Rattle.yasir_ticks.specs.TickRun.{run_ticks};
ghost use Rattle.yasir_c.specs.Holding.{HandleTakesTick, TakesNoTick, HandleHandsOut, HandsNothing};
ghost use Rattle.yasir_c.specs.Holding.{HandleTakesRun};
ghost use Rattle.yasir_c.specs.Holding.{floor_told};
ghost use Rattle.yasir_c.specs.Withholding.{ready};
ghost use Rattle.yasir_c.specs.declared.held.Held.TheVariants.{LineBox};

use crate::answer::Answer;
use crate::status::Status;
use any_box::{AnyBox, DefinedBox, HeldBox, HeldStep};
use frame_ending::RunBytes;
use yasir_ticks::{Tick, TickRun};

/// Whether a box takes the next tick.
#[derive(Clone, Copy, Debug, PartialEq, Eq)]
pub enum Readiness {
    /// It does.
    Ready,
    /// It doesn't until C has confirmed a number. The answer of the step that used it is withheld.
    Withholds(Answer),
    /// It never does: C couldn't write a number.
    Stopped,
}

/// A box, and whether it takes the next tick.
#[derive(Drop)]
pub struct WithholdingBox {
    line_box: HeldBox,
    readiness: Readiness,
}

impl WithholdingBox {
    /// Returns a box that takes the next tick.
    pub(crate) fn new(line_box: HeldBox) -> WithholdingBox
        ensures { result ≡ ready line_box }
    {
        WithholdingBox {
            line_box,
            readiness: Readiness::Ready,
        }
    }

    /// Takes the next tick. If the step uses a number, its answer is then withheld.
    pub(crate) fn step(&mut self, t: Tick) -> Result<HeldStep, Status>
        ensures steps { IfOk result (HandleTakesTick ⟦<AnyBox as DefinedBox>⟧
            (Some (LineBox self.old))
            (Some (LineBox self.new)) t) }
        ensures kept { IfErr result (λ why. (self.new ≡ self.old)
            × TakesNoTick (Some (LineBox self.old)) why) }
    {
        match self.readiness {
            Readiness::Ready => {}
            Readiness::Withholds(_) => return Err(Status::Waiting),
            Readiness::Stopped => return Err(Status::Stopped),
        }
        let Ok(step) = self.line_box.step(t) else {
            return Err(Status::Full);
        };
        if step.commit.is_some() {
            self.readiness = Readiness::Withholds(Answer::of(&step));
        }
        Ok(step)
    }

    /// Returns the withheld answer if C has confirmed the number (1), and stops the box if C
    /// couldn't write it (0).
    pub(crate) fn committed(&mut self, ok: u8) -> Result<Answer, Status>
        ensures handed { IfOk result (λ answer. (ok ≡ 1)
            × HandleHandsOut (Some (LineBox self.old)) (Some (LineBox self.new)) answer) }
        ensures kept { IfErr result (HandsNothing ok (Some (LineBox self.old))
            (Some (LineBox self.new))) }
    {
        if ok > 1 {
            return Err(Status::BadArgument);
        }
        let answer = match self.readiness {
            Readiness::Ready => return Err(Status::BadArgument),
            Readiness::Withholds(answer) => answer,
            Readiness::Stopped => return Err(Status::Stopped),
        };
        if ok == 0 {
            self.readiness = Readiness::Stopped;
            return Err(Status::Stopped);
        }
        self.readiness = Readiness::Ready;
        Ok(answer)
    }

    /// Takes the first of these ticks, as long as the box returns silence for all of them or bytes
    /// for all of them, without a note and with nothing to write, and returns how many.
    pub(crate) fn take_alike(&mut self, run: TickRun<'_>, sent: &mut RunBytes) -> usize
        ensures { HandleTakesRun ⟦<AnyBox as DefinedBox>⟧ (Some (LineBox self.old))
            (Some (LineBox self.new))
            (run_ticks run.entry) sent.new.items result }
    {
        let Readiness::Ready = self.readiness else {
            sent.clear();
            return 0;
        };
        self.line_box.take_alike(run, sent)
    }

    /// Returns the last number that the box used.
    pub(crate) fn floor(&self) -> u64
        ensures { result ≡ floor_told (Some (LineBox self.now)) }
    {
        self.line_box.floor()
    }
}
