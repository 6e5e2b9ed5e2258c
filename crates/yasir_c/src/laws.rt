//! The law about all that C reads of a box.
ghost use Rattle.std.specs.Prelude.{◌≡◌, ℕ, List, [], ◌∷◌, ◌++◌, Some, None, map, take};
ghost use Rattle.yasir_ticks.specs.declared.tick.Tick.{Tick};
ghost use Rattle.frame_ending.specs.Answered.{answered};
ghost use Rattle.link_format.specs.declared.dir.Dir.{Dir};
ghost use Rattle.link_format.specs.Setup.{Setup, setup_of};
ghost use Rattle.any_box.specs.Held.{floor_held, HeldBegins};
ghost use Rattle.any_box.specs.declared.held_box.HeldBox.{HeldBox};
ghost use Rattle.any_box.specs.declared.held_box.HeldStep.{HeldStep};
ghost use Rattle.any_box.specs.declared.kind.Kind.{Kind};
ghost use Rattle.any_box.specs.declared.owed.Commit.{Commit};
ghost use Rattle.yasir_c.specs.Answers.{answer_of};
ghost use Rattle.yasir_c.specs.Holding.{HandleTakesTick, TakesFront, HandleHandsOut, HandleStops};
ghost use Rattle.yasir_c.specs.Telling.{quiet, TellsAnswers};
ghost use Rattle.yasir_c.specs.Withholding.{ready};
ghost use Rattle.yasir_c.specs.declared.answer.Answer.{Answer};
ghost use Rattle.yasir_c.specs.declared.held.Held.TheVariants.{LineBox};
ghost use Rattle.yasir_c.specs.declared.withholding.WithholdingBox.{WithholdingBox};

use any_box::{AnyBox, DefinedBox};

/// What C reads of a box in all, whatever it calls. *begins*: C has read nothing of a box that has
/// taken no tick. *answers*: after a step that uses no number it has read the answer of the step
/// too. *withholds*: after one that uses a number it has not. *hands*: if it says that the number
/// is written, it has. *stops*: if it says that the number couldn't be written, it still has not.
/// *runs*: after a run it has read the ticks that the box returned for it.
pub fn all_answers_are_told()
    ensures begins { (kind : Kind) (dir : Dir) (key a b : List ℕ) (held : HeldBox)
        → HeldBegins ⟦<AnyBox as DefinedBox>⟧ kind dir key a b held
        → TellsAnswers ⟦<AnyBox as DefinedBox>⟧ kind (setup_of key dir (floor_held held))
        (ready held) [] [] }
    ensures answers { (kind : Kind) (setup : Setup) (old new : WithholdingBox) (line : List Tick)
        (told : List Answer) (t : Tick) (step : HeldStep)
        → TellsAnswers ⟦<AnyBox as DefinedBox>⟧ kind setup old line told
        → HandleTakesTick ⟦<AnyBox as DefinedBox>⟧ (Some (LineBox old)) (Some (LineBox new)) t step
        → step.commit ≡ None
        → TellsAnswers ⟦<AnyBox as DefinedBox>⟧ kind setup new (line ++ t ∷ [])
        (told ++ answer_of step ∷ []) }
    ensures withholds { (kind : Kind) (setup : Setup) (old new : WithholdingBox) (line : List Tick)
        (told : List Answer) (t : Tick) (step : HeldStep) (commit : Commit)
        → TellsAnswers ⟦<AnyBox as DefinedBox>⟧ kind setup old line told
        → HandleTakesTick ⟦<AnyBox as DefinedBox>⟧ (Some (LineBox old)) (Some (LineBox new)) t step
        → step.commit ≡ Some commit
        → TellsAnswers ⟦<AnyBox as DefinedBox>⟧ kind setup new (line ++ t ∷ []) told }
    ensures hands { (kind : Kind) (setup : Setup) (old new : WithholdingBox) (line : List Tick)
        (told : List Answer) (answer : Answer)
        → TellsAnswers ⟦<AnyBox as DefinedBox>⟧ kind setup old line told
        → HandleHandsOut (Some (LineBox old)) (Some (LineBox new)) answer
        → TellsAnswers ⟦<AnyBox as DefinedBox>⟧ kind setup new line (told ++ answer ∷ []) }
    ensures stops { (kind : Kind) (setup : Setup) (old new : WithholdingBox) (line : List Tick)
        (told : List Answer)
        → TellsAnswers ⟦<AnyBox as DefinedBox>⟧ kind setup old line told
        → HandleStops (Some (LineBox old)) (Some (LineBox new))
        → TellsAnswers ⟦<AnyBox as DefinedBox>⟧ kind setup new line told }
    ensures runs { (kind : Kind) (setup : Setup) (old new : WithholdingBox) (line : List Tick)
        (told : List Answer) (run : List Tick) (sent : List ℕ) (taken : ℕ)
        → TellsAnswers ⟦<AnyBox as DefinedBox>⟧ kind setup old line told
        → TakesFront ⟦<AnyBox as DefinedBox>⟧ (Some (LineBox old)) (Some (LineBox new)) run sent
        taken
        → TellsAnswers ⟦<AnyBox as DefinedBox>⟧ kind setup new (line ++ take taken run)
        (told ++ map (λ tick. quiet tick) (answered taken sent)) }
{}
