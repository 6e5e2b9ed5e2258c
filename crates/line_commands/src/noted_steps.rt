//! What a box returns in a step, added to the texts.
ghost use Rattle.std.specs.Prelude.{◌≡◌, [], ◌∷◌};
ghost use Rattle.line_texts.specs.Adding.{TextHasRoom, HasLineRoom, TextAdds};
ghost use Rattle.line_texts.specs.Texts.{waiting_in};
ghost use Rattle.line_commands.specs.Boxes.{line_of_note};

use crate::line_box::LineBox;
use line_texts::Texts;
use yasir_ticks::{Tick, TickRun};

// Adds the line of a note, and the tick of its step. It is a separate function, since few steps
// have a note.
#[inline(never)]
fn add_note<B: LineBox>(texts: &mut Texts, tick: Tick, note: &B::Note)
    requires { TextHasRoom texts.old }
    ensures adds { TextAdds (waiting_in texts.old) (waiting_in texts.new) (tick ∷ [])
        (B.line_of note.now) }
    ensures line_room { HasLineRoom texts.new }
{
    let line = B::note_line(note);
    match tick {
        Tick::Silent => texts.add_noted(line.as_slice(), TickRun::Silence(1)),
        Tick::Byte(byte) => texts.add_noted(line.as_slice(), TickRun::Bytes(&[byte])),
    }
}

// Adds the tick of a step to the text of the other line, and the line of its note, if it has one,
// to the text of the log.
#[inline]
pub(crate) fn add_step<B: LineBox>(texts: &mut Texts, tick: Tick, note: Option<B::Note>)
    requires { TextHasRoom texts.old }
    ensures adds { TextAdds (waiting_in texts.old) (waiting_in texts.new) (tick ∷ [])
        (line_of_note B.line_of note) }
    ensures line_room { HasLineRoom texts.new }
{
    match note {
        None => match tick {
            Tick::Silent => texts.add_run(TickRun::Silence(1)),
            Tick::Byte(byte) => texts.add_run(TickRun::Bytes(&[byte])),
        },
        Some(note) => add_note::<B>(texts, tick, &note),
    }
}
