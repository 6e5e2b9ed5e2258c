//! The receiver's notes as lines of text.
ghost use Rattle.std.specs.Prelude.{◌≡◌, ◌≤◌, length};
ghost use Rattle.link_format.specs.Profile.{profile_of};
ghost use Rattle.sequence_journal.specs.declared.numbers.TheConstants.{LIMIT};
ghost use Rattle.link_box.proofs.CheckCausality.{checker-causal};
ghost use Rattle.check_receiver.proofs.Silences.{timely};
ghost use Rattle.line_commands.specs.CheckLaws.{passed-rise};
ghost use Rattle.line_commands.specs.CheckLines.{refused_word, dropped_word, check_line};

use crate::line_box::LineBox;
use crate::note_lines::{NoteLine, numbered_line, placed_line};
use check_receiver::{CheckNote, Checker, DroppedWhy, RefusedWhy};
use line_rules::LineRules;
use link_format::Mac;

fn refused_word(why: RefusedWhy) -> &'static [u8]
    ensures word { result.now ≡ refused_word why }
    ensures short { length result.now ≤ 9 }
{
    match why {
        RefusedWhy::Trailer => b" trailer\n",
        RefusedWhy::Form => b" form\n",
        RefusedWhy::Number => b" number\n",
        RefusedWhy::Tag => b" tag\n",
    }
}

fn dropped_word(why: DroppedWhy) -> &'static [u8]
    ensures word { result.now ≡ dropped_word why }
    ensures short { length result.now ≤ 6 }
{
    match why {
        DroppedWhy::Busy => b" busy\n",
        DroppedWhy::Head => b" head\n",
    }
}

/// The lines `passed N at S len L`, `refused at S WHY` and `dropped at S WHY`.
impl<R: LineRules, M: Mac, const B: usize, const D: usize> LineBox for Checker<R, M, B, D> {
    ghost line_of = { check_line };

    #[inline(always)]
    fn note_line(note: &CheckNote) -> NoteLine {
        match *note {
            CheckNote::Passed { number, start, len } => {
                numbered_line(b"passed ", number, start, len)
            }
            CheckNote::Refused { start, why } => {
                placed_line(b"refused at ", start, refused_word(why))
            }
            CheckNote::Dropped { start, why } => {
                placed_line(b"dropped at ", start, dropped_word(why))
            }
        }
    }

    ghost rising = { λ setup.
        passed-rise (profile_of R.LineRules M.Mac B LIMIT setup) R.rules R.lawful setup.floor };

    ghost causal = { λ value last setup line stands.
        checker-causal (profile_of R.LineRules M.Mac B LIMIT setup) R.rules R.lawful R.headed
        (timely R.LineRules M.Mac B setup stands.wide) };
}
