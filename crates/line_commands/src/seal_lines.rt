//! The transmitter's notes as lines of text.
ghost use Rattle.std.specs.Prelude.{◌≡◌, ◌≤◌, length};
ghost use Rattle.link_format.specs.Profile.{profile_of};
ghost use Rattle.sequence_journal.specs.declared.numbers.TheConstants.{LIMIT};
ghost use Rattle.link_box.proofs.SealCausality.{sealer-causal};
ghost use Rattle.line_commands.specs.SealLaws.{sealed-rise};
ghost use Rattle.line_commands.specs.SealLines.{unsealed_word, seal_line};

use crate::line_box::LineBox;
use crate::note_lines::{NoteLine, numbered_line, placed_line};
use line_rules::LineRules;
use link_format::Mac;
use seal_transmitter::{SealNote, Sealer, UnsealedWhy};

fn unsealed_word(why: UnsealedWhy) -> &'static [u8]
    ensures word { result.now ≡ unsealed_word why }
    ensures short { length result.now ≤ 7 }
{
    match why {
        UnsealedWhy::Early => b" early\n",
        UnsealedWhy::Form => b" form\n",
        UnsealedWhy::Spent => b" spent\n",
    }
}

/// The lines `sealed N at S len L` and `unsealed at S WHY`.
impl<R: LineRules, M: Mac, const B: usize> LineBox for Sealer<R, M, B> {
    ghost line_of = { seal_line };

    #[inline(always)]
    fn note_line(note: &SealNote) -> NoteLine {
        match *note {
            SealNote::Sealed { number, start, len } => {
                numbered_line(b"sealed ", number, start, len)
            }
            SealNote::Unsealed { start, why } => {
                placed_line(b"unsealed at ", start, unsealed_word(why))
            }
        }
    }

    ghost rising = { λ setup.
        sealed-rise (profile_of R.LineRules M.Mac B LIMIT setup) R.rules R.lawful setup.floor };

    ghost causal = { λ value last setup line stands.
        sealer-causal (profile_of R.LineRules M.Mac B LIMIT setup) R.rules R.lawful };
}
