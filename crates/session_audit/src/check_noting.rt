//! The receiver as a box whose notes tell which frames pass.
ghost use Rattle.std.specs.Prelude.{◌≡◌};
ghost use Rattle.link_format.specs.Profile.{profile_of};
ghost use Rattle.sequence_journal.specs.declared.numbers.TheConstants.{LIMIT};
ghost use Rattle.link_box.proofs.CheckCausality.{checker-causal};
ghost use Rattle.check_receiver.proofs.Silences.{timely};
ghost use Rattle.session_audit.specs.NotesTold.{passed_told};
ghost use Rattle.session_audit.specs.NotingLaws.{checker-has};

use crate::noting_box::NotingBox;
use check_receiver::{CheckNote, Checker};
use line_rules::LineRules;
use link_format::Mac;
use session_lists::Numbered;

/// Tells the frames that the receiver passes.
impl<R: LineRules, M: Mac, const B: usize, const D: usize> NotingBox<R> for Checker<R, M, B, D> {
    ghost told = { passed_told };

    fn numbered(note: CheckNote) -> Option<Numbered> {
        match note {
            CheckNote::Passed { number, start, .. } => Some(Numbered { number, start }),
            CheckNote::Refused { .. } | CheckNote::Dropped { .. } => None,
        }
    }

    fn live(&self) -> &R {
        self.live_bytes()
    }

    ghost causal = { λ value last setup line stands.
        checker-causal (profile_of R.LineRules M.Mac B LIMIT setup) R.rules R.lawful R.headed
        (timely R.LineRules M.Mac B setup stands.wide) };

    ghost has_frames = { λ setup.
        checker-has (profile_of R.LineRules M.Mac B LIMIT setup) R.rules };
}
