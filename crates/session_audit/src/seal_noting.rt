//! The transmitter as a box whose notes tell which frames are sealed.
ghost use Rattle.std.specs.Prelude.{◌≡◌};
ghost use Rattle.link_format.specs.Profile.{profile_of};
ghost use Rattle.sequence_journal.specs.declared.numbers.TheConstants.{LIMIT};
ghost use Rattle.link_box.proofs.SealCausality.{sealer-causal};
ghost use Rattle.session_audit.specs.NotesTold.{sealed_told};
ghost use Rattle.session_audit.specs.NotingLaws.{sealer-has};

use crate::noting_box::NotingBox;
use line_rules::LineRules;
use link_format::Mac;
use seal_transmitter::{SealNote, Sealer};
use session_lists::Numbered;

/// Tells the frames that the transmitter seals.
impl<R: LineRules, M: Mac, const B: usize> NotingBox<R> for Sealer<R, M, B> {
    ghost told = { sealed_told };

    fn numbered(note: SealNote) -> Option<Numbered> {
        match note {
            SealNote::Sealed { number, start, .. } => Some(Numbered { number, start }),
            SealNote::Unsealed { .. } => None,
        }
    }

    fn live(&self) -> &R {
        self.live_bytes()
    }

    ghost causal = { λ value last setup line stands.
        sealer-causal (profile_of R.LineRules M.Mac B LIMIT setup) R.rules R.lawful };

    ghost has_frames = { λ setup.
        sealer-has (profile_of R.LineRules M.Mac B LIMIT setup) R.rules };
}
