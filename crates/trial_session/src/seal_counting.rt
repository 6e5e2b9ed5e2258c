//! The transmitter as a box whose bursts are counted.
ghost use Rattle.std.specs.Prelude.{◌≡◌};
ghost use Rattle.trial_session.specs.Boxes.{trial_sealing, fate_sealed};
ghost use Rattle.trial_session.specs.FateLaws.{seals-fates};

use crate::counting_box::CountingBox;
use crate::fate::Fate;
use line_rules::LineRules;
use link_format::Mac;
use seal_transmitter::{SealNote, Sealer};

impl<R: LineRules, M: Mac, const B: usize> CountingBox for Sealer<R, M, B> {
    ghost fate_of = { fate_sealed };

    ghost counting = { trial_sealing R.LineRules M.Mac B };

    fn fate(note: SealNote) -> Fate {
        match note {
            SealNote::Sealed { .. } => Fate::Through,
            SealNote::Unsealed { .. } => Fate::Refused,
        }
    }

    ghost counts = { seals-fates R.LineRules M.Mac B };
}
