//! The receiver as a box whose bursts are counted.
ghost use Rattle.std.specs.Prelude.{◌≡◌};
ghost use Rattle.trial_session.specs.Boxes.{trial_checking, fate_checked};
ghost use Rattle.trial_session.specs.FateLaws.{checks-fates};

use crate::counting_box::CountingBox;
use crate::fate::Fate;
use check_receiver::{CheckNote, Checker};
use line_rules::LineRules;
use link_format::Mac;

impl<R: LineRules, M: Mac, const B: usize, const D: usize> CountingBox for Checker<R, M, B, D> {
    ghost fate_of = { fate_checked };

    ghost counting = { trial_checking R.LineRules M.Mac B };

    fn fate(note: CheckNote) -> Fate {
        match note {
            CheckNote::Passed { .. } => Fate::Through,
            CheckNote::Refused { .. } => Fate::Refused,
            CheckNote::Dropped { .. } => Fate::Dropped,
        }
    }

    ghost counts = { checks-fates R.LineRules M.Mac B };
}
