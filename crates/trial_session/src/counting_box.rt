//! What a session asks of a box: what happened to each burst.
ghost use Rattle.std.specs.Prelude.{◌≡◌};
ghost use Rattle.trial_session.specs.declared.fate.Fate.{Fate};
ghost use Rattle.trial_session.specs.Counting.{Counting};
ghost use Rattle.trial_session.specs.Fates.{CountsFates};

use crate::fate::Fate;
use link_box::LinkBox;

/// A box of a link whose notes say what happened to each burst. A session sets it up with a key of
/// sixteen bytes 0, the direction `ab` and a new journal.
pub trait CountingBox: LinkBox {
    /// The fate of the burst that a note is about.
    ghost fate_of: { Self.Note → Fate };

    /// What the box makes of a line: the other line, and how many bursts have each fate.
    ghost counting: { Counting };

    /// Returns the fate of the burst that a note is about.
    fn fate(note: Self::Note) -> Fate
        ensures { result ≡ fate_of note };

    /// The other line is that of the box's walk, and for each fate as many bursts are counted as
    /// there are notes of it.
    ghost counts: { CountsFates Self.walking fate_of counting };
}
