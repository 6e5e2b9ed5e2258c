//! The verdict on lists of frames.
ghost use Rattle.std.specs.Prelude.{◌≡◌, List, length};
ghost use Rattle.device_model.specs.Frames.{FrameRead};
ghost use Rattle.link_format.specs.NumberedFrame.{NumberedFrame, AreNumberedFrom};
ghost use Rattle.receiver_laws.specs.Accounted.{forged};
ghost use Rattle.session_lists.specs.Comparison.{difference_of};
ghost use Rattle.session_lists.specs.FrameBox.{kept_frames};
ghost use Rattle.session_lists.specs.FrameList.{Holds, ListIsWhole};
ghost use Rattle.session_lists.specs.declared.lateness.Lateness.{Lateness};
ghost use Rattle.session_audit.specs.Judging.{first_head, AreShort};
ghost use Rattle.session_audit.specs.Verdicts.{counts_of, finding_on, verdict_on};

use crate::{Counts, Finding, Verdict};
use session_lists::{Difference, FrameList, Numbered, is_at_its_number};

// Returns number and start of the first frame that passed and wasn't sealed with its number. The
// sealed frames must be numbered one after the other, from `floor + 1` on.
fn first_forged(
    floor: u64,
    sealed: &FrameList<Numbered>,
    passed: &FrameList<Numbered>,
) -> Option<Numbered>
    requires sealed { ListIsWhole sealed.now }
    requires passed { ListIsWhole passed.now }
    ensures { (sealed_ones passed_ones : List NumberedFrame)
        → Holds sealed.now (kept_frames sealed_ones) → Holds passed.now (kept_frames passed_ones)
        → AreNumberedFrom floor sealed_ones
        → result ≡ first_head (forged sealed_ones passed_ones) }
{
    for index in 0..passed.len() {
        let head = passed.head(index);
        if !is_at_its_number(sealed, floor, head.number, passed.bytes(index)) {
            return Some(head);
        }
    }
    None
}

// Returns what is found of the frames that were sealed and those that passed. How many there are of
// each is given as `counts`, and what was read as its first difference from what should be.
fn find(
    floor: u64,
    sealed: &FrameList<Numbered>,
    passed: &FrameList<Numbered>,
    counts: Counts,
    difference: Option<Difference>,
) -> Finding
    requires sealed { ListIsWhole sealed.now }
    requires passed { ListIsWhole passed.now }
    ensures { (late : Lateness) (sealed_ones passed_ones : List NumberedFrame)
        (expected reads : List FrameRead)
        → Holds sealed.now (kept_frames sealed_ones) → Holds passed.now (kept_frames passed_ones)
        → counts ≡ counts_of sealed_ones passed_ones reads
        → difference ≡ difference_of late expected reads
        → AreNumberedFrom floor sealed_ones
        → result ≡ finding_on late sealed_ones passed_ones expected reads }
{
    if counts.sealed == 0 && counts.passed == 0 && counts.read == 0 {
        return Finding::Empty;
    }
    if let Some(head) = first_forged(floor, sealed, passed) {
        return Finding::Forged {
            number: head.number,
            start: head.start,
        };
    }
    match difference {
        Some(difference) => Finding::Differs(difference),
        None => Finding::Clean,
    }
}

/// Returns the verdict on the frames that were sealed and those that passed. What was read is given
/// as the count of its frames and its first difference from what should be. The sealed frames must be
/// numbered one after the other, from `floor + 1` on.
pub(crate) fn judge(
    floor: u64,
    sealed: &FrameList<Numbered>,
    passed: &FrameList<Numbered>,
    read: u64,
    difference: Option<Difference>,
) -> Verdict
    requires sealed { ListIsWhole sealed.now }
    requires passed { ListIsWhole passed.now }
    requires short { AreShort sealed.now passed.now read }
    ensures { (late : Lateness) (sealed_ones passed_ones : List NumberedFrame)
        (expected reads : List FrameRead)
        → Holds sealed.now (kept_frames sealed_ones) → Holds passed.now (kept_frames passed_ones)
        → read ≡ length reads → difference ≡ difference_of late expected reads
        → AreNumberedFrom floor sealed_ones
        → result ≡ verdict_on late sealed_ones passed_ones expected reads }
{
    let counts = Counts {
        sealed: sealed.len() as u32,
        passed: passed.len() as u32,
        read: read as u32,
    };
    Verdict {
        counts,
        finding: find(floor, sealed, passed, counts, difference),
    }
}
