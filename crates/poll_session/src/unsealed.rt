//! Counts the frames that were read and weren't sealed.
ghost use Rattle.std.specs.Prelude.{◌≡◌, ◌≤◌, List, drop};
ghost use Rattle.device_model.specs.Frames.{FrameRead};
ghost use Rattle.link_format.specs.NumberedFrame.{NumberedFrame};
ghost use Rattle.receiver_laws.specs.Headline.{bytes_read, bytes_sealed};
ghost use Rattle.session_lists.specs.FrameBox.{kept_frames};
ghost use Rattle.session_lists.specs.FrameList.{Holds, ListIsWhole, list_len};
ghost use Rattle.session_lists.specs.ReplayLists.{kept_reads};
ghost use Rattle.poll_session.specs.Unsealed.{behind_frame, is_missing, still_unread};
ghost use Rattle.poll_session.specs.Unsealed.{unsealed_reads};

use session_lists::{FrameList, Numbered};

/// From which place on the sealed frames may still be read, and 1 if the frame that was looked for
/// isn't among them.
#[derive(Clone, Copy)]
struct LookedUp {
    next: usize,
    missing: u64,
}

// Looks for a frame with these bytes among the sealed ones from a place on.
fn look_up(sealed: &FrameList<Numbered>, from: usize, bytes: &[u8]) -> LookedUp
    requires whole { ListIsWhole sealed.now }
    ensures few { result.missing ≤ 1 }
    ensures missing { (frames : List NumberedFrame) → Holds sealed.now (kept_frames frames)
        → result.missing ≡ is_missing (behind_frame bytes.now (drop from (bytes_sealed frames))) }
    ensures next { (frames : List NumberedFrame) → Holds sealed.now (kept_frames frames)
        → drop result.next (bytes_sealed frames)
        ≡ still_unread (behind_frame bytes.now (drop from (bytes_sealed frames)))
        (drop from (bytes_sealed frames)) }
{
    let mut at = from;
    while at < sealed.len() {
        if sealed.bytes(at) == bytes {
            return LookedUp {
                next: at + 1,
                missing: 0,
            };
        }
        at += 1;
    }
    LookedUp {
        next: from,
        missing: 1,
    }
}

/// Returns how many of the frames that were read weren't sealed.
pub fn count_unsealed(sealed: &FrameList<Numbered>, read: &FrameList<u64>) -> u64
    requires sealed_whole { ListIsWhole sealed.now }
    requires read_whole { ListIsWhole read.now }
    ensures few { result ≤ list_len read.now }
    ensures count { (frames : List NumberedFrame) (reads : List FrameRead)
        → Holds sealed.now (kept_frames frames) → Holds read.now (kept_reads reads)
        → result ≡ unsealed_reads (bytes_sealed frames) (bytes_read reads) }
{
    let mut count = 0;
    let mut next = 0;
    for at in 0..read.len() {
        let found = look_up(sealed, next, read.bytes(at));
        count += found.missing;
        next = found.next;
    }
    count
}
