//! Looks up frames that are numbered one after the other, each at the place of its number.
ghost use Rattle.std.specs.Prelude.{◌≡◌, List};
ghost use Rattle.link_format.specs.NumberedFrame.{NumberedFrame};
ghost use Rattle.session_lists.specs.FrameBox.{kept_frames};
ghost use Rattle.session_lists.specs.FrameList.{Holds, ListIsWhole};
ghost use Rattle.session_lists.specs.Places.{stands_at_its_number};

use crate::frame_box::Numbered;
use crate::frame_list::FrameList;

/// Whether the frame at the place of this number has these bytes, among frames that are numbered
/// one after the other from `floor + 1` on. False if there is no frame at that place. No other
/// frame is looked at.
pub fn is_at_its_number(frames: &FrameList<Numbered>, floor: u64, number: u64, bytes: &[u8]) -> bool
    /// No byte of a frame of the list is missing.
    requires { ListIsWhole frames.now }
    /// It is whether the frame at the place of this number, among frames numbered from `floor + 1`
    /// on, has these bytes.
    ensures { (listed : List NumberedFrame) (f : NumberedFrame)
        → Holds frames.now (kept_frames listed) → f.number ≡ number → f.frame ≡ bytes.now
        → result ≡ stands_at_its_number floor listed f }
{
    if number <= floor {
        return false;
    }
    let place = (number - floor - 1) as usize;
    if place >= frames.len() {
        return false;
    }
    frames.bytes(place) == bytes
}
