//! A session that has ended, as its two boxes were set up.
ghost use Rattle.std.specs.Prelude.{◌≡◌};

use command_ends::{Profile, Proto};
use link_format::Dir;

/// When the frames that have passed may be read on the line of the device that receives.
#[derive(Clone, Copy, Debug, PartialEq, Eq)]
pub struct Tolerance {
    /// How many ticks later than it should a frame must start at least.
    pub least: u32,
    /// How many ticks later than it should a frame may start at most.
    pub most: u32,
    /// Whether this line was recorded behind a spacer, so that a frame should start when the spacer
    /// of the protocol and the profile sends it.
    pub spaced: bool,
}

impl Tolerance {
    ghost use Rattle.session_audit.specs.Sessions.{exact};

    /// Returns the tolerance of a line behind the receiver in which nothing is late.
    pub fn exact() -> Tolerance
        /// No frame may start later than the receiver's delay says, and there is no spacer.
        ensures { result ≡ exact }
    {
        Tolerance {
            least: 0,
            most: 0,
            spaced: false,
        }
    }
}

/// A session that has ended, as its two boxes were set up, and how its third line is judged.
#[derive(Clone, Copy, Debug)]
pub struct Session<'a> {
    /// The protocol of the line.
    pub proto: Proto,
    /// The profile of the link.
    pub profile: Profile,
    /// The direction of the line.
    pub dir: Dir,
    /// The key of both boxes.
    pub key: &'a [u8],
    /// The last number that the transmitter had used before the session.
    pub sent_floor: u64,
    /// The last number that the receiver had passed before the session.
    pub got_floor: u64,
    /// When the frames that have passed may be read.
    pub tolerance: Tolerance,
}
