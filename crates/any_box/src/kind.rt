//! Which of the eight boxes a box is, and which of the four spacers a spacer is.
ghost use Rattle.std.specs.Prelude.{◌≡◌};

use command_ends::{Profile, Proto, link_of};
use link_format::Dir;
use sequence_journal::LinkId;

/// Which end of a link a box is.
#[derive(Clone, Copy, Debug, PartialEq, Eq)]
pub enum Part {
    /// The transmitter, which seals frames.
    Sealer,
    /// The receiver, which checks frames.
    Checker,
}

/// Which of the eight boxes a box is.
#[derive(Clone, Copy, Debug, PartialEq, Eq)]
pub struct Kind {
    /// Whether the box is the transmitter or the receiver.
    pub part: Part,
    /// The protocol of the frames.
    pub proto: Proto,
    /// The profile of the link.
    pub profile: Profile,
}

impl Kind {
    ghost use Rattle.sequence_journal.specs.Links.{HasDirection};
    ghost use Rattle.any_box.specs.Kinds.{link_for};

    /// Returns the link of a box of this kind in a direction, as its journal names it.
    pub fn link(self, dir: Dir) -> LinkId
        /// It is the link by which the journal of such a box names it.
        ensures link { result ≡ link_for self dir }
        /// Its direction is 0 or 1.
        ensures known { HasDirection result }
    {
        link_of(self.proto, self.profile, dir)
    }
}

/// Which of the four spacers a spacer is.
#[derive(Clone, Copy, Debug, PartialEq, Eq)]
pub struct SpacerKind {
    /// The protocol that it reads.
    pub proto: Proto,
    /// The profile of the link for which it spaces frames. It leaves as many silent ticks between
    /// two frames as a transmitter of this profile needs, or more: 21, or 27 for the longer tags.
    pub profile: Profile,
}
