//! Where the reader of tick text is in a line, and what the line represents so far.
ghost use Rattle.std.specs.Prelude.{◌≡◌, [], true};

use crate::line_room::LineRoom;
use crate::{Run, TickFault};

/// What a line represents if it ends where its reader is.
#[derive(Clone, Copy, Debug, PartialEq, Eq)]
pub enum Content {
    /// Nothing: the line is empty or a comment.
    NoTick,
    /// The bytes that the reader keeps.
    KeptBytes,
    /// That many silent ticks.
    SilentTicks(u32),
    /// A mark.
    OneMark,
}

impl Content {
    ghost use Rattle.yasir_ticks.specs.Ticks.{items_of_run};
    ghost use Rattle.yasir_ticks.specs.Place.{has_ticks};
    ghost use Rattle.yasir_ticks.specs.Reader.{items_of_content};

    /// Returns the run of a line with this content. `bytes` are those of a `+` line.
    pub(crate) fn run(self, bytes: &LineRoom) -> Run
        requires { has_ticks self bytes.now.items ≡ true }
        ensures items { items_of_run result ≡ items_of_content self bytes.now.items }
        ensures nothing { items_of_run result ≡ [] → result ≡ Run.Nothing }
    {
        match self {
            Content::NoTick => Run::Nothing,
            Content::KeptBytes => Run::Bytes(bytes.line()),
            Content::SilentTicks(n) => Run::Silence(n),
            Content::OneMark => Run::Mark,
        }
    }
}

/// Where in a line of tick text its reader is.
#[derive(Clone, Copy, Debug, PartialEq, Eq)]
pub enum Place {
    /// Before its first byte.
    Start,
    /// In a comment, after `#` and that many bytes.
    Comment(u8),
    /// After `+` and whole pairs of digits.
    Pairs,
    /// After `+`, whole pairs of digits and one more digit, of this value.
    HalfPair(u8),
    /// Right after `-`.
    Minus,
    /// After `-` and the digits of this number.
    Number(u32),
    /// Right after `%`.
    Percent,
    /// After the CR that follows this content.
    Returned(Content),
    /// After a refusal.
    Refused(TickFault),
}
