//! The two ways of a line at one end of a link, and the bytes of a stream that are of each.
ghost use Rattle.std.specs.Prelude.{◌≡◌, ◌≢◌, ℕ, List, IfOk, OnErr};
ghost use Rattle.live_line.specs.WayText.{letter_of};

/// A way of a line at one end of a link.
#[derive(Clone, Copy, Debug, PartialEq, Eq)]
pub enum Way {
    /// From the device to the link: `>`.
    Outgoing,
    /// From the link to the device: `<`.
    Incoming,
}

impl Way {
    /// Returns the letter with which the lines of a way begin.
    pub fn letter(self) -> u8
        ensures { result ≡ letter_of self }
    {
        match self {
            Way::Outgoing => b'>',
            Way::Incoming => b'<',
        }
    }
}

/// A line begins with neither letter.
#[derive(Clone, Copy, Debug, PartialEq, Eq)]
pub struct BadWay;

// Returns the way whose lines begin with this letter.
fn way_of(letter: u8) -> Result<Way, BadWay>
    ensures ok { IfOk result (λ way. letter ≡ letter_of way) }
    ensures bad { OnErr result ((way : Way) → letter ≢ letter_of way) }
{
    match letter {
        b'>' => Ok(Way::Outgoing),
        b'<' => Ok(Way::Incoming),
        _ => Err(BadWay),
    }
}

/// Parts a stream into its ways, and counts its lines.
#[derive(Clone, Copy, Debug, PartialEq, Eq)]
pub struct Ways {
    // the way of the line that hasn't ended, if it has begun
    within: Option<Way>,
    // the line of the next byte, counted from 1
    line: u32,
}

impl Ways {
    ghost use Rattle.std.specs.Prelude.{[]};
    ghost use Rattle.yasir_ticks.specs.TickText.{line_after};
    ghost use Rattle.line_commands.specs.Counted.{capped};
    ghost use Rattle.live_line.specs.WayText.{HasParted, PartsByte, RefusesLine};

    /// Returns a reader of a stream of which nothing has come.
    pub fn new() -> Ways
        ensures { HasParted result [] }
    {
        Ways {
            within: None,
            line: 1,
        }
    }

    /// Returns the line of the stream's next byte, counted from 1. The count stays at its greatest
    /// value.
    pub fn line(&self) -> u32
        /// It is the number of lines that have ended, and one more.
        ensures { (stream : List ℕ) → HasParted self.now stream
            → result ≡ capped (line_after stream) }
    {
        self.line
    }

    /// Reads the next byte of the stream. Returns the way of whose text it is, or `None` if it is
    /// the letter of a line.
    pub fn next(&mut self, byte: u8) -> Result<Option<Way>, BadWay>
        /// The byte is added to the text of the way that is returned, and to no other text. If none
        /// is returned, a line begins with it, and it is the letter of a way.
        ensures parts { IfOk result (λ of. (stream : List ℕ) → HasParted self.old stream
            → PartsByte self.new stream byte of) }
        /// A line begins with the byte, and it is the letter of no way.
        ensures refused { OnErr result ((stream : List ℕ) → HasParted self.old stream
            → RefusesLine stream byte) }
        /// Then the reader is as it was.
        ensures same { OnErr result (self.new ≡ self.old) }
    {
        if let Some(way) = self.within {
            if byte == b'\n' {
                self.within = None;
                self.line = self.line.saturating_add(1);
            }
            return Ok(Some(way));
        }
        match way_of(byte) {
            Ok(way) => {
                self.within = Some(way);
                Ok(None)
            }
            Err(bad) => Err(bad),
        }
    }
}
