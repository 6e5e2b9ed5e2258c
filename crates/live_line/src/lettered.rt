//! Lines of the text of a way, each with the letter of the way before it.
ghost use Rattle.std.specs.Prelude.{◌≡◌, ℕ, ◌≤◌, List, [], ◌++◌, length};
ghost use Rattle.live_line.specs.WayText.{AreEnded, HasLettered, letter_of};
ghost use Rattle.live_line.specs.declared.ways.Way.{Way};

use crate::Way;
use arrayvec::ArrayVec;

/// The room for lettered lines.
pub type WayText = ArrayVec<u8, 4096>;

/// Puts the letter of a way before each line of a text, which comes in pieces.
#[derive(Clone, Copy, Debug, PartialEq, Eq)]
pub struct Lettering {
    way: Way,
    // whether a line begins with the next byte
    begins: bool,
}

impl Lettering {
    /// Returns a lettering of the lines of a way, of which none has come. Its bytes are to be put
    /// after a stream whose lines have ended.
    pub fn new(way: Way) -> Lettering
        ensures { (stream : List ℕ) → AreEnded stream → HasLettered result way stream [] [] }
    {
        Lettering { way, begins: true }
    }

    /// Returns the next bytes of the text, with the letter of the way before each line that begins
    /// in them.
    pub fn put(&mut self, text: &[u8]) -> WayText
        /// There are at most 2,048 bytes.
        requires few { length text.now ≤ 2048 }
        /// With the bytes that are returned, the stream has also got this text for its way, and
        /// nothing for the other way.
        ensures { (way : Way) (stream before bytes : List ℕ)
            → HasLettered self.old way stream before bytes
            → HasLettered self.new way stream (before ++ text.now) (bytes ++ result.items) }
    {
        let mut begins = self.begins;
        let mut lettered = WayText::new();
        for byte in text {
            if begins {
                lettered.push(self.way.letter());
            }
            lettered.push(*byte);
            begins = *byte == b'\n';
        }
        self.begins = begins;
        lettered
    }
}
