//! A reader of text captures, byte by byte.
ghost use Rattle.std.specs.Prelude.{◌≡◌, ℕ, ◌+◌, ◌-◌, ◌<◌, ◌≤◌, ◌^◌, ◌++◌, ◌∷◌, [], List, true};
ghost use Rattle.std.specs.Prelude.{length, Some, None, OnOk, IfOk, IfErr, Err, option_map};
ghost use Rattle.line_stamps.specs.declared.seen.Seen.TheVariants.{Byte as SeenByte};
ghost use Rattle.std.specs.Option.{option_to_list};
ghost use Rattle.capture_text.specs.TextStep.{is_sound_text};
ghost use Rattle.line_stamps.specs.declared.TheConstants.{MAX_BYTES};

use crate::place::{Place, end_fault, step};
use crate::{BadText, MAX_BYTES, TextFault};
use line_stamps::{CaptureByte, CaptureReader, Seen};

/// A reader of a text capture, byte by byte, in constant memory. It returns each byte of the
/// capture as soon as its second digit has come.
#[derive(Drop)]
pub struct TextReader {
    place: Place,
    refused: Option<BadText>,
    // how many bytes it took, and how many of them are LFs
    taken: u64,
    ended: u64,
    ghost sound: { is_sound_text place ≡ true },
    ghost fewer: { ended ≤ taken },
    ghost bounded: { taken ≤ MAX_BYTES },
}

/// Returns a byte of the capture as a `Seen`.
#[inline]
fn seen(byte: Option<CaptureByte>) -> Option<Seen>
    ensures { result ≡ option_map SeenByte byte }
{
    match byte {
        Some(byte) => Some(Seen::Byte(byte)),
        None => None,
    }
}

impl TextReader {
    ghost use Rattle.line_stamps.specs.declared.capture.CaptureByte.{CaptureByte};
    ghost use Rattle.line_stamps.specs.Walks.{WalkBegins, WalkBeginsNone};
    ghost use Rattle.capture_text.specs.CaptureText.{IsTextCapture, IsRowCause, lines_ended};
    ghost use Rattle.capture_text.specs.Reader.{TextReaderStandsFor, TextReaderHasRefused, text_bytes_taken, IsPlaceOf};
    ghost use Rattle.capture_text.specs.declared.fault.BadText.{BadText};

    /// Returns a reader that has taken nothing of its text.
    pub fn new() -> TextReader
        /// It has taken no byte and returned none.
        ensures stands { TextReaderStandsFor result [] [] }
        /// Some text capture begins so, and no byte comes first in each.
        ensures begins { WalkBegins IsTextCapture [] [] }
        /// It has taken 0 bytes.
        ensures taken { text_bytes_taken result ≡ 0 }
    {
        TextReader {
            place: Place::Start,
            refused: None,
            taken: 0,
            ended: 0,
        }
    }

    /// Returns how many bytes the reader took.
    pub fn taken(&self) -> u64
        ensures { result ≡ text_bytes_taken self.now }
    {
        self.taken
    }

    /// Refuses the text for good, at the place that the reader has reached.
    fn refuse(&mut self, why: TextFault) -> BadText
        requires { text_bytes_taken self.old < MAX_BYTES }
        ensures place { (text : List ℕ) (items : List CaptureByte) → TextReaderStandsFor self.old text items
            → IsPlaceOf result text }
        ensures why { result.why ≡ why }
        ensures remembered { TextReaderHasRefused self.new result }
    {
        let bad = BadText {
            offset: self.taken,
            line: self.ended + 1,
            why,
        };
        self.refused = Some(bad);
        bad
    }

    /// Takes the next byte of the text, and returns the byte of the capture that it completes, if
    /// any. A refusal is for good.
    #[inline]
    pub fn feed(&mut self, b: u8) -> Result<Option<CaptureByte>, BadText>
        /// Fewer than 2^62 bytes were taken before.
        requires { text_bytes_taken self.old < MAX_BYTES }
        /// The text so far represents the bytes that were returned.
        ensures stands { (text : List ℕ) (items : List CaptureByte) → TextReaderStandsFor self.old text items
            → IfOk result (λ byte. TextReaderStandsFor self.new (text ++ b ∷ [])
            (items ++ option_to_list byte)) }
        /// Some text capture begins with the text so far, and each that does has these bytes first.
        ensures begins { (text : List ℕ) (items : List CaptureByte) → TextReaderStandsFor self.old text items
            → IfOk result (λ byte. WalkBegins IsTextCapture (text ++ b ∷ [])
            (items ++ option_to_list byte)) }
        /// It refuses the first byte with which no text capture goes on, and no other, and place
        /// and cause are right.
        ensures refused { (text : List ℕ) (items : List CaptureByte)
            → TextReaderStandsFor self.old text items
            → IfErr result (λ bad. WalkBegins IsTextCapture text items
            × WalkBeginsNone IsTextCapture (text ++ b ∷ []) × IsPlaceOf bad text
            × IsRowCause text (Some b) bad.why) }
        /// A byte that isn't refused is counted.
        ensures taken { OnOk result (text_bytes_taken self.new ≡ text_bytes_taken self.old + 1) }
        /// The reader remembers a refusal.
        ensures remembered { IfErr result (λ bad. TextReaderHasRefused self.new bad) }
        /// After a refusal each call returns it, and changes nothing.
        ensures for_good { (bad : BadText) → TextReaderHasRefused self.old bad
            → (result ≡ Err bad) × (self.new ≡ self.old) }
    {
        if let Some(bad) = self.refused {
            return Err(bad);
        }
        match step(self.place, b) {
            Ok((place, byte)) => {
                self.place = place;
                self.taken += 1;
                if b == b'\n' {
                    self.ended += 1;
                }
                Ok(byte)
            }
            Err(why) => Err(self.refuse(why)),
        }
    }

    /// Takes the end of the text.
    pub fn finish(self) -> Result<(), BadText>
        /// If the end is taken, the text is a capture with the bytes that were returned.
        ensures right { (text : List ℕ) (items : List CaptureByte) → TextReaderStandsFor self text items
            → OnOk result (IsTextCapture text items) }
        /// If the end is refused, the text is no capture, and place and cause are right.
        ensures refused { (text : List ℕ) (items : List CaptureByte) → TextReaderStandsFor self text items
            → IfErr result (λ bad. ((all : List CaptureByte) → IsTextCapture text all → ⊥)
            × IsPlaceOf bad text × IsRowCause text None bad.why) }
        /// After a refusal it returns that refusal.
        ensures again { (bad : BadText) → TextReaderHasRefused self bad → result ≡ Err bad }
    {
        if let Some(bad) = self.refused {
            return Err(bad);
        }
        match end_fault(self.place) {
            None => Ok(()),
            Some(why) => Err(BadText {
                offset: self.taken,
                line: self.ended + 1,
                why,
            }),
        }
    }
}

impl CaptureReader for TextReader {
    ghost use Rattle.capture_text.specs.Reader.{IsSeenText, HasSeen, TextReaderRefuses, TextReaderHasRefused};
    ghost use Rattle.capture_text.specs.Reader.{text_bytes_taken};
    ghost use Rattle.line_stamps.specs.Walks.{WalkBegins};

    type Refusal = BadText;

    ghost format = { IsSeenText };

    ghost begins = { WalkBegins IsSeenText };

    ghost stands = { HasSeen };

    ghost refuses = { TextReaderRefuses };

    ghost has_refused = { TextReaderHasRefused };

    ghost bytes_taken = { text_bytes_taken };

    fn start() -> TextReader {
        TextReader::new()
    }

    fn taken(&self) -> u64 {
        self.taken
    }

    #[inline]
    fn feed(&mut self, b: u8) -> Result<Option<Seen>, BadText> {
        match TextReader::feed(self, b) {
            Ok(byte) => Ok(seen(byte)),
            Err(bad) => Err(bad),
        }
    }

    fn finish(self) -> Result<(), BadText> {
        TextReader::finish(self)
    }
}
