//! Readers of captures, each of one form, as the program drives them.
ghost use Rattle.std.specs.Prelude.{◌≡◌, ℕ, ◌+◌, ◌<◌, ◌++◌, ◌∷◌, [], List, OnOk, IfOk, IfErr};
ghost use Rattle.std.specs.Option.{option_to_list};
ghost use Rattle.line_stamps.specs.declared.TheConstants.{MAX_BYTES};
ghost use Rattle.line_stamps.specs.declared.seen.Seen.{Seen};
ghost use Rattle.line_capture.specs.Formats.{Format};

use crate::bad_capture::BadCapture;
use capture_pcap::PcapReader;
use capture_text::{RowForm, RowReader, TextReader};
use line_stamps::{CaptureReader, Seen};

/// A reader of captures of one form. Its refusals are returned as `BadCapture`, whatever the form
/// is.
pub trait FormReader: Drop {
    /// The form: which files are captures, and why others are refused.
    ghost format: { Format };

    /// Holds if the reader has taken these bytes of a file, and has returned these items.
    ghost stands: { Self → List ℕ → List Seen → Type 0 };

    /// How many bytes the reader has taken.
    ghost taken: { Self → ℕ };

    /// Returns a reader that has taken nothing yet.
    fn begin() -> Self
        /// The reader has taken no byte and returned no item.
        ensures stands { stands result [] [] }
        /// By the form, no bytes are right so far, with no item.
        ensures begins { format.begins [] [] }
        /// It has taken 0 bytes.
        ensures taken { taken result ≡ 0 };

    /// Takes the next byte of the file, and returns the byte of the line or the event that it ends,
    /// if it ends one.
    fn feed(&mut self, b: u8) -> Result<Option<Seen>, BadCapture>
        /// Fewer than 2^62 bytes were taken before.
        requires { taken self.old < MAX_BYTES }
        /// If the byte isn't refused, the reader has taken it, and has returned one item more if it
        /// returns one.
        ensures stands { (file : List ℕ) (items : List Seen) → stands self.old file items
            → IfOk result (λ seen. stands self.new (file ++ b ∷ [])
            (items ++ option_to_list seen)) }
        /// If the byte isn't refused, the bytes so far are right with these items, and each capture
        /// that begins with them has these items first.
        ensures begins { (file : List ℕ) (items : List Seen) → stands self.old file items
            → IfOk result (λ seen. format.begins (file ++ b ∷ [])
            (items ++ option_to_list seen)) }
        /// If the byte is refused, the form refuses it there, with this cause.
        ensures refused { (file : List ℕ) (items : List Seen) → stands self.old file items
            → IfErr result (λ bad. format.refuses file items b bad) }
        /// A byte that isn't refused is counted.
        ensures taken { OnOk result (taken self.new ≡ taken self.old + 1) };

    /// Takes the end of the file.
    fn finish(self) -> Result<(), BadCapture>
        /// If the end is taken, the bytes are a capture of the form with the items that were
        /// returned.
        ensures right { (file : List ℕ) (items : List Seen) → stands self file items
            → OnOk result (format.is file items) }
        /// If the end is refused, the form says of these bytes what they lack.
        ensures refused { (file : List ℕ) (items : List Seen) → stands self file items
            → IfErr result (λ bad. format.lacks file items bad) };

    /// Whether an error of a byte follows the byte, and isn't in its place.
    fn errors_follow() -> bool
        ensures { result ≡ format.error_follows };
}

impl FormReader for TextReader {
    ghost use Rattle.line_capture.specs.Formats.{text_format};
    ghost use Rattle.capture_text.specs.Reader.{HasSeen, text_bytes_taken};

    ghost format = { text_format };

    ghost stands = { HasSeen };

    ghost taken = { text_bytes_taken };

    fn begin() -> Self {
        <TextReader as CaptureReader>::start()
    }

    #[inline]
    fn feed(&mut self, b: u8) -> Result<Option<Seen>, BadCapture> {
        match <TextReader as CaptureReader>::feed(self, b) {
            Ok(seen) => Ok(seen),
            Err(bad) => Err(BadCapture::Text(bad)),
        }
    }

    fn finish(self) -> Result<(), BadCapture> {
        match <TextReader as CaptureReader>::finish(self) {
            Ok(()) => Ok(()),
            Err(bad) => Err(BadCapture::Text(bad)),
        }
    }

    fn errors_follow() -> bool {
        false
    }
}

impl FormReader for PcapReader {
    ghost use Rattle.line_capture.specs.Formats.{pcap_format};
    ghost use Rattle.capture_pcap.specs.Reader.{PcapReaderStandsFor, pcap_bytes_taken};

    ghost format = { pcap_format };

    ghost stands = { PcapReaderStandsFor };

    ghost taken = { pcap_bytes_taken };

    fn begin() -> Self {
        <PcapReader as CaptureReader>::start()
    }

    #[inline]
    fn feed(&mut self, b: u8) -> Result<Option<Seen>, BadCapture> {
        match <PcapReader as CaptureReader>::feed(self, b) {
            Ok(seen) => Ok(seen),
            Err(bad) => Err(BadCapture::Pcap(bad)),
        }
    }

    fn finish(self) -> Result<(), BadCapture> {
        match <PcapReader as CaptureReader>::finish(self) {
            Ok(()) => Ok(()),
            Err(bad) => Err(BadCapture::Pcap(bad)),
        }
    }

    fn errors_follow() -> bool {
        false
    }
}

impl<F: RowForm> FormReader for RowReader<F> {
    ghost use Rattle.line_capture.specs.Formats.{rows_format};
    ghost use Rattle.capture_text.specs.RowReader.{RowReaderStandsFor, row_bytes_taken};

    ghost format = { rows_format F.row_at F.name_of F.error_follows };

    ghost stands = { RowReaderStandsFor F.row_at F.name_of };

    ghost taken = { row_bytes_taken };

    fn begin() -> Self {
        <RowReader<F> as CaptureReader>::start()
    }

    #[inline]
    fn feed(&mut self, b: u8) -> Result<Option<Seen>, BadCapture> {
        match <RowReader<F> as CaptureReader>::feed(self, b) {
            Ok(seen) => Ok(seen),
            Err(bad) => Err(BadCapture::Rows(bad)),
        }
    }

    fn finish(self) -> Result<(), BadCapture> {
        match <RowReader<F> as CaptureReader>::finish(self) {
            Ok(()) => Ok(()),
            Err(bad) => Err(BadCapture::Rows(bad)),
        }
    }

    fn errors_follow() -> bool {
        F::errors_follow()
    }
}
