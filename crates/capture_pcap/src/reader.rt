//! The reader of pcap and pcapng files, byte by byte.
ghost use Rattle.std.specs.Prelude.{◌≡◌, ℕ, ◌+◌, ◌<◌, ◌≤◌, ◌++◌, ◌∷◌, [], List, true, length};
ghost use Rattle.std.specs.Prelude.{Some, None, OnOk, IfOk, IfErr, Err, ◌==◌, false};
ghost use Rattle.std.specs.Option.{option_to_list};
ghost use Rattle.capture_pcap.specs.PcapStep.{is_sound_pcap, takes_bytes};
ghost use Rattle.line_stamps.specs.declared.TheConstants.{MAX_BYTES};

use crate::stage::Stage;
use crate::{BadPcap, MAX_BYTES, PcapFault, Seen};
use arrayvec::ArrayVec;
use line_stamps::CaptureReader;

/// A reader of a capture of link type 250, byte by byte, in constant memory. It returns each byte
/// of the line as it comes, and each event at the end of its record's header.
#[derive(Drop)]
pub struct PcapReader {
    stage: Stage,
    // the bytes of a field that have come so far
    partial: ArrayVec<u8, 4>,
    refused: Option<BadPcap>,
    taken: u64,
    ghost sound: { is_sound_pcap stage ≡ true },
    ghost short: { length partial.items < 4 },
    ghost alone: { takes_bytes stage ≡ true → length partial.items ≡ 0 },
    ghost fewer: { length partial.items ≤ taken },
    ghost bounded: { taken ≤ MAX_BYTES },
}

impl PcapReader {
    ghost use Rattle.line_stamps.specs.Walks.{WalkBegins, WalkBeginsNone};
    ghost use Rattle.line_stamps.specs.Fields.{RefusesField, AreFieldsSoFar, before_field, Spot};
    ghost use Rattle.capture_pcap.specs.Pcap.{IsCapture, IsCause};
    ghost use Rattle.capture_pcap.specs.PcapStep.{step_at, may_end_at};
    ghost use Rattle.capture_pcap.specs.Reader.{PcapReaderStandsFor, PcapReaderHasRefused, pcap_bytes_taken, pcap_spot_of};
    ghost use Rattle.capture_pcap.specs.Reader.{PcapReaderTakes};
    ghost use Rattle.line_stamps.specs.declared.seen.Seen.{Seen};
    ghost use Rattle.capture_pcap.specs.declared.fault.BadPcap.{BadPcap};

    /// Returns a reader that has taken nothing yet.
    pub fn new() -> PcapReader
        /// It has taken no byte and returned no item.
        ensures stands { PcapReaderStandsFor result [] [] }
        /// Some capture begins so, and no item comes first in each.
        ensures begins { WalkBegins IsCapture [] [] }
        /// It has taken 0 bytes.
        ensures taken { pcap_bytes_taken result ≡ 0 }
    {
        PcapReader {
            stage: Stage::Magic,
            partial: ArrayVec::new(),
            refused: None,
            taken: 0,
        }
    }

    /// Returns how many bytes the reader has taken.
    pub fn taken(&self) -> u64
        ensures { result ≡ pcap_bytes_taken self.now }
    {
        self.taken
    }

    /// Takes one byte: at once, or with its field.
    #[inline]
    fn step(&mut self, b: u8) -> Result<Option<Seen>, PcapFault>
        requires { pcap_bytes_taken self.old < MAX_BYTES }
        ensures { PcapReaderTakes self.old b result self.new }
    {
        if self.stage.is_data() {
            let (stage, seen) = self.stage.byte(b)?;
            self.stage = stage;
            self.taken += 1;
            return Ok(seen);
        }
        if self.partial.len() < 3 {
            self.partial.push(b);
            self.taken += 1;
            return Ok(None);
        }
        self.end_field(b)
    }

    /// Takes the last byte of a field.
    fn end_field(&mut self, b: u8) -> Result<Option<Seen>, PcapFault>
        requires taken { pcap_bytes_taken self.old < MAX_BYTES }
        requires field { takes_bytes self.old.stage ≡ false }
        requires three { length self.old.partial.items ≡ 3 }
        ensures { PcapReaderTakes self.old b result self.new }
    {
        let field = [self.partial[0], self.partial[1], self.partial[2], b];
        let (stage, seen) = self.stage.field(&field)?;
        self.stage = stage;
        self.partial.clear();
        self.taken += 1;
        Ok(seen)
    }

    /// Takes the next byte of the file, and returns what is seen with it, if anything: a byte of
    /// the line or an event. A refusal is for good: each later call returns it too.
    #[inline]
    pub fn feed(&mut self, b: u8) -> Result<Option<Seen>, BadPcap>
        /// Fewer than 2^62 bytes were taken before.
        requires { pcap_bytes_taken self.old < MAX_BYTES }
        /// The bytes so far represent the items that were returned.
        ensures stands { (file : List ℕ) (items : List Seen) → PcapReaderStandsFor self.old file items
            → IfOk result (λ seen. PcapReaderStandsFor self.new (file ++ b ∷ [])
            (items ++ option_to_list seen)) }
        /// The bytes up to the last whole field begin a capture, with these items.
        ensures begins { (file : List ℕ) (items : List Seen) → PcapReaderStandsFor self.old file items
            → IfOk result (λ seen. AreFieldsSoFar IsCapture (file ++ b ∷ [])
            (items ++ option_to_list seen)) }
        /// Each capture that begins with the bytes so far has these items first.
        ensures each { (file : List ℕ) (items : List Seen) → PcapReaderStandsFor self.old file items
            → IfOk result (λ seen. (more : List ℕ) (all : List Seen)
            → IsCapture ((file ++ b ∷ []) ++ more) all
            → (others : List Seen) × (all ≡ (items ++ option_to_list seen) ++ others)) }
        /// It refuses only the first field with which no capture begins. The bytes before that
        /// field begin one, with all the items that were returned.
        ensures refused { (file : List ℕ) (items : List Seen) → PcapReaderStandsFor self.old file items
            → IfErr result (λ bad. RefusesField IsCapture IsCause file items b bad.offset bad.why) }
        /// A byte that isn't refused is counted.
        ensures taken { OnOk result (pcap_bytes_taken self.new ≡ pcap_bytes_taken self.old + 1) }
        /// The reader remembers a refusal.
        ensures remembered { IfErr result (λ bad. PcapReaderHasRefused self.new bad) }
        /// After a refusal each call returns it, and changes nothing.
        ensures for_good { (bad : BadPcap) → PcapReaderHasRefused self.old bad
            → (result ≡ Err bad) × (self.new ≡ self.old) }
    {
        if let Some(bad) = self.refused {
            return Err(bad);
        }
        match self.step(b) {
            Ok(seen) => Ok(seen),
            Err(why) => {
                let bad = BadPcap {
                    offset: self.taken - self.partial.len() as u64,
                    why,
                };
                self.refused = Some(bad);
                Err(bad)
            }
        }
    }

    /// Whether the file may end here.
    fn may_end(&self) -> bool
        ensures { result ≡ may_end_at (pcap_spot_of self.now) }
    {
        self.stage.may_end() && self.partial.is_empty()
    }

    /// Takes the end of the file. It refuses it only if the bytes so far aren't a whole capture.
    pub fn finish(self) -> Result<(), BadPcap>
        /// If the end is taken, the bytes are a capture with the items that were returned.
        ensures right { (file : List ℕ) (items : List Seen) → PcapReaderStandsFor self file items
            → OnOk result (IsCapture file items) }
        /// If the end is refused, the bytes are no capture, and the place is their end.
        ensures refused { (file : List ℕ) (items : List Seen) → PcapReaderStandsFor self file items
            → IfErr result (λ bad. ((all : List Seen) → IsCapture file all → ⊥)
            × (bad.offset ≡ length file) × (bad.why ≡ PcapFault.End)) }
        /// After a refusal it returns that refusal.
        ensures again { (bad : BadPcap) → PcapReaderHasRefused self bad → result ≡ Err bad }
    {
        if let Some(bad) = self.refused {
            return Err(bad);
        }
        if self.may_end() {
            return Ok(());
        }
        Err(BadPcap {
            offset: self.taken,
            why: PcapFault::End,
        })
    }
}

impl CaptureReader for PcapReader {
    ghost use Rattle.line_stamps.specs.Fields.{AreFieldsSoFar};
    ghost use Rattle.capture_pcap.specs.Pcap.{IsCapture};
    ghost use Rattle.capture_pcap.specs.Reader.{PcapReaderStandsFor, PcapReaderRefuses, PcapReaderHasRefused};
    ghost use Rattle.capture_pcap.specs.Reader.{pcap_bytes_taken};

    type Refusal = BadPcap;

    ghost format = { IsCapture };

    ghost begins = { AreFieldsSoFar IsCapture };

    ghost stands = { PcapReaderStandsFor };

    ghost refuses = { PcapReaderRefuses };

    ghost has_refused = { PcapReaderHasRefused };

    ghost bytes_taken = { pcap_bytes_taken };

    fn start() -> PcapReader {
        PcapReader::new()
    }

    fn taken(&self) -> u64 {
        self.taken
    }

    #[inline]
    fn feed(&mut self, b: u8) -> Result<Option<Seen>, BadPcap> {
        PcapReader::feed(self, b)
    }

    fn finish(self) -> Result<(), BadPcap> {
        PcapReader::finish(self)
    }
}
