//! The records of two lines, as the text of a capture.
ghost use Rattle.std.specs.Prelude.{◌≡◌, ℕ, ◌+◌, ◌^◌, ◌*◌, ◌<◌, ◌≤◌, [], ◌∷◌, ◌++◌, length, take, drop};
ghost use Rattle.std.specs.Prelude.{OnOk, IfOk, max, suc};
ghost use Rattle.yasir_ticks.specs.Ticks.{bytes_in};
ghost use Rattle.line_stamps.specs.Giving.{tick_start};
ghost use Rattle.tick_drive.specs.Input.{max_ticks};
ghost use Rattle.line_capture.specs.Records.{record_text, file_front, leading, most_further, IsRecorded};
ghost use Rattle.line_capture.specs.RecordWalk.{text_of_record, WalkAdds, AddsAt};

use arrayvec::ArrayVec;
use capture_pcap::{FILE_HEADER, packet_header};
use capture_text::line_front;
use line_stamps::{Rate, Way, tick_start};
use std::alloc::Global;
use yasir_io::NoMemory;
use yasir_ticks::{Tick, push_digits};

/// The most bytes of a record: 65,536. A run of more bytes is continued in the next record.
pub const MAX_RECORD_BYTES: usize = 65_536;

/// The most bytes that come after the first one of a record.
const MOST_FURTHER: usize = 65_535;

/// The form of a capture that has records.
#[derive(Clone, Copy, Debug, PartialEq, Eq)]
pub enum RecordForm {
    /// A pcap file, a packet for each record.
    Pcap,
    /// A text, a line for each record.
    Text,
}

/// The text of a capture, record by record.
#[derive(Drop)]
struct RecordTexts {
    form: RecordForm,
    rate: Rate,
    text: Vec<u8>,
}

// Returns how many bytes a line begins with, up to as many as fit into one record.
fn record_len(line: &[Tick]) -> usize
    ensures bytes { bytes_in (take result line.now) ≡ leading line.now (suc most_further) }
    ensures count { result ≡ length (leading line.now (suc most_further)) }
    ensures within { result ≤ length line.now }
    ensures few { result ≤ 65536 }
{
    let most = line.len().min(MAX_RECORD_BYTES);
    let mut count = 0;
    while count < most {
        match line[count] {
            Tick::Byte(_) => count += 1,
            Tick::Silent => return count,
        }
    }
    count
}

impl RecordTexts {
    // Returns a text with what comes before all records.
    fn begin(alloc: Global, form: RecordForm, rate: Rate) -> Result<RecordTexts, NoMemory>
        ensures form { IfOk result (λ texts. texts.form ≡ form) }
        ensures rate { IfOk result (λ texts. texts.rate ≡ rate) }
        ensures text { IfOk result (λ texts. texts.text.items ≡ file_front form) }
    {
        let text = Vec::new(alloc);
        let mut texts = RecordTexts { form, rate, text };
        match form {
            RecordForm::Pcap => {
                texts.push(&FILE_HEADER)?;
                Ok(texts)
            }
            RecordForm::Text => Ok(texts),
        }
    }

    // Adds a piece of text.
    fn push(&mut self, piece: &[u8]) -> Result<(), NoMemory>
        ensures { OnOk result (WalkAdds self.old self.new piece.now) }
    {
        match self.text.extend_from_slice(piece) {
            Ok(()) => Ok(()),
            Err(_) => Err(NoMemory),
        }
    }

    // Adds a byte of a record.
    fn push_byte(&mut self, b: u8) -> Result<(), NoMemory>
        ensures { OnOk result (WalkAdds self.old self.new (text_of_record self.old.form (b ∷ []))) }
    {
        match self.form {
            RecordForm::Pcap => self.push(&[b]),
            RecordForm::Text => {
                let mut digits: ArrayVec<u8, 2> = ArrayVec::new();
                push_digits(&mut digits, &[b]);
                self.push(digits.as_slice())
            }
        }
    }

    // Adds the bytes among ticks.
    fn push_bytes(&mut self, ticks: &[Tick]) -> Result<(), NoMemory>
        ensures { OnOk result (WalkAdds self.old self.new
            (text_of_record self.old.form (bytes_in ticks.now))) }
    {
        for tick in ticks {
            match tick {
                Tick::Byte(b) => match self.push_byte(*b) {
                    Ok(()) => {}
                    Err(NoMemory) => return Err(NoMemory),
                },
                Tick::Silent => {}
            }
        }
        Ok(())
    }

    // Adds a record of these ticks, which are all bytes. The first of them is in this tick of the
    // line.
    fn push_record(&mut self, way: Way, tick: u64, ticks: &[Tick]) -> Result<(), NoMemory>
        requires early { tick < max_ticks }
        requires bytes { length (bytes_in ticks.now) ≡ length ticks.now }
        requires few { length ticks.now ≤ 65536 }
        ensures { OnOk result (WalkAdds self.old self.new (record_text self.old.form self.old.rate
            (record { way = way; tick = tick; bytes = bytes_in ticks.now }))) }
    {
        let start = tick_start(self.rate, 1, tick);
        match self.form {
            RecordForm::Pcap => {
                let header = packet_header(way, start, ticks.len() as u32);
                self.push(header.as_slice())?;
                self.push_bytes(ticks)
            }
            RecordForm::Text => {
                let front = line_front(start);
                self.push(front.as_slice())?;
                self.push_bytes(ticks)?;
                self.push(b"\n")
            }
        }
    }

    // Adds the record that begins in this tick of a line, if one does, where `room` more bytes fit
    // into the record before it. Returns how many more bytes fit into the current record after this
    // tick.
    fn push_at(
        &mut self,
        way: Way,
        line: &[Tick],
        tick: usize,
        room: usize,
    ) -> Result<usize, NoMemory>
        requires { length line.now ≤ max_ticks }
        ensures { IfOk result (λ after. AddsAt self.old self.new way tick (drop tick line.now) room
            after) }
    {
        if tick >= line.len() {
            return Ok(0);
        }
        match line[tick] {
            Tick::Silent => return Ok(0),
            Tick::Byte(_) => {}
        }
        if room > 0 {
            return Ok(room - 1);
        }
        let following = &line[tick..];
        let count = record_len(following);
        match self.push_record(way, tick as u64, &following[..count]) {
            Ok(()) => Ok(MOST_FURTHER),
            Err(NoMemory) => Err(NoMemory),
        }
    }
}

/// Returns the capture of two lines at a rate, the first of them of way A. It has a record for each
/// run of bytes, or several if there are more than 65,536, and each record has the start of its
/// first tick, in nanoseconds since tick 0. Records are in the order of their ticks, and of two in
/// one tick that of way A comes first.
pub fn recorded(
    alloc: Global,
    form: RecordForm,
    rate: Rate,
    a: &[Tick],
    b: &[Tick],
) -> Result<Vec<u8>, NoMemory>
    /// Line A has at most 16,777,216 ticks.
    requires a { length a.now ≤ max_ticks }
    /// Line B has at most 16,777,216 ticks.
    requires b { length b.now ≤ max_ticks }
    ensures { IfOk result (λ text. IsRecorded form rate a.now b.now text.items) }
{
    let mut texts = RecordTexts::begin(alloc, form, rate)?;
    let (mut room_a, mut room_b) = (0, 0);
    let most = a.len().max(b.len());
    for tick in 0..most {
        match texts.push_at(Way::A, a, tick, room_a) {
            Ok(room) => room_a = room,
            Err(NoMemory) => return Err(NoMemory),
        }
        match texts.push_at(Way::B, b, tick, room_b) {
            Ok(room) => room_b = room,
            Err(NoMemory) => return Err(NoMemory),
        }
    }
    Ok(texts.text)
}
