//! How a run ends: its exit status and its fault line.
ghost use Rattle.std.specs.Prelude.{◌≡◌, ◌≤◌, ◌++◌, length, codes, decimal};
ghost use Rattle.line_capture.specs.Outcomes.{capture_exit_status, capture_fault_line, text_word, pcap_word, rows_word};
ghost use Rattle.line_capture.specs.Outcomes.{unplaced_word};
ghost use Rattle.command_ends.specs.Reasons.{untold};

use crate::bad_capture::BadCapture;
use capture_pcap::PcapFault;
use capture_text::{RowFault, TextFault};
use command_ends::{Line, Reasons, Status, fault_line, push_decimal};
use line_stamps::{Unplaced, Way};

/// How a run of the program ended.
#[derive(Clone, Copy, Debug, PartialEq, Eq)]
pub enum Outcome {
    /// With a status that runs of `link_replay` have too.
    Ended(Status),
    /// The input isn't a right capture of its form.
    BadCapture(BadCapture),
    /// A byte of a way isn't placed: `place` bytes of the way come before it.
    Unplaced { way: Way, place: u64, why: Unplaced },
}

impl Outcome {
    /// Returns the program's exit status: 4 if the input isn't a right capture, or has a byte that
    /// isn't placed.
    pub fn exit_status(&self) -> u8
        ensures { result ≡ capture_exit_status self.now }
    {
        match self {
            Outcome::Ended(status) => status.exit_status(),
            Outcome::BadCapture(_) | Outcome::Unplaced { .. } => 4,
        }
    }

    /// Returns the fault line, with its LF. It is empty if the outcome has none. A read that failed
    /// is said with its reason, if one is told.
    pub fn fault_line(&self, reasons: &Reasons) -> Line
        ensures { result.items ≡ capture_fault_line reasons.now self.now }
    {
        match self {
            Outcome::Ended(status) => fault_line(reasons, status),
            Outcome::BadCapture(bad) => bad_capture_line(bad),
            Outcome::Unplaced { way, place, why } => unplaced_line(*way, *place, *why),
        }
    }
}

fn text_word(why: TextFault) -> &'static [u8]
    ensures word { result.now ≡ text_word why }
    ensures short { length result.now ≤ 5 }
{
    match why {
        TextFault::Char => b"char",
        TextFault::Late => b"late",
        TextFault::Odd => b"odd",
        TextFault::Empty => b"empty",
    }
}

fn pcap_word(why: PcapFault) -> &'static [u8]
    ensures word { result.now ≡ pcap_word why }
    ensures short { length result.now ≤ 10 }
{
    match why {
        PcapFault::Magic => b"magic",
        PcapFault::Link => b"link",
        PcapFault::Short => b"short",
        PcapFault::Cut => b"cut",
        PcapFault::Order => b"order",
        PcapFault::Size => b"size",
        PcapFault::Timeless => b"timeless",
        PcapFault::Resolution => b"resolution",
        PcapFault::Option => b"option",
        PcapFault::Interface => b"interface",
        PcapFault::Late => b"late",
        PcapFault::End => b"end",
    }
}

fn rows_word(why: RowFault) -> &'static [u8]
    ensures word { result.now ≡ rows_word why }
    ensures short { length result.now ≤ 7 }
{
    match why {
        RowFault::Long => b"long",
        RowFault::Line => b"row",
        RowFault::Time => b"time",
        RowFault::Data => b"data",
        RowFault::Channel => b"channel",
        RowFault::End => b"end",
    }
}

fn unplaced_word(why: Unplaced) -> &'static [u8]
    ensures word { result.now ≡ unplaced_word why }
    ensures short { length result.now ≤ 7 }
{
    match why {
        Unplaced::Early => b"early",
        Unplaced::Overlap => b"overlap",
        Unplaced::Late => b"late",
    }
}

// Returns a fault line: what is counted, the count, and a word for the cause.
fn counted_line(what: &[u8], count: u64, word: &[u8]) -> Line
    requires what { length what.now ≤ 20 }
    requires word { length word.now ≤ 10 }
    ensures { result.items
        ≡ codes "fault: " ++ what.now ++ decimal count ++ codes " " ++ word.now ++ codes "\n" }
{
    let mut line = Line::new();
    line.try_extend_from_slice(b"fault: ").unwrap();
    line.try_extend_from_slice(what).unwrap();
    push_decimal(&mut line, count);
    line.push(b' ');
    line.try_extend_from_slice(word).unwrap();
    line.push(b'\n');
    line
}

fn bad_capture_line(bad: &BadCapture) -> Line
    ensures { result.items ≡ capture_fault_line untold (Outcome.BadCapture bad.now) }
{
    match bad {
        BadCapture::Text(bad) => counted_line(b"line ", bad.line, text_word(bad.why)),
        BadCapture::Pcap(bad) => counted_line(b"byte ", bad.offset, pcap_word(bad.why)),
        BadCapture::Rows(bad) => counted_line(b"line ", bad.line, rows_word(bad.why)),
        BadCapture::ByteError { offset } => counted_line(b"byte ", *offset, b"error"),
    }
}

fn unplaced_line(way: Way, place: u64, why: Unplaced) -> Line
    ensures { result.items ≡ capture_fault_line untold (Outcome.Unplaced way place why) }
{
    match way {
        Way::A => counted_line(b"way a byte ", place, unplaced_word(why)),
        Way::B => counted_line(b"way b byte ", place, unplaced_word(why)),
    }
}
