//! The bytes of one packet: an RTAC header of 12 bytes, and data.
#![tactic(auto, unfolding(crate::specs::BodyStep::body_field_at))]

ghost use Rattle.std.specs.Prelude.{◌≡◌, ◌<◌, length, true, false};
ghost use Rattle.capture_pcap.specs.BodyStep.{body_field_at, body_byte_at, takes_data, has_more};
ghost use Rattle.capture_pcap.specs.BodyStep.{IsSoundNext, body_event};
ghost use Rattle.capture_pcap.specs.Record.{event_way};

use crate::{LineEvent, Seen};
use line_stamps::{CaptureByte, Way};

/// What comes next in a packet, with the packet's time in nanoseconds and how many bytes of data
/// are left.
#[derive(Clone, Copy, Debug, PartialEq, Eq)]
pub enum Body {
    /// The seconds in the RTAC header.
    Seconds(u64, u32),
    /// The microseconds in the RTAC header.
    Fraction(u64, u32),
    /// The event, the control lines and the footer.
    Event(u64, u32),
    /// A byte of data, with its way if it is a byte of the line, and whether it is the first one.
    Data(u64, u32, Option<Way>, bool),
}

/// What comes next in a packet, or `None` at its end, and what was seen.
pub type Next = (Option<Body>, Option<Seen>);

/// Returns the way of the data after an event, if they are bytes of the line: data sent go way A,
/// and data received go way B.
fn way_of(event: u8) -> Option<Way>
    ensures { result ≡ event_way event }
{
    match event {
        1 => Some(Way::A),
        2 => Some(Way::B),
        _ => None,
    }
}

/// Returns what comes after an event that has `left` bytes of data.
fn behind_event(start: u64, left: u32, event: u8) -> Next
    ensures { result ≡ body_event start left event }
{
    let way = way_of(event);
    let data = if left > 0 {
        Some(Body::Data(start, left, way, true))
    } else {
        None
    };
    match way {
        Some(_) => (data, None),
        None => {
            let seen = LineEvent {
                way: None,
                start,
                event,
                bytes: left,
            };
            (data, Some(Seen::Event(seen)))
        }
    }
}

impl Body {
    /// Whether single bytes come next, rather than a field of four.
    #[inline]
    pub fn is_data(self) -> bool
        ensures { result ≡ takes_data self }
    {
        matches!(self, Body::Data(..))
    }

    /// Takes a field of four bytes of the RTAC header.
    pub fn field(self, word: &[u8]) -> Next
        /// The field has four bytes.
        requires four { length word.now ≡ 4 }
        /// A field comes next.
        requires header { takes_data self ≡ false }
        /// It is what the definition makes of the field here.
        ensures next { result ≡ body_field_at self word.now }
        /// The step leads to a sound place.
        ensures sound { IsSoundNext result }
    {
        match self {
            Body::Seconds(start, left) => (Some(Body::Fraction(start, left)), None),
            Body::Fraction(start, left) => (Some(Body::Event(start, left)), None),
            Body::Event(start, left) => behind_event(start, left, word[0]),
            Body::Data(..) => unreachable!(),
        }
    }

    /// Takes a byte of data.
    #[inline]
    pub fn byte(self, b: u8) -> Next
        /// More bytes of data are to come.
        requires sound { has_more self ≡ true }
        /// A byte of data comes next.
        requires payload { takes_data self ≡ true }
        /// It is what the definition makes of the byte here.
        ensures next { result ≡ body_byte_at self b }
        /// The step leads to a sound place.
        ensures sound { IsSoundNext result }
    {
        let Body::Data(start, left, way, first) = self else {
            unreachable!()
        };
        let next = if left > 1 {
            Some(Body::Data(start, left - 1, way, false))
        } else {
            None
        };
        let seen = match way {
            Some(way) => Some(Seen::Byte(CaptureByte {
                way,
                start,
                first,
                byte: b,
            })),
            None => None,
        };
        (next, seen)
    }
}
