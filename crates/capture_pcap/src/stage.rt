//! Which field of a pcap file comes next, and what each field leads to.
#![tactic(auto, unfolding(crate::specs::PcapStep::field_at))]

ghost use Rattle.std.specs.Prelude.{◌≡◌, ◌+◌, ◌<◌, ◌≤◌, ◌*◌, length, true, false};
ghost use Rattle.capture_pcap.specs.PcapStep.{field_at, byte_at, after_magic_at, takes_bytes};
ghost use Rattle.capture_pcap.specs.PcapStep.{pcap_may_end};
ghost use Rattle.capture_pcap.specs.PcapStep.{is_sound_pcap, IsSoundPcapStep, after_body, after_length};
ghost use Rattle.capture_pcap.specs.PcapStep.{in_pcap_blocks};
ghost use Rattle.capture_pcap.specs.BlockStep.{IsSoundBlock};
ghost use Rattle.capture_pcap.specs.BodyStep.{IsSoundNext};
ghost use Rattle.capture_pcap.specs.Words.{nanoseconds};

use crate::body::Next;
use crate::{Block, Body, Clock, Order, PcapFault, Resolution, Seen, block};

/// The link type of RTAC serial.
const RTAC_SERIAL: u32 = 250;

/// The length of an RTAC header, which comes before a packet's data.
const RTAC_HEADER: u32 = 12;

/// What comes next in a pcap file.
#[derive(Clone, Copy, Debug, PartialEq, Eq)]
pub enum Stage {
    /// The magic number.
    Magic,
    /// One of the four fields of the header that may be anything (version, zone, figures and length
    /// of a packet), with how many of them came before it.
    Free(Clock, u8),
    /// The link type.
    Link(Clock),
    /// The seconds of a packet, or the end of the file.
    Seconds(Clock),
    /// The fraction of a packet's time, with its seconds.
    Fraction(Clock, u32),
    /// How many bytes of a packet the file has, with the packet's time in nanoseconds.
    Captured(Clock, u64),
    /// How many bytes a packet had, with its time in nanoseconds and how many bytes of it the file
    /// has.
    Original(Clock, u64, u32),
    /// The packet itself.
    Packet(Clock, Body),
    /// A part of a pcapng file.
    Blocks(Block),
}

/// What a field or a byte leads to: what comes next and what was seen, or why it is refused.
pub type Step = Result<(Stage, Option<Seen>), PcapFault>;

/// Returns a time in nanoseconds.
fn start_of(clock: Clock, seconds: u32, fraction: u32) -> u64
    ensures { result ≡ seconds * 1000000000 + fraction * nanoseconds clock.resolution }
{
    let counts = u64::from(clock.resolution.nanoseconds());
    u64::from(seconds) * 1_000_000_000 + u64::from(fraction) * counts
}

/// What comes after the magic number of a file.
fn after_magic(word: &[u8]) -> Step
    requires { length word.now ≡ 4 }
    ensures { result ≡ after_magic_at word.now }
{
    if let [0x0A, 0x0D, 0x0D, 0x0A] = word {
        return Ok((Stage::Blocks(Block::SectionSize), None));
    }
    let (order, resolution) = match word {
        [0xA1, 0xB2, 0xC3, 0xD4] => (Order::Big, Resolution::Microseconds),
        [0xD4, 0xC3, 0xB2, 0xA1] => (Order::Little, Resolution::Microseconds),
        [0xA1, 0xB2, 0x3C, 0x4D] => (Order::Big, Resolution::Nanoseconds),
        [0x4D, 0x3C, 0xB2, 0xA1] => (Order::Little, Resolution::Nanoseconds),
        _ => return Err(PcapFault::Magic),
    };
    Ok((Stage::Free(Clock { order, resolution }, 0), None))
}

/// What comes after a field or a byte of a packet.
#[inline]
fn behind(clock: Clock, next: Next) -> Step
    requires { IsSoundNext next }
    ensures step { result ≡ after_body clock next }
    ensures sound { IsSoundPcapStep result }
{
    match next.0 {
        Some(body) => Ok((Stage::Packet(clock, body), next.1)),
        None => Ok((Stage::Seconds(clock), next.1)),
    }
}

/// What comes after a field or a byte of a pcapng file.
#[inline]
fn in_blocks(step: block::Step) -> Step
    requires { IsSoundBlock step }
    ensures step { result ≡ in_pcap_blocks step }
    ensures sound { IsSoundPcapStep result }
{
    match step {
        Ok((block, seen)) => Ok((Stage::Blocks(block), seen)),
        Err(why) => Err(why),
    }
}

/// What comes after the number of bytes that a packet had.
fn behind_length(clock: Clock, start: u64, captured: u32, original: u32) -> Step
    requires { 12 ≤ captured }
    ensures step { result ≡ after_length clock start captured original }
    ensures sound { IsSoundPcapStep result }
{
    if original == captured {
        let body = Body::Seconds(start, captured - RTAC_HEADER);
        Ok((Stage::Packet(clock, body), None))
    } else {
        Err(PcapFault::Cut)
    }
}

impl Stage {
    /// Whether single bytes come next, rather than a field of four.
    #[inline]
    pub fn is_data(self) -> bool
        ensures { result ≡ takes_bytes self }
    {
        match self {
            Stage::Packet(_, body) => body.is_data(),
            Stage::Blocks(block) => block.is_data(),
            _ => false,
        }
    }

    /// Whether a file may end here, before what comes next.
    pub fn may_end(self) -> bool
        ensures { result ≡ pcap_may_end self }
    {
        matches!(self, Stage::Seconds(_) | Stage::Blocks(Block::Kind(_)))
    }

    /// Takes a single byte.
    #[inline]
    pub fn byte(self, b: u8) -> Step
        /// The stage is a sound place.
        requires sound { is_sound_pcap self ≡ true }
        /// A single byte comes next.
        requires payload { takes_bytes self ≡ true }
        /// It is what the definition makes of the byte here.
        ensures step { result ≡ byte_at self b }
        /// The step leads to a sound place, or refuses.
        ensures sound { IsSoundPcapStep result }
    {
        match self {
            Stage::Packet(clock, body) => behind(clock, body.byte(b)),
            Stage::Blocks(block) => in_blocks(block.byte(b)),
            _ => unreachable!(),
        }
    }

    /// Takes a field of four bytes.
    pub fn field(self, word: &[u8]) -> Step
        /// The stage is a sound place.
        requires sound { is_sound_pcap self ≡ true }
        /// The field has four bytes.
        requires four { length word.now ≡ 4 }
        /// A field comes next.
        requires field { takes_bytes self ≡ false }
        /// It is what the definition makes of the field here.
        ensures step { result ≡ field_at self word.now }
        /// The step leads to a sound place, or refuses.
        ensures sound { IsSoundPcapStep result }
    {
        match self {
            Stage::Magic => after_magic(word),
            Stage::Free(clock, before) => {
                if before < 3 {
                    Ok((Stage::Free(clock, before + 1), None))
                } else {
                    Ok((Stage::Link(clock), None))
                }
            }
            Stage::Link(clock) => {
                if clock.order.number(word) == RTAC_SERIAL {
                    Ok((Stage::Seconds(clock), None))
                } else {
                    Err(PcapFault::Link)
                }
            }
            Stage::Seconds(clock) => Ok((Stage::Fraction(clock, clock.order.number(word)), None)),
            Stage::Fraction(clock, seconds) => {
                let start = start_of(clock, seconds, clock.order.number(word));
                Ok((Stage::Captured(clock, start), None))
            }
            Stage::Captured(clock, start) => {
                let captured = clock.order.number(word);
                if captured < RTAC_HEADER {
                    return Err(PcapFault::Short);
                }
                Ok((Stage::Original(clock, start, captured), None))
            }
            Stage::Original(clock, start, captured) => {
                behind_length(clock, start, captured, clock.order.number(word))
            }
            Stage::Packet(clock, body) => behind(clock, body.field(word)),
            Stage::Blocks(block) => in_blocks(block.field(word)),
        }
    }
}
