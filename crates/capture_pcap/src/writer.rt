//! The parts from which a pcap file is written: little-endian, with times in nanoseconds.
ghost use Rattle.std.specs.Prelude.{◌≡◌, ℕ, ◌+◌, ◌*◌, ◌<◌, ◌≤◌, ◌^◌, ◌++◌, ◌∷◌, [], List, length};
ghost use Rattle.std.specs.Prelude.{true};
ghost use Rattle.byteorder.specs.Endian.{big_bytes, little_bytes};
ghost use Rattle.capture_pcap.specs.Writing.{AppendsNumber, AppendsFour, written_clock, data_event};
ghost use Rattle.capture_pcap.specs.Writing.{packet_front, file_header};
ghost use Rattle.capture_pcap.specs.Pcap.{IsPcapHeader, IsPcapPacket};
ghost use Rattle.capture_pcap.specs.Record.{seen_bytes};

use arrayvec::ArrayVec;
use byteorder::{BigEndian, ByteOrder, LittleEndian};
use line_stamps::Way;

/// The header of a file that is written: version 2.4, packets of at most 262,144 bytes, link type
/// 250.
pub const FILE_HEADER: [u8; 24] = [
    0x4D, 0x3C, 0xB2, 0xA1, 2, 0, 4, 0, 0, 0, 0, 0, 0, 0, 0, 0, 0, 0, 4, 0, 250, 0, 0, 0,
];

/// What comes before the data of a packet.
pub type PacketHeader = ArrayVec<u8, 28>;

/// A law of `FILE_HEADER`.
pub fn written_header()
    /// It is the header of a little-endian file whose times count nanoseconds.
    ensures header { IsPcapHeader written_clock FILE_HEADER }
    /// It has these very bytes.
    ensures bytes { FILE_HEADER ≡ file_header }
{}

/// Appends a number, the lowest byte first.
fn push_number(out: &mut PacketHeader, n: u32)
    requires { length out.old.items + 4 ≤ 28 }
    ensures number { AppendsNumber out.old.items out.new.items n }
    ensures bytes { out.new.items ≡ out.old.items ++ little_bytes 4 n }
{
    let mut word = [0; 4];
    LittleEndian::write_u32(&mut word, n);
    let _ = out.try_extend_from_slice(&word);
}

/// Appends a number of an RTAC header, the highest byte first.
fn push_stamp(out: &mut PacketHeader, n: u32)
    requires { length out.old.items + 4 ≤ 28 }
    ensures four { AppendsFour out.old.items out.new.items }
    ensures bytes { out.new.items ≡ out.old.items ++ big_bytes 4 n }
{
    let mut word = [0; 4];
    BigEndian::write_u32(&mut word, n);
    let _ = out.try_extend_from_slice(&word);
}

/// Returns the event that comes before data of this way: the start of data sent, or of data
/// received.
fn event_of(way: Way) -> u8
    ensures { result ≡ data_event way }
{
    match way {
        Way::A => 1,
        Way::B => 2,
    }
}

/// Appends the event that comes before data of this way, with no control line and no footer.
fn push_event(out: &mut PacketHeader, way: Way)
    requires { length out.old.items + 4 ≤ 28 }
    ensures { out.new.items ≡ out.old.items ++ data_event way ∷ 0 ∷ 0 ∷ 0 ∷ [] }
{
    let _ = out.try_extend_from_slice(&[event_of(way), 0, 0, 0]);
}

/// Returns what comes before `count` bytes of data that start at this time, in nanoseconds since
/// 1970.
pub fn packet_header(way: Way, start: u64, count: u32) -> PacketHeader
    /// The time is before 2^32 seconds since 1970.
    requires time { start < 2 ^ 32 * 1000000000 }
    /// The packet is shorter than 2^32 bytes.
    requires size { count + 12 < 2 ^ 32 }
    /// With any `count` bytes of data behind it, it is a packet of these bytes at this time, that
    /// go this way.
    ensures packet { (payload : List ℕ) → length payload ≡ count
        → IsPcapPacket written_clock (result.items ++ payload) (seen_bytes start way true payload) }
    /// It has exactly the bytes of the definition.
    ensures front { result.items ≡ packet_front way start count }
{
    let seconds = (start / 1_000_000_000) as u32;
    let nanoseconds = (start % 1_000_000_000) as u32;
    let mut header = ArrayVec::new();
    push_number(&mut header, seconds);
    push_number(&mut header, nanoseconds);
    push_number(&mut header, count + 12);
    push_number(&mut header, count + 12);
    push_stamp(&mut header, seconds);
    push_stamp(&mut header, nanoseconds / 1000);
    push_event(&mut header, way);
    header
}
