//! Why a pcap or pcapng file is refused.

/// Why a pcap or pcapng file is refused.
#[derive(Clone, Copy, Debug, PartialEq, Eq)]
pub enum PcapFault {
    /// No pcap or pcapng file begins with the first four bytes.
    Magic,
    /// The link type isn't 250, RTAC serial.
    Link,
    /// A packet is shorter than the 12 bytes of an RTAC header.
    Short,
    /// A packet isn't in the file with all its bytes.
    Cut,
    /// A section of a pcapng file doesn't say its byte order.
    Order,
    /// A block of a pcapng file has a length that it can't have, or a different one at its end.
    Size,
    /// A packet has no time: it is in a simple packet block or an old one.
    Timeless,
    /// The option for the unit of an interface's times isn't one byte within its block, or the
    /// unit isn't a power of ten from a second down to a nanosecond.
    Resolution,
    /// An option of an interface is longer than its block, or moves the interface's times.
    Option,
    /// The interface of a packet wasn't described before, or counts its times in another unit than
    /// one described after it. Or a section has one interface more than it may have.
    Interface,
    /// The time of a packet is 2^64 nanoseconds or more, which is some 584 years.
    Late,
    /// The file ends within its header, a packet or a block.
    End,
}

/// A refusal of a pcap or pcapng file.
#[derive(Clone, Copy, Debug, PartialEq, Eq)]
pub struct BadPcap {
    /// How many bytes come before the refused field, or before the end of the file.
    pub offset: u64,
    /// Why it is refused.
    pub why: PcapFault,
}
