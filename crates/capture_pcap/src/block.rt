//! Which field of a pcapng file comes next, and what each field leads to.
#![tactic(auto, unfolding(crate::specs::BlockStep::block_field_at))]

ghost use Rattle.std.specs.Prelude.{◌≡◌, ◌+◌, ◌*◌, ◌<◌, ◌≤◌, ◌^◌, length, true, false, Some, None};
ghost use Rattle.capture_pcap.specs.BlockStep.{block_field_at, block_byte_at, takes_bytes};
ghost use Rattle.capture_pcap.specs.BlockStep.{is_sound_block_step, IsSoundBlock, is_head, unread_or_end, is_size};
ghost use Rattle.capture_pcap.specs.BlockStep.{after_order, after_kind, after_size, after_link};
ghost use Rattle.capture_pcap.specs.BlockStep.{after_options, next_option_at};
ghost use Rattle.capture_pcap.specs.BlockStep.{after_option, after_value, after_resolution};
ghost use Rattle.capture_pcap.specs.BlockStep.{after_low, after_captured, after_original};
ghost use Rattle.capture_pcap.specs.BlockStep.{after_body, after_section_size, after_interface};
ghost use Rattle.capture_pcap.specs.BlockStep.{after_high, has_room};
ghost use Rattle.capture_pcap.specs.Blocks.{counts_at, section_with};
ghost use Rattle.capture_pcap.specs.BodyStep.{IsSoundNext};

use crate::body::Next;
use crate::{Body, Order, PcapFault, Seen};

/// The link type of RTAC serial.
const RTAC_SERIAL: u16 = 250;

/// A section of a pcapng file so far.
#[derive(Clone, Copy, Debug, PartialEq, Eq)]
pub struct Section {
    /// The order of the bytes of its numbers.
    pub order: Order,
    /// The number of the first interface that counts its times in the same unit as all that were
    /// described after it. Packets of the interfaces before it aren't read.
    pub first: u32,
    /// How many interfaces the section has described.
    pub interfaces: u32,
    /// How many nanoseconds a unit of time is for the interfaces from `first` on.
    pub counts: u32,
}

/// A kind of block.
#[derive(Clone, Copy, Debug, PartialEq, Eq)]
pub enum Kind {
    /// A description of an interface.
    Interface,
    /// A packet with its time, in an enhanced packet block.
    Packet,
    /// A block of another kind, of which nothing is read.
    Other,
}

/// What comes next in a pcapng file. The number after the section is the length of the block.
#[derive(Clone, Copy, Debug, PartialEq, Eq)]
pub enum Block {
    /// The length of a section's header, in an order that isn't known yet.
    SectionSize,
    /// The order of a section. Its header has the first length if it is big-endian, and otherwise
    /// the second one.
    SectionOrder(u32, u32),
    /// The kind of a block, or the end of the file.
    Kind(Section),
    /// The length of a block.
    Size(Section, Kind),
    /// The link type of an interface.
    Link(Section, u32),
    /// How many bytes of a packet an interface takes at most.
    Snap(Section, u32),
    /// An option of an interface, with the number of fields that are left of its options, and how
    /// many nanoseconds a unit of its times is.
    Option(Section, u32, u32, u32),
    /// A field of an option's value, with the number of fields that follow the value, how many
    /// nanoseconds a unit of the interface's times is, and the number of fields that are left of
    /// the value.
    Value(Section, u32, u32, u32, u32),
    /// The resolution of an interface's times, with the number of fields that are left of its
    /// options.
    Resolution(Section, u32, u32),
    /// The interface of a packet.
    Interface(Section, u32),
    /// The high half of a packet's time.
    High(Section, u32),
    /// The low half of a packet's time, with the high half.
    Low(Section, u32, u32),
    /// How many bytes of a packet the file has, with the packet's time in nanoseconds.
    Captured(Section, u32, u64),
    /// How many bytes a packet had, with its time in nanoseconds and how many bytes of it the file
    /// has.
    Original(Section, u32, u64, u32),
    /// The packet itself, with the number of bytes between it and the end of the block.
    Packet(Section, u32, u32, Body),
    /// Bytes that say nothing of the line, with how many of them are left.
    Unread(Section, u32, u32),
    /// The length of the block again, at its end.
    End(Section, u32),
}

/// What a field or a byte leads to: what comes next and what was seen, or why it is refused.
pub type Step = Result<(Block, Option<Seen>), PcapFault>;

/// Returns what comes next if `left` bytes that say nothing of the line come before the end of the
/// block.
#[inline]
fn unread(section: Section, size: u32, left: u32) -> Block
    ensures unread { result ≡ unread_or_end section size left }
    ensures sound { is_sound_block_step result ≡ true }
{
    if left > 0 {
        Block::Unread(section, size, left)
    } else {
        Block::End(section, size)
    }
}

/// Whether `size` may be the length of a block that has at least `least` bytes.
fn is_size(size: u32, least: u32) -> bool
    ensures { result ≡ is_size size least }
{
    least <= size && size % 4 == 0
}

/// What comes after the length of a section's header, which is `big` or `little`, depending on the
/// order.
fn after_section_size(big: u32, little: u32) -> Step
    ensures step { result ≡ after_section_size big little }
    ensures sound { IsSoundBlock result }
{
    if is_size(big, 28) || is_size(little, 28) {
        Ok((Block::SectionOrder(big, little), None))
    } else {
        Err(PcapFault::Size)
    }
}

/// What comes after the order of a section.
fn after_order(word: &[u8], big: u32, little: u32) -> Step
    requires { length word.now ≡ 4 }
    ensures step { result ≡ after_order word.now big little }
    ensures sound { IsSoundBlock result }
{
    let (order, size) = match word {
        [0x1A, 0x2B, 0x3C, 0x4D] => (Order::Big, big),
        [0x4D, 0x3C, 0x2B, 0x1A] => (Order::Little, little),
        _ => return Err(PcapFault::Order),
    };
    if !is_size(size, 28) {
        return Err(PcapFault::Size);
    }
    let section = Section {
        order,
        first: 0,
        interfaces: 0,
        counts: 1000,
    };
    Ok((unread(section, size, size - 16), None))
}

/// What comes after the kind of a block.
fn after_kind(section: Section, word: &[u8]) -> Step
    requires { length word.now ≡ 4 }
    ensures step { result ≡ after_kind section word.now }
    ensures sound { IsSoundBlock result }
{
    if let [0x0A, 0x0D, 0x0D, 0x0A] = word {
        return Ok((Block::SectionSize, None));
    }
    match section.order.number(word) {
        1 if section.interfaces < u32::MAX => Ok((Block::Size(section, Kind::Interface), None)),
        6 if section.first < section.interfaces => Ok((Block::Size(section, Kind::Packet), None)),
        1 | 6 => Err(PcapFault::Interface),
        2 | 3 => Err(PcapFault::Timeless),
        _ => Ok((Block::Size(section, Kind::Other), None)),
    }
}

/// What comes after the length of a block.
fn after_size(section: Section, kind: Kind, size: u32) -> Step
    requires { has_room section kind ≡ true }
    ensures step { result ≡ after_size section kind size }
    ensures sound { IsSoundBlock result }
{
    match kind {
        Kind::Interface if is_size(size, 20) => Ok((Block::Link(section, size), None)),
        Kind::Packet if is_size(size, 44) => Ok((Block::Interface(section, size), None)),
        Kind::Other if is_size(size, 12) => Ok((unread(section, size, size - 12), None)),
        _ => Err(PcapFault::Size),
    }
}

/// Returns a section with one more interface, for which a unit of its times is `counts`
/// nanoseconds.
fn with_interface(section: Section, counts: u32) -> Section
    requires { section.interfaces < 4294967295 }
    ensures { result ≡ section_with section counts }
{
    Section {
        order: section.order,
        first: if section.counts == counts {
            section.first
        } else {
            section.interfaces
        },
        interfaces: section.interfaces + 1,
        counts,
    }
}

/// What comes after the options of an interface, if `left` fields that aren't read follow them.
fn after_options(section: Section, size: u32, left: u32, counts: u32) -> Step
    requires small { 4 * left < 2 ^ 32 }
    requires room { section.interfaces < 4294967295 }
    ensures step { result ≡ after_options section size left counts }
    ensures sound { IsSoundBlock result }
{
    Ok((
        unread(with_interface(section, counts), size, 4 * left),
        None,
    ))
}

/// What comes after an option, with `left` fields left of the options.
fn next_option(section: Section, size: u32, left: u32, counts: u32) -> Step
    requires small { 4 * left < 2 ^ 32 }
    requires room { section.interfaces < 4294967295 }
    ensures step { result ≡ next_option_at section size left counts }
    ensures sound { IsSoundBlock result }
{
    if left == 0 {
        after_options(section, size, left, counts)
    } else {
        Ok((Block::Option(section, size, left, counts), None))
    }
}

/// What comes after the head of an option, with `left` fields left after the head.
fn after_option(section: Section, size: u32, left: u32, counts: u32, word: &[u8]) -> Step
    requires four { length word.now ≡ 4 }
    requires small { 4 * left < 2 ^ 32 }
    requires room { section.interfaces < 4294967295 }
    ensures step { result ≡ after_option section size left counts word.now }
    ensures sound { IsSoundBlock result }
{
    let code = section.order.short_number(word);
    let long = u32::from(section.order.short_number(&word[2..]));
    if code == 0 {
        return after_options(section, size, left, counts);
    }
    if code == 9 {
        if long == 1 && left > 0 {
            return Ok((Block::Resolution(section, size, left), None));
        }
        return Err(PcapFault::Resolution);
    }
    let fields = (long + 3) / 4;
    if code == 14 || left < fields {
        return Err(PcapFault::Option);
    }
    if fields == 0 {
        next_option(section, size, left, counts)
    } else {
        let value = Block::Value(section, size, left - fields, counts, fields);
        Ok((value, None))
    }
}

/// Returns how many nanoseconds a unit is if 10 to the power `digits` of them make a second, or
/// `None` for a power above nine.
fn counts_of(digits: u8) -> Option<u32>
    ensures { result ≡ counts_at digits }
{
    match digits {
        0 => Some(1_000_000_000),
        1 => Some(100_000_000),
        2 => Some(10_000_000),
        3 => Some(1_000_000),
        4 => Some(100_000),
        5 => Some(10_000),
        6 => Some(1_000),
        7 => Some(100),
        8 => Some(10),
        9 => Some(1),
        _ => None,
    }
}

/// What comes after the resolution of an interface's times.
fn after_resolution(section: Section, size: u32, left: u32, digits: u8) -> Step
    requires some { 0 < left }
    requires small { 4 * left < 2 ^ 32 }
    requires room { section.interfaces < 4294967295 }
    ensures step { result ≡ after_resolution section size left digits }
    ensures sound { IsSoundBlock result }
{
    match counts_of(digits) {
        Some(counts) => next_option(section, size, left - 1, counts),
        None => Err(PcapFault::Resolution),
    }
}

/// What comes after the interface of a packet.
fn after_interface(section: Section, size: u32, interface: u32) -> Step
    requires { 44 ≤ size }
    ensures step { result ≡ after_interface section size interface }
    ensures sound { IsSoundBlock result }
{
    if section.first <= interface && interface < section.interfaces {
        Ok((Block::High(section, size), None))
    } else {
        Err(PcapFault::Interface)
    }
}

/// What comes after the high half of a packet's time.
fn after_high(section: Section, size: u32, high: u32) -> Step
    requires { 44 ≤ size }
    ensures step { result ≡ after_high section size high }
    ensures sound { IsSoundBlock result }
{
    let units = u64::from(high) * 4_294_967_296;
    match units.checked_mul(u64::from(section.counts)) {
        Some(_) => Ok((Block::Low(section, size, high), None)),
        None => Err(PcapFault::Late),
    }
}

/// What comes after the time of a packet.
fn after_low(section: Section, size: u32, high: u32, low: u32) -> Step
    requires { 44 ≤ size }
    ensures step { result ≡ after_low section size high low }
    ensures sound { IsSoundBlock result }
{
    let units = u64::from(high) * 4_294_967_296 + u64::from(low);
    match units.checked_mul(u64::from(section.counts)) {
        Some(start) => Ok((Block::Captured(section, size, start), None)),
        None => Err(PcapFault::Late),
    }
}

/// What comes after the number of bytes of a packet that the file has.
fn after_captured(section: Section, size: u32, start: u64, captured: u32) -> Step
    ensures step { result ≡ after_captured section size start captured }
    ensures sound { IsSoundBlock result }
{
    if captured < 12 {
        return Err(PcapFault::Short);
    }
    let padded = (u64::from(captured) + 3) / 4 * 4;
    if u64::from(size) < padded + 32 {
        return Err(PcapFault::Size);
    }
    Ok((Block::Original(section, size, start, captured), None))
}

/// What comes after the number of bytes that a packet had.
fn after_original(section: Section, size: u32, start: u64, captured: u32, original: u32) -> Step
    requires header { 12 ≤ captured }
    requires fits { captured + 32 ≤ size }
    ensures step { result ≡ after_original section size start captured original }
    ensures sound { IsSoundBlock result }
{
    if original != captured {
        return Err(PcapFault::Cut);
    }
    let body = Body::Seconds(start, captured - 12);
    let packet = Block::Packet(section, size, size - 32 - captured, body);
    Ok((packet, None))
}

/// What comes after a field or a byte of a packet.
#[inline]
fn behind(section: Section, size: u32, left: u32, next: Next) -> Step
    requires { IsSoundNext next }
    ensures step { result ≡ after_body section size left next }
    ensures sound { IsSoundBlock result }
{
    match next.0 {
        Some(body) => Ok((Block::Packet(section, size, left, body), next.1)),
        None => Ok((unread(section, size, left), next.1)),
    }
}

/// What comes after the link type of an interface.
fn after_link(section: Section, size: u32, link: u16) -> Step
    requires most { 20 ≤ size }
    requires room { section.interfaces < 4294967295 }
    ensures step { result ≡ after_link section size link }
    ensures sound { IsSoundBlock result }
{
    if link == RTAC_SERIAL {
        Ok((Block::Snap(section, size), None))
    } else {
        Err(PcapFault::Link)
    }
}

/// What comes after a field of an option's value.
fn after_value(section: Section, size: u32, left: u32, counts: u32, fields: u32) -> Step
    requires small { 4 * left < 2 ^ 32 }
    requires room { section.interfaces < 4294967295 }
    ensures step { result ≡ after_value section size left counts fields }
    ensures sound { IsSoundBlock result }
{
    if fields > 1 {
        let value = Block::Value(section, size, left, counts, fields - 1);
        Ok((value, None))
    } else {
        next_option(section, size, left, counts)
    }
}

impl Block {
    /// Whether single bytes come next, rather than a field of four.
    #[inline]
    pub fn is_data(self) -> bool
        ensures { result ≡ takes_bytes self }
    {
        match self {
            Block::Packet(_, _, _, body) => body.is_data(),
            Block::Unread(..) => true,
            _ => false,
        }
    }

    /// Takes a single byte.
    #[inline]
    pub fn byte(self, b: u8) -> Step
        /// The block is at a sound place.
        requires sound { is_sound_block_step self ≡ true }
        /// A single byte comes next.
        requires single { takes_bytes self ≡ true }
        /// It is what the definition makes of the byte here.
        ensures step { result ≡ block_byte_at self b }
        /// The step leads to a sound place, or refuses.
        ensures sound { IsSoundBlock result }
    {
        match self {
            Block::Packet(section, size, left, body) => behind(section, size, left, body.byte(b)),
            Block::Unread(section, size, left) => Ok((unread(section, size, left - 1), None)),
            _ => unreachable!(),
        }
    }

    /// Takes a field of a section's header or of an interface, or the kind or the length of a
    /// block.
    fn head_field(self, word: &[u8]) -> Step
        requires sound { is_sound_block_step self ≡ true }
        requires four { length word.now ≡ 4 }
        requires head { is_head self ≡ true }
        ensures step { result ≡ block_field_at self word.now }
        ensures sound { IsSoundBlock result }
    {
        match self {
            Block::SectionSize => {
                after_section_size(Order::Big.number(word), Order::Little.number(word))
            }
            Block::SectionOrder(big, little) => after_order(word, big, little),
            Block::Kind(section) => after_kind(section, word),
            Block::Size(section, kind) => after_size(section, kind, section.order.number(word)),
            Block::Link(section, size) => {
                after_link(section, size, section.order.short_number(word))
            }
            Block::Snap(section, size) => next_option(section, size, (size - 20) / 4, 1000),
            Block::Option(section, size, left, counts) => {
                after_option(section, size, left - 1, counts, word)
            }
            Block::Value(section, size, left, counts, fields) => {
                after_value(section, size, left, counts, fields)
            }
            Block::Resolution(section, size, left) => {
                after_resolution(section, size, left, word[0])
            }
            _ => unreachable!(),
        }
    }

    /// Takes a field of four bytes.
    pub fn field(self, word: &[u8]) -> Step
        /// The block is at a sound place.
        requires sound { is_sound_block_step self ≡ true }
        /// The field has four bytes.
        requires four { length word.now ≡ 4 }
        /// A field comes next.
        requires field { takes_bytes self ≡ false }
        /// It is what the definition makes of the field here.
        ensures step { result ≡ block_field_at self word.now }
        /// The step leads to a sound place, or refuses.
        ensures sound { IsSoundBlock result }
    {
        match self {
            Block::Interface(section, size) => {
                after_interface(section, size, section.order.number(word))
            }
            Block::High(section, size) => { after_high(section, size, section.order.number(word)) }
            Block::Low(section, size, high) => {
                after_low(section, size, high, section.order.number(word))
            }
            Block::Captured(section, size, start) => {
                after_captured(section, size, start, section.order.number(word))
            }
            Block::Original(section, size, start, captured) => {
                after_original(section, size, start, captured, section.order.number(word))
            }
            Block::Packet(section, size, left, body) => {
                behind(section, size, left, body.field(word))
            }
            Block::Unread(..) => unreachable!(),
            Block::End(section, size) => {
                if section.order.number(word) == size {
                    Ok((Block::Kind(section), None))
                } else {
                    Err(PcapFault::Size)
                }
            }
            _ => self.head_field(word),
        }
    }
}
