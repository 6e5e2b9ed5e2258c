//! Tests of the eight boxes: a packet of each link through its transmitter and its receiver, what
//! the caller must write, and slots that hold no journal.
use any_box::{AnyNote, Commit, HeldBox, HeldStep, Kind, Part, Profile, Proto};
use check_receiver::{CheckNote, RefusedWhy};
use link_format::Dir;
use seal_transmitter::SealNote;
use sequence_journal::{LoadError, slot_of};
use std::alloc::{AllocError, Global};
use std::test::Fail;
use yasir_io::{SLOT_LEN, Slot, SlotBytes};
use yasir_ticks::Tick;

const KEY: u128 = 0x000102030405060708090a0b0c0d0e0f;

const BLANK: SlotBytes = [0; SLOT_LEN];

/// A request that asks for ten registers, and a DNP3 frame that resets a link.
const READ_TEN_REGISTERS: &[u8] = b"\x01\x03\x00\x00\x00\x0a\xc5\xcd";

const RESET_LINK: &[u8] = b"\x05\x64\x05\xc0\x01\x00\x00\x04\xe9\x21";

/// A frame on the link of this protocol and profile, and its trailer with number 1 in direction
/// `ab`.
struct Packet {
    proto: Proto,
    profile: Profile,
    frame: &'static [u8],
    trailer: &'static [u8],
}

// The tags are by openssl:
//   printf 010001030000000ac5cd0000000000000001 | xxd -r -p
//     | openssl dgst -sha1 -mac HMAC -macopt hexkey:000102030405060708090a0b0c0d0e0f
//     | cut -c1-24
// The others are made alike: for DNP3 with 0200 in front of its frame, and by y24 with -sha256 and
// cut -c1-32.
const PACKETS: [Packet; 4] = [
    Packet {
        proto: Proto::Rtu,
        profile: Profile::Y18,
        frame: READ_TEN_REGISTERS,
        trailer: b"\x00\x01\x01\x4c\x5b\x8d\x33\xc6\xd2\x9a\x34\x70\x13\xb0",
    },
    Packet {
        proto: Proto::Dnp3,
        profile: Profile::Y18,
        frame: RESET_LINK,
        trailer: b"\x00\x01\x79\x34\x84\xb9\xbd\xf8\x58\xbb\xd8\x2b\x55\x9e",
    },
    Packet {
        proto: Proto::Rtu,
        profile: Profile::Y24,
        frame: READ_TEN_REGISTERS,
        trailer: b"\x00\x00\x00\x01\x65\xd2\x45\xba\x10\x95\x09\xaa\x6c\x32\xac\x3c\xfa\x22\x8f\xd6",
    },
    Packet {
        proto: Proto::Dnp3,
        profile: Profile::Y24,
        frame: RESET_LINK,
        trailer: b"\x00\x00\x00\x01\xcd\x52\x5d\x6a\x6c\x11\x90\x47\xd4\x5d\xb5\xba\x9f\x9e\x42\x90",
    },
];

// Adds these bytes to a line, one a tick, and then this many silent ticks.
fn add(line: &mut Vec<Tick>, bytes: &[u8], silence: usize) -> Result<(), AllocError> {
    for byte in bytes {
        line.push(Tick::Byte(*byte))?;
    }
    for _ in 0..silence {
        line.push(Tick::Silent)?;
    }
    Ok(())
}

impl Packet {
    fn kind(&self, part: Part) -> Kind {
        Kind {
            part,
            proto: self.proto,
            profile: self.profile,
        }
    }

    // Returns the number of bytes of the frame.
    fn frame_len(&self) -> u16 {
        self.frame.len().min(0xFFFF) as u16
    }

    // Returns a box whose journal has floor 0.
    fn made(&self, part: Part) -> Result<HeldBox, Fail> {
        let kind = self.kind(part);
        let new_journal = slot_of(0, &kind.link(Dir::Ab));
        let held = HeldBox::new(kind, Dir::Ab, &KEY.to_be_bytes(), new_journal, BLANK)?;
        Ok(held)
    }

    // Returns the line of the device that sends the frame.
    fn device_line(&self, alloc: Global) -> Result<Vec<Tick>, AllocError> {
        let mut line = Vec::new(alloc);
        add(&mut line, self.frame, 60)?;
        Ok(line)
    }

    // Returns the link that the transmitter makes of the device's line, with as many ticks.
    fn link_line(&self, alloc: Global) -> Result<Vec<Tick>, AllocError> {
        let mut line = Vec::new(alloc);
        add(&mut line, self.frame, 3)?;
        add(
            &mut line,
            self.trailer,
            57_usize.saturating_sub(self.trailer.len()),
        )?;
        Ok(line)
    }

    // Returns what must be written for number 1. It goes into slot B, since slot A keeps number 0.
    fn owed(&self) -> Commit {
        Commit {
            slot: Slot::B,
            bytes: slot_of(1, &self.kind(Part::Sealer).link(Dir::Ab)),
        }
    }
}

/// What the steps of a box over a line returned: the other line, and the steps that have a note or a
/// commit, each with its place.
#[derive(Drop)]
struct Walk {
    other: Vec<Tick>,
    noted: Vec<(usize, HeldStep)>,
}

impl Walk {
    // Adds the next step.
    fn add(&mut self, step: HeldStep) -> Result<(), AllocError> {
        if step.note.is_some() || step.commit.is_some() {
            self.noted.push((self.other.len(), step))?;
        }
        self.other.push(step.tick)?;
        Ok(())
    }
}

// Takes a tick.
fn step_of(held: &mut HeldBox, tick: Tick) -> Result<HeldStep, Fail> {
    match held.step(tick) {
        Ok(step) => Ok(step),
        Err(_) => Err("a box is full".into()),
    }
}

// Steps a box over a line.
fn step_all(alloc: Global, held: &mut HeldBox, line: &[Tick]) -> Result<Walk, Fail> {
    let mut walk = Walk {
        other: Vec::new(alloc),
        noted: Vec::new(alloc),
    };
    for tick in line {
        walk.add(step_of(held, *tick)?)?;
    }
    Ok(walk)
}

// Whether these are one step, with this note and this commit.
fn is_once(noted: &[(usize, HeldStep)], note: AnyNote, commit: Option<Commit>) -> bool {
    match noted {
        [(_, step)] => step.note == Some(note) && step.commit == commit,
        _ => false,
    }
}

// Whether these are one step, at this place.
fn is_at(noted: &[(usize, HeldStep)], place: usize) -> bool {
    match noted {
        [(at, _)] => *at == place,
        _ => false,
    }
}

// Whether this is the last number that a box used, and it has taken as many ticks.
fn has_taken(held: &HeldBox, floor: u64, ticks: usize) -> bool {
    held.floor() == floor && held.ticks() == ticks as u64
}

// Whether the frame alone is noted and owes a commit, where its trailer begins.
fn notes_sealed(packet: &Packet, noted: &[(usize, HeldStep)]) -> bool {
    let sealed = SealNote::Sealed {
        number: 1,
        start: 0,
        len: packet.frame_len(),
    };
    is_once(noted, AnyNote::OfSealer(sealed), Some(packet.owed()))
        && is_at(noted, packet.frame.len().saturating_add(3))
}

// Whether a new transmitter makes this link of the packet's frame on this line.
fn is_sealed(alloc: Global, packet: &Packet, line: &[Tick], link: &[Tick]) -> Result<bool, Fail> {
    let mut sealer = packet.made(Part::Sealer)?;
    let walk = step_all(alloc, &mut sealer, line)?;
    Ok(
        walk.other.as_slice() == link
            && notes_sealed(packet, walk.noted.as_slice())
            && has_taken(&sealer, 1, line.len()),
    )
}

#[test]
fn each_frame_is_sealed(rt: HostRuntime) -> Result<(), Fail> {
    for packet in &PACKETS {
        let line = packet.device_line(rt.alloc())?;
        let link = packet.link_line(rt.alloc())?;
        assert!(rt; is_sealed(rt.alloc(), packet, line.as_slice(), link.as_slice())?);
    }
    Ok(())
}

// Whether the packet alone is noted and owes a commit, at the last byte of its trailer.
fn notes_passed(packet: &Packet, noted: &[(usize, HeldStep)]) -> bool {
    let passed = CheckNote::Passed {
        number: 1,
        start: 0,
        len: packet.frame_len(),
    };
    let len = packet.frame.len().saturating_add(packet.trailer.len());
    is_once(noted, AnyNote::OfChecker(passed), Some(packet.owed()))
        && is_at(noted, len.saturating_add(2))
}

// Whether a receiver passes the packet of this link.
fn passes(
    alloc: Global,
    packet: &Packet,
    checker: &mut HeldBox,
    link: &[Tick],
) -> Result<bool, Fail> {
    let walk = step_all(alloc, checker, link)?;
    Ok(notes_passed(packet, walk.noted.as_slice()))
}

// Whether a receiver refuses the packet of this link, of which it has taken as many ticks before.
fn refuses(alloc: Global, checker: &mut HeldBox, link: &[Tick]) -> Result<bool, Fail> {
    let walk = step_all(alloc, checker, link)?;
    let refused = CheckNote::Refused {
        start: link.len() as u64,
        why: RefusedWhy::Tag,
    };
    let note = AnyNote::OfChecker(refused);
    Ok(is_once(walk.noted.as_slice(), note, None))
}

// Whether a new receiver passes the packet of this link once. If the same packet comes a second
// time, its word is that of a greater number, which has another tag.
fn passes_once(alloc: Global, packet: &Packet, link: &[Tick]) -> Result<bool, Fail> {
    let mut checker = packet.made(Part::Checker)?;
    let passed = passes(alloc, packet, &mut checker, link)?;
    Ok(passed && refuses(alloc, &mut checker, link)?)
}

#[test]
fn a_packet_passes_once(rt: HostRuntime) -> Result<(), Fail> {
    for packet in &PACKETS {
        let link = packet.link_line(rt.alloc())?;
        assert!(rt; passes_once(rt.alloc(), packet, link.as_slice())?);
    }
    Ok(())
}

// A box that is made of the slots that were written goes on from their number.
#[test]
fn a_box_goes_on_where_it_was(rt: HostRuntime) -> Result<(), Fail> {
    for packet in &PACKETS {
        let kind = packet.kind(Part::Sealer);
        let a = slot_of(0, &kind.link(Dir::Ab));
        let held = HeldBox::new(kind, Dir::Ab, &KEY.to_be_bytes(), a, packet.owed().bytes)?;
        assert_eq!(rt; (held.floor(), held.ticks()), (1, 0));
    }
    Ok(())
}

// Whether no box is made of these slots, and this is why.
fn is_refused(kind: Kind, a: SlotBytes, b: SlotBytes, why: LoadError) -> bool {
    HeldBox::new(kind, Dir::Ab, &KEY.to_be_bytes(), a, b).err() == Some(why)
}

// Whether no box is made of slots in which nothing was written.
fn refuses_blank(kind: Kind) -> bool {
    let bad = LoadError::Bad { a: BLANK, b: BLANK };
    is_refused(kind, BLANK, BLANK, bad)
}

// Whether no box is made of the slots of the other direction.
fn refuses_other_link(kind: Kind) -> bool {
    let slot = slot_of(7, &kind.link(Dir::Ba));
    is_refused(kind, BLANK, slot, LoadError::WrongLink { slot })
}

#[test]
fn slots_without_a_journal_are_refused(rt: HostRuntime) -> Result<(), Fail> {
    for packet in &PACKETS {
        let kind = packet.kind(Part::Checker);
        assert!(rt; refuses_blank(kind));
        assert!(rt; refuses_other_link(kind));
    }
    Ok(())
}
