//! Tests of the duplex box: both directions, a reflected link, and a journal that fails.
use super::*;
use link_format::HmacSha1;
use rtu_frame::Rtu;
use sequence_journal::{Journal, LinkId};
use std::alloc::Global;
use std::process::Abort;
use std::test::Fail;
use yasir_io::{MemSlots, Plan, SlotDisk, SteadySlots};
use yasir_ticks::{Tick, TickRun};

/// The duplex box of Modbus RTU with profile y18.
type RtuDuplex = Duplex<Rtu, HmacSha1, 2, 18>;

const KEY: u128 = 0x000102030405060708090a0b0c0d0e0f;

const OUTGOING: LinkId = LinkId {
    label: 1,
    dir: 0,
    profile: 18,
};

const INCOMING: LinkId = LinkId {
    label: 1,
    dir: 1,
    profile: 18,
};

/// A request, and its trailer with number 1 in each direction. The tags are by openssl, with the
/// direction's byte 00 or 01:
///   printf 010001030000000ac5cd0000000000000001 | xxd -r -p
///     | openssl dgst -sha1 -mac HMAC -macopt hexkey:000102030405060708090a0b0c0d0e0f | cut -c1-24
const REQUEST: &[u8] = b"\x01\x03\x00\x00\x00\x0a\xc5\xcd";

const TRAILER_AB: &[u8] = b"\x00\x01\x01\x4c\x5b\x8d\x33\xc6\xd2\x9a\x34\x70\x13\xb0";

const TRAILER_BA: &[u8] = b"\x00\x01\x15\x0d\xa5\x68\x30\xaa\x1f\xa9\x41\x7b\xec\xc1";

// Returns the ticks of these runs, and silence after them up to `count` ticks in all.
fn line_of(alloc: Global, runs: &[TickRun<'_>], count: usize) -> Result<Vec<Tick>, Fail> {
    let mut line = Vec::new(alloc);
    for run in runs {
        match run {
            TickRun::Bytes(bytes) => {
                for byte in *bytes {
                    line.push(Tick::Byte(*byte))?;
                }
            }
            TickRun::Silence(ticks) => {
                for _ in 0..*ticks {
                    line.push(Tick::Silent)?;
                }
            }
        }
    }
    for _ in line.len()..count {
        line.push(Tick::Silent)?;
    }
    Ok(line)
}

/// What the steps of a box returned, up to a fault, and the last numbers that were committed by
/// then.
#[derive(Drop)]
struct Ran {
    steps: Vec<DuplexStep>,
    fault: Option<DuplexFault>,
    sent: u64,
    got: u64,
}

/// What the steps of a box are to return: the ticks of the link, those for the device, and the
/// notes of the transmitter and of the receiver, each with the place of its step.
#[derive(Clone, Copy)]
struct Wanted<'a> {
    link: &'a [Tick],
    device: &'a [Tick],
    sealed: &'a [(usize, SealNote)],
    checked: &'a [(usize, CheckNote)],
}

// Returns the tick of a line at this place, or silence if the line has ended.
fn tick_at(line: &[Tick], i: usize) -> Tick {
    match line.get(i) {
        Some(tick) => *tick,
        None => Tick::Silent,
    }
}

// Gives a box of direction `ab`, with new journals, these ticks: as many as the device's line has.
fn run<X: SlotDisk + Drop, Y: SlotDisk + Drop>(
    alloc: Global,
    mut sent_disk: X,
    mut got_disk: Y,
    device: &[Tick],
    link: &[Tick],
) -> Result<Ran, Fail> {
    if device.len() >= 1000 {
        return Err("a line of the tests is shorter".into());
    }
    let mut duplex = RtuDuplex::new(&KEY.to_be_bytes(), Dir::Ab);
    let mut sent = Journal::init(&mut sent_disk, &OUTGOING)?;
    let mut got = Journal::init(&mut got_disk, &INCOMING)?;
    let mut steps = Vec::new(alloc);
    let mut fault = None;
    for (i, from_device) in device.iter().enumerate() {
        match duplex.step(
            *from_device,
            tick_at(link, i),
            &mut sent,
            &mut sent_disk,
            &mut got,
            &mut got_disk,
        ) {
            Ok(step) => steps.push(step)?,
            Err(failed) => {
                fault = Some(failed);
                break;
            }
        }
    }
    Ok(Ran {
        steps,
        fault,
        sent: sent.floor(),
        got: got.floor(),
    })
}

// Whether a line has this tick at this place.
fn has_at(line: &[Tick], i: usize, tick: Tick) -> bool {
    match line.get(i) {
        Some(found) => *found == tick,
        None => false,
    }
}

// Whether a step has no note, or the next one of these, which is of its place.
fn is_due<N: Copy + PartialEq>(
    notes: &[(usize, N)],
    next: &mut usize,
    i: usize,
    note: Option<N>,
) -> bool {
    let Some(note) = note else {
        return true;
    };
    let due = notes.get(*next);
    *next = next.saturating_add(1);
    match due {
        Some((at, wanted)) => *at == i && *wanted == note,
        None => false,
    }
}

impl Ran {
    // Returns the place of the first step that has another tick of the link, or another one for
    // the device, if there is one.
    fn first_other(&self, link: &[Tick], device: &[Tick]) -> Option<usize> {
        for (i, step) in self.steps.iter().enumerate() {
            if !has_at(link, i, step.link) || !has_at(device, i, step.device) {
                return Some(i);
            }
        }
        None
    }

    // Whether these are the notes of both boxes, in the order of steps.
    fn has_notes(&self, sealed: &[(usize, SealNote)], checked: &[(usize, CheckNote)]) -> bool {
        let mut seals = 0;
        let mut checks = 0;
        for (i, step) in self.steps.iter().enumerate() {
            if !is_due(sealed, &mut seals, i, step.sealed)
                || !is_due(checked, &mut checks, i, step.checked)
            {
                return false;
            }
        }
        seals == sealed.len() && checks == checked.len()
    }

    // Checks the ticks of the link, those for the device, and the notes in the order of steps.
    fn check(&self, rt: &impl Abort, wanted: &Wanted<'_>) {
        assert!(rt; self.steps.len() == wanted.link.len());
        assert_eq!(rt; self.first_other(wanted.link, wanted.device), None);
        assert!(rt; self.has_notes(wanted.sealed, wanted.checked));
    }
}

const SEALED_AT_11: (usize, SealNote) = (
    11,
    SealNote::Sealed {
        number: 1,
        start: 0,
        len: 8,
    },
);

const SILENT_SLOT: [u8; 24] = [0; 24];

// Returns a disk with no number in its slots, whose call with this number fails.
fn disk_that_fails(alloc: Global, call: u32) -> Result<MemSlots, Fail> {
    let mut fail = Plan::new();
    fail.try_push(call).unwrap();
    let slots = MemSlots::with_room(alloc, [0; 16], [0; 16], SILENT_SLOT, SILENT_SLOT, 16, fail)?;
    Ok(slots)
}

fn steady_disk() -> SteadySlots {
    SteadySlots::new(SILENT_SLOT, SILENT_SLOT)
}

#[test]
fn a_request_is_sealed_and_a_silent_link_stays_silent(rt: HostRuntime) -> Result<(), Fail> {
    let alloc = rt.alloc();
    let device = line_of(alloc, &[TickRun::Bytes(REQUEST)], 328)?;
    let ran = run(alloc, steady_disk(), steady_disk(), &device, &[])?;
    let packet = [
        TickRun::Bytes(REQUEST),
        TickRun::Silence(3),
        TickRun::Bytes(TRAILER_AB),
    ];
    let link = line_of(alloc, &packet, 328)?;
    let received = line_of(alloc, &[], 328)?;
    let wanted = Wanted {
        link: link.as_slice(),
        device: received.as_slice(),
        sealed: &[SEALED_AT_11],
        checked: &[],
    };
    ran.check(&rt, &wanted);
    assert_eq!(rt; (ran.fault, ran.sent, ran.got), (None, 1, 0));
    Ok(())
}

// A packet that is sent back the way it came is refused: its tag is that of the other direction.
#[test]
fn a_reflected_packet_is_refused(rt: HostRuntime) -> Result<(), Fail> {
    let alloc = rt.alloc();
    let packet = [
        TickRun::Bytes(REQUEST),
        TickRun::Silence(3),
        TickRun::Bytes(TRAILER_AB),
    ];
    let device = line_of(alloc, &[TickRun::Bytes(REQUEST)], 368)?;
    let link = line_of(alloc, &packet, 368)?;
    let ran = run(alloc, steady_disk(), steady_disk(), &device, &link)?;
    // the last byte of its frame is spoiled
    let spoiled = [
        TickRun::Silence(18),
        TickRun::Bytes(b"\x01\x03\x00\x00\x00\x0a\xc5\xcc"),
    ];
    let received = line_of(alloc, &spoiled, 368)?;
    let refused = CheckNote::Refused {
        start: 0,
        why: RefusedWhy::Tag,
    };
    let wanted = Wanted {
        link: link.as_slice(),
        device: received.as_slice(),
        sealed: &[SEALED_AT_11],
        checked: &[(24, refused)],
    };
    ran.check(&rt, &wanted);
    assert_eq!(rt; (ran.fault, ran.sent, ran.got), (None, 1, 0));
    Ok(())
}

// Returns a device's line and a link. A frame of the device is sealed in the same step in which one
// of the link passes.
fn both_at_once(alloc: Global) -> Result<(Vec<Tick>, Vec<Tick>), Fail> {
    let late = [TickRun::Silence(13), TickRun::Bytes(REQUEST)];
    let packet = [
        TickRun::Bytes(REQUEST),
        TickRun::Silence(3),
        TickRun::Bytes(TRAILER_BA),
    ];
    Ok((line_of(alloc, &late, 50)?, line_of(alloc, &packet, 50)?))
}

#[test]
fn both_directions_use_numbers_in_one_step(rt: HostRuntime) -> Result<(), Fail> {
    let alloc = rt.alloc();
    let (device, link) = both_at_once(alloc)?;
    let ran = run(alloc, steady_disk(), steady_disk(), &device, &link)?;
    let sent = [
        TickRun::Silence(13),
        TickRun::Bytes(REQUEST),
        TickRun::Silence(3),
        TickRun::Bytes(TRAILER_AB),
    ];
    let received = [TickRun::Silence(18), TickRun::Bytes(REQUEST)];
    let sealed = SealNote::Sealed {
        number: 1,
        start: 13,
        len: 8,
    };
    let passed = CheckNote::Passed {
        number: 1,
        start: 0,
        len: 8,
    };
    let (sent, received) = (line_of(alloc, &sent, 50)?, line_of(alloc, &received, 50)?);
    let wanted = Wanted {
        link: sent.as_slice(),
        device: received.as_slice(),
        sealed: &[(24, sealed)],
        checked: &[(24, passed)],
    };
    ran.check(&rt, &wanted);
    assert_eq!(rt; (ran.fault, ran.sent, ran.got), (None, 1, 1));
    Ok(())
}

// The write of the first commit is the seventh call on the disk of a new journal. Making the
// journal took four reads, a write and a sync.
#[test]
fn a_fault_of_the_outgoing_journal_keeps_the_incoming_one(rt: HostRuntime) -> Result<(), Fail> {
    let alloc = rt.alloc();
    let (device, link) = both_at_once(alloc)?;
    let ran = run(
        alloc,
        disk_that_fails(alloc, 7)?,
        steady_disk(),
        &device,
        &link,
    )?;
    assert_eq!(rt;
        (ran.fault, ran.sent, ran.got),
        (Some(DuplexFault::Outgoing), 0, 0)
    );
    assert_eq!(rt; ran.steps.len(), 24);
    Ok(())
}

#[test]
fn a_fault_of_the_incoming_journal_leaves_what_was_sealed(rt: HostRuntime) -> Result<(), Fail> {
    let alloc = rt.alloc();
    let (device, link) = both_at_once(alloc)?;
    let ran = run(
        alloc,
        steady_disk(),
        disk_that_fails(alloc, 7)?,
        &device,
        &link,
    )?;
    assert_eq!(rt;
        (ran.fault, ran.sent, ran.got),
        (Some(DuplexFault::Incoming), 1, 0)
    );
    assert_eq!(rt; ran.steps.len(), 24);
    Ok(())
}
