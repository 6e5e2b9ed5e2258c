//! Verdicts on small recordings: each verdict, places, floors, and each protocol and profile.
ghost use Rattle.std.specs.Prelude.{◌≤◌, length, IfOk};
ghost use Rattle.sequence_journal.specs.declared.numbers.TheConstants.{LIMIT};
ghost use Rattle.session_audit.specs.Sessions.{IsSession, max_recorded};

use command_ends::{Profile, Proto};
use session_audit::{Counts, Dir, Finding, ReadFrame, Session, Tolerance, audit};
use std::alloc::Global;
use std::process::Abort;
use std::test::Fail;
use yasir_ticks::Tick;

const KEY: [u8; 16] = [0, 1, 2, 3, 4, 5, 6, 7, 8, 9, 10, 11, 12, 13, 14, 15];

const READ_TEN_REGISTERS: &[u8] = b"\x01\x03\x00\x00\x00\x0a\xc5\xcd";

const READ_ONE_REGISTER: &[u8] = b"\x01\x03\x00\x00\x00\x01\x84\x0a";

const RESET_LINK: &[u8] = b"\x05\x64\x05\xc0\x01\x00\x00\x04\xe9\x21";

// Words and tags. The tags are by openssl:
//   printf 010001030000000ac5cd0000000000000001 | xxd -r -p
//     | openssl dgst -sha1 -mac HMAC -macopt hexkey:000102030405060708090a0b0c0d0e0f
//     | cut -c1-24
// The others are made alike: with the other numbers and the other frame, for DNP3 with 0200 in
// front, and by y24 with -sha256 and cut -c1-32.
const TEN_AS_1: &[u8] = b"\x00\x01\x01\x4c\x5b\x8d\x33\xc6\xd2\x9a\x34\x70\x13\xb0";

const ONE_AS_1: &[u8] = b"\x00\x01\xec\x3b\xeb\x0f\x43\xa9\xc8\x25\xb9\x48\xc8\x40";

const ONE_AS_2: &[u8] = b"\x00\x02\xee\x5b\x1d\x1d\x6f\xc1\x59\xaf\x24\x11\xae\xb5";

const WIDE_TEN_AS_1: &[u8] =
    b"\x00\x00\x00\x01\x65\xd2\x45\xba\x10\x95\x09\xaa\x6c\x32\xac\x3c\xfa\x22\x8f\xd6";

const RESET_AS_1: &[u8] = b"\x00\x01\x79\x34\x84\xb9\xbd\xf8\x58\xbb\xd8\x2b\x55\x9e";

const WIDE_RESET_AS_8: &[u8] =
    b"\x00\x00\x00\x08\x9e\x71\x90\x0c\xb2\x56\x92\xe4\xde\x5a\xa1\x76\x8c\x9d\xb4\x71";

/// A part of a line.
#[derive(Clone, Copy)]
enum Part<'a> {
    Bytes(&'a [u8]),
    Silence(usize),
}

use Part::{Bytes, Silence};

// Returns the ticks of a line.
fn line_of(alloc: Global, parts: &[Part<'_>]) -> Result<Vec<Tick>, Fail>
    ensures { IfOk result (λ line. length line.items ≤ max_recorded) }
{
    let mut line = Vec::new(alloc);
    for part in parts {
        match *part {
            Bytes(bytes) => {
                for byte in bytes {
                    line.push(Tick::Byte(*byte))?;
                }
            }
            Silence(ticks) => {
                for _ in 0..ticks {
                    line.push(Tick::Silent)?;
                }
            }
        }
    }
    if line.len() > 1000 {
        return Err(Fail::from("the line is too long"));
    }
    Ok(line)
}

/// A protocol and a profile: Modbus RTU or DNP3, by y18 or by y24.
#[derive(Clone, Copy)]
enum Link {
    Rtu,
    Dnp,
    WideRtu,
    WideDnp,
}

// Returns a session in direction `ab` with these floors.
fn session_of(link: Link, sent_floor: u64, got_floor: u64) -> Session<'static>
    requires sent { sent_floor ≤ LIMIT }
    requires got { got_floor ≤ LIMIT }
    ensures { IsSession result }
{
    let (proto, profile) = match link {
        Link::Rtu => (Proto::Rtu, Profile::Y18),
        Link::Dnp => (Proto::Dnp3, Profile::Y18),
        Link::WideRtu => (Proto::Rtu, Profile::Y24),
        Link::WideDnp => (Proto::Dnp3, Profile::Y24),
    };
    Session {
        proto,
        profile,
        dir: Dir::Ab,
        key: &KEY,
        sent_floor,
        got_floor,
        tolerance: Tolerance::exact(),
    }
}

/// The recordings of a session: the line of the device that sends, the link, and the line of the
/// device that receives.
#[derive(Clone, Copy)]
struct Recorded<'a> {
    device: &'a [Part<'a>],
    link: &'a [Part<'a>],
    received: &'a [Part<'a>],
}

/// A frame that is read, or that should be: the tick of its first byte, and its bytes.
#[derive(Clone, Copy)]
struct Frame {
    start: u64,
    bytes: &'static [u8],
}

/// What an audit should find.
#[derive(Clone, Copy)]
enum Wanted {
    Empty,
    Clean,
    Forged {
        number: u64,
        start: u64,
    },
    Differs {
        place: u64,
        expected: Option<Frame>,
        found: Option<Frame>,
    },
}

// Whether this is the frame that is wanted, or there is none and none is wanted.
fn is_frame(frame: &Option<ReadFrame>, wanted: Option<Frame>) -> bool {
    match (frame, wanted) {
        (None, None) => true,
        (Some(frame), Some(wanted)) => {
            frame.start() == wanted.start && frame.bytes() == wanted.bytes
        }
        _ => false,
    }
}

// Whether this is what should be found.
fn is_finding(finding: &Finding, wanted: Wanted) -> bool {
    match (finding, wanted) {
        (Finding::Empty, Wanted::Empty) => true,
        (Finding::Clean, Wanted::Clean) => true,
        (
            Finding::Forged { number, start },
            Wanted::Forged {
                number: other,
                start: tick,
            },
        ) => { *number == other && *start == tick }
        (
            Finding::Differs(difference),
            Wanted::Differs {
                place,
                expected,
                found,
            },
        ) => {
            difference.place == place
                && is_frame(&difference.expected, expected)
                && is_frame(&difference.found, found)
        }
        _ => false,
    }
}

// How many frames were sealed, have passed and were read.
fn counts(sealed: u32, passed: u32, read: u32) -> Counts {
    Counts {
        sealed,
        passed,
        read,
    }
}

/// The verdict that is wanted.
#[derive(Clone, Copy)]
struct Verdict {
    counts: Counts,
    finding: Wanted,
}

// Checks that an audit of these recordings returns this verdict.
fn finds(
    rt: &impl Abort,
    alloc: Global,
    session: Session<'_>,
    recorded: Recorded<'_>,
    verdict: Verdict,
) -> Result<(), Fail>
    requires { IsSession session }
{
    let device = line_of(alloc, recorded.device)?;
    let link = line_of(alloc, recorded.link)?;
    let received = line_of(alloc, recorded.received)?;
    let found = audit(
        alloc,
        &session,
        device.as_slice(),
        link.as_slice(),
        received.as_slice(),
    );
    match found {
        Ok(found) => {
            assert_eq!(rt; found.counts, verdict.counts);
            assert!(rt; is_finding(&found.finding, verdict.finding));
        }
        Err(_) => return Err(Fail::from("no memory")),
    }
    Ok(())
}

const SENT: &[Part<'static>] = &[Bytes(READ_TEN_REGISTERS), Silence(40)];

// A frame was sealed with the number, but another frame passed with it.
#[test]
fn a_number_alone_does_not_tell(rt: HostRuntime) -> Result<(), Fail> {
    let all = Recorded {
        device: SENT,
        link: &[
            Silence(7),
            Bytes(READ_ONE_REGISTER),
            Silence(3),
            Bytes(ONE_AS_1),
            Silence(40),
        ],
        received: &[Silence(25), Bytes(READ_ONE_REGISTER), Silence(10)],
    };
    let forged = Verdict {
        counts: counts(1, 1, 1),
        finding: Wanted::Forged {
            number: 1,
            start: 7,
        },
    };
    finds(&rt, rt.alloc(), session_of(Link::Rtu, 0, 0), all, forged)
}

// A line of two frames, and the link with their packets.
const SENT_TWICE: &[Part<'static>] = &[
    Bytes(READ_TEN_REGISTERS),
    Silence(32),
    Bytes(READ_ONE_REGISTER),
    Silence(32),
];

const PACKETS_1_AND_2: &[Part<'static>] = &[
    Bytes(READ_TEN_REGISTERS),
    Silence(3),
    Bytes(TEN_AS_1),
    Silence(15),
    Bytes(READ_ONE_REGISTER),
    Silence(3),
    Bytes(ONE_AS_2),
    Silence(15),
];

/// The line of the device that receives two frames, and the verdict.
#[derive(Clone, Copy)]
struct Received {
    line: &'static [Part<'static>],
    verdict: Verdict,
}

// Two frames were sealed, have passed and were read.
const TWICE: Counts = Counts {
    sealed: 2,
    passed: 2,
    read: 2,
};

// The second frame, as it should be read: it starts on the link in tick 40, and 18 ticks later it
// leaves the receiver.
const SECOND: Option<Frame> = Some(Frame {
    start: 58,
    bytes: READ_ONE_REGISTER,
});

const RECEIVED: [Received; 4] = [
    Received {
        line: &[
            Silence(18),
            Bytes(READ_TEN_REGISTERS),
            Silence(32),
            Bytes(READ_ONE_REGISTER),
        ],
        verdict: Verdict {
            counts: TWICE,
            finding: Wanted::Clean,
        },
    },
    // Only the first frame.
    Received {
        line: &[Silence(18), Bytes(READ_TEN_REGISTERS), Silence(50)],
        verdict: Verdict {
            counts: Counts { read: 1, ..TWICE },
            finding: Wanted::Differs {
                place: 1,
                expected: SECOND,
                found: None,
            },
        },
    },
    // The second frame comes a tick late.
    Received {
        line: &[
            Silence(18),
            Bytes(READ_TEN_REGISTERS),
            Silence(33),
            Bytes(READ_ONE_REGISTER),
        ],
        verdict: Verdict {
            counts: TWICE,
            finding: Wanted::Differs {
                place: 1,
                expected: SECOND,
                found: Some(Frame {
                    start: 59,
                    bytes: READ_ONE_REGISTER,
                }),
            },
        },
    },
    // Both frames and one more.
    Received {
        line: &[
            Silence(18),
            Bytes(READ_TEN_REGISTERS),
            Silence(32),
            Bytes(READ_ONE_REGISTER),
            Silence(4),
            Bytes(READ_ONE_REGISTER),
        ],
        verdict: Verdict {
            counts: Counts { read: 3, ..TWICE },
            finding: Wanted::Differs {
                place: 2,
                expected: None,
                found: Some(Frame {
                    start: 70,
                    bytes: READ_ONE_REGISTER,
                }),
            },
        },
    },
];

// Checks that an audit of two frames, their packets and the line of a row finds the verdict of the
// row.
fn finds_received(rt: &impl Abort, alloc: Global, row: &Received) -> Result<(), Fail> {
    let all = Recorded {
        device: SENT_TWICE,
        link: PACKETS_1_AND_2,
        received: row.line,
    };
    finds(rt, alloc, session_of(Link::Rtu, 0, 0), all, row.verdict)
}

// Two frames passed. If the device read only the first one, both and one more, or the second one a
// tick late, the verdict has the first place that differs, and both frames there.
#[test]
fn places_are_counted_from_0(rt: HostRuntime) -> Result<(), Fail> {
    for row in &RECEIVED {
        finds_received(&rt, rt.alloc(), row)?;
    }
    Ok(())
}

/// A clean session of one frame: its link, the floor of both boxes, and its recordings.
#[derive(Clone, Copy)]
struct CleanSession {
    link: Link,
    floor: u32,
    recorded: Recorded<'static>,
}

const CLEAN_SESSIONS: [CleanSession; 3] = [
    CleanSession {
        link: Link::WideRtu,
        floor: 0,
        recorded: Recorded {
            device: SENT,
            link: &[
                Bytes(READ_TEN_REGISTERS),
                Silence(3),
                Bytes(WIDE_TEN_AS_1),
                Silence(47),
            ],
            received: &[Silence(24), Bytes(READ_TEN_REGISTERS), Silence(366)],
        },
    },
    CleanSession {
        link: Link::Dnp,
        floor: 0,
        recorded: Recorded {
            device: &[Bytes(RESET_LINK), Silence(40)],
            link: &[
                Bytes(RESET_LINK),
                Silence(3),
                Bytes(RESET_AS_1),
                Silence(47),
            ],
            received: &[Silence(18), Bytes(RESET_LINK), Silence(366)],
        },
    },
    CleanSession {
        link: Link::WideDnp,
        floor: 7,
        recorded: Recorded {
            device: &[Silence(2), Bytes(RESET_LINK), Silence(40)],
            link: &[
                Silence(2),
                Bytes(RESET_LINK),
                Silence(3),
                Bytes(WIDE_RESET_AS_8),
            ],
            received: &[Silence(26), Bytes(RESET_LINK)],
        },
    },
];

// Checks that the session of a row is clean, and that its frame was sealed, has passed and was
// read.
fn is_clean(rt: &impl Abort, alloc: Global, row: &CleanSession) -> Result<(), Fail> {
    let floor = u64::from(row.floor);
    let clean = Verdict {
        counts: counts(1, 1, 1),
        finding: Wanted::Clean,
    };
    let session = session_of(row.link, floor, floor);
    finds(rt, alloc, session, row.recorded, clean)
}

// Clean sessions with the other profile, with the other protocol, and with both.
#[test]
fn each_protocol_and_profile_is_judged(rt: HostRuntime) -> Result<(), Fail> {
    for row in &CLEAN_SESSIONS {
        is_clean(&rt, rt.alloc(), row)?;
    }
    Ok(())
}
