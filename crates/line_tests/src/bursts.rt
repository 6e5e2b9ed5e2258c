//! Tests of the cut of a line into bursts.
ghost use Rattle.std.specs.Prelude.{◌≡◌, ◌+◌, ◌<◌, ◌≤◌, length};

use frame_ending::{BurstCut, Cut};
use line_rules::{FourBytes, LineRules};
use std::alloc::{AllocError, Global};
use std::test::Fail;
use yasir_ticks::Tick;

// A part of a line.
#[derive(Drop)]
enum Part {
    Bytes(&'static [u8]),
    Silence(usize),
}

use Part::{Bytes, Silence};

fn add_part(line: &mut Vec<Tick>, part: &Part) -> Result<(), AllocError> {
    match part {
        Bytes(bytes) => {
            for byte in *bytes {
                line.push(Tick::Byte(*byte))?;
            }
        }
        Silence(ticks) => {
            for _ in 0..*ticks {
                line.push(Tick::Silent)?;
            }
        }
    }
    Ok(())
}

fn line_of(alloc: Global, parts: &[Part]) -> Result<Vec<Tick>, AllocError> {
    let mut line = Vec::new(alloc);
    for part in parts {
        add_part(&mut line, part)?;
    }
    Ok(line)
}

// Returns what each tick is, and the value after all of them.
fn cuts<R: LineRules>(alloc: Global, line: &[Tick]) -> Result<(Vec<Cut>, BurstCut<R>), AllocError>
    requires { length line.now < 1000 }
{
    let mut cut = BurstCut::new();
    let mut kinds = Vec::new(alloc);
    for tick in line {
        kinds.push(cut.step(*tick))?;
    }
    Ok((kinds, cut))
}

fn letter(cut: Cut) -> u8 {
    match cut {
        Cut::Start(_) => b's',
        Cut::Live(_) => b'l',
        Cut::Extra(_) => b'x',
        Cut::Pause(1) => b'1',
        Cut::Pause(2) => b'2',
        Cut::Pause(_) => b'3',
        Cut::Closed => b'c',
        Cut::Quiet => b'-',
    }
}

// What a value tells of a burst at the end of a line.
#[derive(Debug, PartialEq, Drop)]
struct Told {
    start: u64,
    last_live: u64,
    live: u16,
    extra: bool,
    over: bool,
    quiet: u8,
}

fn burst_told<R: LineRules>(cut: &BurstCut<R>) -> Told {
    Told {
        start: cut.start(),
        last_live: cut.last_live(),
        live: cut.rules().len(),
        extra: cut.extra(),
        over: cut.live_over(),
        quiet: cut.quiet(),
    }
}

fn letters_and_burst(alloc: Global, parts: &[Part]) -> Result<(Vec<u8>, Told), Fail> {
    let line = line_of(alloc, parts)?;
    if line.len() >= 1000 {
        return Err("a long line".into());
    }
    let (kinds, cut) = cuts::<FourBytes>(alloc, line.as_slice())?;
    let mut letters = Vec::new(alloc);
    for kind in &kinds {
        letters.push(letter(*kind))?;
    }
    Ok((letters, burst_told(&cut)))
}

const QUERY: &[u8] = b"\x01\x03\x00\x00\x00\x0A\xC5\xCD";

#[test]
fn one_silent_tick_between_all_bytes(rt: HostRuntime) -> Result<(), Fail> {
    let apart = [
        Silence(2),
        Bytes(b"\x01"),
        Silence(1),
        Bytes(b"\x03"),
        Silence(1),
        Bytes(b"\x00"),
        Silence(1),
        Bytes(b"\x00"),
        Silence(1),
        Bytes(b"\x00"),
        Silence(1),
        Bytes(b"\x0A"),
        Silence(1),
        Bytes(b"\xC5"),
        Silence(1),
        Bytes(b"\xCD"),
        Silence(1),
    ];
    let (letters, burst) = letters_and_burst(rt.alloc(), &apart)?;
    assert_eq!(rt; letters.as_slice(), b"--s1l1l1l1l1l1l1l1".as_slice());
    assert_eq!(rt;
        burst,
        Told {
            start: 2,
            last_live: 16,
            live: 8,
            extra: false,
            over: false,
            quiet: 1
        }
    );
    Ok(())
}

#[test]
fn three_silent_ticks_and_a_byte(rt: HostRuntime) -> Result<(), Fail> {
    let (letters, burst) = letters_and_burst(
        rt.alloc(),
        &[Bytes(QUERY), Silence(3), Bytes(b"\x00")],
    )?;
    assert_eq!(rt; letters.as_slice(), b"slllllll123x".as_slice());
    assert_eq!(rt;
        burst,
        Told {
            start: 0,
            last_live: 7,
            live: 8,
            extra: true,
            over: true,
            quiet: 0
        }
    );
    Ok(())
}

#[test]
fn four_silent_ticks_and_a_byte(rt: HostRuntime) -> Result<(), Fail> {
    let (letters, burst) = letters_and_burst(
        rt.alloc(),
        &[Bytes(QUERY), Silence(4), Bytes(b"\x00")],
    )?;
    assert_eq!(rt; letters.as_slice(), b"slllllll123cs".as_slice());
    assert_eq!(rt;
        burst,
        Told {
            start: 12,
            last_live: 12,
            live: 1,
            extra: false,
            over: false,
            quiet: 0
        }
    );
    Ok(())
}

#[test]
fn a_byte_more_than_there_is_room_for(rt: HostRuntime) -> Result<(), Fail> {
    let (letters, burst) = letters_and_burst(rt.alloc(), &[Bytes(&[0; 257]), Silence(4)])?;
    assert_eq!(rt; letters.len(), 261);
    assert_eq!(rt;
        (letters[0], letters[1], letters[255], letters[256]),
        (b's', b'l', b'l', b'x')
    );
    assert_eq!(rt;
        burst,
        Told {
            start: 0,
            last_live: 255,
            live: 256,
            extra: true,
            over: true,
            quiet: 4
        }
    );
    Ok(())
}
