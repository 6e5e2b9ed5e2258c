//! Tests of the key's text: right texts, refused texts, and a read that fails.
ghost use Rattle.std.specs.Prelude.{◌≤◌};

use command_ends::{Key, KeyError, read_key};
use std::alloc::Global;
use std::test::Fail;
use yasir_io::{MemSource, Plan};

/// Sixteen digits, which each key text in these tests repeats. `BYTES` are the eight bytes that
/// they spell.
const DIGITS: &[u8; 16] = b"0123456789aBcDEf";

const BYTES: [u8; 8] = [0x01, 0x23, 0x45, 0x67, 0x89, 0xab, 0xcd, 0xef];

// A key text of this many digits, followed by `behind`.
fn text_of(alloc: Global, digits: usize, behind: &[u8]) -> Result<Vec<u8>, Fail> {
    let mut text = Vec::new(alloc);
    for place in 0..digits {
        text.push(DIGITS[place % 16])?;
    }
    text.extend_from_slice(behind)?;
    Ok(text)
}

// Reads a key text in pieces of up to `piece` bytes.
fn read(text: &[u8], piece: u16) -> Result<Key, KeyError>
    requires some { 1 ≤ piece }
    requires within { piece ≤ 512 }
{
    let mut source = MemSource::new(text, piece, Plan::new());
    read_key(&mut source)
}

// Whether a key was read that has the bytes which this many digits spell.
fn is_spelled(key: &Result<Key, KeyError>, digits: usize) -> bool {
    let Ok(key) = key else {
        return false;
    };
    for (place, byte) in key.iter().enumerate() {
        if *byte != BYTES[place % 8] {
            return false;
        }
    }
    key.len() == digits / 2
}

// How many digits a key text has, and what comes after them.
type Right = (usize, &'static [u8]);

const RIGHT: [Right; 6] = [
    (32, b""),
    (32, b"\n"),
    (34, b"\r\n"),
    (126, b"\n"),
    (128, b""),
    (128, b"\r\n"),
];

// Whether a key text is read, byte by byte and in one piece.
fn is_read(text: &[u8], digits: usize) -> bool {
    is_spelled(&read(text, 1), digits) && is_spelled(&read(text, 512), digits)
}

#[test]
fn reads_the_key_of_a_right_text(rt: HostRuntime) -> Result<(), Fail> {
    for (digits, behind) in &RIGHT {
        let text = text_of(rt.alloc(), *digits, behind)?;
        assert!(rt; is_read(text.as_slice(), *digits));
    }
    Ok(())
}

// How many digits a text has, what comes after them, and the place that is refused.
type Wrong = (usize, &'static [u8], u32);

const WRONG: [Wrong; 16] = [
    (0, b"", 0),
    (0, b"\n", 0),
    (30, b"", 30),
    (30, b"\n", 30),
    (31, b"g", 31),
    (32, b" ", 32),
    (32, b"\r", 33),
    (32, b"\rx", 33),
    (32, b"\n\n", 33),
    (32, b"\r\n\n", 34),
    (33, b"", 33),
    (33, b"\n", 33),
    (128, b"\r", 129),
    (128, b"\r\n ", 130),
    (129, b"", 128),
    (130, b"", 128),
];

// Whether a text is refused at this place, byte by byte and in one piece.
fn is_refused(text: &[u8], place: u32) -> bool {
    let bad = Some(KeyError::Bad { place });
    read(text, 1).err() == bad && read(text, 512).err() == bad
}

#[test]
fn refuses_what_is_no_key_text(rt: HostRuntime) -> Result<(), Fail> {
    for (digits, behind, place) in &WRONG {
        let text = text_of(rt.alloc(), *digits, behind)?;
        assert!(rt; is_refused(text.as_slice(), *place));
    }
    Ok(())
}

// Whether no key is read if call `fail` fails.
fn read_fails(fail: u32) -> bool {
    let mut plan = Plan::new();
    plan.push(fail);
    let mut source = MemSource::new(b"0123456789abcdef0123456789abcdef", 1, plan);
    read_key(&mut source).err() == Some(KeyError::Fault)
}

#[test]
fn answers_a_read_that_fails(rt: HostRuntime) -> Result<(), Fail> {
    assert!(rt; read_fails(1));
    assert!(rt; read_fails(2));
    assert!(rt; read_fails(33));
    Ok(())
}
