//! Boxes of links that the program doesn't have: those of a third protocol, with words of one byte
//! and of three.
ghost use Rattle.std.specs.Prelude.{◌<◌, length};

use crate::third_rules::ThirdRules;
use check_receiver::Checker;
use link_box::LinkBox;
use link_format::HmacSha1;
use seal_transmitter::{Dir, Sealer};
use sequence_journal::{Journal, LinkId, link_in, slot_of};
use std::alloc::Global;
use std::test::Fail;
use yasir_io::{Slot, SlotBytes, SteadySlots};
use yasir_ticks::Tick;

/// The key of these boxes.
const KEY: u128 = 0x000102030405060708090a0b0c0d0e0f;

/// What a box has made of a line: the other line, and the slot into which it wrote last.
#[derive(Drop)]
struct Through {
    other: Vec<u8>,
    slot: SlotBytes,
}

// Runs a box of the direction `ab` over a line, from the number 0x10202 on. In the texts of both
// lines a point is silence.
fn run_box<X: LinkBox>(alloc: Global, line: &[u8]) -> Result<Through, Fail>
    requires widths { X.widths_fit }
    requires short { length line.now < 1000 }
{
    let served = X::link(Dir::Ab);
    let mut disk = SteadySlots::new(slot_of(0x10202, &served), [0; 24]);
    let mut journal = Journal::load(&mut disk, &served)?;
    let mut line_box = X::new(&KEY.to_be_bytes(), Dir::Ab);
    let mut other = Vec::new(alloc);
    for letter in line {
        let tick = match *letter {
            b'.' => Tick::Silent,
            byte => Tick::Byte(byte),
        };
        let step = line_box.step(tick, &mut journal, &mut disk)?;
        other.push(match step.tick {
            Tick::Silent => b'.',
            Tick::Byte(byte) => byte,
        })?;
    }
    Ok(Through {
        other,
        slot: disk.slot(Slot::B),
    })
}

// The link of this profile whose label is that of the third protocol.
fn third(profile: u8) -> LinkId {
    LinkId {
        label: 3,
        dir: 0,
        profile,
    }
}

const DEVICE: &[u8] = b"\x01\x02\x03\x00......................";

// The trailer has the word of three bytes of number 0x10203, and its tag, which is by openssl:
//   printf 0300010203000000000000010203 | xxd -r -p
//     | openssl dgst -sha1 -mac HMAC -macopt hexkey:000102030405060708090a0b0c0d0e0f
//     | cut -c1-24
const LINK: &[u8] =
    b"\x01\x02\x03\x00...\x01\x02\x03\x97\x61\x93\xa3\xae\xbb\x5d\x78\x4a\x4a\xc6\xd9....";

// The frame leaves the receiver 19 ticks later than it came: its profile is 19.
const CHECKED: &[u8] = b"...................\x01\x02\x03\x00...";

#[test]
fn a_frame_of_a_third_protocol_is_sealed_and_passes(rt: HostRuntime) -> Result<(), Fail> {
    let sealed = run_box::<Sealer<ThirdRules, HmacSha1, 3>>(rt.alloc(), DEVICE)?;
    assert_eq!(rt; sealed.other.as_slice(), LINK);
    assert!(rt; link_in(&sealed.slot) == Some((0x10203, third(19))));
    let checked = run_box::<Checker<ThirdRules, HmacSha1, 3, 19>>(rt.alloc(), LINK)?;
    assert_eq!(rt; checked.other.as_slice(), CHECKED);
    assert!(rt; link_in(&checked.slot) == Some((0x10203, third(19))));
    Ok(())
}

// As `LINK`, with a word of one byte. The tag is that of the whole number, so it is the same one.
const NARROW_LINK: &[u8] =
    b"\x01\x02\x03\x00...\x03\x97\x61\x93\xa3\xae\xbb\x5d\x78\x4a\x4a\xc6\xd9......";

#[test]
fn a_word_may_have_one_byte(rt: HostRuntime) -> Result<(), Fail> {
    let sealed = run_box::<Sealer<ThirdRules, HmacSha1, 1>>(rt.alloc(), DEVICE)?;
    assert_eq!(rt; sealed.other.as_slice(), NARROW_LINK);
    assert!(rt; link_in(&sealed.slot) == Some((0x10203, third(17))));
    Ok(())
}
