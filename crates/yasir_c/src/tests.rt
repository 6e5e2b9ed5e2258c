//! Tests of the calls of C: a packet through a transmitter and a receiver, and each status.
use crate::answer::Answer;
use crate::exports::{
    begin, make, step, yasir_committed, yasir_floor, yasir_free, yasir_init, yasir_new, yasir_step,
    yasir_take_bytes, yasir_take_silence, yasir_version,
};
use crate::handle::Handle;
use crate::kind::KindNumbers;
use crate::spaced::Spaced;
use crate::spacer_exports::{yasir_spacer_new, yasir_spacer_step};
use crate::status::Status;
use std::alloc::Global;
use std::test::Fail;
use yasir_io::{SLOT_LEN, SlotBytes};

const KEY: u128 = 0x000102030405060708090a0b0c0d0e0f;

const SEALER: KindNumbers = KindNumbers {
    part: 0,
    protocol: 1,
    profile: 18,
    direction: 0,
};

const CHECKER: KindNumbers = KindNumbers { part: 1, ..SEALER };

const NO_KIND: KindNumbers = KindNumbers {
    profile: 20,
    ..SEALER
};

/// A request, and what is sent after it with number 1. The tag was made by openssl:
///   printf 010001030000000ac5cd0000000000000001 | xxd -r -p
///     | openssl dgst -sha1 -mac HMAC -macopt hexkey:000102030405060708090a0b0c0d0e0f | cut -c1-24
const REQUEST: &[u8] = b"\x01\x03\x00\x00\x00\x0a\xc5\xcd";

const TRAILER: &[u8] = b"\x00\x01\x01\x4c\x5b\x8d\x33\xc6\xd2\x9a\x34\x70\x13\xb0";

/// Slot B with number 1 for Modbus RTU with y18 in direction `ab`: the number, the link and the
/// version, and the complement of these.
const SLOT_OF_1: SlotBytes =
    *b"\x00\x00\x00\x00\x00\x00\x00\x01\x01\x00\x12\x02\xff\xff\xff\xff\xff\xff\xff\xfe\xfe\xff\xed\xfd";

const UNTOUCHED: Answer = Answer {
    number: 9,
    start: 9,
    len: 9,
    is_byte: 9,
    byte: 9,
    commit: 9,
    note: 9,
    why: 9,
    unused: 9,
};

/// What C is told of the step that seals the request: slot B must be written.
const ASKING: Answer = Answer {
    number: 0,
    start: 0,
    len: 0,
    is_byte: 0,
    byte: 0,
    commit: 2,
    note: 0,
    why: 0,
    unused: 0,
};

/// What that step returns, once the number is written: the first byte of the trailer, and its note.
const SEALED: Answer = Answer {
    number: 1,
    start: 0,
    len: 8,
    is_byte: 1,
    byte: 0,
    commit: 0,
    note: 1,
    why: 0,
    unused: 0,
};

const NOTHING_SPACED: Spaced = Spaced {
    lost_start: 9,
    is_byte: 9,
    byte: 9,
    is_lost: 9,
    unused: 9,
};

const SILENT: u16 = 256;

const FRAME_AND_PAUSE: &[u16] = &[1, 3, 0, 0, 0, 0x0a, 0xc5, 0xcd, SILENT, SILENT, SILENT];

// Returns a box over a new journal.
fn made(alloc: Global, kind: &KindNumbers) -> Result<Handle, Fail> {
    let mut slots = [0; 2 * SLOT_LEN];
    let Status::Done = begin(kind, &mut slots[..SLOT_LEN]) else {
        return Err("no journal begins".into());
    };
    let mut handle = Handle::empty();
    match make(alloc, &mut handle, kind, &KEY.to_be_bytes(), &slots) {
        Status::Done => Ok(handle),
        _ => Err("no box is made".into()),
    }
}

// Gives a transmitter the request, and the silence up to the step that seals it. Returns the slot
// that must then be written.
fn asked(alloc: Global, handle: &mut Handle) -> Result<SlotBytes, Fail> {
    let (mut answer, mut slot) = (UNTOUCHED, [9; SLOT_LEN]);
    for tick in FRAME_AND_PAUSE {
        let Status::Done = step(alloc, handle, *tick, &mut answer, &mut slot) else {
            return Err("a step is refused".into());
        };
    }
    let Status::Commit = step(alloc, handle, SILENT, &mut answer, &mut slot) else {
        return Err("nothing is to be written".into());
    };
    match answer == ASKING {
        true => Ok(slot),
        false => Err("more is told than what must be written".into()),
    }
}

#[test]
fn a_request_is_sealed(rt: HostRuntime) -> Result<(), Fail> {
    let alloc = rt.alloc();
    let mut handle = made(alloc, &SEALER)?;
    assert_eq!(rt; asked(alloc, &mut handle)?, SLOT_OF_1);
    assert_eq!(rt; yasir_floor(alloc, &mut handle), 1);
    let mut answer = UNTOUCHED;
    assert_eq!(rt; yasir_committed(alloc, &mut handle, 2, &mut answer), 1);
    assert_eq!(rt; answer, UNTOUCHED);
    assert_eq!(rt; yasir_committed(alloc, &mut handle, 1, &mut answer), 0);
    assert_eq!(rt; answer, SEALED);
    assert_eq!(rt; yasir_committed(alloc, &mut handle, 1, &mut answer), 1);
    let (mut left, mut count) = ([9; 64], 9);
    let taken = yasir_take_silence(alloc, &mut handle, 13, &mut left, &mut count);
    assert_eq!(rt; (taken, count), (13, 13));
    assert_eq!(rt; left.get(..13), TRAILER.get(1..));
    yasir_free(alloc, &mut handle);
    assert_eq!(rt; yasir_version(), 2);
    Ok(())
}

#[test]
fn nothing_leaves_before_the_number_is_written(rt: HostRuntime) -> Result<(), Fail> {
    let alloc = rt.alloc();
    let mut handle = made(alloc, &SEALER)?;
    let _asked = asked(alloc, &mut handle)?;
    let (mut answer, mut slot) = (UNTOUCHED, [9; SLOT_LEN]);
    let (mut left, mut count) = ([9; 64], 9);
    for status in [7, 8] {
        assert_eq!(rt;
            yasir_step(alloc, &mut handle, SILENT, &mut answer, &mut slot),
            status
        );
        assert_eq!(rt;
            yasir_take_silence(alloc, &mut handle, 13, &mut left, &mut count),
            0
        );
        assert_eq!(rt; count, 0);
        assert_eq!(rt; yasir_committed(alloc, &mut handle, 0, &mut answer), 8);
    }
    assert_eq!(rt; yasir_committed(alloc, &mut handle, 1, &mut answer), 8);
    assert_eq!(rt; (answer, slot, left), (UNTOUCHED, [9; SLOT_LEN], [9; 64]));
    assert_eq!(rt; yasir_floor(alloc, &mut handle), 1);
    yasir_free(alloc, &mut handle);
    Ok(())
}

#[test]
fn a_receiver_holds_a_frame_back(rt: HostRuntime) -> Result<(), Fail> {
    let alloc = rt.alloc();
    let mut handle = made(alloc, &CHECKER)?;
    let (mut left, mut count) = ([9; 64], 9);
    let taken = yasir_take_bytes(alloc, &mut handle, REQUEST, &mut left, &mut count);
    assert!(rt; taken <= REQUEST.len());
    assert_eq!(rt; count, 0);
    yasir_free(alloc, &mut handle);
    Ok(())
}

// Returns the status of making a box from these slots.
fn refused(alloc: Global, kind: &KindNumbers, slots: &[u8]) -> u8 {
    let mut handle = Handle::empty();
    yasir_new(alloc, &mut handle, kind, &KEY.to_be_bytes(), slots)
}

#[test]
fn no_box_is_made_without_its_journal(rt: HostRuntime) -> Result<(), Fail> {
    let alloc = rt.alloc();
    let blank = [0; 2 * SLOT_LEN];
    assert_eq!(rt; refused(alloc, &NO_KIND, &blank), 1);
    assert_eq!(rt; refused(alloc, &SEALER, &[0; SLOT_LEN]), 1);
    assert_eq!(rt; refused(alloc, &SEALER, &[0; 2 * SLOT_LEN + 1]), 1);
    assert_eq!(rt; refused(alloc, &SEALER, &blank), 2);
    let other = KindNumbers {
        direction: 1,
        ..SEALER
    };
    let mut slots = [0; 2 * SLOT_LEN];
    assert_eq!(rt; yasir_init(&other, &mut slots[..SLOT_LEN]), 0);
    assert_eq!(rt; refused(alloc, &SEALER, &slots), 3);
    Ok(())
}

#[test]
fn no_journal_begins_without_its_box(rt: HostRuntime) -> Result<(), Fail> {
    let (mut slot, mut short) = ([9; SLOT_LEN], [9; 9]);
    assert_eq!(rt; yasir_init(&NO_KIND, &mut slot), 1);
    assert_eq!(rt; yasir_init(&SEALER, &mut short), 1);
    assert_eq!(rt; (slot, short), ([9; SLOT_LEN], [9; 9]));
    Ok(())
}

#[test]
fn a_wrong_call_changes_nothing(rt: HostRuntime) -> Result<(), Fail> {
    let alloc = rt.alloc();
    let mut handle = made(alloc, &SEALER)?;
    let (mut answer, mut slot) = (UNTOUCHED, [9; SLOT_LEN]);
    assert_eq!(rt;
        yasir_step(alloc, &mut handle, 257, &mut answer, &mut slot),
        1
    );
    assert_eq!(rt;
        yasir_step(alloc, &mut handle, SILENT, &mut answer, &mut slot[..9]),
        1
    );
    assert_eq!(rt; (answer, slot), (UNTOUCHED, [9; SLOT_LEN]));
    let (mut left, mut count) = ([9; 63], 9);
    assert_eq!(rt;
        yasir_take_bytes(alloc, &mut handle, REQUEST, &mut left, &mut count),
        0
    );
    assert_eq!(rt; (left, count), ([9; 63], 0));
    let mut spaced = NOTHING_SPACED;
    assert_eq!(rt;
        yasir_spacer_step(alloc, &mut handle, SILENT, &mut spaced),
        9
    );
    assert_eq!(rt; yasir_spacer_new(alloc, &mut handle, 1, 18, 4), 1);
    assert_eq!(rt;
        yasir_new(
            alloc,
            &mut handle,
            &SEALER,
            &KEY.to_be_bytes(),
            &[0; 2 * SLOT_LEN]
        ),
        1
    );
    yasir_free(alloc, &mut handle);
    Ok(())
}

#[test]
fn only_a_box_is_asked_for_what_a_box_does(rt: HostRuntime) -> Result<(), Fail> {
    let alloc = rt.alloc();
    let mut handle = Handle::empty();
    let (mut answer, mut slot, mut spaced) = (UNTOUCHED, [9; SLOT_LEN], NOTHING_SPACED);
    let (mut left, mut count) = ([9; 64], 9);
    yasir_free(alloc, &mut handle);
    assert_eq!(rt;
        yasir_spacer_step(alloc, &mut handle, SILENT, &mut spaced),
        9
    );
    assert_eq!(rt; yasir_spacer_new(alloc, &mut handle, 1, 18, 0), 1);
    for status in [0, 1] {
        assert_eq!(rt;
            yasir_step(alloc, &mut handle, SILENT, &mut answer, &mut slot),
            9
        );
        assert_eq!(rt; yasir_committed(alloc, &mut handle, 1, &mut answer), 9);
        assert_eq!(rt;
            yasir_take_silence(alloc, &mut handle, 9, &mut left, &mut count),
            0
        );
        assert_eq!(rt; yasir_floor(alloc, &mut handle), 0);
        assert_eq!(rt; spaced, NOTHING_SPACED);
        assert_eq!(rt; yasir_spacer_new(alloc, &mut handle, 1, 18, 4), status);
    }
    assert_eq!(rt; (answer, slot, count), (UNTOUCHED, [9; SLOT_LEN], 0));
    assert_eq!(rt; yasir_spacer_step(alloc, &mut handle, 257, &mut spaced), 1);
    assert_eq!(rt;
        yasir_spacer_step(alloc, &mut handle, SILENT, &mut spaced),
        0
    );
    assert_eq!(rt; (spaced.is_byte, spaced.is_lost), (0, 0));
    yasir_free(alloc, &mut handle);
    Ok(())
}
