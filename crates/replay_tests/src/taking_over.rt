//! Tests of a box over a journal with old slots, which name no link and are taken over, also if a
//! call of the disk fails, and of a box over a journal of another link.
use crate::outside::{Failing, STEADY, plan};
use crate::over_boxes::{BoxKind, Given, KEY, Ran, has_status, holds, replay_on, slots_hold};
use command_ends::Status;
use link_format::Dir;
use std::alloc::Global;
use std::process::Abort;
use std::test::Fail;
use yasir_io::{MemSlots, Slot};

/// An old slot that holds number 5, and one that holds none.
const OLD_5: [u8; 16] = [
    0, 0, 0, 0, 0, 0, 0, 5, 255, 255, 255, 255, 255, 255, 255, 250,
];

const OLD_ONES: [u8; 16] = [0x11; 16];

const BLANK: [u8; 24] = [0; 24];

/// Slots that hold the numbers 5 and 6 for `rtu ab`.
const NUMBER_5: [u8; 24] = [
    0, 0, 0, 0, 0, 0, 0, 5, 1, 0, 18, 2, 255, 255, 255, 255, 255, 255, 255, 250, 254, 255, 237, 253,
];

const NUMBER_6: [u8; 24] = [
    0, 0, 0, 0, 0, 0, 0, 6, 1, 0, 18, 2, 255, 255, 255, 255, 255, 255, 255, 249, 254, 255, 237, 253,
];

const REQUEST: &[u8] = b"+01030000000ac5cd\n-40\n";

// The tag by openssl:
//   printf 010001030000000ac5cd0000000000000006 | xxd -r -p
//     | openssl dgst -sha1 -mac HMAC -macopt hexkey:000102030405060708090a0b0c0d0e0f
//     | cut -c1-24
const SEALED_AT_6: &[u8] = b"+01030000000ac5cd\n-3\n+0006bffa8bcd3f6ad232de11820a\n-47\n";

// Runs the transmitter on the request, over a disk with old slots and these slots A and B.
fn seal_over(
    alloc: Global,
    dir: Dir,
    a: &[u8; 24],
    b: &[u8; 24],
    failing: &Failing,
) -> Result<Ran, Fail> {
    let fail = plan(failing.disk);
    let disk = MemSlots::with_room(alloc, OLD_5, OLD_ONES, *a, *b, 2000, fail)?;
    let given = Given {
        dir,
        key: KEY,
        text: REQUEST,
        failing,
    };
    replay_on(alloc, BoxKind::SealRtu, &given, disk)
}

// Checks that the old slots of a disk are as they were.
fn has_old_slots(rt: &impl Abort, disk: &MemSlots) {
    assert!(rt; disk.old_slot(Slot::A) == OLD_5);
    assert!(rt; disk.old_slot(Slot::B) == OLD_ONES);
}

// Checks that slots A and B of a disk hold these bytes, and that its old slots are as they were.
fn has_slots(rt: &impl Abort, disk: &MemSlots, a: &[u8; 24], b: &[u8; 24]) {
    has_old_slots(rt, disk);
    slots_hold(rt, disk, a, b);
}

// Checks that a run took over the number of the old slots, and sealed the request with the next.
fn is_taken_over(rt: &impl Abort, ran: &Ran) {
    assert!(rt; ran.status == Status::Done);
    holds(rt, &ran.out, SEALED_AT_6);
    holds(rt, &ran.log, b"sealed 6 at 0 len 8\n");
    has_slots(rt, &ran.disk, &NUMBER_5, &NUMBER_6);
}

#[test]
fn old_slots_are_taken_over(rt: HostRuntime) -> Result<(), Fail> {
    let ran = seal_over(rt.alloc(), Dir::Ab, &BLANK, &BLANK, &STEADY)?;
    is_taken_over(&rt, &ran);
    Ok(())
}

// Checks that a run refused the slots of another link, and left them as they were.
fn is_refused(rt: &impl Abort, ran: &Ran) {
    has_status(rt, &ran.status, &Status::WrongLink { slot: NUMBER_6 }, 12);
    holds(rt, &ran.out, b"");
    holds(
        rt,
        &ran.log,
        b"fault: wrong link 000000000000000601001202fffffffffffffff9feffedfd\n",
    );
    has_slots(rt, &ran.disk, &NUMBER_5, &NUMBER_6);
}

#[test]
fn slots_of_another_link_are_refused(rt: HostRuntime) -> Result<(), Fail> {
    let ran = seal_over(rt.alloc(), Dir::Ba, &NUMBER_5, &NUMBER_6, &STEADY)?;
    is_refused(&rt, &ran);
    Ok(())
}
