//! Tests of both boxes and the device over lines of DNP3.
use crate::outside::STEADY;
use crate::over_boxes::{
    AT_0, AT_1, AT_2, BoxKind, FRESH, KEY, Reading, Row, compare_all, has_passed,
};
use crate::texts::add_times;
use command_ends::Status;
use device_model::hunters::DnpDevice;
use link_format::Dir;
use std::alloc::{AllocError, Global};
use std::process::Abort;
use std::test::Fail;

/// The packet of number 1 for a frame without user data.
const PACKET: &[u8] = b"+056405c001000004e921\n-3\n+0001793484b9bdf858bbd82b559e\n-47\n";

/// A row in which the frame of `PACKET` is sealed. The tags in this file are by openssl:
///   printf 0200056405c001000004e9210000000000000001 | xxd -r -p
///     | openssl dgst -sha1 -mac HMAC -macopt hexkey:000102030405060708090a0b0c0d0e0f
///     | cut -c1-24
const SEALED: Row = Row {
    dir: Dir::Ab,
    key: KEY,
    slots: FRESH,
    text: b"+056405c001000004e921\n-40\n",
    failing: STEADY,
    status: Status::Done,
    exit_status: 0,
    out: PACKET,
    log: b"sealed 1 at 0 len 10\n",
    slots_now: (AT_0, AT_1),
};

// The ticks and notes in these rows were computed from the rules of `docs/LINK.md` and
// `docs/DNP3.md`, over whole lines, by a program in another language.
const SEALS: [Row; 5] = [
    SEALED,
    Row {
        dir: Dir::Ba,
        text: b"+056405c001000004e921\n-4\n",
        out: b"+056405c001000004e921\n-3\n+00018b01a012925f9fd4bda843c1\n-11\n",
        ..SEALED
    },
    // Single silent ticks inside a frame.
    Row {
        text: b"+05\n-1\n+64\n-1\n+05\n-1\n+c0\n-1\n+01\n-1\n+00\n-1\n+00\n-1\n+04\n-1\n+e9\n-1\n\
            +21\n-40\n",
        out: b"+05\n-1\n+64\n-1\n+05\n-1\n+c0\n-1\n+01\n-1\n+00\n-1\n+00\n-1\n+04\n-1\n+e9\n-1\n\
            +21\n-3\n+0001793484b9bdf858bbd82b559e\n-47\n",
        ..SEALED
    },
    // The longest frame.
    Row {
        text: b"+0564ffc401000004272700070e151c232a31383f464d545b6269f8c870777e85\n\
            +8c939aa1a8afb6bdc4cbd2d9f8bde0e7eef5fc030a11181f262d343b4249a71a\n\
            +50575e656c737a81888f969da4abb2b9b104c0c7ced5dce3eaf1f8ff060d141b\n\
            +2229938d30373e454c535a61686f767d848b92993129a0a7aeb5bcc3cad1d8df\n\
            +e6edf4fb02099d0c10171e252c333a41484f565d646b7279750780878e959ca3\n\
            +aab1b8bfc6cdd4dbe2e9a056f0f7fe050c131a21282f363d444b5259a0236067\n\
            +6e757c838a91989fa6adb4bbc2c9ff84d0d7dee5ecf3fa01080f161d242b3239\n\
            +e99a40474e555c636a71787f868d949ba2a9cb13b0b7bec5ccd3dae1e8eff6fd\n\
            +040b121969b720272e353c434a51585f666d747b8289c59290979ea5acb3bac1\n+c8cfb634\n-4\n",
        out: b"+0564ffc401000004272700070e151c232a31383f464d545b6269f8c870777e85\n\
            +8c939aa1a8afb6bdc4cbd2d9f8bde0e7eef5fc030a11181f262d343b4249a71a\n\
            +50575e656c737a81888f969da4abb2b9b104c0c7ced5dce3eaf1f8ff060d141b\n\
            +2229938d30373e454c535a61686f767d848b92993129a0a7aeb5bcc3cad1d8df\n\
            +e6edf4fb02099d0c10171e252c333a41484f565d646b7279750780878e959ca3\n\
            +aab1b8bfc6cdd4dbe2e9a056f0f7fe050c131a21282f363d444b5259a0236067\n\
            +6e757c838a91989fa6adb4bbc2c9ff84d0d7dee5ecf3fa01080f161d242b3239\n\
            +e99a40474e555c636a71787f868d949ba2a9cb13b0b7bec5ccd3dae1e8eff6fd\n\
            +040b121969b720272e353c434a51585f666d747b8289c59290979ea5acb3bac1\n+c8cfb634\n-3\n\
            +0001f4cee09e0f89ad786acd2d22\n-11\n",
        log: b"sealed 1 at 0 len 292\n",
        ..SEALED
    },
    // A wrong CRC of the header.
    Row {
        text: b"+056405c001000004e920\n-4\n",
        out: b"+056405c001000004e920\n-28\n",
        log: b"unsealed at 0 form\n",
        slots_now: FRESH,
        ..SEALED
    },
];

#[test]
fn seals_frames_of_dnp3(rt: HostRuntime) -> Result<(), Fail> {
    compare_all(&rt, rt.alloc(), BoxKind::SealDnp, &SEALS)
}

/// A row in which the packet passes.
const PASSED: Row = Row {
    text: PACKET,
    out: b"-18\n+056405c001000004e921\n-366\n",
    log: b"passed 1 at 0 len 10\n",
    ..SEALED
};

/// A row in which nothing passes.
const REFUSED: Row = Row {
    log: b"refused at 0 trailer\n",
    slots_now: FRESH,
    ..PASSED
};

const CHECKS: [Row; 10] = [
    PASSED,
    // The last byte of the tag is wrong.
    Row {
        text: b"+056405c001000004e921\n-3\n+0001793484b9bdf858bbd82b559f\n-47\n",
        out: b"-18\n+056405c001000004e920\n-366\n",
        log: b"refused at 0 tag\n",
        ..REFUSED
    },
    // Single silent ticks inside a frame.
    Row {
        text: b"+05\n-1\n+64\n-1\n+05\n-1\n+c0\n-1\n+01\n-1\n+00\n-1\n+00\n-1\n+04\n-1\n+e9\n-1\n\
            +21\n-3\n+0001793484b9bdf858bbd82b559e\n-47\n",
        out: b"-18\n+05\n-1\n+64\n-1\n+05\n-1\n+c0\n-1\n+01\n-1\n+00\n-1\n+00\n-1\n+04\n-1\n+e9\n\
            -1\n+21\n-366\n",
        ..PASSED
    },
    Row {
        text: b"+0564ffc401000004272700070e151c232a31383f464d545b6269f8c870777e85\n\
            +8c939aa1a8afb6bdc4cbd2d9f8bde0e7eef5fc030a11181f262d343b4249a71a\n\
            +50575e656c737a81888f969da4abb2b9b104c0c7ced5dce3eaf1f8ff060d141b\n\
            +2229938d30373e454c535a61686f767d848b92993129a0a7aeb5bcc3cad1d8df\n\
            +e6edf4fb02099d0c10171e252c333a41484f565d646b7279750780878e959ca3\n\
            +aab1b8bfc6cdd4dbe2e9a056f0f7fe050c131a21282f363d444b5259a0236067\n\
            +6e757c838a91989fa6adb4bbc2c9ff84d0d7dee5ecf3fa01080f161d242b3239\n\
            +e99a40474e555c636a71787f868d949ba2a9cb13b0b7bec5ccd3dae1e8eff6fd\n\
            +040b121969b720272e353c434a51585f666d747b8289c59290979ea5acb3bac1\n+c8cfb634\n-3\n\
            +0001f4cee09e0f89ad786acd2d22\n-11\n",
        out: b"-18\n+0564ffc401000004272700070e151c232a31383f464d545b6269f8c870777e85\n\
            +8c939aa1a8afb6bdc4cbd2d9f8bde0e7eef5fc030a11181f262d343b4249a71a\n\
            +50575e656c737a81888f969da4abb2b9b104c0c7ced5dce3eaf1f8ff060d141b\n\
            +2229938d30373e454c535a61686f767d848b92993129a0a7aeb5bcc3cad1d8df\n\
            +e6edf4fb02099d0c10171e252c333a41484f565d646b7279750780878e959ca3\n\
            +aab1b8bfc6cdd4dbe2e9a056f0f7fe050c131a21282f363d444b5259a0236067\n\
            +6e757c838a91989fa6adb4bbc2c9ff84d0d7dee5ecf3fa01080f161d242b3239\n\
            +e99a40474e555c636a71787f868d949ba2a9cb13b0b7bec5ccd3dae1e8eff6fd\n\
            +040b121969b720272e353c434a51585f666d747b8289c59290979ea5acb3bac1\n+c8cfb634\n-330\n",
        log: b"passed 1 at 0 len 292\n",
        ..PASSED
    },
    // Only a header, which says 292 bytes. It is filled up to these, and all that comes meanwhile
    // is dropped.
    Row {
        text: b"+0564ffc4010000042727\n-90\n+056405c001000004e921\n-3\n\
            +0001793484b9bdf858bbd82b559e\n-183\n+056405c001000004e921\n-3\n\
            +000263ad31557d9463a301cbd741\n",
        out: b"-18\n+0564ffc401000004272700000000000000000000000000000000000000000000\n\
            +0000000000000000000000000000000000000000000000000000000000000000\n\
            +0000000000000000000000000000000000000000000000000000000000000000\n\
            +0000000000000000000000000000000000000000000000000000000000000000\n\
            +0000000000000000000000000000000000000000000000000000000000000000\n\
            +0000000000000000000000000000000000000000000000000000000000000000\n\
            +0000000000000000000000000000000000000000000000000000000000000000\n\
            +0000000000000000000000000000000000000000000000000000000000000000\n\
            +0000000000000000000000000000000000000000000000000000000000000000\n+00000000\n-18\n\
            +056405c001000004e921\n-319\n",
        log: b"refused at 0 trailer\ndropped at 100 busy\npassed 2 at 310 len 10\n",
        slots_now: (AT_0, AT_2),
        ..PASSED
    },
    // No good header: nothing leaves.
    Row {
        text: b"+056405c001000004e920\n-4\n",
        out: b"-334\n",
        log: b"dropped at 0 head\n",
        ..REFUSED
    },
    // A bad header with a silent tick after each byte. Its first byte would leave in the very
    // step in which the tenth comes.
    Row {
        text: b"+05\n-1\n+64\n-1\n+05\n-1\n+c0\n-1\n+01\n-1\n+00\n-1\n+00\n-1\n+04\n-1\n+e9\n-1\n\
            +20\n-5\n",
        out: b"-344\n",
        log: b"dropped at 0 head\n",
        ..REFUSED
    },
    // Three bytes with which no frame begins, and which are too few for a header.
    Row {
        text: b"+ffff05\n-4\n",
        out: b"-327\n",
        log: b"dropped at 0 head\n",
        ..REFUSED
    },
    // A frame without its last CRC, which is 0000. A fill of nothing but 00 would make it whole.
    Row {
        text: b"+056409c401000004437ac0c17f03\n-4\n",
        out: b"-18\n+056409c401000004437ac0c17f030001\n-304\n",
        ..REFUSED
    },
    // The start of a frame, and a whole one, inside bytes that are refused.
    Row {
        text: b"+056411c4010000045e98056405c001000004e92100004a1d\n-60\n+056405c001000004e921\n\
            -3\n+0001793484b9bdf858bbd82b559e\n-30\n",
        out: b"-18\n+056411c4010000045e98056405c001000004e92100004a1d\n-60\n\
            +056405c001000004e921\n-349\n",
        log: b"refused at 0 trailer\npassed 1 at 84 len 10\n",
        ..PASSED
    },
];

#[test]
fn checks_packets_of_dnp3(rt: HostRuntime) -> Result<(), Fail> {
    compare_all(&rt, rt.alloc(), BoxKind::CheckDnp, &CHECKS)
}

/// What a device behind the receiver reads, for each row of `CHECKS` in turn.
const FRAMES: [&[u8]; 10] = [
    b"read at 18 056405c001000004e921\n",
    b"",
    b"read at 18 056405c001000004e921\n",
    b"read at 18 0564ffc401000004272700070e151c232a31383f464d545b6269f8c870777e858\
        c939aa1a8afb6bdc4cbd2d9f8bde0e7eef5fc030a11181f262d343b4249a71a50575e656c737\
        a81888f969da4abb2b9b104c0c7ced5dce3eaf1f8ff060d141b2229938d30373e454c535a616\
        86f767d848b92993129a0a7aeb5bcc3cad1d8dfe6edf4fb02099d0c10171e252c333a41484f5\
        65d646b7279750780878e959ca3aab1b8bfc6cdd4dbe2e9a056f0f7fe050c131a21282f363d4\
        44b5259a02360676e757c838a91989fa6adb4bbc2c9ff84d0d7dee5ecf3fa01080f161d242b3\
        239e99a40474e555c636a71787f868d949ba2a9cb13b0b7bec5ccd3dae1e8eff6fd040b12196\
        9b720272e353c434a51585f666d747b8289c59290979ea5acb3bac1c8cfb634\n",
    b"read at 328 056405c001000004e921\n",
    b"",
    b"",
    b"",
    b"",
    b"read at 102 056405c001000004e921\n",
];

// Checks that a device behind the receiver reads these frames of the link of a row.
fn reads_what_passed(rt: &impl Abort, alloc: Global, row: &Row, frames: &[u8]) -> Result<(), Fail> {
    let reading = Reading {
        text: row.text,
        notes: row.log,
        frames,
    };
    has_passed::<DnpDevice>(rt, alloc, BoxKind::CheckDnp, &reading)
}

#[test]
fn a_dnp3_device_reads_what_passed(rt: HostRuntime) -> Result<(), Fail> {
    for (row, frames) in CHECKS.iter().zip(FRAMES.iter()) {
        reads_what_passed(&rt, rt.alloc(), row, frames)?;
    }
    Ok(())
}

const LARGEST: [u8; 292] = [
    0x05, 0x64, 0xff, 0xc4, 0x01, 0x00, 0x00, 0x04, 0x27, 0x27, 0x00, 0x07, 0x0e, 0x15, 0x1c, 0x23,
    0x2a, 0x31, 0x38, 0x3f, 0x46, 0x4d, 0x54, 0x5b, 0x62, 0x69, 0xf8, 0xc8, 0x70, 0x77, 0x7e, 0x85,
    0x8c, 0x93, 0x9a, 0xa1, 0xa8, 0xaf, 0xb6, 0xbd, 0xc4, 0xcb, 0xd2, 0xd9, 0xf8, 0xbd, 0xe0, 0xe7,
    0xee, 0xf5, 0xfc, 0x03, 0x0a, 0x11, 0x18, 0x1f, 0x26, 0x2d, 0x34, 0x3b, 0x42, 0x49, 0xa7, 0x1a,
    0x50, 0x57, 0x5e, 0x65, 0x6c, 0x73, 0x7a, 0x81, 0x88, 0x8f, 0x96, 0x9d, 0xa4, 0xab, 0xb2, 0xb9,
    0xb1, 0x04, 0xc0, 0xc7, 0xce, 0xd5, 0xdc, 0xe3, 0xea, 0xf1, 0xf8, 0xff, 0x06, 0x0d, 0x14, 0x1b,
    0x22, 0x29, 0x93, 0x8d, 0x30, 0x37, 0x3e, 0x45, 0x4c, 0x53, 0x5a, 0x61, 0x68, 0x6f, 0x76, 0x7d,
    0x84, 0x8b, 0x92, 0x99, 0x31, 0x29, 0xa0, 0xa7, 0xae, 0xb5, 0xbc, 0xc3, 0xca, 0xd1, 0xd8, 0xdf,
    0xe6, 0xed, 0xf4, 0xfb, 0x02, 0x09, 0x9d, 0x0c, 0x10, 0x17, 0x1e, 0x25, 0x2c, 0x33, 0x3a, 0x41,
    0x48, 0x4f, 0x56, 0x5d, 0x64, 0x6b, 0x72, 0x79, 0x75, 0x07, 0x80, 0x87, 0x8e, 0x95, 0x9c, 0xa3,
    0xaa, 0xb1, 0xb8, 0xbf, 0xc6, 0xcd, 0xd4, 0xdb, 0xe2, 0xe9, 0xa0, 0x56, 0xf0, 0xf7, 0xfe, 0x05,
    0x0c, 0x13, 0x1a, 0x21, 0x28, 0x2f, 0x36, 0x3d, 0x44, 0x4b, 0x52, 0x59, 0xa0, 0x23, 0x60, 0x67,
    0x6e, 0x75, 0x7c, 0x83, 0x8a, 0x91, 0x98, 0x9f, 0xa6, 0xad, 0xb4, 0xbb, 0xc2, 0xc9, 0xff, 0x84,
    0xd0, 0xd7, 0xde, 0xe5, 0xec, 0xf3, 0xfa, 0x01, 0x08, 0x0f, 0x16, 0x1d, 0x24, 0x2b, 0x32, 0x39,
    0xe9, 0x9a, 0x40, 0x47, 0x4e, 0x55, 0x5c, 0x63, 0x6a, 0x71, 0x78, 0x7f, 0x86, 0x8d, 0x94, 0x9b,
    0xa2, 0xa9, 0xcb, 0x13, 0xb0, 0xb7, 0xbe, 0xc5, 0xcc, 0xd3, 0xda, 0xe1, 0xe8, 0xef, 0xf6, 0xfd,
    0x04, 0x0b, 0x12, 0x19, 0x69, 0xb7, 0x20, 0x27, 0x2e, 0x35, 0x3c, 0x43, 0x4a, 0x51, 0x58, 0x5f,
    0x66, 0x6d, 0x74, 0x7b, 0x82, 0x89, 0xc5, 0x92, 0x90, 0x97, 0x9e, 0xa5, 0xac, 0xb3, 0xba, 0xc1,
    0xc8, 0xcf, 0xb6, 0x34,
];

const DIGITS: &[u8; 16] = b"0123456789abcdef";

// Adds a line of text that has one byte.
fn add_byte(text: &mut Vec<u8>, byte: u8) -> Result<(), AllocError> {
    let high = DIGITS[usize::from(byte >> 4)];
    let low = DIGITS[usize::from(byte & 15)];
    text.extend_from_slice(&[b'+', high, low, b'\n'])
}

// The first `len` bytes of the longest frame, silence up to tick 700, and a packet from there on.
fn cut_at(alloc: Global, len: usize) -> Result<Vec<u8>, AllocError> {
    let mut text = Vec::new(alloc);
    for byte in LARGEST.iter().take(len) {
        add_byte(&mut text, *byte)?;
    }
    add_times(&mut text, b"-1\n", 700_usize.saturating_sub(len))?;
    text.extend_from_slice(PACKET)?;
    Ok(text)
}

// Checks that the longest frame, cut to this length, costs no packet after it.
fn costs_no_other(rt: &impl Abort, alloc: Global, len: usize) -> Result<(), Fail> {
    let notes: &[u8] = if len < 10 {
        b"dropped at 0 head\npassed 1 at 700 len 10\n"
    } else {
        b"refused at 0 trailer\npassed 1 at 700 len 10\n"
    };
    let text = cut_at(alloc, len)?;
    let reading = Reading {
        text: text.as_slice(),
        notes,
        frames: b"read at 718 056405c001000004e921\n",
    };
    has_passed::<DnpDevice>(rt, alloc, BoxKind::CheckDnp, &reading)
}

// The longest frame, cut at every length. A refused frame is filled, so that the device is ready
// for the packet after it.
#[test]
fn a_cut_frame_costs_no_other(rt: HostRuntime) -> Result<(), Fail> {
    for len in 1..292 {
        costs_no_other(&rt, rt.alloc(), len)?;
    }
    Ok(())
}
