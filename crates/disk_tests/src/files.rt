//! Tests of files: short calls, calls that fail, how a file is opened, and that what is written is
//! synced.
use crate::one_file::{Folder, OneFile, PATH, ROOM, file_of};
use std::alloc::Global;
use std::test::Fail;
use yasir_io::{
    Durable, Failed, FileSlots, FileSource, Lock, OpensFiles, Slot, SlotBytes, SlotDisk, SlotFile,
    Source,
};

fn name(alloc: Global) -> Result<Option<String>, Fail> {
    Ok(Some(String::from_str(alloc, PATH)?))
}

// How often a file was opened, how often it was synced whole, and how many bytes it has.
fn counts_of(file: &OneFile) -> (u32, u32, usize) {
    (file.openings.get(), file.syncs.get(), file.len.get())
}

// Whether the first `len` of these bytes count up from `first`, and the others are 0.
fn counts_up(bytes: &[u8], first: u8, len: usize) -> bool {
    let mut next = first;
    let mut left = len;
    for byte in bytes {
        let want = if left > 0 { next } else { 0 };
        if *byte != want {
            return false;
        }
        next = next.wrapping_add(1);
        left = left.saturating_sub(1);
    }
    true
}

// Whether the answer to a read of a slot has `front` bytes that count up from `first`, followed by
// zeros. With no `front`, whether the read failed.
fn is_front<const N: usize>(
    answer: Result<[u8; N], Failed>,
    first: u8,
    front: Option<usize>,
) -> bool {
    match (answer, front) {
        (Ok(bytes), Some(len)) => counts_up(&bytes, first, len),
        (Err(Failed), None) => true,
        _ => false,
    }
}

// Sets the bytes of a slot among those of a file.
fn put(bytes: &mut [u8; ROOM], slot: Slot, held: SlotBytes) {
    match slot {
        Slot::A => bytes[32..56].copy_from_slice(&held),
        Slot::B => bytes[56..80].copy_from_slice(&held),
    }
}

// How many bytes of a file the reads of old slots A and B and of slots A and B give, or none if the
// read fails.
type Fronts = (Option<usize>, Option<usize>, Option<usize>, Option<usize>);

// How many bytes a file has, how many a call on it moves at most, and which call fails. Then how
// often the file is opened, and what the reads give.
type Reads = (usize, usize, u32, u32, Fronts);

const READS: [Reads; 13] = [
    (80, 88, 0, 1, (Some(16), Some(16), Some(24), Some(24))),
    (88, 5, 0, 1, (Some(16), Some(16), Some(24), Some(24))),
    (67, 7, 0, 1, (Some(16), Some(16), Some(24), Some(11))),
    // A file of the first version, which has only old slots, one that ends inside an old slot, and
    // an empty one.
    (32, 88, 0, 1, (Some(16), Some(16), Some(0), Some(0))),
    (19, 7, 0, 1, (Some(16), Some(3), Some(0), Some(0))),
    (0, 88, 0, 1, (Some(0), Some(0), Some(0), Some(0))),
    // In turn, these fail: the opening, the lock and the first sync. The next call tries again: it
    // opens the file only if it isn't open.
    (80, 88, 1, 1, (None, Some(16), Some(24), Some(24))),
    (80, 88, 2, 1, (None, Some(16), Some(24), Some(24))),
    (80, 88, 3, 1, (None, Some(16), Some(24), Some(24))),
    // In turn, these fail: the seek for the first slot, the second of the reads for it, the read
    // for the next slot, and the seek for the last one.
    (80, 88, 4, 1, (None, Some(16), Some(24), Some(24))),
    (80, 9, 6, 1, (None, Some(16), Some(24), Some(24))),
    (80, 88, 7, 1, (Some(16), None, Some(24), Some(24))),
    (80, 88, 10, 1, (Some(16), Some(16), Some(24), None)),
];

// Whether the reads of old slots A and B, and then of slots A and B, give this.
fn gives(disk: &mut FileSlots<'_, Folder<'_>>, fronts: &Fronts) -> bool {
    let (old_a, old_b, a, b) = *fronts;
    is_front(disk.read_old(Slot::A), 0, old_a)
        && is_front(disk.read_old(Slot::B), 16, old_b)
        && is_front(disk.read_slot(Slot::A), 32, a)
        && is_front(disk.read_slot(Slot::B), 56, b)
}

// Whether all slots of a file are read as the row says.
fn is_read(path: Option<String>, row: &Reads) -> bool {
    let (len, piece, fail, openings, fronts) = *row;
    let file = file_of(len, piece, fail);
    let folder = Folder(&file);
    let mut disk = FileSlots::new(&folder, path, SlotFile::Standing);
    gives(&mut disk, &fronts) && counts_of(&file) == (openings, 1, len)
}

#[test]
fn a_slot_is_read_whole_or_not_at_all(rt: HostRuntime) -> Result<(), Fail> {
    for row in &READS {
        assert!(rt; is_read(name(rt.alloc())?, row));
    }
    Ok(())
}

// How many bytes a call moves at most, which call fails, whether a write and the sync after it are
// done, and how often the file is then opened and synced whole.
type Writes = (usize, u32, bool, bool, u32, u32);

const WRITES: [Writes; 9] = [
    (88, 0, true, true, 1, 2),
    (24, 0, true, true, 1, 2),
    (23, 0, false, true, 1, 2),
    // In turn, these fail: the opening, the lock, the first sync, the seek, the write, and the sync
    // after it.
    (88, 1, false, true, 1, 2),
    (88, 2, false, true, 1, 2),
    (88, 3, false, true, 1, 2),
    (88, 4, false, true, 1, 2),
    (88, 5, false, true, 1, 2),
    (88, 6, true, false, 1, 1),
];

// Writes bytes 99 to slot B, and then syncs. Returns which of the two are done.
fn done_of(disk: &mut FileSlots<'_, Folder<'_>>) -> (bool, bool) {
    let written = disk.write_slot(Slot::B, &[99; 24]).is_ok();
    let synced = disk.sync().is_ok();
    (written, synced)
}

// Sets slot B among the bytes of a file.
fn with_slot_b(mut bytes: [u8; ROOM]) -> [u8; ROOM] {
    put(&mut bytes, Slot::B, [99; 24]);
    bytes
}

// Whether nothing outside slot B was written, and slot B was if `written` says so.
fn holds(after: [u8; ROOM], before: [u8; ROOM], written: bool) -> bool {
    let found = if written { after } else { with_slot_b(after) };
    found == with_slot_b(before)
}

// Whether a write of slot B and the sync after it do what the row says.
fn is_written(path: Option<String>, row: &Writes) -> bool {
    let (piece, fail, written, synced, openings, syncs) = *row;
    let file = file_of(88, piece, fail);
    let before = file.bytes.get();
    let folder = Folder(&file);
    let mut disk = FileSlots::new(&folder, path, SlotFile::Standing);
    done_of(&mut disk) == (written, synced)
        && file.unsynced.get() == !synced
        && counts_of(&file) == (openings, syncs, 88)
        && holds(file.bytes.get(), before, written)
}

#[test]
fn a_slot_is_written_whole_or_a_fault(rt: HostRuntime) -> Result<(), Fail> {
    for row in &WRITES {
        assert!(rt; is_written(name(rt.alloc())?, row));
    }
    Ok(())
}

// A slot and its bytes. Then how often the file has been synced whole once they are written and
// synced, and how often only its data.
type Number = (Slot, SlotBytes, u32, u32);

// Slots that are written one after the other, and after each of them how often the file has been
// synced whole, and how often only its data. It is synced whole when it is opened, and after the
// first write of each slot, which may make the file longer.
const NUMBERS: [Number; 5] = [
    (Slot::A, *b"the number one, and then", 2, 0),
    (Slot::B, *b"a number of three bytes.", 3, 0),
    (Slot::A, *b"and the greatest of all.", 3, 1),
    (Slot::B, *b"one that is in its place", 3, 2),
    (Slot::B, *b"and so is the last one..", 3, 3),
];

// Whether a slot is written, and then synced. In between alone the file is unsynced.
fn is_synced(disk: &mut FileSlots<'_, Folder<'_>>, file: &OneFile, row: &Number) -> bool {
    disk.write_slot(row.0, &row.1).is_ok()
        && file.unsynced.get()
        && disk.sync().is_ok()
        && !file.unsynced.get()
}

// Whether a slot is written, synced and read as the row says.
fn is_kept(disk: &mut FileSlots<'_, Folder<'_>>, file: &OneFile, row: &Number) -> bool {
    is_synced(disk, file, row)
        && (file.syncs.get(), file.data_syncs.get()) == (row.2, row.3)
        && disk.read_slot(row.0) == Ok(row.1)
}

// Whether each of `NUMBERS` is written, synced and read.
fn are_kept(disk: &mut FileSlots<'_, Folder<'_>>, file: &OneFile) -> bool {
    for row in &NUMBERS {
        if !is_kept(disk, file, row) {
            return false;
        }
    }
    true
}

// Whether a file of `len` bytes keeps all of `NUMBERS`.
fn keeps(path: Option<String>, len: usize) -> bool {
    let file = file_of(len, 88, 0);
    let folder = Folder(&file);
    are_kept(
        &mut FileSlots::new(&folder, path, SlotFile::Standing),
        &file,
    )
}

#[test]
fn each_write_is_synced_for_itself(rt: HostRuntime) -> Result<(), Fail> {
    assert!(rt; keeps(name(rt.alloc())?, 0));
    assert!(rt; keeps(name(rt.alloc())?, 56));
    assert!(rt; keeps(name(rt.alloc())?, 80));
    Ok(())
}

// What is done to a file of slots.
#[derive(Clone, Copy)]
enum Act {
    Write(Slot),
    Read(Slot),
    ReadOld(Slot),
    Sync,
}

// Acts one after the other, and how many calls on the file each takes. The first one also opens,
// locks and syncs the file. A read or a write of a slot is a seek, and then a read or a write.
const ACTS: [(Act, u32); 10] = [
    (Act::Write(Slot::A), 5),
    (Act::Write(Slot::B), 2),
    (Act::Sync, 1),
    (Act::Write(Slot::B), 2),
    (Act::Write(Slot::A), 2),
    (Act::Write(Slot::A), 2),
    (Act::Read(Slot::A), 2),
    (Act::Write(Slot::B), 2),
    (Act::ReadOld(Slot::B), 2),
    (Act::Write(Slot::B), 2),
];

// Whether this act is done. A write is of bytes `mark`.
fn is_done(disk: &mut FileSlots<'_, Folder<'_>>, act: Act, mark: u8) -> bool {
    match act {
        Act::Write(slot) => disk.write_slot(slot, &[mark; 24]).is_ok(),
        Act::Read(slot) => disk.read_slot(slot).is_ok(),
        Act::ReadOld(slot) => disk.read_old(slot).is_ok(),
        Act::Sync => disk.sync().is_ok(),
    }
}

// Whether the act of a row is done, in as many calls as the row says.
fn is_done_in(
    disk: &mut FileSlots<'_, Folder<'_>>,
    file: &OneFile,
    row: &(Act, u32),
    mark: u8,
) -> bool {
    let (act, calls) = *row;
    let before = file.calls.get();
    is_done(disk, act, mark) && file.calls.get() == before.saturating_add(calls)
}

// Writes what an act writes into these bytes of a file.
fn put_act(bytes: &mut [u8; ROOM], act: Act, mark: u8) {
    if let Act::Write(slot) = act {
        put(bytes, slot, [mark; 24]);
    }
}

// Whether all of `ACTS` are done, each write with bytes of its own, and after each of them the file
// has the bytes that were written, and those that it had before.
fn are_done(disk: &mut FileSlots<'_, Folder<'_>>, file: &OneFile) -> bool {
    let mut bytes = file.bytes.get();
    let mut mark = 100u8;
    for row in &ACTS {
        mark = mark.wrapping_add(1);
        put_act(&mut bytes, row.0, mark);
        if !is_done_in(disk, file, row, mark) || file.bytes.get() != bytes {
            return false;
        }
    }
    true
}

#[test]
fn each_slot_is_written_at_its_place(rt: HostRuntime) -> Result<(), Fail> {
    let path = name(rt.alloc())?;
    let file = file_of(88, 88, 0);
    let folder = Folder(&file);
    let mut disk = FileSlots::new(&folder, path, SlotFile::Standing);
    assert!(rt; are_done(&mut disk, &file));
    Ok(())
}

// Whether a write of slot B and the second of two syncs are done, and the first sync fails.
fn is_synced_in_the_end(disk: &mut FileSlots<'_, Folder<'_>>) -> bool {
    done_of(disk) == (true, false) && disk.sync().is_ok()
}

// If a whole sync fails, the next sync is whole too. Call 6, which fails, is the sync after the
// write.
#[test]
fn a_longer_file_is_synced_whole_in_the_end(rt: HostRuntime) -> Result<(), Fail> {
    let path = name(rt.alloc())?;
    let file = file_of(32, 88, 6);
    let folder = Folder(&file);
    let mut disk = FileSlots::new(&folder, path, SlotFile::Standing);
    assert!(rt; is_synced_in_the_end(&mut disk));
    assert!(rt; !file.unsynced.get());
    Ok(())
}

/// Whether each call on a disk fails. The write is of bytes `byte`.
pub fn all_fail<R: OpensFiles>(disk: &mut FileSlots<'_, R>, byte: u8) -> bool
where
    R::File: Lock + Durable,
{
    disk.read_old(Slot::A).is_err()
        && disk.read_slot(Slot::A).is_err()
        && disk.write_slot(Slot::A, &[byte; 24]).is_err()
        && disk.sync().is_err()
}

// Whether all calls on the second disk fail, twice, once a call on the first disk has opened the
// file.
fn first_has_it(
    first: &mut FileSlots<'_, Folder<'_>>,
    second: &mut FileSlots<'_, Folder<'_>>,
) -> bool {
    is_front(first.read_old(Slot::A), 0, Some(16))
        && all_fail(second, 99)
        && all_fail(second, 99)
        && is_front(first.read_slot(Slot::A), 32, Some(24))
}

// Whether a first disk, which is gone at the end, has the file for itself.
fn takes_it(
    folder: &Folder<'_>,
    path: Option<String>,
    second: &mut FileSlots<'_, Folder<'_>>,
) -> bool {
    let mut first = FileSlots::new(folder, path, SlotFile::Standing);
    first_has_it(&mut first, second)
}

// Whether the second of two disks has the file only once the first one is gone.
fn take_turns(file: &OneFile, first: Option<String>, second: Option<String>) -> bool {
    let folder = Folder(file);
    let mut second = FileSlots::new(&folder, second, SlotFile::Standing);
    takes_it(&folder, first, &mut second)
        && file.syncs.get() == 1
        && is_front(second.read_slot(Slot::A), 32, Some(24))
}

#[test]
fn one_disk_has_the_file(rt: HostRuntime) -> Result<(), Fail> {
    let first = name(rt.alloc())?;
    let second = name(rt.alloc())?;
    assert!(rt; take_turns(&file_of(80, 88, 0), first, second));
    Ok(())
}

// What is expected of a missing file, whether it is made, and how often it is then synced whole.
type Missing = (SlotFile, bool, u32);

const MISSING: [Missing; 2] = [(SlotFile::Standing, false, 0), (SlotFile::New, true, 1)];

// Whether a sync of a missing file does what the row says.
fn is_made(path: Option<String>, row: &Missing) -> bool {
    let (kind, made, syncs) = *row;
    let file = file_of(0, 88, 0);
    file.exists.set(false);
    let folder = Folder(&file);
    let mut disk = FileSlots::new(&folder, path, kind);
    disk.sync().is_ok() == made
        && file.exists.get() == made
        && file.syncs.get() == syncs
        && file.unsynced.get() != made
}

#[test]
fn a_missing_file_is_made_where_it_is_said(rt: HostRuntime) -> Result<(), Fail> {
    for row in &MISSING {
        assert!(rt; is_made(name(rt.alloc())?, row));
    }
    Ok(())
}

// How many bytes a call moves at most, which call fails, and how many reads fail.
type Pieces = (usize, u32, u32);

const PIECES: [Pieces; 5] = [(88, 0, 0), (7, 0, 0), (7, 1, 1), (7, 3, 1), (9, 6, 1)];

// Reads twenty times into room for eleven bytes, and keeps the bytes that come. Returns how many of
// the reads failed.
fn read_often(source: &mut FileSource<'_, Folder<'_>>, out: &mut Vec<u8>) -> Result<u32, Fail> {
    let mut part = [0u8; 11];
    let mut failures = 0u32;
    for _ in 0..20 {
        match source.read(&mut part) {
            Ok(n) => out.extend_from_slice(&part[..n])?,
            Err(Failed) => failures = failures.saturating_add(1),
        }
    }
    Ok(failures)
}

// Reads a file to its end and beyond. Returns how many reads failed, and whether one into no room
// is done then.
fn read_all(file: &OneFile, path: Option<String>, out: &mut Vec<u8>) -> Result<(u32, bool), Fail> {
    let folder = Folder(file);
    let mut source = FileSource::new(&folder, path);
    let failures = read_often(&mut source, out)?;
    Ok((failures, source.read(&mut []) == Ok(0)))
}

// Whether a file gives its bytes as the row says.
fn gives_once(alloc: Global, row: &Pieces) -> Result<bool, Fail> {
    let (piece, fail, failed) = *row;
    let path = name(alloc)?;
    let file = file_of(88, piece, fail);
    let mut out = Vec::new(alloc);
    let found = read_all(&file, path, &mut out)?;
    Ok(
        found == (failed, true)
            && out.as_slice() == file.bytes.get().as_slice()
            && file.openings.get() == 1,
    )
}

#[test]
fn a_file_gives_each_byte_once(rt: HostRuntime) -> Result<(), Fail> {
    for row in &PIECES {
        assert!(rt; gives_once(rt.alloc(), row)?);
    }
    Ok(())
}

// How many bytes a file has, the place of the only byte that isn't 0, if there is one, and whether
// a new disk writes its slots to this file.
type First = (usize, Option<usize>, bool);

const FIRST: [First; 11] = [
    (0, None, true),
    (20, None, true),
    (80, None, true),
    (88, Some(80), true),
    // These aren't written over: the first digit of a key, old slots, and slots that a write has
    // torn.
    (1, Some(0), false),
    (88, Some(0), false),
    (32, Some(31), false),
    (80, Some(32), false),
    (56, Some(55), false),
    (80, Some(56), false),
    (88, Some(79), false),
];

// Zeros, with a digit at this place, if there is one.
fn zeros_but(place: Option<usize>) -> [u8; ROOM] {
    let mut bytes = [0; ROOM];
    if let Some(byte) = place.and_then(|place| bytes.get_mut(place)) {
        *byte = b'5';
    }
    bytes
}

// These bytes of a file, with 99 in slots A and B, if `written` says so.
fn written_over(bytes: [u8; ROOM], written: bool) -> [u8; ROOM] {
    let mut after = bytes;
    if written {
        after[32..80].copy_from_slice(&[99; 48]);
    }
    after
}

// Whether a write of bytes 99 to a slot is done if `written` says so. If it is, the file is
// unsynced.
fn is_over(
    disk: &mut FileSlots<'_, Folder<'_>>,
    file: &OneFile,
    slot: Slot,
    written: bool,
) -> bool {
    disk.write_slot(slot, &[99; 24]).is_ok() == written && file.unsynced.get() == written
}

// Whether three writes are done, or none.
fn are_over(disk: &mut FileSlots<'_, Folder<'_>>, file: &OneFile, written: bool) -> bool {
    is_over(disk, file, Slot::A, written)
        && is_over(disk, file, Slot::B, written)
        && is_over(disk, file, Slot::A, written)
}

// Whether a new disk writes over the file of a row, or leaves it as it is.
fn is_written_over(path: Option<String>, row: &First) -> bool {
    let (len, place, written) = *row;
    let bytes = zeros_but(place);
    let file = file_of(len, 88, 0);
    file.bytes.set(bytes);
    let folder = Folder(&file);
    let mut disk = FileSlots::new(&folder, path, SlotFile::New);
    are_over(&mut disk, &file, written)
        && file.bytes.get() == written_over(bytes, written)
        && (written || file.len.get() == len)
}

#[test]
fn a_new_disk_writes_over_zeros_alone(rt: HostRuntime) -> Result<(), Fail> {
    for row in &FIRST {
        assert!(rt; is_written_over(name(rt.alloc())?, row));
    }
    Ok(())
}
