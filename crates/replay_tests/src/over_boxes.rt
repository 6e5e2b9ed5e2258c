//! Runs of `seal` and `check` over ends in memory, for the tests of this crate.
ghost use Rattle.std.specs.Prelude.{◌≡◌};
ghost use Rattle.sequence_journal.specs.Links.{HasDirection};

use crate::outside::{Failing, STEADY, plan, sinks, source, write_fault};
use crate::reading::has_read;
use check_receiver::Checker;
use command_ends::{Ends, Status};
use device_model::Device;
use dnp_link_frame::Dnp;
use line_commands::{LineBox, replay_box};
use link_format::{Dir, HmacSha1, HmacSha256};
use rtu_frame::Rtu;
use seal_transmitter::Sealer;
use sequence_journal::{Journal, LIMIT, LinkId, slot_of};
use std::alloc::Global;
use std::process::Abort;
use std::test::Fail;
use yasir_io::{MemSink, MemSlots, MemSource, NoMemory, Sink, Slot, SlotDisk, Source, SteadySlots};

/// The key of all boxes, as its text: 32 digits for 16 bytes.
pub const KEY: &[u8] = b"000102030405060708090a0b0c0d0e0f";

/// What a slot holds: a number for the link of its row, nothing that was ever written, or other
/// bytes.
#[derive(Clone, Copy, Debug, PartialEq, Eq)]
pub enum Held {
    Number(u64),
    Zeros,
    Ones,
}

pub const AT_0: Held = Held::Number(0);

pub const AT_1: Held = Held::Number(1);

pub const AT_2: Held = Held::Number(2);

pub const AT_3: Held = Held::Number(3);

pub const AT_LIMIT: Held = Held::Number(281_474_976_710_655);

pub const NOTHING: Held = Held::Zeros;

pub const NO_NUMBER: Held = Held::Ones;

/// What slots A and B hold.
pub type Numbers = (Held, Held);

/// The slots of a new journal.
pub const FRESH: Numbers = (AT_0, NOTHING);

/// A box of the program, which the program's words ask for.
#[derive(Clone, Copy, Drop)]
pub enum BoxKind {
    SealRtu,
    SealDnp,
    SealRtu24,
    SealDnp24,
    CheckRtu,
    CheckDnp,
    CheckRtu24,
    CheckDnp24,
}

// The link of a box in a direction.
fn link_of(kind: BoxKind, dir: Dir) -> LinkId
    ensures { HasDirection result }
{
    let (label, profile) = match kind {
        BoxKind::SealRtu | BoxKind::CheckRtu => (1, 18),
        BoxKind::SealDnp | BoxKind::CheckDnp => (2, 18),
        BoxKind::SealRtu24 | BoxKind::CheckRtu24 => (1, 24),
        BoxKind::SealDnp24 | BoxKind::CheckDnp24 => (2, 24),
    };
    let dir = match dir {
        Dir::Ab => 0,
        Dir::Ba => 1,
    };
    LinkId {
        label,
        dir,
        profile,
    }
}

/// The bytes of a slot that holds this for a link.
pub fn slot_at(held: Held, link: &LinkId) -> [u8; 24]
    requires { HasDirection link.now }
{
    match held {
        Held::Number(n) => slot_of(n.min(LIMIT), link),
        Held::Zeros => [0; 24],
        Held::Ones => [0x11; 24],
    }
}

const BLANK: [u8; 16] = [0; 16];

// A disk whose slots A and B hold this for a link, and whose old slots are blank. Call `fail`
// fails.
fn disk_of(alloc: Global, slots: Numbers, link: &LinkId, fail: u32) -> Result<MemSlots, NoMemory>
    requires { HasDirection link.now }
{
    let (a, b) = slots;
    let (a, b) = (slot_at(a, link), slot_at(b, link));
    MemSlots::with_room(alloc, BLANK, BLANK, a, b, 2000, plan(fail))
}

/// How a run ended, what its sinks hold, and its disk.
#[derive(Drop)]
pub struct Ran {
    pub status: Status,
    pub out: MemSink,
    pub log: MemSink,
    pub disk: MemSlots,
}

/// A recorded line, what fails while a box takes it, and the results that are expected.
#[derive(Clone, Copy, Drop)]
pub struct Row {
    pub dir: Dir,
    pub key: &'static [u8],
    pub slots: Numbers,
    pub text: &'static [u8],
    pub failing: Failing,
    pub status: Status,
    pub exit_status: u8,
    pub out: &'static [u8],
    pub log: &'static [u8],
    pub slots_now: Numbers,
}

/// What a box is run over, except its disk: its direction, its key, the text of its line, and what
/// fails outside.
#[derive(Clone, Copy)]
pub struct Given<'a> {
    pub dir: Dir,
    pub key: &'a [u8],
    pub text: &'a [u8],
    pub failing: &'a Failing,
}

/// The line of this text in direction `ab`, with the key of all boxes.
pub fn line_given<'a>(text: &'a [u8], failing: &'a Failing) -> Given<'a> {
    Given {
        dir: Dir::Ab,
        key: KEY,
        text,
        failing,
    }
}

/// Runs a box over these ends, with `rest` silent ticks after a whole input.
pub fn run_ends<B: LineBox, K: Source, S: Source, O: Sink, L: Sink, D: SlotDisk>(
    dir: Dir,
    rest: u32,
    ends: Ends<K, S, O, L, D>,
) -> Status
    requires widths { B.widths_fit }
{
    let link = B::link(dir);
    replay_box::<B, K, S, O, L, D>(&link, dir, rest, ends)
}

// Runs a box over what is given and this disk, with `rest` silent ticks after a whole input. The
// fault line follows the notes in the log.
fn replay_by<B: LineBox>(
    alloc: Global,
    rest: u32,
    given: &Given<'_>,
    disk: MemSlots,
) -> Result<Ran, Fail>
    requires widths { B.widths_fit }
{
    let failing = given.failing;
    let (mut out, mut log) = sinks(alloc, (8000, 40000), 512, failing)?;
    let mut disk = disk;
    let mut key = source(given.key, 512, failing.key);
    let mut input = source(given.text, 512, failing.input);
    let ends = Ends {
        key: &mut key,
        input: &mut input,
        out: &mut out,
        log: &mut log,
        disk: &mut disk,
    };
    let dir = given.dir;
    let status = run_ends::<B, MemSource, MemSource, MemSink, MemSink, MemSlots>(dir, rest, ends);
    write_fault(&mut log, &status);
    Ok(Ran {
        status,
        out,
        log,
        disk,
    })
}

/// Runs a box of the program over what is given, and over a disk whose slots A and B hold these
/// numbers. The fault line follows the notes in the log. As many silent ticks follow a whole input
/// as in the program.
pub fn replay(
    alloc: Global,
    kind: BoxKind,
    given: &Given<'_>,
    slots: Numbers,
) -> Result<Ran, Fail> {
    let disk = disk_of(alloc, slots, &link_of(kind, given.dir), given.failing.disk)?;
    replay_on(alloc, kind, given, disk)
}

/// Runs a box of the program over what is given and this disk.
pub fn replay_on(
    alloc: Global,
    kind: BoxKind,
    given: &Given<'_>,
    disk: MemSlots,
) -> Result<Ran, Fail> {
    match kind {
        BoxKind::SealRtu => replay_by::<Sealer<Rtu, HmacSha1, 2>>(alloc, 24, given, disk),
        BoxKind::SealDnp => replay_by::<Sealer<Dnp, HmacSha1, 2>>(alloc, 24, given, disk),
        BoxKind::SealRtu24 => replay_by::<Sealer<Rtu, HmacSha256, 4>>(alloc, 30, given, disk),
        BoxKind::SealDnp24 => replay_by::<Sealer<Dnp, HmacSha256, 4>>(alloc, 30, given, disk),
        BoxKind::CheckRtu => replay_by::<Checker<Rtu, HmacSha1, 2, 18>>(alloc, 320, given, disk),
        BoxKind::CheckDnp => replay_by::<Checker<Dnp, HmacSha1, 2, 18>>(alloc, 320, given, disk),
        BoxKind::CheckRtu24 => {
            replay_by::<Checker<Rtu, HmacSha256, 4, 24>>(alloc, 320, given, disk)
        }
        BoxKind::CheckDnp24 => {
            replay_by::<Checker<Dnp, HmacSha256, 4, 24>>(alloc, 320, given, disk)
        }
    }
}

/// Checks that slots A and B of a disk hold these bytes.
pub fn slots_hold(rt: &impl Abort, disk: &MemSlots, a: &[u8; 24], b: &[u8; 24]) {
    assert!(rt; disk.slot(Slot::A) == *a);
    assert!(rt; disk.slot(Slot::B) == *b);
}

// Checks that a disk's slots hold this for the link of a box.
fn has_slots(rt: &impl Abort, disk: &MemSlots, slots: Numbers, kind: BoxKind, dir: Dir) {
    let link = link_of(kind, dir);
    slots_hold(rt, disk, &slot_at(slots.0, &link), &slot_at(slots.1, &link));
}

/// Checks that the sink holds these bytes.
pub fn holds(rt: &impl Abort, sink: &MemSink, bytes: &[u8]) {
    assert_eq!(rt; sink.held(), bytes);
}

/// Checks that a run ended with the status that is wanted, and that this is its exit status.
pub fn has_status(rt: &impl Abort, status: &Status, wanted: &Status, exit_status: u8) {
    assert_eq!(rt; *status, *wanted);
    assert!(rt; status.exit_status() == exit_status);
}

// Checks that the results of a run are those of a row.
fn has_results(rt: &impl Abort, ran: &Ran, kind: BoxKind, row: &Row) {
    has_status(rt, &ran.status, &row.status, row.exit_status);
    holds(rt, &ran.out, row.out);
    holds(rt, &ran.log, row.log);
    has_slots(rt, &ran.disk, row.slots_now, kind, row.dir);
}

// Runs a box over the line of a row.
fn run_row(alloc: Global, kind: BoxKind, row: &Row) -> Result<Ran, Fail> {
    let given = Given {
        dir: row.dir,
        key: row.key,
        text: row.text,
        failing: &row.failing,
    };
    replay(alloc, kind, &given, row.slots)
}

/// Runs a box over the line of a row, and checks that the results are those of the row.
pub fn compare(rt: &impl Abort, alloc: Global, kind: BoxKind, row: &Row) -> Result<(), Fail> {
    let ran = run_row(alloc, kind, row)?;
    has_results(rt, &ran, kind, row);
    Ok(())
}

/// Runs a box over the line of each row, and checks that the results are those of the row.
pub fn compare_all(
    rt: &impl Abort,
    alloc: Global,
    kind: BoxKind,
    rows: &[Row],
) -> Result<(), Fail> {
    for row in rows {
        compare(rt, alloc, kind, row)?;
    }
    Ok(())
}

/// The text of a link, the notes on it, and the frames that a device behind the receiver reads.
#[derive(Clone, Copy)]
pub struct Reading<'a> {
    pub text: &'a [u8],
    pub notes: &'a [u8],
    pub frames: &'a [u8],
}

/// Checks that a receiver notes on a link what the row says, and that a device behind the receiver
/// reads the frames of the row.
pub fn has_passed<D: Device + Drop>(
    rt: &impl Abort,
    alloc: Global,
    kind: BoxKind,
    row: &Reading<'_>,
) -> Result<(), Fail> {
    let checked = replay(alloc, kind, &line_given(row.text, &STEADY), FRESH)?;
    holds(rt, &checked.log, row.notes);
    has_read::<D>(rt, alloc, checked.out.held(), row.frames)
}

// The floor that a later run loads from these slots.
fn floor_of(a: [u8; 24], b: [u8; 24], link: &LinkId) -> Option<u64>
    requires { HasDirection link.now }
{
    let mut disk = SteadySlots::new(a, b);
    match Journal::load(&mut disk, link) {
        Ok(journal) => Some(journal.floor()),
        Err(_) => None,
    }
}

/// Which call of the disk fails, and what slots A and B hold then.
type DiskFault = (u32, Numbers);

/// A journal is loaded with four calls. All that is made of a short line goes out at its end, and
/// so the disk is brought to three numbers at once: first the last of them is written over the slot
/// that doesn't hold the floor, and synced, and then the one before it over the other slot.
const DISK_FAULTS: [DiskFault; 8] = [
    (1, FRESH),
    (2, FRESH),
    (3, FRESH),
    (4, FRESH),
    (5, FRESH),
    (6, (AT_0, AT_3)),
    (7, (AT_0, AT_3)),
    (8, (AT_2, AT_3)),
];

/// A call of the disk that isn't made.
const NO_CALL: u32 = 9;

/// A slot that was being written when the program ended.
const TORN: [u8; 24] = [0x11; 24];

// Checks that a later run loads this floor from these slots.
fn has_floor(rt: &impl Abort, a: [u8; 24], b: [u8; 24], link: &LinkId, floor: u64)
    requires { HasDirection link.now }
{
    assert!(rt; floor_of(a, b, link) == Some(floor));
}

// Checks the floor that a later run loads. If a sync failed, the slot that was written may be torn:
// then that is the floor before it, or the floor that the other slot holds by now.
fn loads(rt: &impl Abort, disk: &MemSlots, link: &LinkId, call: u32)
    requires { HasDirection link.now }
{
    let (a, b) = (disk.slot(Slot::A), disk.slot(Slot::B));
    has_floor(rt, a, b, link, if call < 6 { 0 } else { 3 });
    match call {
        6 => has_floor(rt, a, TORN, link, 0),
        8 => has_floor(rt, TORN, b, link, 3),
        _ => {}
    }
}

// Checks a run over the line of a row in which this call of the disk fails. Nothing goes out.
fn fail_call(
    rt: &impl Abort,
    alloc: Global,
    kind: BoxKind,
    row: &Row,
    fault: &DiskFault,
) -> Result<(), Fail> {
    let (disk, slots_now) = *fault;
    let failed = Row {
        failing: Failing { disk, ..STEADY },
        status: Status::JournalFault,
        exit_status: 7,
        out: b"",
        log: b"fault: journal\n",
        slots_now,
        ..*row
    };
    let ran = run_row(alloc, kind, &failed)?;
    has_results(rt, &ran, kind, &failed);
    loads(rt, &ran.disk, &link_of(kind, row.dir), disk);
    Ok(())
}

/// Runs a box over the line of a row, which has three frames and a fresh journal, and lets each
/// call of the disk fail in turn, and one that isn't made.
pub fn fail_each_call(
    rt: &impl Abort,
    alloc: Global,
    kind: BoxKind,
    row: &Row,
) -> Result<(), Fail> {
    for fault in &DISK_FAULTS {
        fail_call(rt, alloc, kind, row, fault)?;
    }
    let whole = Row {
        failing: Failing {
            disk: NO_CALL,
            ..STEADY
        },
        ..*row
    };
    compare(rt, alloc, kind, &whole)
}
