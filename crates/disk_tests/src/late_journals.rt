//! Tests of journals whose numbers go on in memory, over disks whose calls fail.
ghost use Rattle.std.specs.Prelude.{◌≡◌, ◌<◌, ◌≤◌, OnOk};
ghost use Rattle.sequence_journal.specs.Late.{disk_journal, IsRising};
ghost use Rattle.sequence_journal.specs.Ahead.{ahead_number, ahead_floor, StandsAhead};
ghost use Rattle.sequence_journal.specs.declared.numbers.TheConstants.{LIMIT};

use sequence_journal::{AheadJournal, Journal, JournalFault, LIMIT, LateJournal, LinkId};
use std::alloc::Global;
use std::test::Fail;
use yasir_io::{MemSlots, Plan, Slot, SlotDisk};

const RTU_AB: LinkId = LinkId {
    label: 1,
    dir: 0,
    profile: 18,
};

// What slots A and B have.
type Slots = (u64, u64);

// The bytes of a slot that holds a number for the link `RTU_AB`, or bytes 00 for no number.
fn bytes_of(n: u64) -> [u8; 24] {
    let words: [u64; 3] = match n {
        5 => [5, 0x01001202_ffffffff, 0xfffffffa_feffedfd],
        6 => [6, 0x01001202_ffffffff, 0xfffffff9_feffedfd],
        7 => [7, 0x01001202_ffffffff, 0xfffffff8_feffedfd],
        8 => [8, 0x01001202_ffffffff, 0xfffffff7_feffedfd],
        9 => [9, 0x01001202_ffffffff, 0xfffffff6_feffedfd],
        22 => [0x16, 0x01001202_ffffffff, 0xffffffe9_feffedfd],
        39 => [0x27, 0x01001202_ffffffff, 0xffffffd8_feffedfd],
        LIMIT => [
            0x0000ffff_ffffffff,
            0x01001202_ffff0000,
            0x00000000_feffedfd,
        ],
        _ => [0, 0, 0],
    };
    let mut bytes = [0; 24];
    bytes[..8].copy_from_slice(&words[0].to_be_bytes());
    bytes[8..16].copy_from_slice(&words[1].to_be_bytes());
    bytes[16..].copy_from_slice(&words[2].to_be_bytes());
    bytes
}

// A disk with these slots, whose call `fail` fails. Its old slots are 00.
fn disk_of(alloc: Global, slots: Slots, fail: u32) -> Result<MemSlots, Fail> {
    let mut plan = Plan::new();
    plan.push(fail);
    let (a, b) = (bytes_of(slots.0), bytes_of(slots.1));
    Ok(MemSlots::with_room(alloc, [0; 16], [0; 16], a, b, 16, plan)?)
}

// Whether the slots of a disk have this.
fn has_slots(disk: &MemSlots, slots: Slots) -> bool {
    disk.slot(Slot::A) == bytes_of(slots.0) && disk.slot(Slot::B) == bytes_of(slots.1)
}

// Uses a number, if it is above the last one.
fn use_late(late: &mut LateJournal, n: u64)
    requires rising { IsRising late.old }
    ensures rising { IsRising late.new }
    ensures disk { disk_journal late.new ≡ disk_journal late.old }
{
    if late.number() < n && n <= LIMIT {
        late.use_number(n);
    }
}

// Loads a journal, uses these numbers, those that are above the last one, and settles twice. The
// second time nothing is left to write. Returns the last number, and whether each settle succeeds.
fn settle_late<D: SlotDisk>(disk: &mut D, numbers: &[u64; 4]) -> Option<(u64, bool, bool)> {
    let Ok(journal) = Journal::load(disk, &RTU_AB) else {
        return None;
    };
    let mut late = LateJournal::new(journal);
    use_late(&mut late, numbers[0]);
    use_late(&mut late, numbers[1]);
    use_late(&mut late, numbers[2]);
    use_late(&mut late, numbers[3]);
    let n = late.number();
    let Ok(()) = late.settle_all(disk) else {
        return Some((n, false, false));
    };
    Some((n, true, late.settle_all(disk).is_ok()))
}

// The numbers that are used after 5, and the slots after a settle, as a commit for each number
// leaves them. Calls 1 to 4 are those of the load. `calls` is the first call that isn't made.
type LateRow = ([u64; 4], u64, Slots, u32);

const LATE: [LateRow; 7] = [
    ([0, 0, 0, 0], 5, (5, 0), 5),
    ([6, 0, 0, 0], 6, (5, 6), 7),
    ([6, 7, 0, 0], 7, (7, 6), 9),
    ([6, 7, 8, 0], 8, (7, 8), 9),
    ([6, 7, 8, 9], 9, (9, 8), 9),
    ([6, 9, 39, LIMIT], LIMIT, (LIMIT, 39), 9),
    ([9, 0, 0, 0], 9, (5, 9), 7),
];

// Whether a settle writes what the row says, in so many calls.
fn settles_as(alloc: Global, row: &LateRow) -> Result<bool, Fail> {
    let (numbers, last, slots, calls) = *row;
    let mut disk = disk_of(alloc, (5, 0), calls)?;
    let settled = settle_late(&mut disk, &numbers);
    Ok(settled == Some((last, true, true)) && has_slots(&disk, slots))
}

#[test]
fn a_settle_leaves_what_commits_would_have_left(rt: HostRuntime) -> Result<(), Fail> {
    for row in &LATE {
        assert!(rt; settles_as(rt.alloc(), row)?);
    }
    Ok(())
}

// Uses a number above the last one, and settles.
fn use_ahead<D: SlotDisk>(
    ahead: &mut AheadJournal,
    disk: &mut D,
    n: u64,
) -> Result<(), JournalFault>
    requires stands { StandsAhead ahead.old (D.told disk.old) }
    requires rises { ahead_number ahead.old < n }
    requires within { n ≤ LIMIT }
    ensures stands { OnOk result (StandsAhead ahead.new (D.told disk.new)) }
    ensures number { ahead_number ahead.new ≡ n }
    ensures reached { OnOk result (n ≤ ahead_floor ahead.new) }
{
    ahead.use_number(n);
    ahead.settle_ahead(disk)
}

// Loads a journal that is to be 16 ahead, uses two numbers with a settle after each, and then
// lowers the disk to the second one if `lowers` says so. Returns whether all of it succeeds.
fn go_ahead<D: SlotDisk>(disk: &mut D, numbers: (u64, u64), lowers: bool) -> Option<bool> {
    let journal = Journal::load(disk, &RTU_AB).ok()?;
    let (first, second) = numbers;
    if first <= journal.floor() || second <= first || LIMIT < second {
        return None;
    }
    let mut ahead = AheadJournal::new(journal, 16);
    let Ok(()) = use_ahead(&mut ahead, disk, first) else {
        return Some(false);
    };
    let Ok(()) = use_ahead(&mut ahead, disk, second) else {
        return Some(false);
    };
    Some(!lowers || ahead.lower(disk).is_ok())
}

// The numbers that are used after 5, whether the disk is lowered at the end, the slots then, and
// the first call that isn't made.
type AheadRow = ((u64, u64), bool, Slots, u32);

const AHEAD: [AheadRow; 7] = [
    ((6, 7), false, (5, 22), 7),
    ((6, 7), true, (7, 7), 11),
    ((6, 22), false, (5, 22), 7),
    ((6, 22), true, (5, 22), 7),
    ((6, 23), false, (39, 22), 9),
    ((6, LIMIT), false, (LIMIT, 22), 9),
    ((6, LIMIT), true, (LIMIT, 22), 9),
];

// Whether a journal ahead of its numbers writes what the row says, in so many calls.
fn goes_ahead(alloc: Global, row: &AheadRow) -> Result<bool, Fail> {
    let (numbers, lowers, slots, calls) = *row;
    let mut disk = disk_of(alloc, (5, 0), calls)?;
    Ok(go_ahead(&mut disk, numbers, lowers) == Some(true) && has_slots(&disk, slots))
}

#[test]
fn a_disk_is_ahead_until_it_is_lowered(rt: HostRuntime) -> Result<(), Fail> {
    for row in &AHEAD {
        assert!(rt; goes_ahead(rt.alloc(), row)?);
    }
    Ok(())
}
