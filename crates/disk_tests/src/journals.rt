//! Tests of slots, numbers and journals, over disks whose calls fail.
ghost use Rattle.sequence_journal.specs.Journal.{Fits};

use sequence_journal::laws::{failed_calls_keep_images, numbers_rise, uptime_ends_at_any_moment};
use sequence_journal::{
    InitError, Journal, LIMIT, LinkId, LoadError, full_number, full_number_wide, link_in,
    number_in, number_in_old, slot_of,
};
use std::alloc::Global;
use std::test::Fail;
use yasir_io::{MemSlots, Plan, Slot, SlotDisk};

const RTU_AB: LinkId = LinkId {
    label: 1,
    dir: 0,
    profile: 18,
};

const DNP_BA_24: LinkId = LinkId {
    label: 2,
    dir: 1,
    profile: 24,
};

// The bytes of three words, the highest byte of each first.
fn bytes_of(words: &[u64; 3]) -> [u8; 24] {
    let mut bytes = [0; 24];
    bytes[..8].copy_from_slice(&words[0].to_be_bytes());
    bytes[8..16].copy_from_slice(&words[1].to_be_bytes());
    bytes[16..].copy_from_slice(&words[2].to_be_bytes());
    bytes
}

// Links of a third protocol, and with profiles that the program doesn't have.
const THIRD_AB_20: LinkId = LinkId {
    label: 3,
    dir: 0,
    profile: 20,
};

const LAST_BA_0: LinkId = LinkId {
    label: 255,
    dir: 1,
    profile: 0,
};

const HELD: [(u64, LinkId, [u64; 3]); 6] = [
    (0, RTU_AB, [0, 0x01001202_ffffffff, 0xffffffff_feffedfd]),
    (6, RTU_AB, [6, 0x01001202_ffffffff, 0xfffffff9_feffedfd]),
    (
        65_536,
        DNP_BA_24,
        [65_536, 0x02011802_ffffffff, 0xfffeffff_fdfee7fd],
    ),
    (
        281_474_976_710_655,
        RTU_AB,
        [0xffff_ffffffff, 0x01001202_ffff0000, 0x00000000_feffedfd],
    ),
    (
        5,
        THIRD_AB_20,
        [5, 0x03001402_ffffffff, 0xfffffffa_fcffebfd],
    ),
    (
        65_536,
        LAST_BA_0,
        [65_536, 0xff010002_ffffffff, 0xfffeffff_00fefffd],
    ),
];

// Whether a slot is that of a number for this link.
fn holds_number(n: u64, link: &LinkId, slot: &[u8; 24]) -> bool {
    n <= LIMIT
        && link.has_direction()
        && slot_of(n, link) == *slot
        && number_in(slot, link) == Some(n)
        && link_in(slot) == Some((n, *link))
}

// Whether a slot holds no number for the link with the other profile.
fn holds_none_for_other(link: &LinkId, slot: &[u8; 24]) -> bool {
    let profile = match link.profile {
        18 => 24,
        _ => 18,
    };
    let other = LinkId { profile, ..*link };
    other.has_direction() && number_in(slot, &other).is_none()
}

// Whether a slot holds the number of a row, for its link alone.
fn holds(row: &(u64, LinkId, [u64; 3])) -> bool {
    let (n, link, words) = row;
    let slot = bytes_of(words);
    holds_number(*n, link, &slot) && holds_none_for_other(link, &slot)
}

#[test]
fn a_slot_holds_a_number_for_a_link(rt: HostRuntime) {
    for row in &HELD {
        assert!(rt; holds(row));
    }
}

// Slots that hold no number: nothing written, no complement, a complement that is wrong in its
// first bit, one that is wrong in its last bit, a number above the limit, a version of 1, and a
// direction of 2.
const NONE_HELD: [[u64; 3]; 7] = [
    [0, 0, 0],
    [0x1111111111111111, 0x1111111111111111, 0x1111111111111111],
    [5, 0x01001202_7fffffff, 0xfffffffa_feffedfd],
    [5, 0x01001202_ffffffff, 0xfffffffa_feffedfc],
    [
        0x00010000_00000000,
        0x01001202_fffeffff,
        0xffffffff_feffedfd,
    ],
    [5, 0x01001201_ffffffff, 0xfffffffa_feffedfe],
    [5, 0x01021202_ffffffff, 0xfffffffa_fefdedfd],
];

// Whether the slot with these words holds no number, for whatever link.
fn holds_none(words: &[u64; 3]) -> bool {
    let slot = bytes_of(words);
    number_in(&slot, &RTU_AB).is_none() && link_in(&slot).is_none()
}

#[test]
fn other_slots_hold_none(rt: HostRuntime) {
    for words in &NONE_HELD {
        assert!(rt; holds_none(words));
    }
}

// An old slot, and the number that it holds, if it holds one.
const OLD_HELD: [(u128, Option<u64>); 8] = [
    (0x0000000000000000_ffffffffffffffff, Some(0)),
    (0x0000000000000005_fffffffffffffffa, Some(5)),
    (
        0x0000ffffffffffff_ffff000000000000,
        Some(281_474_976_710_655),
    ),
    // Nothing written, no complement, a complement that is wrong in its first bit, one that is
    // wrong in its last bit, and a number above the limit.
    (0, None),
    (0x11111111111111111111111111111111, None),
    (0x0000000000000005_7ffffffffffffffa, None),
    (0x0000000000000005_fffffffffffffffb, None),
    (0x0001000000000000_fffeffffffffffff, None),
];

#[test]
fn an_old_slot_holds_a_number(rt: HostRuntime) {
    for (slot, n) in &OLD_HELD {
        assert!(rt; number_in_old(&slot.to_be_bytes()) == *n);
    }
}

// A floor, a word, and the number that the word stands for, if there is one.
const WORDS: [(u64, u16, Option<u64>); 6] = [
    (65_535, 1, Some(65_537)),
    (65_535, 0, Some(65_536)),
    (0, 0, Some(65_536)),
    (281_474_976_710_654, 65_535, Some(281_474_976_710_655)),
    (281_474_976_710_654, 0, None),
    (281_474_976_710_655, 65_535, None),
];

// A floor, a word of four bytes, and the number that the word stands for, if there is one.
const WIDE_WORDS: [(u64, u32, Option<u64>); 6] = [
    (65_535, 1, Some(4_294_967_297)),
    (65_535, 65_536, Some(65_536)),
    (0, 0, Some(4_294_967_296)),
    (281_474_976_710_655, 0, None),
    (281_474_976_710_655, 1, None),
    (281_474_976_710_655, 4_294_967_295, None),
];

// Whether a word stands for this number.
fn stands_for(floor: u64, word: u16, want: Option<u64>) -> bool {
    floor <= LIMIT && full_number(floor, word) == want
}

// Whether a word of four bytes stands for this number.
fn stands_for_wide(floor: u64, word: u32, want: Option<u64>) -> bool {
    floor <= LIMIT && full_number_wide(floor, word) == want
}

#[test]
fn a_word_stands_for_the_next_number_that_has_it(rt: HostRuntime) {
    for (floor, word, want) in &WORDS {
        assert!(rt; stands_for(*floor, *word, *want));
    }
    for (floor, word, want) in &WIDE_WORDS {
        assert!(rt; stands_for_wide(*floor, *word, *want));
    }
}

// What a slot has: zeros, bytes that hold no number, a number for the link `RTU_AB`, or one for the
// link `DNP_BA_24`. An old slot with a number names no link.
#[derive(Clone, Copy)]
enum Content {
    Blank,
    Ones,
    Own(u64),
    Another(u64),
}

use Content::{Another, Blank, Ones, Own};

impl Content {
    // The bytes of a slot.
    fn bytes(self) -> [u8; 24] {
        match self {
            Blank => [0; 24],
            Ones => [0x11; 24],
            Own(n) => slot_of(n.min(LIMIT), &RTU_AB),
            Another(n) => slot_of(n.min(LIMIT), &DNP_BA_24),
        }
    }

    // The bytes of an old slot.
    fn old_bytes(self) -> [u8; 16] {
        match self {
            Blank => [0; 16],
            Ones => [0x11; 16],
            Own(n) | Another(n) => ((u128::from(n) << 64) | u128::from(!n)).to_be_bytes(),
        }
    }
}

// What all slots of a disk have: old slots A and B, then slots A and B.
type Contents = (Content, Content, Content, Content);

// The bytes of all slots of a disk, in the same order.
type AllBytes = ([u8; 16], [u8; 16], [u8; 24], [u8; 24]);

// The bytes of slots that have this.
fn all_bytes(slots: &Contents) -> AllBytes {
    let (old_a, old_b, a, b) = *slots;
    (old_a.old_bytes(), old_b.old_bytes(), a.bytes(), b.bytes())
}

// A disk with the bytes of these slots, whose call `fail` fails.
fn disk_with(alloc: Global, slots: AllBytes, fail: u32) -> Result<MemSlots, Fail> {
    let (old_a, old_b, a, b) = slots;
    let mut plan = Plan::new();
    plan.push(fail);
    Ok(MemSlots::with_room(alloc, old_a, old_b, a, b, 16, plan)?)
}

// A disk with these slots, whose call `fail` fails.
fn disk_of(alloc: Global, slots: &Contents, fail: u32) -> Result<MemSlots, Fail> {
    disk_with(alloc, all_bytes(slots), fail)
}

// A disk with this in slots A and B and zeros in the old ones, whose call `fail` fails.
fn new_disk_of(alloc: Global, a: Content, b: Content, fail: u32) -> Result<MemSlots, Fail> {
    disk_of(alloc, &(Blank, Blank, a, b), fail)
}

// Whether the slots of a disk have this.
fn has_slots(disk: &MemSlots, slots: &Contents) -> bool {
    let found = (
        disk.old_slot(Slot::A),
        disk.old_slot(Slot::B),
        disk.slot(Slot::A),
        disk.slot(Slot::B),
    );
    found == all_bytes(slots)
}

// The floor that is loaded from a disk.
fn floor_in<D: SlotDisk>(disk: &mut D) -> Option<u64> {
    match Journal::load(disk, &RTU_AB) {
        Ok(journal) => Some(journal.floor()),
        Err(_) => None,
    }
}

// Why no journal is loaded from a disk.
fn refusal<D: SlotDisk>(disk: &mut D) -> Option<LoadError> {
    Journal::load(disk, &RTU_AB).err()
}

// Why no journal is made on a disk.
fn refusal_to_make<D: SlotDisk>(disk: &mut D) -> Option<InitError> {
    Journal::init(disk, &RTU_AB).err()
}

// Whether number 9 is committed after a lower one.
fn commits_nine<D: SlotDisk>(journal: &mut Journal, disk: &mut D) -> bool
    requires { Fits journal.old (D.told disk.old) }
{
    journal.floor() < 9 && journal.commit(disk, 9).is_ok()
}

// The slots, the floor, what slot A has after the load, and the slot that the next commit writes.
type FloorRow = (Contents, u64, Content, Slot);

const FLOORS: [FloorRow; 9] = [
    ((Blank, Blank, Own(5), Ones), 5, Own(5), Slot::B),
    ((Blank, Ones, Ones, Own(5)), 5, Ones, Slot::A),
    ((Ones, Blank, Own(5), Own(6)), 6, Own(5), Slot::A),
    ((Ones, Ones, Own(6), Own(5)), 6, Own(6), Slot::B),
    ((Blank, Blank, Own(5), Own(5)), 5, Own(5), Slot::B),
    // A number beside another link's number, and one beside old numbers.
    ((Blank, Blank, Another(9), Own(5)), 5, Another(9), Slot::A),
    ((Own(7), Own(4), Own(5), Ones), 7, Own(5), Slot::B),
    // If there are only old numbers, the greatest of them is taken over.
    ((Own(5), Ones, Blank, Blank), 5, Own(5), Slot::B),
    ((Own(5), Own(6), Ones, Ones), 6, Own(6), Slot::B),
];

// Whether a journal is loaded and number 9 is committed as the row says.
fn goes_on(disk: &mut MemSlots, row: &FloorRow) -> bool {
    let ((old_a, old_b, _, b), floor, a, written) = *row;
    let Ok(mut journal) = Journal::load(disk, &RTU_AB) else {
        return false;
    };
    (journal.floor(), journal.broken()) == (floor, false)
        && has_slots(disk, &(old_a, old_b, a, b))
        && commits_nine(&mut journal, disk)
        && disk.slot(written) == Own(9).bytes()
        && floor_in(disk) == Some(9)
}

// Calls the laws.
fn laws_hold() {
    numbers_rise();
    failed_calls_keep_images::<MemSlots>();
    uptime_ends_at_any_moment::<MemSlots>();
}

#[test]
fn the_greater_number_is_the_floor(rt: HostRuntime) -> Result<(), Fail> {
    for row in &FLOORS {
        assert!(rt; goes_on(&mut disk_of(rt.alloc(), &row.0, 0)?, row));
    }
    laws_hold();
    Ok(())
}

// The slots, and the number for another link that they are refused for, or none if they are refused
// because they hold no number.
type RefusedRow = (Contents, Option<u64>);

const REFUSED: [RefusedRow; 6] = [
    ((Blank, Ones, Ones, Blank), None),
    ((Blank, Ones, Another(5), Blank), Some(5)),
    ((Blank, Ones, Blank, Another(6)), Some(6)),
    ((Blank, Ones, Another(5), Another(6)), Some(6)),
    ((Blank, Ones, Another(5), Another(4)), Some(5)),
    // Old numbers don't count if there is a number for another link.
    ((Own(9), Own(8), Another(5), Blank), Some(5)),
];

// Why no journal is loaded: for the number of another link, or because there is none.
fn why_of(other: Option<u64>) -> LoadError {
    match other {
        Some(n) => LoadError::WrongLink {
            slot: Another(n).bytes(),
        },
        None => LoadError::Bad {
            a: [0x11; 24],
            b: [0; 24],
        },
    }
}

// Whether no journal is loaded, for the reason of the row, and the slots stay as they are.
fn is_refused(alloc: Global, row: &RefusedRow) -> Result<bool, Fail> {
    let (slots, other) = *row;
    let mut disk = disk_of(alloc, &slots, 0)?;
    Ok(refusal(&mut disk) == Some(why_of(other)) && has_slots(&disk, &slots))
}

#[test]
fn other_disks_are_refused(rt: HostRuntime) -> Result<(), Fail> {
    for row in &REFUSED {
        assert!(rt; is_refused(rt.alloc(), row)?);
    }
    Ok(())
}

// Slots with a number, for whatever link, and the floor that is found.
type StandingRow = (Contents, u64);

const STANDING: [StandingRow; 4] = [
    // Those of a new journal.
    ((Ones, Blank, Own(0), Ones), 0),
    // The floor that is found is the greatest number, for whatever link.
    ((Blank, Blank, Own(5), Another(6)), 6),
    ((Blank, Own(4), Blank, Blank), 4),
    ((Own(7), Blank, Blank, Own(5)), 7),
];

// Whether slots with a number aren't taken for a new disk, and stay as they are.
fn numbers_stay(alloc: Global, row: &StandingRow) -> Result<bool, Fail> {
    let (slots, floor) = *row;
    let mut disk = disk_of(alloc, &slots, 0)?;
    Ok(refusal_to_make(&mut disk) == Some(InitError::Stands { floor }) && has_slots(&disk, &slots))
}

// Which call fails while a journal is made, and what slot A has then. Calls 1 to 4 are the reads, 5
// the write, 6 the sync.
type InitRow = (u32, Content);

const INIT_FAULTS: [InitRow; 4] = [(1, Blank), (4, Blank), (5, Blank), (6, Own(0))];

// Whether no journal begins if a call fails.
fn init_fails(alloc: Global, row: &InitRow) -> Result<bool, Fail> {
    let (fail, a) = *row;
    let mut disk = new_disk_of(alloc, Blank, Blank, fail)?;
    Ok(
        refusal_to_make(&mut disk) == Some(InitError::Fault)
            && has_slots(&disk, &(Blank, Blank, a, Blank)),
    )
}

// The floor of a journal that is made on a disk.
fn new_floor_in<D: SlotDisk>(disk: &mut D) -> Option<u64> {
    match Journal::init(disk, &RTU_AB) {
        Ok(journal) => Some(journal.floor()),
        Err(_) => None,
    }
}

// Whether a journal over slots without a number begins at 0, in slot A.
fn begins_at_zero(alloc: Global) -> Result<bool, Fail> {
    let mut disk = disk_of(alloc, &(Ones, Blank, Ones, Ones), 0)?;
    Ok(new_floor_in(&mut disk) == Some(0) && has_slots(&disk, &(Ones, Blank, Own(0), Ones)))
}

#[test]
fn a_new_journal_stands_at_zero(rt: HostRuntime) -> Result<(), Fail> {
    assert!(rt; begins_at_zero(rt.alloc())?);
    for row in &STANDING {
        assert!(rt; numbers_stay(rt.alloc(), row)?);
    }
    for row in &INIT_FAULTS {
        assert!(rt; init_fails(rt.alloc(), row)?);
    }
    Ok(())
}
