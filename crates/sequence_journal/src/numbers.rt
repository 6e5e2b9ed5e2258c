//! The bytes of a slot, and the full number of a word on the link.
ghost use Rattle.std.specs.Prelude.{◌≡◌, ◌≤◌, ◌<◌, ◌-◌, ◌^◌, ◌++◌, ℕ, map, Some, IfSome};
ghost use Rattle.std.specs.Prelude.{IfNone};
ghost use Rattle.sequence_journal.specs.Numbers.{IsLeastWith, full_of};
ghost use Rattle.sequence_journal.specs.declared.link.LinkId.{LinkId};
ghost use Rattle.sequence_journal.specs.Links.{HasDirection};
ghost use Rattle.sequence_journal.specs.Slots.{slot_bytes, old_slot_bytes, number_held, link_held};
ghost use Rattle.sequence_journal.specs.Slots.{old_number_held, with_complement};

use crate::link::LinkId;
use byteorder::{BigEndian, ByteOrder};
use yasir_io::{OLD_SLOT_LEN, OldSlotBytes, SLOT_LEN, SlotBytes};

/// How many bytes of a slot hold its number, its link and its version. Their complement is the
/// other half.
const HALF: usize = SLOT_LEN / 2;

/// How many bytes of an old slot hold its number. Their complement is the other half.
const OLD_HALF: usize = OLD_SLOT_LEN / 2;

/// The version of a slot that names its link.
const VERSION: u8 = 2;

/// The greatest number, 2^48 - 1.
pub const LIMIT: u64 = 281_474_976_710_655;

/// Returns the slot that holds a number for a link: the eight bytes of the number, the highest
/// first, the label, the direction and the profile of the link, the version 2, and then the
/// complement of these twelve bytes.
#[tactic(auto, unfolding(crate::specs::Slots::slot_bytes))]
pub fn slot_of(n: u64, link: &LinkId) -> SlotBytes
    /// The number is at most 2^48 - 1.
    requires within { n ≤ LIMIT }
    /// The direction of the link is 0 or 1.
    requires link { HasDirection link.now }
    ensures { result ≡ slot_bytes n link.now }
{
    let mut half = [
        0,
        0,
        0,
        0,
        0,
        0,
        0,
        0,
        link.label,
        link.dir,
        link.profile,
        VERSION,
    ];
    BigEndian::write_u64(&mut half, n);
    completed(half)
}

fn completed(half: [u8; HALF]) -> SlotBytes
    ensures { result ≡ with_complement half }
{
    let mut slot = [0; SLOT_LEN];
    let complement = half.map(|b| u8::MAX - b);
    slot[..HALF].copy_from_slice(&half);
    slot[HALF..].copy_from_slice(&complement);
    slot
}

/// Returns the number that a slot holds for a link, or `None` if it isn't the slot of a number up
/// to the limit for this link.
#[tactic(auto, unfolding(crate::specs::Slots::number_held))]
pub fn number_in(slot: &SlotBytes, link: &LinkId) -> Option<u64>
    /// The direction of the link is 0 or 1.
    requires link { HasDirection link.now }
    /// It is the number that the slot holds for the link by the definition.
    ensures value { result ≡ number_held link.now slot.now }
    /// It is at most 2^48 - 1.
    ensures within { IfSome result (λ n. n ≤ LIMIT) }
    /// The slot has exactly the bytes that represent this number and the link.
    ensures found { IfSome result (λ n. slot.now ≡ slot_bytes n link.now) }
    /// If the slot has the bytes of a number up to the limit for the link, this number is returned.
    ensures only { (n : ℕ) → n ≤ LIMIT → slot.now ≡ slot_bytes n link.now → result ≡ Some n }
{
    let n = BigEndian::read_u64(slot);
    if n <= LIMIT && slot_of(n, link) == *slot {
        Some(n)
    } else {
        None
    }
}

/// Returns the number that a slot holds, and the link for which it holds it, or `None` if it isn't
/// the slot of a number up to the limit for some link. The link's label and profile may be any
/// bytes, and its direction is 0 or 1.
#[tactic(auto, unfolding(crate::specs::Slots::link_held))]
pub fn link_in(slot: &SlotBytes) -> Option<(u64, LinkId)>
    /// It is the number and the link that the slot holds by the definition.
    ensures value { result ≡ link_held slot.now }
    /// The number is at most 2^48 - 1.
    ensures within { IfSome result (λ held. held.0 ≤ LIMIT) }
    /// The slot has exactly the bytes that represent this number and this link, whose direction is
    /// 0 or 1.
    ensures found { IfSome result (λ held. HasDirection held.1 × (slot.now ≡ slot_bytes held.0 held.1)) }
    /// If the slot has the bytes of a number up to the limit for a link, these two are returned.
    ensures only { (n : ℕ) (link : LinkId) → n ≤ LIMIT → HasDirection link → slot.now ≡ slot_bytes n link
        → result ≡ Some (n, link) }
{
    let link = LinkId {
        label: slot[8],
        dir: slot[9],
        profile: slot[10],
    };
    if !link.has_direction() {
        return None;
    }
    let n = number_in(slot, &link)?;
    Some((n, link))
}

#[tactic(auto, unfolding(crate::specs::Slots::old_slot_bytes))]
fn old_slot_of(n: u64) -> OldSlotBytes
    requires { n ≤ LIMIT }
    ensures { result ≡ old_slot_bytes n }
{
    let mut half = [0; OLD_HALF];
    BigEndian::write_u64(&mut half, n);
    old_completed(half)
}

fn old_completed(half: [u8; OLD_HALF]) -> OldSlotBytes
    ensures { result ≡ with_complement half }
{
    let mut slot = [0; OLD_SLOT_LEN];
    let complement = half.map(|b| u8::MAX - b);
    slot[..OLD_HALF].copy_from_slice(&half);
    slot[OLD_HALF..].copy_from_slice(&complement);
    slot
}

/// Returns the number that an old slot holds, or `None` if it isn't the old slot of a number up to
/// the limit. An old slot has the eight bytes of its number, the highest first, and then their
/// complement.
#[tactic(auto, unfolding(crate::specs::Slots::old_number_held))]
pub fn number_in_old(slot: &OldSlotBytes) -> Option<u64>
    /// It is the number that the old slot holds by the definition.
    ensures value { result ≡ old_number_held slot.now }
    /// It is at most 2^48 - 1.
    ensures within { IfSome result (λ n. n ≤ LIMIT) }
    /// The old slot has exactly the bytes that represent this number.
    ensures found { IfSome result (λ n. slot.now ≡ old_slot_bytes n) }
    /// If the old slot has the bytes of a number up to the limit, this number is returned.
    ensures only { (n : ℕ) → n ≤ LIMIT → slot.now ≡ old_slot_bytes n → result ≡ Some n }
{
    let n = BigEndian::read_u64(slot);
    if n <= LIMIT && old_slot_of(n) == *slot {
        Some(n)
    } else {
        None
    }
}

/// Returns the full number of a word on the link: the least number above the floor that equals the
/// word modulo 65,536. Returns `None` if that is above the limit.
pub fn full_number(floor: u64, word: u16) -> Option<u64>
    /// The floor is at most 2^48 - 1.
    requires { floor ≤ LIMIT }
    /// It is the full number of the word by the definition.
    ensures value { result ≡ full_of LIMIT 65536 floor word }
    /// It is the least number above the floor that equals the word modulo 65,536.
    ensures found { IfSome result (λ n. IsLeastWith 65536 floor word n) }
    /// It is at most 2^48 - 1.
    ensures within { IfSome result (λ n. n ≤ LIMIT) }
    /// If there is none, the least such number is above 2^48 - 1.
    ensures none { IfNone result ((n : ℕ) → IsLeastWith 65536 floor word n → LIMIT < n) }
{
    full_with(LIMIT, 65_536, floor, u64::from(word))
}

/// Returns the full number of a word of four bytes: the least number above the floor that equals
/// the word modulo 4,294,967,296. Returns `None` if that is above the limit.
pub fn full_number_wide(floor: u64, word: u32) -> Option<u64>
    /// The floor is at most 2^48 - 1.
    requires { floor ≤ LIMIT }
    /// It is the full number of the word by the definition.
    ensures value { result ≡ full_of LIMIT 4294967296 floor word }
    /// It is the least number above the floor that equals the word modulo 4,294,967,296.
    ensures found { IfSome result (λ n. IsLeastWith 4294967296 floor word n) }
    /// It is at most 2^48 - 1.
    ensures within { IfSome result (λ n. n ≤ LIMIT) }
    /// If there is none, the least such number is above 2^48 - 1.
    ensures none { IfNone result ((n : ℕ) → IsLeastWith 4294967296 floor word n → LIMIT < n) }
{
    full_with(LIMIT, 4_294_967_296, floor, u64::from(word))
}

/// Returns the full number of a word below `words`: the least number above the floor that equals
/// the word modulo `words`. Returns `None` if that is above `limit`.
pub fn full_with(limit: u64, words: u64, floor: u64, word: u64) -> Option<u64>
    /// The limit is at most 2^48 - 1.
    requires limit { limit ≤ LIMIT }
    /// There are at most 2^32 words.
    requires words { words ≤ 2 ^ 32 }
    /// The floor is at most the limit.
    requires floor { floor ≤ limit }
    /// The word is below `words`.
    requires word { word < words }
    /// It is the full number of the word by the definition.
    ensures value { result ≡ full_of limit words floor word }
    /// It is the least number above the floor that equals the word modulo `words`.
    ensures found { IfSome result (λ n. IsLeastWith words floor word n) }
    /// It is at most the limit.
    ensures within { IfSome result (λ n. n ≤ limit) }
    /// If there is none, the least such number is above the limit.
    ensures none { IfNone result ((n : ℕ) → IsLeastWith words floor word n → limit < n) }
{
    let next = floor + 1;
    let n = next + (word + words - next % words) % words;
    if n <= limit { Some(n) } else { None }
}
