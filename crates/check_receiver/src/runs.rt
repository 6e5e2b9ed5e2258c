//! How the receiver takes a run of ticks at once: how many are alike, and which bytes leave.
ghost use Rattle.std.specs.Prelude.{◌≡◌, ℕ, ◌+◌, ◌<◌, ◌≤◌, List, [], ◌∷◌, ◌++◌, length, map, take};
ghost use Rattle.std.specs.Prelude.{true};
ghost use Rattle.yasir_ticks.specs.declared.tick.Tick.{Tick};
ghost use Rattle.yasir_ticks.specs.declared.tick.Tick.TheVariants.{Byte};
ghost use Rattle.yasir_ticks.specs.declared.TheConstants.{MAX_TICKS};
ghost use Rattle.frame_ending.specs.Stands.{ticks_taken as ticks_cut};
ghost use Rattle.frame_ending.specs.Stands.{CutStandsFor};
ghost use Rattle.yasir_ticks.specs.DelayRing.{ring_ticks, AreAlike};
ghost use Rattle.check_receiver.specs.Runs.{BeginNone, CheckerIsFront, KeepsHeader};
ghost use Rattle.frame_ending.specs.Cuts.{cut_of};
ghost use Rattle.frame_ending.specs.declared.cut.Cut.TheVariants.{Start};
ghost use Rattle.line_rules.specs.Rules.{head_of};
ghost use Rattle.line_rules.specs.declared.head.Head.TheVariants.{Good};

use frame_ending::{BurstCut, RunBytes};
use line_rules::{Head, LineRules};
use yasir_ticks::DelayRing;

/// Takes these bytes, one in each tick, as long as they begin no burst and are alike: all live, or
/// none. Returns how many it has taken. The ticks taken before and these bytes may be at most
/// `MAX_TICKS` together.
#[inline]
pub fn cut_some<R: LineRules>(cut: &mut BurstCut<R>, bytes: &[u8]) -> usize
    requires { ticks_cut cut.old + length bytes.now ≤ MAX_TICKS }
    ensures within { result ≤ length bytes.now }
    ensures taken { ticks_cut cut.new ≡ ticks_cut cut.old + result }
    ensures stands { (line : List Tick) → CutStandsFor R.LineRules cut.old line
        → CutStandsFor R.LineRules cut.new (line ++ map Byte (take result bytes.now)) }
    ensures none { (line : List Tick) → CutStandsFor R.LineRules cut.old line
        → BeginNone R.rules line (map Byte (take result bytes.now)) }
    ensures starts { result ≡ 0 → 0 < length bytes.now → (line : List Tick) (b : ℕ)
        → CutStandsFor R.LineRules cut.old line → cut_of R.rules line (Byte b) ≡ Start b }
{
    let live = cut.go_on_some(bytes);
    if live > 0 {
        return live;
    }
    cut.pass_over_some(bytes)
}

// The greatest number of bytes that a header has.
const HEADER_MOST: usize = 10;

// Whether the bytes so far have a whole and good header.
#[inline]
fn has_good_head<R: LineRules>(rules: &R) -> bool
    ensures { result ≡ true → (x : List ℕ) → R.stands rules.now x → head_of R.rules x ≡ Good }
{
    match rules.head() {
        Head::Good => true,
        Head::Short | Head::Bad => false,
    }
}

/// Whether these bytes begin with a whole and good header. If the protocol has no headers, they do.
#[inline]
pub fn begin_well<R: LineRules>(bytes: &[u8]) -> bool
    ensures { result ≡ true → (n : ℕ) × (n ≤ length bytes.now)
        × (head_of R.rules (take n bytes.now) ≡ Good) }
{
    let mut rules = R::fresh();
    // a protocol without headers
    if has_good_head(&rules) {
        return true;
    }
    let _ = rules.take_some(&bytes[..bytes.len().min(HEADER_MOST)]);
    match rules.head() {
        Head::Good => true,
        Head::Short | Head::Bad => false,
    }
}

/// Returns the bytes with which a burst can begin without a note: all of them if they begin with a
/// good header, and otherwise none.
#[inline]
pub fn noteless_front<R: LineRules>(bytes: &[u8]) -> &[u8]
    ensures within { length result.now ≤ length bytes.now }
    ensures front { result.now ≡ take (length result.now) bytes.now }
    ensures keeps { (first : ℕ) (others : List ℕ) → first ∷ others ≡ result.now
        → KeepsHeader R.rules (first ∷ []) others }
{
    if begin_well::<R>(bytes) {
        return bytes;
    }
    &bytes[..0]
}

/// Puts into `sent`, which must be empty, the bytes that leave in the next `count` ticks, none of
/// which is a burst's last one. The ticks must be alike; if they are silent, `sent` stays empty.
#[inline]
pub fn lend<const D: usize>(ring: &DelayRing<D>, count: usize, sent: &mut RunBytes)
    requires within { count ≤ D }
    requires alike { AreAlike (take count (ring_ticks ring.now)) }
    requires empty { sent.old.items ≡ [] }
    ensures { CheckerIsFront (ring_ticks ring.now) count sent.new.items }
{
    let front = ring.alike_bytes(count);
    if front.is_empty() {
        return;
    }
    let _ = sent.try_extend_from_slice(front);
}

// The greatest number of bytes of a run.
const LONGEST: usize = 64;

/// Returns how many of these bytes, up to 64, can come while all ticks that leave are alike, all
/// bytes or all silence. First the ticks of the ring leave, and then the bytes themselves.
#[inline]
pub fn alike_along<const D: usize>(ring: &DelayRing<D>, bytes: &[u8]) -> usize
    ensures within { result ≤ length bytes.now }
    ensures most { result ≤ 64 }
    ensures alike { AreAlike (take result (ring_ticks ring.now ++ map Byte bytes.now)) }
{
    let most = bytes.len().min(LONGEST);
    let count = ring.front_alike(most.min(D));
    if count < D {
        return count;
    }
    if ring.front_bytes(1).is_empty() {
        return count;
    }
    most
}

/// Puts into `sent`, which must be empty, the bytes that leave while the first `count` of these
/// bytes come, none of which is a burst's last one. All ticks that leave must be alike. If they are
/// bytes, first those of the ring leave, and after a whole ring the bytes themselves.
#[inline]
pub fn lend_along<const D: usize>(
    ring: &DelayRing<D>,
    bytes: &[u8],
    count: usize,
    sent: &mut RunBytes,
)
    requires within { count ≤ length bytes.now }
    requires most { count ≤ 64 }
    requires alike { AreAlike (take count (ring_ticks ring.now ++ map Byte bytes.now)) }
    requires empty { sent.old.items ≡ [] }
    ensures { CheckerIsFront (ring_ticks ring.now ++ map Byte bytes.now) count sent.new.items }
{
    let front = ring.alike_bytes(count.min(D));
    if front.is_empty() {
        return;
    }
    let _ = sent.try_extend_from_slice(front);
    if front.len() < D {
        return;
    }
    let behind = &bytes[..count - D];
    let _ = sent.try_extend_from_slice(behind);
}
