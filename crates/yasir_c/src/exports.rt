//! The functions that C calls for a box.
ghost use Rattle.std.specs.Prelude.{◌≡◌, ◌+◌, ◌≤◌, length, take, drop, None, map};
ghost use Rattle.yasir_ticks.specs.Ticks.{silent};
ghost use Rattle.yasir_ticks.specs.TickRun.{run_ticks};
ghost use Rattle.yasir_ticks.specs.declared.tick.Tick.TheVariants.{Byte};
ghost use Rattle.yasir_io.specs.declared.disk.TheConstants.{SLOT_LEN};
ghost use Rattle.yasir_c.specs.Answers.{tick_in};
ghost use Rattle.yasir_c.specs.Edge.{MakesBy, TellsStep, StepsBy, CommittedBy, TakesBy, InitsBy};
ghost use Rattle.yasir_c.specs.Edge.{why_refused};
ghost use Rattle.yasir_c.specs.Holding.{floor_told};
ghost use Rattle.yasir_c.specs.Statuses.{Returns};

use crate::answer::Answer;
use crate::handle::{Handle, put_in, taken_out};
use crate::held::Held;
use crate::kind::KindNumbers;
use crate::status::Status;
use crate::withholding::WithholdingBox;
use any_box::{AnyBox, DefinedBox, HeldBox, HeldStep};
use frame_ending::RunBytes;
use sequence_journal::{LoadError, slot_of};
use std::alloc::Global;
use yasir_io::{SLOT_LEN, SlotBytes};
use yasir_ticks::{Tick, TickRun};

/// The version of these functions, which rises when one of them changes what it takes or returns.
const VERSION: u32 = 2;

/// The number of a silent tick. The numbers below it are those of bytes.
const SILENT: u16 = 256;

/// The most bytes that leave in one run.
const MAX_SENT: usize = 64;

fn slot_in(slots: &[u8], first: usize) -> SlotBytes
    requires { first + 24 ≤ length slots.now }
    ensures { result ≡ take 24 (drop first slots.now) }
{
    let mut slot = [0; SLOT_LEN];
    slot.copy_from_slice(&slots[first..first + SLOT_LEN]);
    slot
}

fn why_not(error: &LoadError) -> Status
    ensures { result ≡ why_refused error.now }
{
    match error {
        LoadError::Bad { .. } => Status::NoJournal,
        LoadError::WrongLink { .. } => Status::OtherLink,
        // no call of slots in memory fails
        LoadError::Fault => Status::NoJournal,
    }
}

/// Returns the version of these functions.
#[unsafe(no_mangle)]
pub extern "C" fn yasir_version() -> u32
    ensures { result ≡ 2 }
{
    VERSION
}

// Makes a box, and puts it into a handle that holds nothing.
pub(crate) fn make(
    alloc: Global,
    handle: &mut Handle,
    kind: &KindNumbers,
    key: &[u8],
    slots: &[u8],
) -> Status
    ensures { MakesBy ⟦<AnyBox as DefinedBox>⟧ kind.now key.now slots.now handle.old.held.value
        handle.new.held.value result }
{
    let Some((kind, dir)) = kind.known() else {
        return Status::BadArgument;
    };
    if slots.len() != 2 * SLOT_LEN {
        return Status::BadArgument;
    }
    if handle.holds_one() {
        return Status::BadArgument;
    }
    let a = slot_in(slots, 0);
    let b = slot_in(slots, SLOT_LEN);
    let held = match HeldBox::new(kind, dir, key, a, b) {
        Ok(held) => held,
        Err(error) => return why_not(&error),
    };
    let Ok(held) = Box::new(alloc, Held::LineBox(WithholdingBox::new(held))) else {
        return Status::NoMemory;
    };
    put_in(handle, held);
    Status::Done
}

/// Makes a box that has taken no tick.
#[unsafe(no_mangle)]
pub extern "C" fn yasir_new(
    alloc: Global,
    handle: &mut Handle,
    kind: &KindNumbers,
    key: &[u8],
    slots: &[u8],
) -> u8
    ensures { Returns (MakesBy ⟦<AnyBox as DefinedBox>⟧ kind.now key.now slots.now
        handle.old.held.value
        handle.new.held.value) result }
{
    make(alloc, handle, kind, key, slots).number()
}

// Returns the tick with this number, or `None` if there is none.
pub(crate) fn tick_in(number: u16) -> Option<Tick>
    ensures { result ≡ tick_in number }
{
    if number < SILENT {
        return Some(Tick::Byte(number as u8));
    }
    if number == SILENT {
        return Some(Tick::Silent);
    }
    None
}

// Tells C what a step returns, or only what must be written, if the step uses a number.
fn told(step: &HeldStep, answer: &mut Answer, slot: &mut [u8]) -> Status
    requires { length slot.old ≡ SLOT_LEN }
    ensures { TellsStep step.now answer.new slot.new result }
{
    match &step.commit {
        None => {
            *answer = Answer::of(step);
            slot.copy_from_slice(&[0; SLOT_LEN]);
            Status::Done
        }
        Some(commit) => {
            *answer = Answer::asking(commit);
            slot.copy_from_slice(&commit.bytes);
            Status::Commit
        }
    }
}

// Takes the next tick with the box in a handle.
pub(crate) fn step(
    alloc: Global,
    handle: &mut Handle,
    tick: u16,
    answer: &mut Answer,
    slot: &mut [u8],
) -> Status
    ensures { StepsBy ⟦<AnyBox as DefinedBox>⟧ handle.old.held.value handle.new.held.value tick
        answer.old
        answer.new slot.old slot.new result }
{
    let Some(tick) = tick_in(tick) else {
        return Status::BadArgument;
    };
    if slot.len() != SLOT_LEN {
        return Status::BadArgument;
    }
    let Some(mut held) = taken_out(alloc, handle) else {
        return Status::Empty;
    };
    let taken = held.step(tick);
    put_in(handle, held);
    match taken {
        Ok(step) => told(&step, answer, slot),
        Err(status) => status,
    }
}

/// Takes the next tick. If the step uses a number, C is told only what it must write, and the box
/// withholds the rest until `yasir_committed`.
#[unsafe(no_mangle)]
pub extern "C" fn yasir_step(
    alloc: Global,
    handle: &mut Handle,
    tick: u16,
    answer: &mut Answer,
    slot: &mut [u8],
) -> u8
    ensures { Returns (StepsBy ⟦<AnyBox as DefinedBox>⟧ handle.old.held.value handle.new.held.value
        tick answer.old
        answer.new slot.old slot.new) result }
{
    step(alloc, handle, tick, answer, slot).number()
}

// Takes what C says of the number that it had to write, and returns what was withheld.
pub(crate) fn committed(alloc: Global, handle: &mut Handle, ok: u8, answer: &mut Answer) -> Status
    ensures { CommittedBy handle.old.held.value handle.new.held.value ok answer.old answer.new
        result }
{
    let Some(mut held) = taken_out(alloc, handle) else {
        return Status::Empty;
    };
    let withheld = held.committed(ok);
    put_in(handle, held);
    match withheld {
        Ok(withheld) => {
            *answer = withheld;
            Status::Done
        }
        Err(status) => status,
    }
}

/// Takes what C says of the number that it had to write: 1 if it is written and synced, and 0 if it
/// couldn't be. Returns what was withheld, or stops the box.
#[unsafe(no_mangle)]
pub extern "C" fn yasir_committed(
    alloc: Global,
    handle: &mut Handle,
    ok: u8,
    answer: &mut Answer,
) -> u8
    ensures { Returns (CommittedBy handle.old.held.value handle.new.held.value ok answer.old
        answer.new) result }
{
    committed(alloc, handle, ok, answer).number()
}

// Puts the bytes that leave in a run into the front of `sent`, and returns how many they are.
fn put_sent(sent: &mut [u8], bytes: &RunBytes) -> usize
    requires { 64 ≤ length sent.old }
    ensures count { result ≡ length bytes.now.items }
    ensures front { take result sent.new ≡ bytes.now.items }
    ensures rest { drop result sent.new ≡ drop result sent.old }
    ensures within { result ≤ length sent.new }
{
    let count = bytes.len();
    sent[..count].copy_from_slice(bytes.as_slice());
    count
}

// Takes the first ticks of a run, as long as the box returns silence for all of them or bytes for
// all of them, and returns how many.
fn take_run(
    alloc: Global,
    handle: &mut Handle,
    run: TickRun<'_>,
    sent: &mut [u8],
    sent_count: &mut usize,
) -> usize
    ensures { TakesBy ⟦<AnyBox as DefinedBox>⟧ handle.old.held.value handle.new.held.value
        (run_ticks run.entry)
        sent.old sent.new sent_count.new result }
{
    *sent_count = 0;
    if sent.len() < MAX_SENT {
        return 0;
    }
    let Some(mut held) = taken_out(alloc, handle) else {
        return 0;
    };
    let mut bytes = RunBytes::new();
    let taken = held.take_alike(run, &mut bytes);
    put_in(handle, held);
    *sent_count = put_sent(sent, &bytes);
    taken
}

/// Takes the first of these bytes, one a tick, as long as the box returns silence for all of them
/// or bytes for all of them, without a note and with nothing to write. Returns how many.
#[unsafe(no_mangle)]
pub extern "C" fn yasir_take_bytes(
    alloc: Global,
    handle: &mut Handle,
    bytes: &[u8],
    sent: &mut [u8],
    sent_count: &mut usize,
) -> usize
    ensures { TakesBy ⟦<AnyBox as DefinedBox>⟧ handle.old.held.value handle.new.held.value
        (map Byte bytes.now)
        sent.old sent.new sent_count.new result }
{
    take_run(alloc, handle, TickRun::Bytes(bytes), sent, sent_count)
}

/// Takes the first of `ticks` silent ticks, as long as the box returns silence for all of them or
/// bytes for all of them, without a note and with nothing to write. Returns how many.
#[unsafe(no_mangle)]
pub extern "C" fn yasir_take_silence(
    alloc: Global,
    handle: &mut Handle,
    ticks: u32,
    sent: &mut [u8],
    sent_count: &mut usize,
) -> usize
    ensures { TakesBy ⟦<AnyBox as DefinedBox>⟧ handle.old.held.value handle.new.held.value
        (silent ticks)
        sent.old sent.new sent_count.new result }
{
    take_run(alloc, handle, TickRun::Silence(ticks), sent, sent_count)
}

/// Returns the last number that the box used, or 0 if the handle holds no box.
#[unsafe(no_mangle)]
pub extern "C" fn yasir_floor(alloc: Global, handle: &mut Handle) -> u64
    /// The handle holds what it held.
    ensures kept { handle.new.held.value ≡ handle.old.held.value }
    /// The number is the last one that the box used, or 0 if the handle holds no box.
    ensures tells { result ≡ floor_told handle.old.held.value }
{
    let Some(held) = taken_out(alloc, handle) else {
        return 0;
    };
    let floor = held.floor();
    put_in(handle, held);
    floor
}

/// Frees the box or the spacer, if the handle holds one.
#[unsafe(no_mangle)]
pub extern "C" fn yasir_free(alloc: Global, handle: &mut Handle)
    ensures { handle.new.held.value ≡ None }
{
    let _held = taken_out(alloc, handle);
}

// Puts slot A of a new journal into `slot`.
pub(crate) fn begin(kind: &KindNumbers, slot: &mut [u8]) -> Status
    ensures { InitsBy kind.now slot.old slot.new result }
{
    let Some((kind, dir)) = kind.known() else {
        return Status::BadArgument;
    };
    if slot.len() != SLOT_LEN {
        return Status::BadArgument;
    }
    slot.copy_from_slice(&slot_of(0, &kind.link(dir)));
    Status::Done
}

/// Puts the bytes of slot A of a new journal into `slot`.
#[unsafe(no_mangle)]
pub extern "C" fn yasir_init(kind: &KindNumbers, slot: &mut [u8]) -> u8
    ensures { Returns (InitsBy kind.now slot.old slot.new) result }
{
    begin(kind, slot).number()
}
