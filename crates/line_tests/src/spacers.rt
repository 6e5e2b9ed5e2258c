//! Tests of the spacer: gaps, frames that wait or are lost, and how few calls a run takes.
ghost use Rattle.std.specs.Prelude.{◌≡◌, ◌<◌, ◌≤◌, ◌+◌, ℕ, [], length, IfOk, OnOk};
ghost use Rattle.yasir_ticks.specs.TickRun.{run_ticks};
ghost use Rattle.yasir_ticks.specs.declared.TheConstants.{MAX_TICKS};

use crate::devices::Part::{Bytes, Silence};
use crate::devices::{Part, RESET_LINK, add_bytes, add_silence, line_of, short_line};
use device_model::hunters::DnpDevice;
use device_model::{Device, Hunted, HuntingFamily, Met, RtuDevice};
use dnp_link_frame::Dnp;
use line_spacer::*;
use std::alloc::{AllocError, Global};
use std::process::Abort;
use std::test::Fail;
use yasir_io::NoMemory;
use yasir_ticks::{Tick, TickRun};

// A device that hunts, and that forgets what it has taken of a frame at 18 silent ticks in a row.
#[derive(Drop)]
struct ForgetfulDevice<R>(HuntingFamily<R>);

impl<R: Hunted> Device for ForgetfulDevice<R> {
    ghost use Rattle.device_model.specs.HuntFamily.{hunt_family, FamilyStandsFor, family_ticks};
    ghost use Rattle.device_model.specs.HuntFamily.{family_lent};

    ghost reads = { hunt_family R.FIRST R.SECOND R.rules 18 };

    ghost stands = { λ d. FamilyStandsFor R.LineRules R.FIRST R.SECOND 18 d.0 };

    ghost taken = { λ d. family_ticks d.0 };

    ghost lent = { λ d. family_lent d.0 };

    fn fresh() -> Self {
        ForgetfulDevice(HuntingFamily::new(18))
    }

    fn frame_bytes(&self) -> &[u8] {
        self.0.frame_bytes()
    }

    fn step(&mut self, t: Tick) -> Option<u64> {
        self.0.step(t)
    }
}

// A device that reads no frame. In place of one it lends how often it was given bytes, silence, and
// single ticks.
#[derive(Drop)]
struct Deaf {
    taken: u64,
    calls: [u8; 3],
}

impl Device for Deaf {
    ghost reads = { λ line. [] };

    ghost stands = { λ value line. Unit {0} };

    ghost taken = { λ value. value.taken };

    ghost lent = { λ value. value.calls };

    fn fresh() -> Self {
        Deaf {
            taken: 0,
            calls: [0; 3],
        }
    }

    fn frame_bytes(&self) -> &[u8] {
        &self.calls
    }

    fn step(&mut self, _t: Tick) -> Option<u64> {
        self.calls[2] = self.calls[2].saturating_add(1);
        self.taken += 1;
        None
    }

    fn hear(&mut self, bytes: &[u8]) -> Met {
        self.calls[0] = self.calls[0].saturating_add(1);
        self.taken += bytes.len() as u64;
        Met {
            taken: bytes.len(),
            start: None,
        }
    }

    fn wait(&mut self, ticks: usize) -> Met {
        self.calls[1] = self.calls[1].saturating_add(1);
        self.taken += ticks as u64;
        Met {
            taken: ticks,
            start: None,
        }
    }
}

/// A spacer of any device, so that one loop serves all of them.
pub trait Spaces: Drop {
    ghost taken: { Self → ℕ };

    /// Makes a spacer in which this many frames may wait (`Spacer::new`). None is made without a gap.
    fn fresh(alloc: Global, room: usize) -> Result<Self, NoMemory>
        ensures { IfOk result (λ spacer. taken spacer ≡ 0) };

    /// Takes a tick (`Spacer::step`).
    fn take(&mut self, t: Tick) -> SpaceStep
        requires { taken self.old < MAX_TICKS }
        ensures { taken self.new ≡ taken self.old + 1 };

    /// Takes the first ticks of a run (`Spacer::take_some`).
    fn take_some(&mut self, run: TickRun<'_>) -> SpaceRun
        requires room { taken self.old + length (run_ticks run) ≤ MAX_TICKS }
        requires some { 0 < length (run_ticks run) }
        ensures some { 0 < result.taken }
        ensures within { result.taken ≤ length (run_ticks run.entry) }
        ensures taken { taken self.new ≡ taken self.old + result.taken };

    /// Takes the first ticks of a run, and owes what leaves in them (`Spacer::hear_some`).
    fn hear_some(&mut self, run: TickRun<'_>) -> Met
        requires room { taken self.old + length (run_ticks run) ≤ MAX_TICKS }
        requires some { 0 < length (run_ticks run) }
        ensures some { 0 < result.taken }
        ensures within { result.taken ≤ length (run_ticks run.entry) }
        ensures taken { taken self.new ≡ taken self.old + result.taken };

    /// Queues the frame that was read in the last of `owed` ticks, if it can
    /// (`Spacer::queue_read`).
    fn queue_read(&mut self, owed: usize) -> bool
        requires { 0 < owed }
        ensures { taken self.new ≡ taken self.old };

    /// Answers the first of `owed` ticks (`Spacer::give_some`).
    fn give_some(&mut self, owed: usize, read: Option<u64>) -> SpaceRun
        requires { 0 < owed }
        ensures some { 0 < result.taken }
        ensures within { result.taken ≤ owed }
        ensures taken { taken self.new ≡ taken self.old };

    /// Returns the bytes that left in the last ticks taken, one in each tick.
    fn sent_bytes(&self) -> &[u8];

    /// Returns the bytes that the device lends (`Spacer::frame_bytes`).
    fn frame_bytes(&self) -> &[u8];

    /// Returns how many frames wait.
    fn waiting(&self) -> usize;
}

impl<V: Device + Drop, const GAP: usize> Spaces for Spacer<V, GAP> {
    ghost use Rattle.line_spacer.specs.Stands.{ticks_spaced};

    ghost taken = { λ spacer. ticks_spaced V.Device spacer };

    fn fresh(alloc: Global, room: usize) -> Result<Self, NoMemory> {
        if GAP == 0 {
            return Err(NoMemory);
        }
        Spacer::new(alloc, room)
    }

    fn take(&mut self, t: Tick) -> SpaceStep {
        self.step(t)
    }

    fn take_some(&mut self, run: TickRun<'_>) -> SpaceRun {
        Spacer::take_some(self, run)
    }

    fn hear_some(&mut self, run: TickRun<'_>) -> Met {
        Spacer::hear_some(self, run)
    }

    fn queue_read(&mut self, owed: usize) -> bool {
        Spacer::queue_read(self, owed)
    }

    fn give_some(&mut self, owed: usize, read: Option<u64>) -> SpaceRun {
        Spacer::give_some(self, owed, read)
    }

    fn sent_bytes(&self) -> &[u8] {
        Spacer::sent_bytes(self)
    }

    fn frame_bytes(&self) -> &[u8] {
        Spacer::frame_bytes(self)
    }

    fn waiting(&self) -> usize {
        Spacer::waiting(self)
    }
}

/// A spacer of DNP3 devices.
pub type DnpSpacer = Spacer<DnpDevice, 21>;

/// A spacer of Modbus RTU devices.
pub type RtuSpacer = Spacer<RtuDevice, 21>;

type ForgetfulSpacer = Spacer<ForgetfulDevice<Dnp>, 21>;

/// The other line, and for each frame that is lost the step in which it is lost and the tick of its
/// first byte.
pub type Answers = (Vec<Tick>, Vec<(usize, u64)>);

/// Gives a spacer this line tick by tick, and returns what leaves and which frames are lost.
pub fn answers<B: Spaces>(
    alloc: Global,
    spacer: &mut B,
    line: &[Tick],
) -> Result<Answers, AllocError>
    requires fresh { B.taken spacer.old ≡ 0 }
    requires short { length line.now < 1000 }
{
    let mut ticks = Vec::new(alloc);
    let mut lost = Vec::new(alloc);
    for (at, tick) in line.iter().enumerate() {
        let step = spacer.take(*tick);
        ticks.push(step.tick)?;
        if let Some(start) = step.lost {
            lost.push((at, start))?;
        }
    }
    Ok((ticks, lost))
}

const READ_TEN: &[u8] = b"\x01\x03\x00\x00\x00\x0A\xC5\xCD";

const READ_ONE: &[u8] = b"\x01\x03\x00\x00\x00\x01\x84\x0A";

/// What comes in, what leaves, and what is lost.
pub struct Row {
    /// The line that comes in.
    pub line: &'static [Part],
    /// The line that leaves.
    pub leaves: &'static [Part],
    /// For each frame that is lost, the step in which it is lost and the tick of its first byte.
    pub lost: &'static [(usize, u64)],
}

/// Returns whether these ticks are those of the parts.
pub fn are_ticks_of(alloc: Global, ticks: &[Tick], parts: &[Part]) -> Result<bool, AllocError> {
    let line = line_of(alloc, parts)?;
    Ok(ticks == line.as_slice())
}

/// Returns whether these answers are those of the row.
pub fn are_answers(alloc: Global, row: &Row, given: &Answers) -> Result<bool, AllocError> {
    let (ticks, lost) = given;
    Ok(lost.as_slice() == row.lost && are_ticks_of(alloc, ticks.as_slice(), row.leaves)?)
}

/// Returns the answers of a new spacer, in which this many frames may wait, to a line that it takes
/// tick by tick.
pub fn by_ticks<B: Spaces>(alloc: Global, room: usize, line: &[Part]) -> Result<Answers, Fail> {
    let line = short_line(alloc, line)?;
    let mut spacer = B::fresh(alloc, room)?;
    Ok(answers(alloc, &mut spacer, line.as_slice())?)
}

// Returns whether a new spacer, in which this many frames may wait, gives the answers of the row.
fn row_is_spaced<B: Spaces>(alloc: Global, room: usize, row: &Row) -> Result<bool, Fail> {
    let given = by_ticks::<B>(alloc, room, row.line)?;
    Ok(are_answers(alloc, row, &given)?)
}

/// Two resets with no silence between them: the first is sent after its last byte, and the second
/// one 21 silent ticks after the first.
pub const TWO_RESETS: Row = Row {
    line: &[Bytes(RESET_LINK), Bytes(RESET_LINK), Silence(40)],
    leaves: &[
        Silence(10),
        Bytes(RESET_LINK),
        Silence(21),
        Bytes(RESET_LINK),
        Silence(9),
    ],
    lost: &[],
};

/// Two queries that four silent ticks part: the first is sent after the tick that ends it, and the
/// second one 21 silent ticks after the first.
pub const TWO_QUERIES: Row = Row {
    line: &[Bytes(READ_TEN), Silence(4), Bytes(READ_ONE), Silence(40)],
    leaves: &[
        Silence(12),
        Bytes(READ_TEN),
        Silence(21),
        Bytes(READ_ONE),
        Silence(11),
    ],
    lost: &[],
};

// Three resets to a spacer in which one may wait: the third is lost in the step in which it is
// read.
const THREE_RESETS: Row = Row {
    line: &[
        Bytes(RESET_LINK),
        Bytes(RESET_LINK),
        Bytes(RESET_LINK),
        Silence(30),
    ],
    leaves: &[
        Silence(10),
        Bytes(RESET_LINK),
        Silence(21),
        Bytes(RESET_LINK),
        Silence(9),
    ],
    lost: &[(29, 20)],
};

// A reset with 17 silent ticks in it, and one with 18, which the forgetful device doesn't read.
const PARTED_RESETS: Row = Row {
    line: &[
        Bytes(b"\x05\x64\x05"),
        Silence(17),
        Bytes(b"\xC0\x01\x00\x00\x04\xE9\x21"),
        Silence(18),
        Bytes(b"\x05\x64\x05"),
        Silence(18),
        Bytes(b"\xC0\x01\x00\x00\x04\xE9\x21"),
        Silence(5),
    ],
    leaves: &[Silence(27), Bytes(RESET_LINK), Silence(41)],
    lost: &[],
};

#[test]
fn frames_are_spaced(rt: HostRuntime) -> Result<(), Fail> {
    let alloc = rt.alloc();
    assert!(rt; row_is_spaced::<DnpSpacer>(alloc, 64, &TWO_RESETS)?);
    assert!(rt; row_is_spaced::<RtuSpacer>(alloc, 64, &TWO_QUERIES)?);
    assert!(rt; row_is_spaced::<DnpSpacer>(alloc, 1, &THREE_RESETS)?);
    assert!(rt; row_is_spaced::<ForgetfulSpacer>(alloc, 64, &PARTED_RESETS)?);
    Ok(())
}

// Returns how many frames wait in a new spacer, how many ticks this line has, and how many frames
// wait when the spacer has taken it.
fn waiting_after<B: Spaces>(alloc: Global, line: &[Part]) -> Result<(usize, usize, usize), Fail> {
    let line = short_line(alloc, line)?;
    let mut spacer = B::fresh(alloc, 1024)?;
    let before = spacer.waiting();
    answers(alloc, &mut spacer, line.as_slice())?;
    Ok((before, line.len(), spacer.waiting()))
}

// A reset up to the tick in which it is read, and up to the one in which it begins to leave.
const READ: &[Part] = &[Bytes(RESET_LINK)];

const BEGUN: &[Part] = &[Bytes(RESET_LINK), Silence(1)];

// A frame waits from the step in which it is read until its first byte is sent.
#[test]
fn frames_wait(rt: HostRuntime) -> Result<(), Fail> {
    let alloc = rt.alloc();
    assert_eq!(rt; waiting_after::<DnpSpacer>(alloc, READ)?, (0, 10, 1));
    assert_eq!(rt; waiting_after::<DnpSpacer>(alloc, BEGUN)?, (0, 11, 0));
    Ok(())
}

/// Adds what leaves in a run to the other line.
pub fn add_run(line: &mut Vec<Tick>, run: &SpaceRun, sent: &[u8]) -> Result<(), AllocError> {
    if sent.is_empty() {
        return add_silence(line, run.taken);
    }
    add_bytes(line, sent)
}

// Takes this run, adds what leaves to the other line, and returns how many calls that took.
fn take_all<B: Spaces>(
    spacer: &mut B,
    run: TickRun<'_>,
    line: &mut Vec<Tick>,
) -> Result<u32, AllocError>
    requires { B.taken spacer.old + length (run_ticks run) ≤ MAX_TICKS }
    ensures { OnOk result (B.taken spacer.new
        ≡ B.taken spacer.old + length (run_ticks run.entry)) }
{
    let mut following = run;
    let mut runs: u32 = 0;
    while !following.is_empty() {
        let some = spacer.take_some(following);
        add_run(line, &some, spacer.sent_bytes())?;
        following = following.behind(some.taken);
        runs = runs.saturating_add(1);
    }
    Ok(runs)
}

// Two resets that come in one run.
const RESETS: &[u8] =
    b"\x05\x64\x05\xC0\x01\x00\x00\x04\xE9\x21\x05\x64\x05\xC0\x01\x00\x00\x04\xE9\x21";

// Takes both resets and the silence after them, and returns how many calls each of the two took.
fn take_both<B: Spaces>(spacer: &mut B, line: &mut Vec<Tick>) -> Result<(u32, u32), AllocError>
    requires { B.taken spacer.old ≡ 0 }
{
    let heard = take_all(spacer, TickRun::Bytes(RESETS), line)?;
    let waited = take_all(spacer, TickRun::Silence(40), line)?;
    Ok((heard, waited))
}

// The first reset is heard in one run, whose last byte ends it. Then it leaves in one run, at whose
// end the second one is read. After that 21 ticks of the silence pass in one run, the second reset
// leaves in one, and what is left of the silence passes in one.
fn take_resets<B: Spaces>(rt: &impl Abort, alloc: Global) -> Result<(), Fail> {
    let mut spacer = B::fresh(alloc, 64)?;
    let mut line = Vec::new(alloc);
    assert_eq!(rt; take_both(&mut spacer, &mut line)?, (2, 3));
    let row = &TWO_RESETS;
    assert!(rt; are_ticks_of(alloc, line.as_slice(), row.leaves)?);
    Ok(())
}

// Runs cost few calls of the spacer, even if the device goes through them tick by tick.
#[test]
fn runs_are_taken_at_once(rt: HostRuntime) -> Result<(), Fail> {
    take_resets::<DnpSpacer>(&rt, rt.alloc())?;
    take_resets::<ForgetfulSpacer>(&rt, rt.alloc())
}

// Takes a reset, a run of silence that is shorter, and more silence than it takes to send it.
// Returns how many calls each of the two runs of silence took.
fn take_in_parts<B: Spaces>(spacer: &mut B, line: &mut Vec<Tick>) -> Result<(u32, u32), AllocError>
    requires { B.taken spacer.old ≡ 0 }
{
    let _ = take_all(spacer, TickRun::Bytes(RESET_LINK), line)?;
    let front = take_all(spacer, TickRun::Silence(3), line)?;
    let rest = take_all(spacer, TickRun::Silence(47), line)?;
    Ok((front, rest))
}

const RESET_AND_SILENCE: &[Part] = &[Silence(10), Bytes(RESET_LINK), Silence(40)];

// Each of the two runs has its part of the frame in one call. The silence after the frame takes two
// more: the gap, and what follows it.
#[test]
fn the_rest_of_a_frame_is_sent_at_once(rt: HostRuntime) -> Result<(), Fail> {
    let mut spacer = DnpSpacer::new(rt.alloc(), 64)?;
    let mut line = Vec::new(rt.alloc());
    assert_eq!(rt; take_in_parts(&mut spacer, &mut line)?, (1, 3));
    assert!(rt; are_ticks_of(rt.alloc(), line.as_slice(), RESET_AND_SILENCE)?);
    Ok(())
}

const LONG_SILENCE: &[Part] = &[Silence(900)];

// Checks that silence passes in one run.
fn silence_passes<B: Spaces>(rt: &impl Abort, alloc: Global, spacer: &mut B) -> Result<(), Fail>
    requires { B.taken spacer.old ≡ 0 }
{
    let mut line = Vec::new(alloc);
    assert_eq!(rt; take_all(spacer, TickRun::Silence(900), &mut line)?, 1);
    assert!(rt; are_ticks_of(alloc, line.as_slice(), LONG_SILENCE)?);
    Ok(())
}

// Silence is one run if nothing waits.
#[test]
fn silence_is_one_run(rt: HostRuntime) -> Result<(), Fail> {
    let mut spacer = RtuSpacer::new(rt.alloc(), 64)?;
    silence_passes(&rt, rt.alloc(), &mut spacer)
}

// Checks that a run of silence is one call of the device, and that one of bytes is another.
fn two_runs_pass<B: Spaces>(rt: &impl Abort, spacer: &mut B)
    requires { B.taken spacer.old ≡ 0 }
{
    let waited = spacer.take_some(TickRun::Silence(900)).taken;
    let heard = spacer.take_some(TickRun::Bytes(RESETS)).taken;
    assert_eq!(rt; (waited, heard), (900, 20));
    assert_eq!(rt; spacer.frame_bytes(), [1, 1, 0].as_slice());
}

// If nothing waits, a run is one call of the device.
#[test]
fn a_run_is_one_call_of_the_device(rt: HostRuntime) -> Result<(), Fail> {
    let mut spacer = Spacer::<Deaf, 21>::new(rt.alloc(), 1)?;
    two_runs_pass(&rt, &mut spacer);
    Ok(())
}

// Checks that a reset is lost and lent.
fn lose_reset<B: Spaces>(rt: &impl Abort, spacer: &mut B)
    requires { B.taken spacer.old ≡ 0 }
{
    let run = spacer.take_some(TickRun::Bytes(RESETS));
    assert_eq!(rt; (run.taken, run.lost), (10, Some(0)));
    assert_eq!(rt; spacer.frame_bytes(), RESET_LINK);
}

// The bytes of a lost frame are lent.
#[test]
fn a_lost_frame_is_lent(rt: HostRuntime) -> Result<(), Fail> {
    let mut spacer = DnpSpacer::new(rt.alloc(), 0)?;
    lose_reset(&rt, &mut spacer);
    Ok(())
}

#[test]
fn memory_is_refused(rt: HostRuntime) -> Result<(), Fail> {
    let refused = DnpSpacer::new(rt.alloc(), usize::MAX);
    assert!(rt; matches!(refused, Err(NoMemory)));
    Ok(())
}
