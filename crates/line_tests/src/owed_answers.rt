//! Tests of a spacer that owes its answers: a line is heard in pieces, and answered after them.
ghost use Rattle.std.specs.Prelude.{◌≡◌, ◌<◌, ◌≤◌, ◌+◌, length, IfOk, OnOk};
ghost use Rattle.yasir_ticks.specs.TickRun.{run_ticks};
ghost use Rattle.yasir_ticks.specs.declared.TheConstants.{MAX_TICKS};

use crate::devices::Part::{Bytes, Silence};
use crate::devices::{LONGEST, Part, RESET_LINK};
use crate::spacers::{DnpSpacer, RtuSpacer, Spaces, add_run, are_ticks_of};
use device_model::Met;
use std::alloc::{AllocError, Global};
use std::process::Abort;
use std::test::Fail;
use yasir_ticks::{Tick, TickRun};

// How a line is heard: in pieces of at most `heard` ticks. What is owed is given when it is at
// least `owed` ticks, or when a frame is read that isn't queued.
#[derive(Clone, Copy)]
struct Pieces {
    heard: usize,
    owed: usize,
}

// How many ticks are owed, the other line so far, for each frame that is lost the step in which it
// is lost and the tick of its first byte, and how many calls gave the other line.
#[derive(Drop)]
struct Given {
    owed: usize,
    ticks: Vec<Tick>,
    lost: Vec<(usize, u64)>,
    calls: u32,
}

fn nothing_given(alloc: Global) -> Given {
    Given {
        owed: 0,
        ticks: Vec::new(alloc),
        lost: Vec::new(alloc),
        calls: 0,
    }
}

// Gives all that is owed.
fn give_all<B: Spaces>(
    spacer: &mut B,
    read: Option<u64>,
    given: &mut Given,
) -> Result<(), AllocError>
    ensures { B.taken spacer.new ≡ B.taken spacer.old }
{
    while given.owed > 0 {
        let run = spacer.give_some(given.owed, read);
        add_run(&mut given.ticks, &run, spacer.sent_bytes())?;
        if let Some(start) = run.lost {
            given
                .lost
                .push((given.ticks.len().saturating_sub(1), start))?;
        }
        given.owed -= run.taken;
        given.calls = given.calls.saturating_add(1);
    }
    Ok(())
}

// Hears the first of these ticks, and returns how many it heard.
fn hear_piece<B: Spaces>(
    spacer: &mut B,
    run: TickRun<'_>,
    most: usize,
    given: &mut Given,
) -> Result<usize, AllocError>
    requires room { B.taken spacer.old + length (run_ticks run) ≤ MAX_TICKS }
    requires some { 0 < length (run_ticks run) }
    ensures some { IfOk result (λ taken. 0 < taken) }
    ensures within { IfOk result (λ taken. taken ≤ length (run_ticks run.entry)) }
    ensures taken { IfOk result (λ taken. B.taken spacer.new ≡ B.taken spacer.old + taken) }
{
    let Met { taken, start } = spacer.hear_some(run);
    given.owed = given.owed.saturating_add(taken);
    if start.is_some() && spacer.queue_read(given.owed) {
        return Ok(taken);
    }
    if start.is_some() || given.owed >= most {
        give_all(spacer, start, given)?;
    }
    Ok(taken)
}

// Hears this run.
fn hear_run<B: Spaces>(
    spacer: &mut B,
    run: TickRun<'_>,
    pieces: Pieces,
    given: &mut Given,
) -> Result<(), AllocError>
    requires { B.taken spacer.old + length (run_ticks run) ≤ MAX_TICKS }
    ensures { OnOk result (B.taken spacer.new
        ≡ B.taken spacer.old + length (run_ticks run.entry)) }
{
    let mut following = run;
    while !following.is_empty() {
        let size = pieces.heard.max(1).min(following.len());
        let taken = hear_piece(spacer, following.front(size), pieces.owed, given)?;
        following = following.behind(taken);
    }
    Ok(())
}

// Hears a reset, which isn't queued, and returns the tick of its first byte.
fn hear_unqueued<B: Spaces>(rt: &impl Abort, spacer: &mut B) -> Option<u64>
    requires { B.taken spacer.old ≡ 0 }
    ensures { B.taken spacer.new ≤ 10 }
{
    let Met { taken, start } = spacer.hear_some(TickRun::Bytes(RESET_LINK));
    assert_eq!(rt; (taken, start), (10, Some(0)));
    assert_eq!(rt; (spacer.queue_read(10), spacer.waiting()), (false, 0));
    start
}

// A reset isn't queued, since nothing else leaves while it is read. It is the next to leave.
fn first_reset<B: Spaces>(rt: &impl Abort, alloc: Global, spacer: &mut B) -> Result<Given, Fail>
    requires { B.taken spacer.old ≡ 0 }
    ensures { OnOk result (B.taken spacer.new ≤ 10) }
{
    let start = hear_unqueued(rt, spacer);
    let mut given = nothing_given(alloc);
    given.owed = 10;
    give_all(spacer, start, &mut given)?;
    assert_eq!(rt; (given.calls, spacer.waiting()), (1, 1));
    Ok(given)
}

// A reset that comes `silence + 1` silent ticks after a first one: whether it is queued, and the
// other line.
struct SecondReset {
    silence: u8,
    queued: bool,
    leaves: &'static [Part],
}

// Hears silence and a second reset, and gives all that is owed then. Returns whether the reset is
// queued.
fn answer_reset<B: Spaces>(
    rt: &impl Abort,
    spacer: &mut B,
    silence: u8,
    given: &mut Given,
) -> Result<bool, AllocError>
    requires { B.taken spacer.old ≤ 10 }
    ensures { OnOk result (B.taken spacer.new ≤ 1000) }
{
    let waited = spacer
        .hear_some(TickRun::Silence(u32::from(silence) + 1))
        .taken;
    let Met { taken, start } = spacer.hear_some(TickRun::Bytes(RESET_LINK));
    given.owed = waited + taken;
    let queued = spacer.queue_read(given.owed);
    assert_eq!(rt; spacer.waiting(), if queued { 2 } else { 1 });
    give_all(spacer, if queued { None } else { start }, given)?;
    Ok(queued)
}

// Hears silence, and gives all that is owed then.
fn answer_silence<B: Spaces>(spacer: &mut B, given: &mut Given) -> Result<(), AllocError>
    requires { B.taken spacer.old ≤ 1000 }
{
    given.owed = spacer.hear_some(TickRun::Silence(40)).taken;
    give_all(spacer, None, given)
}

// Checks whether a second reset is queued, and returns the other line.
fn second_reset<B: Spaces>(
    rt: &impl Abort,
    alloc: Global,
    spacer: &mut B,
    row: &SecondReset,
) -> Result<Vec<Tick>, Fail>
    requires { B.taken spacer.old ≡ 0 }
{
    let mut given = first_reset(rt, alloc, spacer)?;
    assert_eq!(rt;
        answer_reset(rt, spacer, row.silence, &mut given)?,
        row.queued
    );
    answer_silence(spacer, &mut given)?;
    assert_eq!(rt; (given.lost.len(), spacer.waiting()), (0, 0));
    Ok(given.ticks)
}

// Checks whether a second reset is queued, and what leaves.
fn resets_leave(rt: &impl Abort, alloc: Global, row: &SecondReset) -> Result<(), Fail> {
    let mut spacer = DnpSpacer::new(alloc, 64)?;
    let ticks = second_reset(rt, alloc, &mut spacer, row)?;
    assert!(rt; are_ticks_of(alloc, ticks.as_slice(), row.leaves)?);
    Ok(())
}

const SECOND_RESETS: [SecondReset; 3] = [
    SecondReset {
        silence: 0,
        queued: true,
        leaves: &[
            Silence(10),
            Bytes(RESET_LINK),
            Silence(21),
            Bytes(RESET_LINK),
            Silence(10),
        ],
    },
    SecondReset {
        silence: 20,
        queued: true,
        leaves: &[
            Silence(10),
            Bytes(RESET_LINK),
            Silence(21),
            Bytes(RESET_LINK),
            Silence(30),
        ],
    },
    SecondReset {
        silence: 21,
        queued: false,
        leaves: &[
            Silence(10),
            Bytes(RESET_LINK),
            Silence(22),
            Bytes(RESET_LINK),
            Silence(30),
        ],
    },
];

// A frame is queued before the ticks in which it is read are answered, if another frame and its gap
// leave in all of these ticks. That frame and its gap have 31 ticks. After 21 silent ticks 31 are
// owed, and after 22 silent ticks 32. As many ticks leave as come: those between the resets, 20 of
// the resets, and 40 after them.
#[test]
fn frames_are_queued(rt: HostRuntime) -> Result<(), Fail> {
    for row in &SECOND_RESETS {
        resets_leave(&rt, rt.alloc(), row)?;
    }
    Ok(())
}

// Hears a reset for which there is no room, and checks that it is lost.
fn lose_reset<B: Spaces>(rt: &impl Abort, spacer: &mut B)
    requires { B.taken spacer.old ≡ 0 }
    ensures { B.taken spacer.new ≤ 10 }
{
    let start = hear_unqueued(rt, spacer);
    let run = spacer.give_some(10, start);
    assert_eq!(rt; (run.taken, run.lost), (10, Some(0)));
    assert_eq!(rt; spacer.frame_bytes(), RESET_LINK);
}

// Hears silence, and checks that silence leaves.
fn give_silence<B: Spaces>(rt: &impl Abort, spacer: &mut B)
    requires { B.taken spacer.old ≤ 10 }
{
    spacer.hear_some(TickRun::Silence(50));
    let run = spacer.give_some(50, None);
    assert_eq!(rt; (run.taken, run.lost), (50, None));
    assert_eq!(rt; (spacer.sent_bytes().len(), spacer.waiting()), (0, 0));
}

// A frame for which there is no room isn't queued. It is lost, and doesn't leave later.
#[test]
fn a_frame_without_room_is_not_queued(rt: HostRuntime) -> Result<(), Fail> {
    let mut spacer = DnpSpacer::new(rt.alloc(), 0)?;
    lose_reset(&rt, &mut spacer);
    give_silence(&rt, &mut spacer);
    Ok(())
}

// Lines of 32 bytes, after which nothing is given if no frame is read.
const LINES: Pieces = Pieces {
    heard: 32,
    owed: 1000,
};

const SILENT_LINE: &[Part] = &[Silence(260)];

// Hears the longest frame and the silence that ends it. All that is owed up to the tick in which
// the frame is read is given in one call.
fn hear_longest<B: Spaces>(rt: &impl Abort, spacer: &mut B, given: &mut Given) -> Result<(), Fail>
    requires { B.taken spacer.old ≡ 0 }
    ensures { OnOk result (B.taken spacer.new ≤ 1000) }
{
    hear_run(spacer, TickRun::Bytes(LONGEST), LINES, given)?;
    hear_run(spacer, TickRun::Silence(4), LINES, given)?;
    assert_eq!(rt; (given.calls, spacer.waiting()), (1, 1));
    Ok(())
}

// Hears the longest frame once more, after which the first one leaves in one call.
fn give_longest<B: Spaces>(rt: &impl Abort, spacer: &mut B, given: &mut Given) -> Result<(), Fail>
    requires { B.taken spacer.old ≤ 1000 }
{
    hear_run(spacer, TickRun::Bytes(LONGEST), LINES, given)?;
    let run = spacer.give_some(256, None);
    assert_eq!(rt; (given.owed, run.taken, run.lost), (256, 256, None));
    assert_eq!(rt; spacer.sent_bytes(), LONGEST);
    Ok(())
}

// The longest frame of Modbus RTU, heard twice in lines of 32 bytes. All that is owed up to the
// tick in which the first one is read is given in one call. So is the first one, after the second
// one was heard.
#[test]
fn a_frame_leaves_at_once(rt: HostRuntime) -> Result<(), Fail> {
    let alloc = rt.alloc();
    let mut spacer = RtuSpacer::new(alloc, 64)?;
    let mut given = nothing_given(alloc);
    hear_longest(&rt, &mut spacer, &mut given)?;
    assert!(rt; are_ticks_of(alloc, given.ticks.as_slice(), SILENT_LINE)?);
    give_longest(&rt, &mut spacer, &mut given)
}
