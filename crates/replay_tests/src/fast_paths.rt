//! Tests of how many turns each box of the program needs for a packet, and how often the program
//! writes. No contract says that a run is taken at once, nor how much a call writes.
ghost use Rattle.std.specs.Prelude.{◌≡◌, ℕ, ◌+◌, ◌<◌, ◌≤◌, length, IfOk, OnOk, None, Some};
ghost use Rattle.yasir_io.specs.Steady.{steady_slots};
ghost use Rattle.yasir_ticks.specs.TickRun.{run_ticks};
ghost use Rattle.link_box.specs.Stepping.{ServesLink};
ghost use Rattle.yasir_ticks.specs.declared.TheConstants.{MAX_TICKS};

use crate::altered_links::{Burst, NO_BURST, alike, front_with, link_of, part_at};
use crate::fresh::{FreshJournal, fresh_disk, load_fresh};
use crate::over_boxes::{KEY, run_ends};
use crate::packets::{self, DNP_PACKET, LINKS, Link, RTU_PACKET, packet_of};
use crate::texts::{add_times, repeated};
use check_receiver::Checker;
use command_ends::{Ends, Status};
use dnp_link_frame::Dnp;
use frame_ending::RunBytes;
use line_commands::LineBox;
use link_box::LinkBox;
use link_format::{Dir, HmacSha1, HmacSha256};
use rtu_frame::Rtu;
use seal_transmitter::Sealer;
use sequence_journal::Journal;
use session_audit::{SealedFrames, ShownFrames};
use session_lists::FrameBox;
use std::alloc::{AllocError, Global};
use std::process::Abort;
use std::test::Fail;
use yasir_io::{Failed, Sink, SteadySlots, SteadySource};
use yasir_ticks::{Tick, TickRun};

/// A box that takes ticks that are all bytes or all silence, as many of them at once as it can.
trait Turning: Drop {
    ghost taken: { Self → ℕ };

    ghost able: { Self → Type 0 };

    /// Takes the first of these bytes, at least one, and returns how many.
    fn turn_bytes(&mut self, bytes: &[u8]) -> Result<usize, Fail>
        requires able { able self.old }
        requires some { 0 < length bytes.now }
        requires room { taken self.old + length bytes.now ≤ MAX_TICKS }
        ensures able { OnOk result (able self.new) }
        ensures some { IfOk result (λ count. 0 < count) }
        ensures within { IfOk result (λ count. count ≤ length bytes.now) }
        ensures taken { IfOk result (λ count. taken self.new ≡ taken self.old + count) };

    /// Takes the first of these silent ticks, at least one, and returns how many.
    fn turn_silence(&mut self, ticks: u32) -> Result<u32, Fail>
        requires able { able self.old }
        requires some { 0 < ticks }
        requires room { taken self.old + ticks ≤ MAX_TICKS }
        ensures able { OnOk result (able self.new) }
        ensures some { IfOk result (λ count. 0 < count) }
        ensures within { IfOk result (λ count. count ≤ ticks) }
        ensures taken { IfOk result (λ count. taken self.new ≡ taken self.old + count) };
}

/// A box of `seal` or `check`, and its journal.
#[derive(Drop)]
struct Journaled<B> {
    line_box: B,
    journal: Journal,
    disk: SteadySlots,
}

impl<B: LineBox> Journaled<B> {
    // A box that has taken no tick, over a journal with floor 0.
    fn new() -> Result<Journaled<B>, Fail>
        requires widths { B.widths_fit }
        ensures taken { IfOk result (λ value. B.taken value.line_box ≡ 0) }
        ensures able { IfOk result (λ value. ServesLink (B.link_of value.line_box) value.journal
            (Some (steady_slots value.disk))) }
    {
        let served = B::link(Dir::Ab);
        let FreshJournal { journal, disk } = load_fresh(&served)?;
        Ok(Journaled {
            line_box: B::new(&packets::KEY.to_be_bytes(), Dir::Ab),
            journal,
            disk,
        })
    }

    // Takes a tick by a step.
    fn step_once(&mut self, tick: Tick) -> Result<(), Fail>
        requires room { B.taken self.old.line_box < MAX_TICKS }
        requires able { ServesLink (B.link_of self.old.line_box) self.old.journal
            (Some (steady_slots self.old.disk)) }
        ensures taken { OnOk result (B.taken self.new.line_box
            ≡ B.taken self.old.line_box + 1) }
        ensures able { OnOk result (ServesLink (B.link_of self.new.line_box) self.new.journal
            (Some (steady_slots self.new.disk))) }
    {
        match self.line_box.step(tick, &mut self.journal, &mut self.disk) {
            Ok(_) => Ok(()),
            Err(_) => Err(Fail::from("the journal failed")),
        }
    }
}

// Gives a box ticks as a run, by each of its calls for runs in turn until one takes some. Returns
// how many it took.
fn pass_run<B: LineBox>(line_box: &mut B, run: TickRun<'_>) -> usize
    requires { B.taken line_box.old + length (run_ticks run) ≤ MAX_TICKS }
    ensures within { result ≤ length (run_ticks run.entry) }
    ensures taken { B.taken line_box.new ≡ B.taken line_box.old + result }
    ensures link { B.link_of line_box.new ≡ B.link_of line_box.old }
{
    let count = line_box.forward(run);
    if count > 0 {
        return count;
    }
    let mut sent = RunBytes::new();
    line_box.pass(run, &mut sent)
}

impl<B: LineBox> Turning for Journaled<B> {
    ghost taken = { λ value. B.taken value.line_box };

    ghost able = { λ value. ServesLink (B.link_of value.line_box) value.journal
        (Some (steady_slots value.disk)) };

    fn turn_bytes(&mut self, bytes: &[u8]) -> Result<usize, Fail> {
        let count = pass_run(&mut self.line_box, TickRun::Bytes(bytes));
        if count > 0 {
            return Ok(count);
        }
        self.step_once(Tick::Byte(bytes[0]))?;
        Ok(1)
    }

    fn turn_silence(&mut self, ticks: u32) -> Result<u32, Fail> {
        let run = TickRun::Silence(ticks);
        let count = pass_run(&mut self.line_box, run).min(ticks as usize) as u32;
        if count > 0 {
            return Ok(count);
        }
        self.step_once(Tick::Silent)?;
        Ok(1)
    }
}

/// A box of `replay`.
#[derive(Drop)]
struct Shown<X> {
    frame_box: X,
}

impl<X: FrameBox> Shown<X> {
    // A box that has taken no tick.
    fn new() -> Shown<X>
        requires { X.widths_fit }
        ensures taken { X.taken result.frame_box ≡ 0 }
        ensures able { X.able result.frame_box }
    {
        Shown {
            frame_box: X::new(&packets::KEY.to_be_bytes(), Dir::Ab, 0),
        }
    }
}

impl<X: FrameBox> Turning for Shown<X> {
    ghost taken = { λ value. X.taken value.frame_box };

    ghost able = { λ value. X.able value.frame_box };

    fn turn_bytes(&mut self, bytes: &[u8]) -> Result<usize, Fail> {
        let mut left = session_lists::RunBytes::new();
        let count = self.frame_box.pass_bytes(bytes, &mut left);
        if count > 0 {
            return Ok(count);
        }
        let _ = self.frame_box.step(Tick::Byte(bytes[0]));
        Ok(1)
    }

    fn turn_silence(&mut self, ticks: u32) -> Result<u32, Fail> {
        let mut left = session_lists::RunBytes::new();
        let count = self.frame_box.pass_silence(ticks, &mut left);
        if count > 0 {
            return Ok(count);
        }
        let _ = self.frame_box.step(Tick::Silent);
        Ok(1)
    }
}

// Gives a box letters that are all points, which are silence, or all bytes. Returns how many it
// took at once.
fn turn<X: Turning>(line_box: &mut X, part: &[u8]) -> Result<usize, Fail>
    requires able { X.able line_box.old }
    requires some { 0 < length part.now }
    requires room { X.taken line_box.old + length part.now ≤ 1000 }
    ensures able { OnOk result (X.able line_box.new) }
    ensures some { IfOk result (λ count. 0 < count) }
    ensures within { IfOk result (λ count. count ≤ length part.now) }
    ensures taken { IfOk result (λ count. X.taken line_box.new ≡ X.taken line_box.old + count) }
{
    match part[0] {
        b'.' => match line_box.turn_silence(part.len() as u32) {
            Ok(count) => Ok(count as usize),
            Err(fail) => Err(fail),
        },
        _ => line_box.turn_bytes(part),
    }
}

// How many turns a box that has taken nothing needs for a line.
fn turns<X: Turning>(rt: &impl Abort, line_box: &mut X, line: &[u8]) -> Result<usize, Fail>
    requires able { X.able line_box.old }
    requires begun { X.taken line_box.old ≡ 0 }
    requires short { length line.now < 1000 }
{
    let mut place = 0;
    let mut turns = 0;
    while place < line.len() {
        let part = part_at(rt, line, place, 1000);
        place += turn(line_box, part)?;
        turns += 1;
    }
    Ok(turns)
}

// These ticks, and more silence after them than a trailer or the receiver's delay needs.
fn with_silence(alloc: Global, ticks: &[u8]) -> Result<Vec<u8>, AllocError> {
    let mut line = ticks.to_vec(alloc)?;
    line.extend_from_slice(&[b'.'; 40])?;
    Ok(line)
}

// Checks that a box takes these ticks, and the silence after them, in at most `most` turns.
fn takes<X: Turning>(
    rt: &impl Abort,
    alloc: Global,
    mut line_box: X,
    ticks: &[u8],
    most: usize,
) -> Result<(), Fail>
    requires able { X.able line_box }
    requires begun { X.taken line_box ≡ 0 }
{
    let line = with_silence(alloc, ticks)?;
    let line = &line.as_slice()[..line.len().min(999)];
    let turns = turns(rt, &mut line_box, line)?;
    assert!(rt; turns <= most, "{turns} turns");
    Ok(())
}

// Checks that a box of `seal` or `check` takes these ticks in at most `most` turns.
fn takes_journaled<B: LineBox>(
    rt: &impl Abort,
    alloc: Global,
    ticks: &[u8],
    most: usize,
) -> Result<(), Fail>
    requires widths { B.widths_fit }
{
    let line_box: Journaled<B> = Journaled::new()?;
    takes(rt, alloc, line_box, ticks, most)
}

// Checks that a box of `replay` takes these ticks in at most `most` turns.
fn takes_shown<X: FrameBox>(
    rt: &impl Abort,
    alloc: Global,
    ticks: &[u8],
    most: usize,
) -> Result<(), Fail>
    requires { X.widths_fit }
{
    let line_box: Shown<X> = Shown::new();
    takes(rt, alloc, line_box, ticks, most)
}

const RTU_FRAME: &[u8] = b"\x01\x03\x00\x00\x00\x0a\xc5\xcd";

// A frame, and a burst that begins while the trailer of the frame is still being sent.
const EARLY_BURST: &[u8] = b"\x01\x03\x00\x00\x00\x0a\xc5\xcd......AAAAAAAAAAAAAAAAAAAA";

const DNP_FRAME: &[u8] = b"\x05\x64\x05\xc0\x01\x00\x00\x04\xe9\x21";

// Checks that a transmitter takes these ticks in at most `most` turns.
fn seals(
    rt: &impl Abort,
    alloc: Global,
    link: Link,
    ticks: &[u8],
    most: usize,
) -> Result<(), Fail> {
    match link {
        Link::Rtu => { takes_journaled::<Sealer<Rtu, HmacSha1, 2>>(rt, alloc, ticks, most) }
        Link::Dnp => { takes_journaled::<Sealer<Dnp, HmacSha1, 2>>(rt, alloc, ticks, most) }
        Link::WideRtu => { takes_journaled::<Sealer<Rtu, HmacSha256, 4>>(rt, alloc, ticks, most) }
        Link::WideDnp => { takes_journaled::<Sealer<Dnp, HmacSha256, 4>>(rt, alloc, ticks, most) }
    }
}

// Checks that a receiver takes these ticks in at most `most` turns.
fn checks(
    rt: &impl Abort,
    alloc: Global,
    link: Link,
    ticks: &[u8],
    most: usize,
) -> Result<(), Fail> {
    match link {
        Link::Rtu => { takes_journaled::<Checker<Rtu, HmacSha1, 2, 18>>(rt, alloc, ticks, most) }
        Link::Dnp => { takes_journaled::<Checker<Dnp, HmacSha1, 2, 18>>(rt, alloc, ticks, most) }
        Link::WideRtu => {
            takes_journaled::<Checker<Rtu, HmacSha256, 4, 24>>(rt, alloc, ticks, most)
        }
        Link::WideDnp => {
            takes_journaled::<Checker<Dnp, HmacSha256, 4, 24>>(rt, alloc, ticks, most)
        }
    }
}

// The frame of a packet, and this burst.
fn frame_and_burst(alloc: Global, link: Link, burst: Burst) -> Result<Vec<u8>, AllocError> {
    let packet = packet_of(link);
    let frame = alike(packet, 1000);
    link_of(alloc, packet, &front_with(frame, burst))
}

// Checks that a transmitter takes the frame of a packet and a burst in at most `most` turns.
fn seals_frame(
    rt: &impl Abort,
    alloc: Global,
    link: Link,
    burst: Burst,
    most: usize,
) -> Result<(), Fail> {
    let line = frame_and_burst(alloc, link, burst)?;
    seals(rt, alloc, link, line.as_slice(), most)
}

// Checks that a receiver takes a packet and a burst of `count` bytes that joins it in at most
// `most` turns.
fn checks_packet(
    rt: &impl Abort,
    alloc: Global,
    link: Link,
    count: usize,
    most: usize,
) -> Result<(), Fail> {
    let packet = packet_of(link);
    let joined = front_with(packet.len(), Burst { pause: 0, count });
    let line = link_of(alloc, packet, &joined)?;
    checks(rt, alloc, link, line.as_slice(), most)
}

// Checks that a receiver takes the frame of a packet and a burst in at most `most` turns.
fn checks_frame(
    rt: &impl Abort,
    alloc: Global,
    link: Link,
    burst: Burst,
    most: usize,
) -> Result<(), Fail> {
    let line = frame_and_burst(alloc, link, burst)?;
    checks(rt, alloc, link, line.as_slice(), most)
}

// These take one turn each: the frame, the silence after it up to the tick that closes it, that
// tick, the trailer, and the silence after the trailer.
const TURNS_OF_A_FRAME: usize = 5;

// An early burst takes four turns more than there are without it: its first byte, its other bytes,
// the silence up to the tick that closes it, and this tick. It takes a fifth one if it divides the
// trailer, or the silence after it.
const TURNS_OF_AN_EARLY_BURST: usize = 10;

#[test]
fn frames_are_sealed_in_few_turns(rt: HostRuntime) -> Result<(), Fail> {
    for link in LINKS {
        seals_frame(&rt, rt.alloc(), link, NO_BURST, TURNS_OF_A_FRAME)?;
    }
    Ok(())
}

// Checks that a transmitter takes few turns for a frame and a burst that it doesn't seal.
fn seals_no_burst(rt: &impl Abort, alloc: Global, link: Link) -> Result<(), Fail> {
    let packet = packet_of(link);
    let behind = packet.len() + 1 - alike(packet, 1000).min(packet.len());
    // A burst that is early while the trailer goes out, and one that is early after it.
    let during = Burst { pause: 6, count: 8 };
    seals_frame(rt, alloc, link, during, TURNS_OF_AN_EARLY_BURST)?;
    let after = Burst {
        pause: behind,
        count: 4,
    };
    seals_frame(rt, alloc, link, after, TURNS_OF_AN_EARLY_BURST)?;
    // Bytes that join the frame and aren't live are one more run.
    seals_frame(rt, alloc, link, Burst { pause: 2, count: 5 }, 6)
}

#[test]
fn bursts_that_are_not_sealed_take_few_turns(rt: HostRuntime) -> Result<(), Fail> {
    for link in LINKS {
        seals_no_burst(&rt, rt.alloc(), link)?;
    }
    Ok(())
}

// Three runs are taken while nothing leaves: the frame's bytes, the silent ticks after them, and
// the first bytes of the trailer. The next bytes of the trailer are a run while the frame leaves.
// Two ticks go alone: the trailer's last byte, which brings the verdict, and the tick in which the
// frame's last byte leaves. The silence after them is the last run.
const TURNS_OF_A_PACKET: usize = 7;

#[test]
fn packets_are_checked_in_few_turns(rt: HostRuntime) -> Result<(), Fail> {
    for link in LINKS {
        checks_packet(&rt, rt.alloc(), link, 0, TURNS_OF_A_PACKET)?;
        // Bytes that join the packet are one more run.
        checks_packet(&rt, rt.alloc(), link, 200, TURNS_OF_A_PACKET + 1)?;
    }
    Ok(())
}

// Silence in place of the trailer takes as many turns as the trailer. A burst that comes too soon
// takes two more: its first byte goes alone, because of its note, and the others are a run.
#[test]
fn bursts_that_do_not_pass_take_few_turns(rt: HostRuntime) -> Result<(), Fail> {
    for link in LINKS {
        checks_frame(&rt, rt.alloc(), link, NO_BURST, TURNS_OF_A_PACKET)?;
        let soon = Burst { pause: 4, count: 4 };
        checks_frame(&rt, rt.alloc(), link, soon, TURNS_OF_A_PACKET + 2)?;
    }
    Ok(())
}

// The header of the longest DNP3 frame, which has 282 more bytes.
const LONGEST_HEADER: &[u8] = b"\x05\x64\xFF\xC4\x01\x00\x00\x04\x27\x27";

// The 282 bytes of the fill leave in runs of up to 64.
const TURNS_OF_A_FILL: usize = 5;

// A frame that is cut off behind its header is refused, and what it lacks leaves as a fill.
#[test]
fn the_fill_of_a_frame_takes_few_turns(rt: HostRuntime) -> Result<(), Fail> {
    let alloc = rt.alloc();
    let most = TURNS_OF_A_PACKET + TURNS_OF_A_FILL;
    for link in [Link::Dnp, Link::WideDnp] {
        let mut line = LONGEST_HEADER.to_vec(alloc)?;
        add_times(&mut line, b".", 350)?;
        checks(&rt, alloc, link, line.as_slice(), most)?;
    }
    Ok(())
}

type ShownSealer<R> = SealedFrames<R, HmacSha1, 2, SteadySlots>;

type ShownChecker<R> = ShownFrames<Checker<R, HmacSha1, 2, 18>, R, SteadySlots>;

// The boxes of `replay` need no more turns than those of `seal` and `check`.
#[test]
fn frames_and_packets_take_the_boxes_of_replay_few_turns(rt: HostRuntime) -> Result<(), Fail> {
    let (rt, alloc) = (&rt, rt.alloc());
    takes_shown::<ShownSealer<Rtu>>(rt, alloc, RTU_FRAME, TURNS_OF_A_FRAME)?;
    takes_shown::<ShownSealer<Dnp>>(rt, alloc, DNP_FRAME, TURNS_OF_A_FRAME)?;
    takes_shown::<ShownSealer<Rtu>>(rt, alloc, EARLY_BURST, TURNS_OF_AN_EARLY_BURST)?;
    takes_shown::<ShownChecker<Rtu>>(rt, alloc, RTU_PACKET, TURNS_OF_A_PACKET)?;
    takes_shown::<ShownChecker<Dnp>>(rt, alloc, DNP_PACKET, TURNS_OF_A_PACKET)
}

/// How many boxes of each kind wait through a run of silence, one after the other. It is as long as
/// a run can be, some 4,000,000,000 ticks, so that a body that takes it tick by tick inside one
/// call doesn't end in the time that a test has.
const WAITING: u32 = 25;

// Checks that a box that has taken nothing takes a run of silence at once.
fn waits<X: Turning>(rt: &impl Abort, mut line_box: X) -> Result<(), Fail>
    requires able { X.able line_box }
    requires begun { X.taken line_box ≡ 0 }
{
    assert!(rt; line_box.turn_silence(u32::MAX)? == u32::MAX);
    Ok(())
}

// Checks that a box of `seal` or `check` takes a run of silence at once.
fn waits_journaled<B: LineBox>(rt: &impl Abort) -> Result<(), Fail>
    requires widths { B.widths_fit }
{
    let line_box: Journaled<B> = Journaled::new()?;
    waits(rt, line_box)
}

// Checks that a box of `replay` takes a run of silence at once.
fn waits_shown<X: FrameBox>(rt: &impl Abort) -> Result<(), Fail>
    requires { X.widths_fit }
{
    let line_box: Shown<X> = Shown::new();
    waits(rt, line_box)
}

// Checks that a box of each kind takes a run of silence at once.
fn all_wait(rt: &impl Abort) -> Result<(), Fail> {
    waits_journaled::<Sealer<Rtu, HmacSha1, 2>>(rt)?;
    waits_journaled::<Checker<Dnp, HmacSha1, 2, 18>>(rt)?;
    waits_shown::<ShownSealer<Rtu>>(rt)?;
    waits_shown::<ShownChecker<Rtu>>(rt)
}

#[test]
fn silence_takes_no_longer_than_a_tick(rt: HostRuntime) -> Result<(), Fail> {
    for _ in 0..WAITING {
        all_wait(&rt)?;
    }
    Ok(())
}

/// A sink that takes all of each piece, and counts the pieces and their bytes.
#[derive(Drop)]
struct CountedSink {
    writes: u64,
    bytes: u64,
    flushes: u64,
    unflushed: bool,
}

const NO_WRITES: CountedSink = CountedSink {
    writes: 0,
    bytes: 0,
    flushes: 0,
    unflushed: false,
};

impl Sink for CountedSink {
    ghost held = { λ _. None };

    ghost faults = { λ _. 0 };

    ghost flushes = { λ sink. sink.flushes };

    ghost unflushed = { λ sink. sink.unflushed };

    fn write(&mut self, piece: &[u8]) -> Result<usize, Failed> {
        self.writes = self.writes.saturating_add(1);
        self.bytes = self.bytes.saturating_add(piece.len() as u64);
        if !piece.is_empty() {
            self.unflushed = true;
        }
        Ok(piece.len())
    }

    fn flush(&mut self) -> Result<(), Failed> {
        self.flushes = self.flushes.saturating_add(1);
        self.unflushed = false;
        Ok(())
    }
}

/// How many requests are sealed.
const REQUESTS: u64 = 7000;

/// How many bytes of text the link has for each request: a line of 18 bytes, `-3`, a line of 30,
/// and one of silence.
const LINK_TEXT: u64 = 18 + 3 + 30 + 4;

/// How many bytes of ticks at least wait when they are written since there is no room for more:
/// 65,536 less eleven lines of 66 bytes.
const LEAST_WRITTEN: u64 = 65_536 - 726;

// Seals the line of this text, and counts what is written.
fn seal_counted(text: &[u8], out: &mut CountedSink, log: &mut CountedSink) -> Status {
    let mut key = SteadySource::new(KEY);
    let mut input = SteadySource::new(text);
    let mut disk = fresh_disk(&Sealer::<Rtu, HmacSha1, 2>::link(Dir::Ab));
    let ends = Ends {
        key: &mut key,
        input: &mut input,
        out,
        log,
        disk: &mut disk,
    };
    run_ends::<
        Sealer<Rtu, HmacSha1, 2>,
        SteadySource,
        SteadySource,
        CountedSink,
        CountedSink,
        SteadySlots,
    >(Dir::Ab, 24, ends)
}

// Checks that an output has all of the link's text, and that it was written by full buffers.
fn has_text_by_buffers(rt: &impl Abort, out: &CountedSink) {
    assert_eq!(rt; out.bytes, REQUESTS * LINK_TEXT);
    assert!(rt;
        out.writes <= out.bytes / LEAST_WRITTEN + 1,
        "{} writes",
        out.writes
    );
}

// Checks that a log was written by full buffers, and otherwise only before a write of the output.
fn has_notes_by_buffers(rt: &impl Abort, log: &CountedSink, out: &CountedSink) {
    let full = log.bytes / LEAST_WRITTEN;
    let most = out.writes.saturating_add(full).saturating_add(1);
    assert!(rt; log.writes <= most, "{} writes", log.writes);
}

// Text goes out in full buffers, and at the end what is left goes out. The notes that wait go out
// before ticks do.
#[test]
fn text_goes_out_by_full_buffers(rt: HostRuntime) -> Result<(), Fail> {
    let text = repeated(rt.alloc(), b"+01030000000ac5cd\n-40\n", REQUESTS as usize)?;
    let mut out = NO_WRITES;
    let mut log = NO_WRITES;
    let status = seal_counted(text.as_slice(), &mut out, &mut log);
    assert_eq!(rt; status, Status::Done);
    has_text_by_buffers(&rt, &out);
    has_notes_by_buffers(&rt, &log, &out);
    Ok(())
}
