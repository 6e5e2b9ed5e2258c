//! Runs of the program over ends in memory: the worked rows, more frames than fit into a short
//! list, a session of polls, and words. `scripts/rows.py` and `scripts/failing_calls.py` try the
//! built program with more.
use crate::rows::{
    AUDITED, BACK, DOUBLE, KEPT, KEY, NEW, REPLAYED, Row, SHARED, SINGLE, SPACED, WAYS,
};
use crate::words::Audited;
use crate::{
    BothDisks, Command, Dir, Profile, Proto, journal_word, key_word, makes_journal, read_words,
    run, second_word,
};
use line_commands::Streams;
use session_audit::Tolerance;
use std::alloc::{AllocError, Global};
use std::process::Abort;
use std::test::Fail;
use two_wire::{Side, Waits};
use yasir_io::{MemSink, MemSource, Plan, SteadySlots};

/// How a run ended, and what its sinks hold.
#[derive(Drop)]
struct Ran {
    exit_status: u8,
    out: MemSink,
    log: MemSink,
}

/// The calls of the input and of the output that fail, counted from 1, or 0 if none does.
type Fails = (u32, u32);

// Returns a plan by which the call of this number fails, or none if the number is 0.
fn plan(call: u32) -> Plan {
    let mut plan = Plan::new();
    if call > 0 {
        let _ = plan.try_push(call);
    }
    plan
}

// Adds the words of a text, which single spaces separate.
fn push_words(alloc: Global, words: &mut Vec<String>, text: &str) -> Result<(), AllocError> {
    for word in text.split(' ') {
        words.push(String::from_str(alloc, word)?)?;
    }
    Ok(())
}

// Returns the words of a text, which single spaces separate. An empty text has none.
fn words_of(alloc: Global, text: &str) -> Result<Vec<String>, AllocError> {
    let mut words = Vec::new(alloc);
    if !text.is_empty() {
        push_words(alloc, &mut words, text)?;
    }
    Ok(words)
}

// Returns the ends of a run over this input, whose calls fail so.
fn ends_of<'a>(
    alloc: Global,
    text: &'a [u8],
    fails: Fails,
) -> Result<Streams<MemSource<'a>, MemSink, MemSink>, Fail> {
    Ok(Streams {
        input: MemSource::new(text, 100, plan(fails.0)),
        out: MemSink::with_room(alloc, 60_000, 100, plan(fails.1))?,
        log: MemSink::with_room(alloc, 500, 100, plan(0))?,
    })
}

// Returns the disks of two journals with these slots.
fn disks_of(first: &[u8; 24], second: &[u8; 24]) -> BothDisks<SteadySlots> {
    BothDisks {
        first: SteadySlots::new(*first, [0; 24]),
        second: SteadySlots::new(*second, [0; 24]),
    }
}

// Runs the program with these words over this input, and over journals with these slots.
fn run_over(
    alloc: Global,
    words: &str,
    text: &[u8],
    mut disks: BothDisks<SteadySlots>,
    fails: Fails,
) -> Result<Ran, Fail> {
    let words = words_of(alloc, words)?;
    let mut key = MemSource::new(KEY, 100, plan(0));
    let mut streams = ends_of(alloc, text, fails)?;
    let ended = run(alloc, words.as_slice(), &mut key, &mut streams, &mut disks);
    let exit_status = ended.status.exit_status();
    let Streams { out, log, .. } = streams;
    Ok(Ran {
        exit_status,
        out,
        log,
    })
}

// Checks that a run left what its row says.
fn has_left(rt: &impl Abort, ran: &Ran, row: &Row) {
    assert_eq!(rt; ran.out.held(), row.out, "{}", row.words);
    assert_eq!(rt; ran.log.held(), row.log, "{}", row.words);
    assert_eq!(rt; ran.exit_status, row.exit_status, "{}", row.words);
}

// Checks the runs of these rows.
fn compare(rt: &impl Abort, alloc: Global, rows: &[Row]) -> Result<(), Fail> {
    for row in rows {
        let disks = disks_of(row.slot, row.second);
        let ran = run_over(alloc, row.words, row.text, disks, row.fails)?;
        has_left(rt, &ran, row);
    }
    Ok(())
}

#[test]
fn does_what_the_words_ask_for(rt: HostRuntime) -> Result<(), Fail> {
    for rows in &[
        SINGLE, SPACED, KEPT, REPLAYED, AUDITED, DOUBLE, SHARED, WAYS,
    ] {
        compare(&rt, rt.alloc(), rows)?;
    }
    Ok(())
}

// Checks that a run was done, and that its output begins and ends so.
fn is_done(rt: &impl Abort, ran: &Ran, front: &[u8], end: &[u8]) {
    assert_eq!(rt; ran.exit_status, 0);
    assert!(rt; ran.out.held().starts_with(front));
    assert!(rt; ran.out.held().ends_with(end));
}

// Returns two recordings: as many requests, each with 40 silent ticks after it, and nothing.
fn requests(alloc: Global, count: usize) -> Result<Vec<u8>, AllocError> {
    let mut text = Vec::new(alloc);
    for _ in 0..count {
        text.extend_from_slice(b"+01030000000ac5cd\n-40\n")?;
    }
    text.extend_from_slice(b"%\n")?;
    Ok(text)
}

// No clause says that there is memory for so many frames.
#[test]
fn lists_1200_frames(rt: HostRuntime) -> Result<(), Fail> {
    let text = requests(rt.alloc(), 1200)?;
    let ran = run_over(
        rt.alloc(),
        "replay rtu ab key",
        text.as_slice(),
        disks_of(&NEW, &BACK),
        (0, 0),
    )?;
    let last = b"sealed 1200 at 57552 01030000000ac5cd\n";
    is_done(&rt, &ran, b"sealed 1 at 0 01030000000ac5cd\n", last);
    Ok(())
}

// The master asks as many requests as it is told to. That nobody reads what wasn't sealed is proved.
#[test]
fn polls_a_device(rt: HostRuntime) -> Result<(), Fail> {
    let disks = disks_of(&NEW, &BACK);
    let ran = run_over(rt.alloc(), "poll rtu 7 5", b"", disks, (0, 0))?;
    is_done(&rt, &ran, b"poll rtu 7 5 asked 5 ", b" unsealed 0\n");
    Ok(())
}

/// Words, the command that they ask for, if they ask for one, the places of the paths of its key,
/// its journal and its second journal, and whether the journal is made.
type Asked = (&'static str, Option<Command>, [Option<usize>; 3], bool);

const WAITS: Waits = Waits {
    window: 29,
    pause: 30,
};

const HIGHEST: Audited = Audited {
    proto: Proto::Dnp3,
    profile: Profile::Y24,
    dir: Dir::Ba,
    sent_floor: 0,
    got_floor: 281_474_976_710_655,
    tolerance: Tolerance {
        least: 128,
        most: 1_000_000,
        spaced: true,
    },
};

const ASKED: &[Asked] = &[
    ("-h", Some(Command::Help), [None, None, None], false),
    (
        "read dnp3",
        Some(Command::Read(Proto::Dnp3)),
        [None, None, None],
        false,
    ),
    (
        "init rtu24 ba j",
        Some(Command::Init(Proto::Rtu, Profile::Y24, Dir::Ba)),
        [None, Some(3), None],
        true,
    ),
    (
        "check dnp24 ab k j",
        Some(Command::Check(Proto::Dnp3, Profile::Y24, Dir::Ab)),
        [Some(3), Some(4), None],
        false,
    ),
    (
        "live seal dnp24 ba k j",
        Some(Command::LiveSeal(Proto::Dnp3, Profile::Y24, Dir::Ba)),
        [Some(4), Some(5), None],
        false,
    ),
    (
        "live line rtu ab k s g",
        Some(Command::LiveLine(Proto::Rtu, Profile::Y18, Dir::Ab)),
        [Some(4), Some(5), Some(6)],
        false,
    ),
    (
        "audit dnp24 ba k 0 281474976710655 128..1000000 spaced",
        Some(Command::Audit(HIGHEST)),
        [Some(3), None, None],
        false,
    ),
    (
        "two_wire dnp24 ba answers 29 30 k",
        Some(Command::TwoWire(Proto::Dnp3, Profile::Y24, Dir::Ba, Side::Answers, WAITS)),
        [Some(6), None, None],
        false,
    ),
    (
        "poll rtu 4294967295 10000",
        Some(Command::Poll(Proto::Rtu, Profile::Y18, 4_294_967_295, 10_000)),
        [None, None, None],
        false,
    ),
    // 2 ^ 32, 2 ^ 48, ranges that are empty, too wide and out of place, one tick less than this box has
    // to wait, an empty path, and a leading zero
    ("trial rtu 4294967296 1", None, [None, None, None], false),
    (
        "audit rtu ab k 281474976710656 0",
        None,
        [None, None, None],
        false,
    ),
    ("audit rtu ab k 0 0 5..4", None, [None, None, None], false),
    (
        "audit rtu ab k 0 0 0..1000001",
        None,
        [None, None, None],
        false,
    ),
    (
        "audit rtu ab k 0 0 spaced 0..0",
        None,
        [None, None, None],
        false,
    ),
    (
        "two_wire rtu24 ba answers 28 4 k",
        None,
        [None, None, None],
        false,
    ),
    ("live line rtu ab k s ", None, [None, None, None], false),
    ("live seal rtu ab  j", None, [None, None, None], false),
    ("trial rtu 07 1", None, [None, None, None], false),
];

// Checks what words ask for.
fn asks(rt: &impl Abort, words: &[String], row: &Asked) {
    assert_eq!(rt; read_words(words).ok(), row.1, "{}", row.0);
    let [key, first, second] = row.2;
    assert_eq!(rt; key_word(words), key, "{}", row.0);
    assert_eq!(rt; journal_word(words), first, "{}", row.0);
    assert_eq!(rt; second_word(words), second, "{}", row.0);
    assert_eq!(rt; makes_journal(words), row.3, "{}", row.0);
}

#[test]
fn reads_words(rt: HostRuntime) -> Result<(), Fail> {
    for row in ASKED {
        let words = words_of(rt.alloc(), row.0)?;
        asks(&rt, words.as_slice(), row);
    }
    Ok(())
}
