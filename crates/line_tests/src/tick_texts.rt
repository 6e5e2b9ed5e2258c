//! Tests of tick text: right texts, refused texts, marks, and runs.
use std::alloc::Global;
use std::process::Abort;
use std::test::Fail;
use yasir_ticks::{BadTicks, Content, Run, TickFault, TickReader};

/// Texts, and the bytes and the number of silent ticks that they represent.
const ACCEPTED: [(&[u8], &[u8], u32); 10] = [
    (b"", b"", 0),
    (b"+01", b"\x01", 0),
    (b"+01\n", b"\x01", 0),
    (b"+0aF5\r\n", b"\n\xf5", 0),
    (b"+AB\r", b"\xab", 0),
    (b"\n\r\n#\n# a\rb\n\r", b"", 0),
    (b"-1000000", b"", 1000000),
    (b"-4\n+7e\n-20\r\n", b"~", 24),
    (
        b"#ccccccccccccccccccccccccccccccccccccccccccccccccccccccccccccccccccccccccccc\
            ccccccccccccccccccccccccccccccccccccccccccccc\n",
        b"",
        0,
    ),
    (
        b"+0000000000000000000000000000000000000000000000000000000000000000\n",
        &[0; 32],
        0,
    ),
];

/// Texts, and the line and the cause of their refusal.
const REFUSED: [(&[u8], u32, TickFault); 21] = [
    (b"-0", 1, TickFault::Count),
    (b"-07", 1, TickFault::Count),
    (b"-1000001", 1, TickFault::Count),
    (b"-10000000", 1, TickFault::Count),
    (b"+1", 1, TickFault::Odd),
    (b"+01\n+1\n", 2, TickFault::Odd),
    (b"+1\r\n", 1, TickFault::Odd),
    (b"+", 1, TickFault::Empty),
    (b"-\n", 1, TickFault::Empty),
    (b"\n\n-\r", 3, TickFault::Empty),
    (b"+0g", 1, TickFault::Char),
    (b"x", 1, TickFault::Char),
    (b"%", 1, TickFault::Char),
    (b"-1a", 1, TickFault::Char),
    (b"-+", 1, TickFault::Char),
    (b"\r\r", 1, TickFault::Char),
    (b"+0a\rx", 1, TickFault::Char),
    (b"+0a\r\r\n", 1, TickFault::Char),
    (
        b"+000000000000000000000000000000000000000000000000000000000000000000",
        1,
        TickFault::Long,
    ),
    (
        b"+0000000000000000000000000000000000000000000000000000000000000000g",
        1,
        TickFault::Char,
    ),
    (
        b"\n#ccccccccccccccccccccccccccccccccccccccccccccccccccccccccccccccccccccccccccc\
            cccccccccccccccccccccccccccccccccccccccccccccc",
        2,
        TickFault::Long,
    ),
];

/// How many marks a text has, the text, and the bytes and the number of silent ticks that it
/// represents.
const MARKED: [(u8, &[u8], &[u8], u32); 5] = [
    (1, b"%", b"", 0),
    (1, b"+01\n%\n-3\n", b"\x01", 3),
    (1, b"+01\r\n%\r\n+02", b"\x01\x02", 0),
    (2, b"%\n\n# two\n%\r", b"", 0),
    (3, b"%\n%\n%\n+ff\n", b"\xff", 0),
];

/// How many marks are stated for a text, the text, and the line and the cause of its refusal.
const REFUSED_MARKS: [(u8, &[u8], u32, TickFault); 10] = [
    (1, b"+01", 1, TickFault::Mark),
    (1, b"+01\n", 2, TickFault::Mark),
    (1, b"", 1, TickFault::Mark),
    (2, b"%\n+01", 2, TickFault::Mark),
    (1, b"%\n%", 2, TickFault::Char),
    (1, b"+01\n%\n%\n", 3, TickFault::Char),
    (1, b"%%", 1, TickFault::Char),
    (1, b"% ", 1, TickFault::Char),
    (1, b"%\r\r", 1, TickFault::Char),
    (1, b"+1", 1, TickFault::Odd),
];

/// What the lines of a text represent.
#[derive(Drop)]
struct Seen {
    bytes: Vec<u8>,
    silent: u32,
    marks: u8,
}

impl Seen {
    fn none(alloc: Global) -> Seen {
        Seen {
            bytes: Vec::new(alloc),
            silent: 0,
            marks: 0,
        }
    }

    fn take_line(&mut self, content: Content, bytes: &[u8]) -> Result<(), Fail> {
        match content {
            Content::NoTick => {}
            Content::KeptBytes => self.bytes.extend_from_slice(bytes)?,
            Content::SilentTicks(n) => self.silent = self.silent.wrapping_add(n),
            Content::OneMark => self.marks = self.marks.wrapping_add(1),
        }
        Ok(())
    }

    fn take(&mut self, run: Run) -> Result<(), Fail> {
        match run {
            Run::Nothing => {}
            Run::Bytes(bytes) => self.bytes.extend_from_slice(bytes.as_slice())?,
            Run::Silence(n) => self.silent = self.silent.wrapping_add(n),
            Run::Mark => self.marks = self.marks.wrapping_add(1),
        }
        Ok(())
    }
}

/// Checks that two more calls return the refusal that a reader has returned, and returns it.
fn refused_for_good(rt: &impl Abort, mut reader: TickReader, bad: BadTicks) -> BadTicks {
    assert_eq!(rt; reader.line(), bad.line);
    assert!(rt; reader.line() < 9);
    assert_eq!(rt; reader.feed(b'\n').err(), Some(bad));
    assert_eq!(rt; reader.finish().err(), Some(bad));
    bad
}

/// Feeds a text to a reader and ends it.
fn read(
    rt: &impl Abort,
    alloc: Global,
    marks: u8,
    text: &[u8],
) -> Result<Result<Seen, BadTicks>, Fail> {
    let mut reader = TickReader::new(marks);
    let mut seen = Seen::none(alloc);
    for b in text {
        assert!(rt; reader.line() < 9);
        match reader.feed(*b) {
            Ok(run) => seen.take(run)?,
            Err(bad) => return Ok(Err(refused_for_good(rt, reader, bad))),
        }
    }
    match reader.finish() {
        Ok(run) => seen.take(run)?,
        Err(bad) => return Ok(Err(bad)),
    }
    Ok(Ok(seen))
}

#[test]
fn reads_each_kind_of_text(rt: HostRuntime) -> Result<(), Fail> {
    for (text, bytes, silent) in &ACCEPTED {
        let seen = read(&rt, rt.alloc(), 0, text)?.ok().ok_or("refused")?;
        assert_eq!(rt; seen.bytes.as_slice(), *bytes);
        assert_eq!(rt; seen.silent, *silent);
    }
    for (text, line, why) in &REFUSED {
        let bad = read(&rt, rt.alloc(), 0, text)?.err().ok_or("accepted")?;
        assert_eq!(rt; (bad.line, bad.why), (*line, *why));
    }
    Ok(())
}

#[test]
fn reads_marks(rt: HostRuntime) -> Result<(), Fail> {
    for (marks, text, bytes, silent) in &MARKED {
        let seen = read(&rt, rt.alloc(), *marks, text)?.ok().ok_or("refused")?;
        assert_eq!(rt; seen.bytes.as_slice(), *bytes);
        assert_eq!(rt; (seen.silent, seen.marks), (*silent, *marks));
        let sliced = read_slices(rt.alloc(), *marks, text, 3)?;
        assert_eq!(rt; sliced.bytes.as_slice(), *bytes);
        assert_eq!(rt; sliced.marks, *marks);
    }
    for (marks, text, line, why) in &REFUSED_MARKS {
        let bad = read(&rt, rt.alloc(), *marks, text)?
            .err()
            .ok_or("accepted")?;
        assert_eq!(rt; (bad.line, bad.why), (*line, *why));
    }
    Ok(())
}

/// Feeds a text to a reader in slices of `size` bytes, and ends it.
fn read_slices(alloc: Global, marks: u8, text: &[u8], size: usize) -> Result<Seen, Fail> {
    let mut reader = TickReader::new(marks);
    let mut seen = Seen::none(alloc);
    let mut rest = text;
    for _ in 0..200 {
        let slice = &rest[..size.min(200).min(rest.len())];
        if reader.line() > 9 {
            return Err("too many lines".into());
        }
        let fed = reader.feed_line(slice);
        seen.take_line(fed.line.ok().ok_or("refused")?, reader.line_bytes())?;
        rest = &rest[fed.taken..];
    }
    seen.take(reader.finish().ok().ok_or("refused at the end")?)?;
    Ok(seen)
}

#[test]
fn reads_slices_of_each_size(rt: HostRuntime) -> Result<(), Fail> {
    for (text, bytes, silent) in &ACCEPTED {
        for size in [1, 2, 3, 7, 200] {
            let seen = read_slices(rt.alloc(), 0, text, size)?;
            assert_eq!(rt; seen.bytes.as_slice(), *bytes);
            assert_eq!(rt; seen.silent, *silent);
        }
    }
    Ok(())
}

/// Returns a line, followed by as many bytes as the longest line has.
fn line_in_front(alloc: Global, line: &[u8]) -> Result<Vec<u8>, Fail> {
    let mut text = Vec::new(alloc);
    text.extend_from_slice(line)?;
    for _ in 0..122 {
        text.push(b'\n')?;
    }
    Ok(text)
}

/// Checks that a new reader takes this line at once, and then lends `bytes` bytes.
fn must_take(rt: &impl Abort, alloc: Global, line: &[u8], bytes: usize) -> Result<(), Fail> {
    let text = line_in_front(alloc, line)?;
    let mut reader = TickReader::new(0);
    assert!(rt; reader.line() < 9 && text.len() < 999);
    let taken = reader.take_usual(text.as_slice()).map(|line| line.taken);
    assert_eq!(rt; taken, Some(line.len()));
    assert_eq!(rt; reader.line_bytes().len(), bytes);
    Ok(())
}

// No clause says which lines are taken at once: each line of 1 to 32 bytes is.
#[test]
fn takes_a_line_of_bytes_at_once(rt: HostRuntime) -> Result<(), Fail> {
    const LINE: &[u8] = b"+000102030405060708090a0b0c0d0e0f101112131415161718191a1b1c1d1e1f";
    for count in 1_usize..=32 {
        let mut line = Vec::new(rt.alloc());
        for byte in LINE.iter().take(count.saturating_mul(2).saturating_add(1)) {
            line.push(*byte)?;
        }
        line.push(b'\n')?;
        must_take(&rt, rt.alloc(), line.as_slice(), count)?;
    }
    Ok(())
}

// No clause says which lines are taken at once: each line of up to 999,999 silent ticks is.
#[test]
fn takes_a_line_of_silence_at_once(rt: HostRuntime) -> Result<(), Fail> {
    const LINES: [&[u8]; 6] = [
        b"-1\n",
        b"-21\n",
        b"-300\n",
        b"-9999\n",
        b"-18000\n",
        b"-999999\n",
    ];
    for line in LINES {
        must_take(&rt, rt.alloc(), line, 0)?;
    }
    Ok(())
}

// No clause says which lines are taken at once: each comment is.
#[test]
fn takes_a_comment_at_once(rt: HostRuntime) -> Result<(), Fail> {
    for count in 0..=120 {
        let mut line = Vec::new(rt.alloc());
        line.push(b'#')?;
        for _ in 0..count {
            line.push(b'c')?;
        }
        line.push(b'\n')?;
        must_take(&rt, rt.alloc(), line.as_slice(), 0)?;
    }
    Ok(())
}
