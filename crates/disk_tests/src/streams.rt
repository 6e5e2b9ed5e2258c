//! Tests of a reader and a writer outside the program, of which calls fail, and of forms in memory
//! that have no room.
ghost use Rattle.std.specs.Io.{ReadsAtMost, WritesAtMost};

use std::alloc::Global;
use std::io::{self, Read, Write};
use std::test::Fail;
use yasir_io::{
    Failed, MemSink, MemSlots, NoMemory, Pieces, Plan, Sink, Source, StdinSource, StdoutSink,
    TellsHeld, TellsLeft, write_all,
};

// Asks `times` times for a byte, which is past the end of each source here, and keeps the bytes
// that come. Returns how many of the calls failed.
fn drained<S: Source>(source: &mut S, out: &mut Vec<u8>, times: u32) -> Result<u32, Fail> {
    let mut pieces = Pieces::new();
    let mut failed = 0u32;
    for _ in 0..times {
        match pieces.next(source) {
            Ok(Some(byte)) => out.push(byte)?,
            Ok(None) => {}
            Err(Failed) => failed = failed.saturating_add(1),
        }
    }
    Ok(failed)
}

// Whether a source gives this text, and `failed` of its calls fail.
fn gives<S: Source>(alloc: Global, source: &mut S, failed: u32, text: &[u8]) -> Result<bool, Fail> {
    let mut out = Vec::new(alloc);
    let found = drained(source, &mut out, 40)?;
    Ok(found == failed && out.as_slice() == text)
}

// A text of `len` letters.
fn letters(alloc: Global, len: usize) -> Result<Vec<u8>, Fail> {
    let mut text = Vec::new(alloc);
    text.resize(len, b'l')?;
    Ok(text)
}

// A stream outside the program. A read moves one byte, and a write up to two, six in all. The
// second read or write fails, and so does the second flush.
#[derive(Drop)]
struct Outside {
    bytes: Vec<u8>,
    calls: u32,
    flushes: u32,
}

impl Outside {
    fn begin(&mut self) -> io::Result<()> {
        self.calls = self.calls.saturating_add(1);
        if self.calls == 2 {
            return Err(io::ErrorKind::Other.into());
        }
        Ok(())
    }

    fn give(&mut self, buf: &mut [u8]) -> io::Result<usize>
        ensures { ReadsAtMost result buf.new }
    {
        self.begin()?;
        if buf.is_empty() || self.bytes.is_empty() {
            return Ok(0);
        }
        buf[0] = self.bytes.remove(0);
        Ok(1)
    }

    fn hold(&mut self, buf: &[u8]) -> io::Result<usize>
        ensures { WritesAtMost result buf.now }
    {
        self.begin()?;
        let n = buf
            .len()
            .min(6usize.saturating_sub(self.bytes.len()))
            .min(2);
        self.bytes.extend_from_slice(&buf[..n])?;
        Ok(n)
    }

    fn hand_on(&mut self) -> io::Result<()> {
        self.flushes = self.flushes.saturating_add(1);
        if self.flushes == 2 {
            return Err(io::ErrorKind::Other.into());
        }
        Ok(())
    }
}

impl TellsLeft for &mut Outside {
    ghost knows_left = { λ old new known. known };
}

impl TellsHeld for &mut Outside {
    fn flush_out(&mut self) -> io::Result<()> {
        self.flush()
    }

    ghost knows_held = { λ old new known. known };
}

impl Read for &mut Outside {
    fn read(&mut self, buf: &mut [u8]) -> io::Result<usize> {
        self.give(buf)
    }
}

impl Write for &mut Outside {
    fn write(&mut self, buf: &[u8]) -> io::Result<usize> {
        self.hold(buf)
    }

    fn flush(&mut self) -> io::Result<()> {
        self.hand_on()
    }
}

// The stream with these bytes, before any call.
fn outside_of(alloc: Global, bytes: &[u8]) -> Result<Outside, Fail> {
    Ok(Outside {
        bytes: bytes.to_vec(alloc)?,
        calls: 0,
        flushes: 0,
    })
}

#[test]
fn a_reader_is_read_to_its_end(rt: HostRuntime) -> Result<(), Fail> {
    let mut outside = outside_of(rt.alloc(), b"abcde")?;
    let mut source = StdinSource::new(&mut outside);
    assert!(rt; gives(rt.alloc(), &mut source, 1, b"abcde")?);
    Ok(())
}

// Writes a text to a vector in one call, and returns how many bytes were taken.
fn written_at_once(out: &mut Vec<u8>, text: &[u8]) -> Result<usize, Failed> {
    StdoutSink::new(out).write(text)
}

// A writer that takes all gets a whole buffer in one call.
#[test]
fn a_writer_gets_a_whole_buffer_at_once(rt: HostRuntime) -> Result<(), Fail> {
    let long = letters(rt.alloc(), 65_536)?;
    let mut out = Vec::new(rt.alloc());
    assert!(rt; written_at_once(&mut out, long.as_slice()) == Ok(65_536));
    assert!(rt; out.as_slice() == long.as_slice());
    Ok(())
}

// Whether four pieces are written, of which the first and the last aren't taken whole.
fn writes_pieces<S: Sink>(sink: &mut S) -> bool {
    write_all(sink, b"abcd").is_err()
        && write_all(sink, b"").is_ok()
        && write_all(sink, b"cdef").is_ok()
        && write_all(sink, b"g").is_err()
}

// Whether pieces are written to a stream, and of two flushes the second one fails.
fn writes_outside(outside: &mut Outside) -> bool {
    let mut sink = StdoutSink::new(outside);
    writes_pieces(&mut sink) && sink.flush().is_ok() && sink.flush().is_err()
}

#[test]
fn a_writer_gets_each_piece_at_once(rt: HostRuntime) -> Result<(), Fail> {
    let mut outside = outside_of(rt.alloc(), b"")?;
    assert!(rt; writes_outside(&mut outside));
    assert!(rt; outside.bytes.as_slice() == b"abcdef".as_slice());
    Ok(())
}

// No clause says when memory is refused.
#[test]
fn more_memory_than_there_is_is_refused(rt: HostRuntime) {
    let sink = MemSink::with_room(rt.alloc(), usize::MAX, 1, Plan::new());
    assert!(rt; matches!(sink, Err(NoMemory)));
    let (old, new) = ([0; 16], [0; 24]);
    let disk = MemSlots::with_room(rt.alloc(), old, old, new, new, usize::MAX, Plan::new());
    assert!(rt; matches!(disk, Err(NoMemory)));
}
