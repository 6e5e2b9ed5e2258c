//! A text on its way to a sink. It waits, so that short pieces cost no call.
use crate::text_room::TextRoom;
use crate::{Failed, Sink, write_all};

/// A text on its way to a sink. Up to 65,536 bytes wait here, so that a short piece costs no call
/// of the sink.
///
/// After an error the sink has got a front of the text, and the buffer must not be used again.
#[derive(Drop)]
pub struct TextBuffer {
    /// The bytes that wait. A line is written right after them, once `make_room` has made room for
    /// it.
    pub text: TextRoom<65536>,
}

impl TextBuffer {
    ghost use Rattle.std.specs.Prelude.{◌≡◌, ℕ, ◌+◌, ◌≤◌, List, [], ◌++◌, length};
    ghost use Rattle.std.specs.Prelude.{Option, OnOk, OnErr};
    ghost use Rattle.yasir_io.specs.Causes.{HasCause};
    ghost use Rattle.yasir_io.specs.Output.{Buffered, GotPrefix};
    ghost use Rattle.yasir_io.specs.TextBuffer.{waiting_bytes};

    /// Returns a buffer without text.
    pub fn new() -> TextBuffer
        /// Nothing waits.
        ensures waits { waiting_bytes result ≡ [] }
        /// From whatever a sink holds on, the text is empty.
        ensures stands { (start : Option (List ℕ))
            → Buffered start start (waiting_bytes result) [] }
    {
        TextBuffer {
            text: TextRoom::new(),
        }
    }

    /// Adds a piece of any length to the text.
    #[inline]
    pub fn push<S: Sink>(&mut self, sink: &mut S, piece: &[u8]) -> Result<(), Failed>
        /// The text has this piece behind it, and the sink has got all but what waits.
        ensures ok { OnOk result ((start : Option (List ℕ)) (text : List ℕ)
            → Buffered start (S.held sink.old) (waiting_bytes self.old) text
            → Buffered start (S.held sink.new) (waiting_bytes self.new) (text ++ piece.now)) }
        /// After a failed write the sink has got a front of the text with this piece.
        ensures err { OnErr result ((start : Option (List ℕ)) (text : List ℕ)
            → Buffered start (S.held sink.old) (waiting_bytes self.old) text
            → GotPrefix start (S.held sink.new) (text ++ piece.now)) }
        /// The sink's count of faults rose if a write failed, and is as it was otherwise.
        ensures cause { HasCause (S.faults sink.old) (S.faults sink.new) result }
        /// No flush is counted.
        ensures flushes { S.flushes sink.new ≡ S.flushes sink.old }
    {
        if self.text.has_room(piece.len()) {
            self.text.append(piece);
            return Ok(());
        }
        self.push_full(sink, piece)
    }

    // Adds a piece that doesn't fit into the room that is left. What waits goes to the sink first.
    #[inline(never)]
    fn push_full<S: Sink>(&mut self, sink: &mut S, piece: &[u8]) -> Result<(), Failed>
        ensures ok { OnOk result ((start : Option (List ℕ)) (text : List ℕ)
            → Buffered start (S.held sink.old) (waiting_bytes self.old) text
            → Buffered start (S.held sink.new) (waiting_bytes self.new) (text ++ piece.now)) }
        ensures err { OnErr result ((start : Option (List ℕ)) (text : List ℕ)
            → Buffered start (S.held sink.old) (waiting_bytes self.old) text
            → GotPrefix start (S.held sink.new) (text ++ piece.now)) }
        ensures cause { HasCause (S.faults sink.old) (S.faults sink.new) result }
        ensures flushes { S.flushes sink.new ≡ S.flushes sink.old }
    {
        self.drain(sink)?;
        if self.text.has_room(piece.len()) {
            self.text.append(piece);
            return Ok(());
        }
        write_all(sink, piece)
    }

    /// Makes room for `count` bytes. If they don't fit, what waits goes to the sink first.
    #[inline]
    pub fn make_room<S: Sink>(&mut self, sink: &mut S, count: usize) -> Result<(), Failed>
        /// It is asked for at most 65,536 bytes.
        requires { count ≤ 65536 }
        /// The text is as it was, and the sink has got all but what waits.
        ensures ok { OnOk result ((start : Option (List ℕ)) (text : List ℕ)
            → Buffered start (S.held sink.old) (waiting_bytes self.old) text
            → Buffered start (S.held sink.new) (waiting_bytes self.new) text) }
        /// There is room for this many bytes.
        ensures room { OnOk result (length (waiting_bytes self.new) + count ≤ 65536) }
        /// If there was room before, nothing changes and no sink is called.
        ensures fits { length (waiting_bytes self.old) + count ≤ 65536
            → (self.new ≡ self.old) × (sink.new ≡ sink.old) }
        /// After a failed write the sink has got a front of the text.
        ensures err { OnErr result ((start : Option (List ℕ)) (text : List ℕ)
            → Buffered start (S.held sink.old) (waiting_bytes self.old) text
            → GotPrefix start (S.held sink.new) text) }
        /// The sink's count of faults rose if a write failed, and is as it was otherwise.
        ensures cause { HasCause (S.faults sink.old) (S.faults sink.new) result }
        /// No flush is counted.
        ensures flushes { S.flushes sink.new ≡ S.flushes sink.old }
    {
        if self.text.has_room(count) {
            return Ok(());
        }
        self.drain(sink)
    }

    /// Writes what waits to the sink. It is up to the caller to flush it.
    pub fn drain<S: Sink>(&mut self, sink: &mut S) -> Result<(), Failed>
        /// The sink has got the whole text.
        ensures ok { OnOk result ((start : Option (List ℕ)) (text : List ℕ)
            → Buffered start (S.held sink.old) (waiting_bytes self.old) text
            → Buffered start (S.held sink.new) [] text) }
        /// Nothing waits.
        ensures empty { OnOk result (waiting_bytes self.new ≡ []) }
        /// After a failed write the sink has got a front of the text.
        ensures err { OnErr result ((start : Option (List ℕ)) (text : List ℕ)
            → Buffered start (S.held sink.old) (waiting_bytes self.old) text
            → GotPrefix start (S.held sink.new) text) }
        /// The sink's count of faults rose if a write failed, and is as it was otherwise.
        ensures cause { HasCause (S.faults sink.old) (S.faults sink.new) result }
        /// No flush is counted.
        ensures flushes { S.flushes sink.new ≡ S.flushes sink.old }
    {
        write_all(sink, self.text.as_slice())?;
        self.text.empty();
        Ok(())
    }
}
