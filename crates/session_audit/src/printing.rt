//! The whole text of `replay`, which is printed after the input has ended well.
ghost use Rattle.std.specs.Prelude.{◌≡◌, ◌⊎◌, OnOk, OnErr};
ghost use Rattle.yasir_io.specs.Causes.{HasCause};
ghost use Rattle.yasir_io.specs.TextBuffer.{waiting_bytes};
ghost use Rattle.command_ends.specs.Causes.{SinkCause};
ghost use Rattle.command_ends.specs.Flushes.{FlushesAtEnd};
ghost use Rattle.session_audit.specs.Listing.{Listing, listing_text};
ghost use Rattle.session_audit.specs.Printing.{AddsText, PrintingBreaksOff, on_the_way};
ghost use Rattle.session_audit.specs.Printing.{HoldsListing, AreWholeLists, PrintsText};

use crate::groups::{push_forged, push_numbered, push_reads};
use command_ends::{Status, flush_both};
use session_lists::{FrameList, Numbered};
use yasir_io::{Failed, Sink, TextBuffer};

// Adds the four groups of lines.
fn push_listing<O: Sink>(
    text: &mut TextBuffer,
    out: &mut O,
    sealed: &FrameList<Numbered>,
    passed: &FrameList<Numbered>,
    read: &FrameList<u64>,
) -> Result<(), Failed>
    requires { AreWholeLists sealed.now passed.now read.now }
    ensures ok { OnOk result ((listing : Listing)
        → HoldsListing sealed.now passed.now read.now listing
        → AddsText (on_the_way (O.held out.old) (waiting_bytes text.old))
        (on_the_way (O.held out.new) (waiting_bytes text.new)) (listing_text listing)) }
    ensures err { OnErr result ((listing : Listing)
        → HoldsListing sealed.now passed.now read.now listing
        → PrintingBreaksOff (on_the_way (O.held out.old) (waiting_bytes text.old)) (O.held out.new)
        (listing_text listing)) }
    ensures cause { HasCause (O.faults out.old) (O.faults out.new) result }
    ensures flushes { O.flushes out.new ≡ O.flushes out.old }
{
    let Ok(()) = push_numbered(text, out, b"sealed", sealed) else {
        return Err(Failed);
    };
    let Ok(()) = push_numbered(text, out, b"passed", passed) else {
        return Err(Failed);
    };
    let Ok(()) = push_reads(text, out, read) else {
        return Err(Failed);
    };
    match push_forged(text, out, sealed, passed) {
        Ok(()) => Ok(()),
        Err(Failed) => Err(Failed),
    }
}

/// Prints a line for each frame that was sealed, then for each that passed, for each that was read
/// and for each that is forged. Returns `Status::Done`, or `Status::WriteFault` if a sink failed.
pub fn print_listing<O: Sink, L: Sink>(
    sealed: &FrameList<Numbered>,
    passed: &FrameList<Numbered>,
    read: &FrameList<u64>,
    out: &mut O,
    log: &mut L,
) -> Status
    requires { AreWholeLists sealed.now passed.now read.now }
    ensures prints { (listing : Listing) → HoldsListing sealed.now passed.now read.now listing
        → PrintsText (listing_text listing) (O.held out.old) (O.held out.new) result }
    ensures status { (result ≡ Status.Done) ⊎ (result ≡ Status.WriteFault) }
    ensures log { L.held log.new ≡ L.held log.old }
    ensures sinks { SinkCause (O.faults out.old) (O.faults out.new) (L.faults log.old)
        (L.faults log.new) result }
    ensures flushes { FlushesAtEnd O.Sink L.Sink out.old out.new log.old log.new result }
{
    let mut text = TextBuffer::new();
    let Ok(()) = push_listing(&mut text, out, sealed, passed, read) else {
        return Status::WriteFault;
    };
    match text.drain(out) {
        Ok(()) => flush_both(out, log),
        Err(Failed) => Status::WriteFault,
    }
}
