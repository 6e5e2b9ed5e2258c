//! A test that notes reach the log before their ticks reach the output.
use crate::outside::{Failing, STEADY};
use crate::over_boxes::{BoxKind, FRESH, Ran, line_given, replay};
use crate::texts::repeated;
use command_ends::Status;
use std::alloc::Global;
use std::process::Abort;
use std::test::Fail;

/// How many bursts the line has. The text of its link is longer than what can wait for a sink.
const BURSTS: usize = 1500;

// Seals a long line of which the first write of ticks fails.
fn seal_and_fail(alloc: Global) -> Result<Ran, Fail> {
    let text = repeated(alloc, b"+01030000000ac5cd\n-40\n", BURSTS)?;
    let failing = Failing { out: 1, ..STEADY };
    let given = line_given(text.as_slice(), &failing);
    replay(alloc, BoxKind::SealRtu, &given, FRESH)
}

// Checks that a log has the notes of all trailers that can wait at once.
fn has_notes(rt: &impl Abort, log: &[u8]) {
    assert!(rt; log.starts_with(b"sealed 1 at 0 len 8\nsealed 2 at 48 len 8\n"));
    // at least 74 bursts and their trailers fit into what waits, and a note has at least 20 bytes
    assert!(rt; log.len() >= 74 * 20);
}

// Checks that a write failed, that no tick went out, and that notes did.
fn has_notes_alone(rt: &impl Abort, ran: &Ran) {
    assert_eq!(rt; ran.status, Status::WriteFault);
    assert!(rt; ran.out.held().is_empty());
    has_notes(rt, ran.log.held());
}

// The first write of ticks comes when a whole buffer of them waits. It fails here, as if the
// program were killed then. By then the log has the notes of all the trailers among the ticks that
// wait.
#[test]
fn notes_go_to_the_log_before_ticks_go_out(rt: HostRuntime) -> Result<(), Fail> {
    let ran = seal_and_fail(rt.alloc())?;
    has_notes_alone(&rt, &ran);
    Ok(())
}
