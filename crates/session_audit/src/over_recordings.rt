//! The audit over three lists of ticks.
ghost use Rattle.std.specs.Prelude.{◌≡◌, ◌≤◌, List, IfOk, All, length};
ghost use Rattle.yasir_ticks.specs.declared.tick.Tick.{Tick};
ghost use Rattle.link_format.specs.NumberedFrame.{AreNumberedFrom};
ghost use Rattle.link_format.specs.Setup.{Setup};
ghost use Rattle.session_audit.specs.Sessions.{IsSession, AreRecordings, verdict_of_session};
ghost use Rattle.session_audit.specs.Through.{verdict_through};

use crate::judged_lists::{judge_lists, lists_for};
use crate::link_boxes::audit_through;
use crate::{Session, Verdict};
use command_ends::with_link;
use device_model::Device;
use session_lists::{FrameBox, Guard, NoMemory, list_lines};
use std::alloc::Global;
use yasir_ticks::Tick;

/// Three recordings in memory.
#[derive(Clone, Copy)]
struct Lines<'a> {
    device: &'a [Tick],
    link: &'a [Tick],
    received: &'a [Tick],
}

// Returns the verdict by a transmitter `S`, a receiver `C`, a device `V` and a guard `G`.
fn audit_by<S: FrameBox, C: FrameBox, V: Device + Drop, G: Guard>(
    alloc: Global,
    session: &Session<'_>,
    lines: Lines<'_>,
) -> Result<Verdict, NoMemory>
    requires sealer { S.widths_fit }
    requires checker { C.widths_fit }
    requires guard { G.gap_fits }
    requires session { IsSession session.now }
    requires recordings { AreRecordings lines.device.now lines.link.now lines.received.now }
    requires in_turn { (setup : Setup) (line : List Tick)
        → AreNumberedFrom setup.floor ((S.numbering setup).frames line) }
    requires in_time { (setup : Setup) (line : List Tick)
        → All (λ f. f.start ≤ length line) ((C.numbering setup).frames line) }
    ensures { IfOk result (λ verdict. verdict
        ≡ verdict_through S.FrameBox C.FrameBox V.Device G.Guard session.now lines.entry.device.now
        lines.entry.link.now lines.entry.received.now) }
{
    let Ok(mut lists) = lists_for::<S, C, V, G>(alloc, session) else {
        return Err(NoMemory);
    };
    match list_lines(&mut lists, lines.device, lines.link, lines.received) {
        Ok(()) => Ok(judge_lists(session, &lists)),
        Err(NoMemory) => Err(NoMemory),
    }
}

// Calls `audit_by` with the boxes and the device of a row of `with_link`.
macro_rules! audit_lines {
    ($row:tt, $alloc:expr, $session:expr, $lines:expr) => {
        audit_through!($row, audit_by, [], $alloc, $session, $lines)
    };
}

/// Judges a session that has ended by three recordings of it: the line of the device that sends,
/// the link, and the line of the device that receives, each as a list of at most 16,777,216 ticks.
/// The transmitter's frames are sealed anew, the link is checked anew, and the third line is read
/// anew, each with enough silence after it for its last frame to count. Nothing is said of who made
/// the recordings.
///
/// The frames that are sealed and those that pass are kept in memory. If there isn't enough of it,
/// `NoMemory` is returned.
pub fn audit(
    alloc: Global,
    session: &Session<'_>,
    device: &[Tick],
    link: &[Tick],
    received: &[Tick],
) -> Result<Verdict, NoMemory>
    /// The protocol and the profile are among those that there are, and each floor is 0 or the
    /// number of a frame.
    requires session { IsSession session.now }
    /// Each recording has at most 16,777,216 ticks.
    requires recordings { AreRecordings device.now link.now received.now }
    /// If there was memory, the verdict is the one that the definition gives for the session and
    /// the three recordings, whoever made them.
    ensures { IfOk result (λ verdict.
        verdict ≡ verdict_of_session session.now device.now link.now received.now) }
{
    let lines = Lines {
        device,
        link,
        received,
    };
    with_link!(
        session.proto,
        session.profile,
        audit_lines(alloc, session, lines)
    )
}
