//! The line that is printed of a session of polls.
ghost use Rattle.std.specs.Prelude.{◌≡◌, ◌+◌, ◌≤◌, ◌++◌, List, length, IfOk};
ghost use Rattle.link_box.specs.Walking.{other_line};
ghost use Rattle.link_format.specs.Setup.{Setup};
ghost use Rattle.link_format.specs.declared.dir.Dir.TheVariants.{Ab, Ba};
ghost use Rattle.two_wire_box.specs.Steady.{AreLinksOfLine};
ghost use Rattle.yasir_ticks.specs.declared.tick.Tick.{Tick};
ghost use Rattle.poll_session.specs.PollLine.{IsPollLine, counts_of_way, poll_line};
ghost use Rattle.poll_session.specs.Polled.{boxes_of};

use crate::session::try_polls;
use crate::summary::{PollSummary, WayCounts};
use command_ends::{Line, push_decimal};
use device_model::Device;
use link_box::LinkBox;
use session_lists::{FrameBox, NoMemory};
use std::alloc::Global;
use trial_session::{DrawnFrames, push_worded};

// Appends what is counted of one direction.
fn push_way(line: &mut Line, counts: WayCounts)
    requires { length line.old.items ≤ 340 }
    ensures line { line.new.items ≡ line.old.items ++ counts_of_way counts }
    ensures short { length line.new.items ≤ length line.old.items + 200 }
{
    push_worded(line, b"sealed", counts.sealed);
    push_worded(line, b"passed", counts.passed);
    push_worded(line, b"held", counts.held);
    push_worded(line, b"read", counts.read);
    push_worded(line, b"unsealed", counts.unsealed);
}

// The line of a session.
fn poll_line(name: &[u8], seed: u32, count: u32, summary: PollSummary) -> Line
    requires { length name.now ≤ 10 }
    ensures { result.items ≡ poll_line name.now seed count summary }
{
    let mut line = Line::new();
    line.try_extend_from_slice(b"poll").unwrap();
    push_worded(&mut line, name, u64::from(seed));
    line.push(b' ');
    push_decimal(&mut line, u64::from(count));
    push_worded(&mut line, b"asked", summary.asked);
    line.try_extend_from_slice(b" requests").unwrap();
    push_way(&mut line, summary.requests);
    line.try_extend_from_slice(b" answers").unwrap();
    push_way(&mut line, summary.answers);
    line.push(b'\n');
    line
}

/// Runs a session of polls, as `try_polls` does, and returns its line, with the name of its
/// protocol.
pub fn polls_line<
    R: DrawnFrames,
    S: LinkBox,
    C: LinkBox,
    X: FrameBox,
    Y: FrameBox,
    V: Device + Drop,
>(alloc: Global, name: &[u8], seed: u32, count: u32, delay: u32) -> Result<Line, NoMemory>
    /// The name has at most ten bytes.
    requires name { length name.now ≤ 10 }
    /// The widths that the transmitter is made with fit.
    requires outgoing_fits { S.widths_fit }
    /// Those of the receiver do.
    requires incoming_fits { C.widths_fit }
    /// Those of the transmitter that shows its frames do.
    requires sealing { X.widths_fit }
    /// Those of the receiver that shows its frames do.
    requires checking { Y.widths_fit }
    /// Transmitter and receiver beside the master are of one line.
    requires links_a { AreLinksOfLine Ab (S.link_in Ab) (C.link_in Ba) }
    /// So are those beside the devices.
    requires links_b { AreLinksOfLine Ba (S.link_in Ba) (C.link_in Ab) }
    /// The receiver that shows its frames makes the same line of a link as the other one.
    requires same { (setup : Setup) (line : List Tick) → (Y.numbering setup).other_line line
        ≡ other_line C.walking setup line }
    /// The receivers are at most 37 ticks late.
    requires soon { delay ≤ 37 }
    /// If there is memory, the line is that of a session.
    ensures { IfOk result (λ line. IsPollLine (boxes_of S.LinkBox X.FrameBox Y.FrameBox Ab)
        (boxes_of S.LinkBox X.FrameBox Y.FrameBox Ba) V.reads R.drawing delay seed count name.now
        line.items) }
{
    match try_polls::<R, S, C, X, Y, V>(alloc, seed, count, delay) {
        Ok(summary) => Ok(poll_line(name, seed, count, summary)),
        Err(NoMemory) => Err(NoMemory),
    }
}
