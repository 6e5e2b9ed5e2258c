//! The line that is printed of a session.
ghost use Rattle.std.specs.Prelude.{◌≡◌, ◌+◌, ◌<◌, ◌≤◌, ◌++◌, length};
ghost use Rattle.trial_session.specs.Summaries.{session_summary};
ghost use Rattle.trial_session.specs.TrialLine.{worded, trial_line};

use crate::{CountingBox, DrawnFrames, Summary, try_session};
use command_ends::{Line, push_decimal};
use device_model::Device;

/// Appends a word and then a number, each with a blank before it.
pub fn push_worded(line: &mut Line, word: &[u8], n: u64)
    /// The word has at most 10 bytes.
    requires word { length word.now ≤ 10 }
    /// The line has at most 500 bytes.
    requires room { length line.old.items ≤ 500 }
    /// The word and the number are appended, and nothing else changes.
    ensures line { line.new.items ≡ line.old.items ++ worded word.now n }
    /// At most 40 bytes are appended.
    ensures short { length line.new.items ≤ length line.old.items + 40 }
{
    line.push(b' ');
    line.try_extend_from_slice(word).unwrap();
    line.push(b' ');
    push_decimal(line, n);
}

// The line of a session.
fn trial_line(name: &[u8], seed: u32, count: u32, counted: Summary) -> Line
    requires { length name.now ≤ 10 }
    ensures { result.items ≡ trial_line name.now seed count counted }
{
    let mut line = Line::new();
    line.try_extend_from_slice(b"trial").unwrap();
    push_worded(&mut line, name, u64::from(seed));
    line.push(b' ');
    push_decimal(&mut line, u64::from(count));
    push_worded(&mut line, b"sealed", counted.sealed);
    push_worded(&mut line, b"passed", counted.passed);
    push_worded(&mut line, b"refused", counted.refused);
    push_worded(&mut line, b"dropped", counted.dropped);
    push_worded(&mut line, b"read", counted.read);
    line.push(b'\n');
    line
}

/// Runs the session of `count` frames from a seed, as `try_session` does, and returns its line,
/// with the name of its protocol.
pub fn session_line<R: DrawnFrames, S: CountingBox, C: CountingBox, V: Device + Drop>(
    name: &[u8],
    seed: u32,
    count: u32,
    behind: usize,
) -> Line
    /// The name has at most 10 bytes.
    requires name { length name.now ≤ 10 }
    /// At least one tick follows a frame in its packet.
    requires some { 0 < behind }
    /// At most 64 ticks follow it.
    requires few { behind ≤ 64 }
    /// The widths of the transmitter are ones that it can be made with.
    requires sealing { S.widths_fit }
    /// The widths of the receiver are ones that it can be made with.
    requires checking { C.widths_fit }
    ensures { result.items ≡ trial_line name.now seed count
        (session_summary R.drawing behind S.counting C.counting V.reads seed count) }
{
    let counted = try_session::<R, S, C, V>(seed, count, behind);
    trial_line(name, seed, count, counted)
}
