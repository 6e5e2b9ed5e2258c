//! What the program says on the log when it is refused: the fault line, and after words that fit no
//! command the words that the command wants.
ghost use Rattle.std.specs.Prelude.{◌≡◌, ◌≤◌, length, map};
ghost use Rattle.std.specs.String.{string_bytes};
ghost use Rattle.line_capture.specs.UsageLines.{capture_usage_lines, capture_usage_text};
ghost use Rattle.line_capture.specs.UsageLines.{capture_fault_text};

use crate::outcome::Outcome;
use command_ends::{Line, Reasons, Status};

/// The line of the commands, for words of which the first one names none.
const COMMANDS: &[u8] = b"commands: take give help version\n";

// Returns the line of the command with this first word, or the line of the commands if there is
// none.
fn usage_lines(first: &str) -> &'static [u8]
    ensures lines { result.now ≡ capture_usage_lines first.now }
    ensures short { length result.now ≤ 60 }
{
    match first {
        "take" => b"usage: line_capture take FORM RATE WAY [frames]\n",
        "give" => b"usage: line_capture give FORM RATE\n",
        "help" => b"usage: line_capture help\n",
        "version" => b"usage: line_capture version\n",
        _ => COMMANDS,
    }
}

// Returns the fault line of words that fit no command, and the lines that say which words do.
fn usage_text(words: &[String]) -> Line
    ensures { result.items ≡ capture_usage_text (map string_bytes words.now) }
{
    let lines = match words {
        [] => COMMANDS,
        [first, ..] => usage_lines(first.as_str()),
    };
    let mut text = Line::new();
    text.try_extend_from_slice(b"fault: usage\n").unwrap();
    text.try_extend_from_slice(lines).unwrap();
    text
}

/// Returns what a run with these words and this outcome writes last to the log: its fault line, and
/// after the one of words that fit no command the lines that say which words do. It is empty if the
/// outcome has no fault line.
pub fn fault_text(words: &[String], reasons: &Reasons, outcome: &Outcome) -> Line
    /// It is the text of the words, the reasons and the outcome.
    ensures { result.items
        ≡ capture_fault_text (map string_bytes words.now) reasons.now outcome.now }
{
    match outcome {
        Outcome::Ended(Status::Usage) => usage_text(words),
        _ => outcome.fault_line(reasons),
    }
}
