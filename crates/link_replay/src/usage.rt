//! What the program says on the log when it is refused: the fault line, and after words that fit no
//! command the words that the command wants.
ghost use Rattle.std.specs.Prelude.{◌≡◌, ◌≤◌, ◌++◌, length, map, take, drop};
ghost use Rattle.std.specs.String.{string_bytes};
ghost use Rattle.link_replay.specs.UsageLines.{usage_lines, usage_text, fault_text};
ghost use Rattle.link_replay.specs.UsageLines.{journal_name, line_with};

use crate::Ended;
use arrayvec::ArrayVec;
use command_ends::{Line, Reasons, Status, fault_line};
use live_line::Way;

/// What is written last to the log: a line with a journal's name, or lines about words.
pub type FaultText = ArrayVec<u8, 648>;

/// The line of the commands, for words of which the first one names none.
const COMMANDS: &[u8] = b"commands: read init seal check live space replay audit duplex two_wire \
trial poll vectors help version\n";

// Returns the lines for a first word: for each command with this word the words that it wants, or
// the line of the commands if there is none.
fn usage_lines(first: &str) -> &'static [u8]
    ensures lines { result.now ≡ usage_lines first.now }
    ensures short { length result.now ≤ 200 }
{
    match first {
        "read" => b"usage: link_replay read P\n",
        "init" => b"usage: link_replay init P DIR JOURNAL\n",
        "seal" => b"usage: link_replay seal P DIR KEY JOURNAL\n",
        "check" => b"usage: link_replay check P DIR KEY JOURNAL\n",
        "live" => {
            b"usage: link_replay live seal P DIR KEY JOURNAL\n\
            usage: link_replay live check P DIR KEY JOURNAL\n\
            usage: link_replay live line P DIR KEY SENT GOT\n"
        }
        "space" => b"usage: link_replay space P\n",
        "replay" => b"usage: link_replay replay P DIR KEY\n",
        "audit" => b"usage: link_replay audit P DIR KEY F G [LEAST..MOST] [spaced]\n",
        "duplex" => b"usage: link_replay duplex P DIR KEY\n",
        "two_wire" => b"usage: link_replay two_wire P DIR SIDE WINDOW PAUSE KEY\n",
        "trial" => b"usage: link_replay trial P SEED COUNT\n",
        "poll" => b"usage: link_replay poll P SEED COUNT\n",
        "vectors" => b"usage: link_replay vectors\n",
        "help" => b"usage: link_replay help\n",
        "version" => b"usage: link_replay version\n",
        _ => COMMANDS,
    }
}

// Returns the fault line of words that fit no command, and the lines that say which words do.
fn usage_text(words: &[String]) -> Line
    ensures { result.items ≡ usage_text (map string_bytes words.now) }
{
    let lines = match words {
        [] => COMMANDS,
        [first, ..] => usage_lines(first.as_str()),
    };
    let mut text = Line::new();
    text.try_extend_from_slice(b"fault: usage\n").unwrap();
    text.try_extend_from_slice(lines).unwrap();
    text
}

// Returns what a fault line says of a journal behind its first words.
fn journal_name(way: Option<Way>) -> &'static [u8]
    ensures name { result.now ≡ journal_name way }
    ensures short { length result.now ≤ 5 }
{
    match way {
        None => b"",
        Some(Way::Outgoing) => b" SENT",
        Some(Way::Incoming) => b" GOT",
    }
}

// Returns a line with a name behind its first bytes, of which there are `place`.
fn with_name(line: &Line, place: usize, name: &[u8]) -> FaultText
    requires place { place ≤ length line.now.items }
    requires name { length name.now ≤ 5 }
    ensures { result.items ≡ take place line.now.items ++ name.now ++ drop place line.now.items }
{
    let line = line.as_slice();
    let mut text = FaultText::new();
    text.try_extend_from_slice(&line[..place]).unwrap();
    text.try_extend_from_slice(name).unwrap();
    text.try_extend_from_slice(&line[place..]).unwrap();
    text
}

// Returns the fault line of a status, with the name of the journal that it is about.
fn named_line(reasons: &Reasons, name: &[u8], status: &Status) -> FaultText
    requires { length name.now ≤ 5 }
    ensures { result.items ≡ line_with name.now reasons.now status.now }
{
    let line = fault_line(reasons, status);
    match status {
        Status::JournalFault => with_name(&line, 14, name),
        Status::BadJournal { .. } => with_name(&line, 18, name),
        Status::WrongLink { .. } => with_name(&line, 17, name),
        _ => with_name(&line, 0, b""),
    }
}

/// Returns what a run with these words that ended like this writes last to the log: its fault line,
/// and after the one of words that fit no command the lines that say which words do. The line of a
/// status about one of two journals names it. It is empty for the statuses that have no fault line.
pub fn fault_text(words: &[String], reasons: &Reasons, ended: &Ended) -> FaultText
    /// It is the text of the words, the reasons and the end.
    ensures { result.items
        ≡ fault_text (map string_bytes words.now) reasons.now ended.now }
{
    match ended.status {
        Status::Usage => with_name(&usage_text(words), 0, b""),
        _ => named_line(reasons, journal_name(ended.way), &ended.status),
    }
}
