//! What the lines of all notes have in common.
ghost use Rattle.std.specs.Prelude.{◌≡◌, ◌≤◌, ◌++◌, length};
ghost use Rattle.line_commands.specs.NoteLines.{numbered_line, placed_line};

use arrayvec::ArrayVec;
use command_ends::push_decimal;

/// The line of a note, including its LF.
pub type NoteLine = ArrayVec<u8, 80>;

/// Returns the line `WORD N at S len L` of a frame: its number, its start and its length. The
/// longest has a word of 7 bytes with the space after it, three numbers of up to 20 digits, 9 bytes
/// between them and an LF.
#[inline(always)]
pub(crate) fn numbered_line(word: &[u8], number: u64, start: u64, len: u16) -> NoteLine
    requires { length word.now ≤ 7 }
    ensures { result.items ≡ numbered_line word.now number start len }
{
    let mut line = NoteLine::new();
    line.try_extend_from_slice(word).unwrap();
    push_decimal(&mut line, number);
    line.try_extend_from_slice(b" at ").unwrap();
    push_decimal(&mut line, start);
    line.try_extend_from_slice(b" len ").unwrap();
    push_decimal(&mut line, u64::from(len));
    line.push(b'\n');
    line
}

/// Returns the line `WORD at S WHY` of a burst from which no frame gets through: its start, and
/// why. `word` includes ` at `, and `why` includes the space before the reason and the LF.
pub fn placed_line(word: &[u8], start: u64, why: &[u8]) -> NoteLine
    /// The word has at most 12 bytes.
    requires word { length word.now ≤ 12 }
    /// The reason has at most 9 bytes.
    requires why { length why.now ≤ 9 }
    ensures { result.items ≡ placed_line word.now start why.now }
{
    let mut line = NoteLine::new();
    line.try_extend_from_slice(word).unwrap();
    push_decimal(&mut line, start);
    line.try_extend_from_slice(why).unwrap();
    line
}
