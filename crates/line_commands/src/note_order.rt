//! The lines of the notes of two boxes, in the order of the steps into which the notes fall.
ghost use Rattle.std.specs.Prelude.{◌≡◌, ℕ, ◌<◌, ◌≤◌, ◌⊎◌, ◌++◌, List, [], length, drop, OnOk, IfOk};
ghost use Rattle.std.specs.Prelude.{true, false, slice_index_or};
ghost use Rattle.session_lists.specs.FrameList.{KeptFrames, Holds, ListIsWhole, list_len};
ghost use Rattle.line_commands.specs.TimedLines.{lines_before, AreInOrder};
ghost use Rattle.line_commands.specs.NoteOrder.{NoteComesFirst, ComesBefore, Merges, MergesOne};

use session_lists::FrameList;
use std::alloc::Global;
use yasir_io::NoMemory;

/// The places of the next lines in two lists.
#[derive(Clone, Copy)]
pub(crate) struct Places {
    first: usize,
    second: usize,
}

// Whether the next line comes from the first list: that list has a line left, and the second list's
// next line, if there is one, isn't of an earlier step.
fn is_of_first(first: &FrameList<u64>, second: &FrameList<u64>, places: Places) -> bool
    requires first { places.first ≤ list_len first.now }
    requires second { places.second ≤ list_len second.now }
    requires some { (places.first < list_len first.now) ⊎ (places.second < list_len second.now) }
    ensures within { result ≡ true → places.first < list_len first.now }
    ensures second { result ≡ false → places.second < list_len second.now }
    ensures comes_first { result ≡ true → (a b : List (KeptFrames ℕ)) → Holds first.now a
        → Holds second.now b → NoteComesFirst (drop places.first a) (drop places.second b) }
    ensures comes_before { result ≡ false → (a b : List (KeptFrames ℕ)) → Holds first.now a
        → Holds second.now b → ComesBefore (drop places.second b) (drop places.first a) }
{
    if places.first == first.len() {
        return false;
    }
    if places.second == second.len() {
        return true;
    }
    first.head(places.first) <= second.head(places.second)
}

// Adds the line at a place.
fn push_line(text: &mut Vec<u8>, lines: &FrameList<u64>, place: usize) -> Result<(), NoMemory>
    requires within { place < list_len lines.now }
    requires whole { ListIsWhole lines.now }
    ensures { OnOk result ((kept : List (KeptFrames ℕ)) (other : KeptFrames ℕ) → Holds lines.now kept
        → text.new.items ≡ text.old.items ++ (slice_index_or kept place other).frame) }
{
    match text.extend_from_slice(lines.bytes(place)) {
        Ok(()) => Ok(()),
        Err(_) => Err(NoMemory),
    }
}

// Adds the next line, and returns the places after it.
fn push_next(
    text: &mut Vec<u8>,
    first: &FrameList<u64>,
    second: &FrameList<u64>,
    places: Places,
) -> Result<Places, NoMemory>
    requires first { ListIsWhole first.now }
    requires second { ListIsWhole second.now }
    requires merges { Merges first.now second.now text.old.items places }
    requires some { (places.first < list_len first.now) ⊎ (places.second < list_len second.now) }
    ensures { IfOk result (λ next. MergesOne first.now second.now text.new.items places next) }
{
    if is_of_first(first, second, places) {
        let Ok(()) = push_line(text, first, places.first) else {
            return Err(NoMemory);
        };
        return Ok(Places {
            first: places.first + 1,
            second: places.second,
        });
    }
    let Ok(()) = push_line(text, second, places.second) else {
        return Err(NoMemory);
    };
    Ok(Places {
        first: places.first,
        second: places.second + 1,
    })
}

/// Returns the lines of two lists in the order of their steps. Within a step, the line of the first
/// list comes first.
pub(crate) fn merge_lines(
    alloc: Global,
    first: &FrameList<u64>,
    second: &FrameList<u64>,
) -> Result<Vec<u8>, NoMemory>
    requires first { ListIsWhole first.now }
    requires second { ListIsWhole second.now }
    ensures { IfOk result (λ text. (a b : List (KeptFrames ℕ)) → Holds first.now a → Holds second.now b
        → (n : ℕ) → AreInOrder 0 n a → AreInOrder 0 n b
        → text.items ≡ lines_before n a b) }
{
    let mut text = Vec::new(alloc);
    let mut places = Places {
        first: 0,
        second: 0,
    };
    while places.first < first.len() || places.second < second.len() {
        match push_next(&mut text, first, second, places) {
            Ok(next) => places = next,
            Err(NoMemory) => return Err(NoMemory),
        }
    }
    Ok(text)
}
