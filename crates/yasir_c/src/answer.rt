//! What a step returns, as C reads it.
ghost use Rattle.std.specs.Prelude.{◌≡◌};
ghost use Rattle.yasir_c.specs.Answers.{answer_of, asking, numbers_in, unsealed_number};
ghost use Rattle.yasir_c.specs.Answers.{refused_number, dropped_number, slot_number_told};
ghost use Rattle.yasir_c.specs.Answers.{tick_bytes};

use any_box::{AnyNote, Commit, HeldStep};
use check_receiver::{CheckNote, DroppedWhy, RefusedWhy};
use seal_transmitter::{SealNote, UnsealedWhy};
use yasir_io::Slot;
use yasir_ticks::Tick;

/// What C is told of a step. Its fields are those of `yasir_answer` in `yasir.h`, in that order.
#[repr(C)]
#[derive(Clone, Copy, Debug, PartialEq, Eq)]
pub struct Answer {
    /// The number of the sealed or passed frame that is noted, or 0 if none is.
    pub number: u64,
    /// The tick of the first byte of the burst that is noted, counted from 0, or 0 without a note.
    pub start: u64,
    /// The length in bytes of the sealed or passed frame that is noted, or 0 if none is.
    pub len: u16,
    /// 1 if the tick of the other line carries a byte, and 0 if it is silent.
    pub is_byte: u8,
    /// The byte of the tick of the other line, or 0 if it is silent.
    pub byte: u8,
    /// The slot that the caller must write while the rest of the answer is withheld: 1 is slot A, 2
    /// is slot B, and 0 is none.
    pub commit: u8,
    /// The note: 0 none, 1 sealed, 2 unsealed, 3 passed, 4 refused, 5 dropped.
    pub note: u8,
    /// Why the burst is unsealed (1 early, 2 form, 3 spent), refused (1 trailer, 2 form, 3 number,
    /// 4 tag) or dropped (1 busy, 2 head), or 0 if none of these is noted.
    pub why: u8,
    /// Always 0.
    pub unused: u8,
}

/// A note as numbers.
#[derive(Clone, Copy)]
pub(crate) struct NoteNumbers {
    note: u8,
    why: u8,
    len: u16,
    number: u64,
    start: u64,
}

// Returns a note about a frame that has a number.
fn of_frame(note: u8, number: u64, start: u64, len: u16) -> NoteNumbers
    ensures { result ≡ record { note = note; why = 0; len = len; number = number; start = start } }
{
    NoteNumbers {
        note,
        why: 0,
        len,
        number,
        start,
    }
}

// Returns a note about a burst that has no number.
fn of_burst(note: u8, start: u64, why: u8) -> NoteNumbers
    ensures { result ≡ record { note = note; why = why; len = 0; number = 0; start = start } }
{
    NoteNumbers {
        note,
        why,
        len: 0,
        number: 0,
        start,
    }
}

fn numbers_in(note: Option<AnyNote>) -> NoteNumbers
    ensures { result ≡ numbers_in note }
{
    match note {
        None => of_burst(0, 0, 0),
        Some(AnyNote::OfSealer(SealNote::Sealed { number, start, len })) => {
            of_frame(1, number, start, len)
        }
        Some(AnyNote::OfSealer(SealNote::Unsealed { start, why })) => {
            of_burst(2, start, unsealed_number(why))
        }
        Some(AnyNote::OfChecker(CheckNote::Passed { number, start, len })) => {
            of_frame(3, number, start, len)
        }
        Some(AnyNote::OfChecker(CheckNote::Refused { start, why })) => {
            of_burst(4, start, refused_number(why))
        }
        Some(AnyNote::OfChecker(CheckNote::Dropped { start, why })) => {
            of_burst(5, start, dropped_number(why))
        }
    }
}

fn unsealed_number(why: UnsealedWhy) -> u8
    ensures { result ≡ unsealed_number why }
{
    match why {
        UnsealedWhy::Early => 1,
        UnsealedWhy::Form => 2,
        UnsealedWhy::Spent => 3,
    }
}

fn refused_number(why: RefusedWhy) -> u8
    ensures { result ≡ refused_number why }
{
    match why {
        RefusedWhy::Trailer => 1,
        RefusedWhy::Form => 2,
        RefusedWhy::Number => 3,
        RefusedWhy::Tag => 4,
    }
}

fn dropped_number(why: DroppedWhy) -> u8
    ensures { result ≡ dropped_number why }
{
    match why {
        DroppedWhy::Busy => 1,
        DroppedWhy::Head => 2,
    }
}

fn slot_number(slot: Slot) -> u8
    ensures { result ≡ slot_number_told slot }
{
    match slot {
        Slot::A => 1,
        Slot::B => 2,
    }
}

// Returns whether a tick carries a byte, and that byte.
pub(crate) fn tick_bytes(tick: Tick) -> (u8, u8)
    ensures { result ≡ tick_bytes tick }
{
    match tick {
        Tick::Silent => (0, 0),
        Tick::Byte(byte) => (1, byte),
    }
}

impl Answer {
    /// Returns the tick and the note of a step.
    pub(crate) fn of(step: &HeldStep) -> Answer
        ensures { result ≡ answer_of step.now }
    {
        let note = numbers_in(step.note);
        let (is_byte, byte) = tick_bytes(step.tick);
        Answer {
            number: note.number,
            start: note.start,
            len: note.len,
            is_byte,
            byte,
            commit: 0,
            note: note.note,
            why: note.why,
            unused: 0,
        }
    }

    /// Returns which slot must be written, and nothing else.
    pub(crate) fn asking(commit: &Commit) -> Answer
        ensures { result ≡ asking commit.now }
    {
        Answer {
            number: 0,
            start: 0,
            len: 0,
            is_byte: 0,
            byte: 0,
            commit: slot_number(commit.slot),
            note: 0,
            why: 0,
            unused: 0,
        }
    }
}
