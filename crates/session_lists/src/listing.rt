//! Lists the ticks of an input that has a stated number of marks.
ghost use Rattle.tick_drive.specs.Input.{IsReadCause, is_read_answer};
ghost use Rattle.session_lists.specs.Listing.{ListsTicks};

use crate::tick_lists::TickLists;
use std::alloc::Global;
use tick_drive::{End, drive};
use yasir_io::Source;

/// Returns the ticks of an input that is read to its end and has exactly `marks` marks, or else how
/// the input ended.
pub fn list_ticks<I: Source>(alloc: Global, marks: u8, input: &mut I) -> Result<TickLists, End>
    /// If the input ends whole, with as many marks as are asked for, the lists hold the ticks of
    /// its parts. Otherwise it is said how it ended and what was taken of it; it is stopped only
    /// for want of memory.
    ensures lists { ListsTicks marks (I.left input.old) (I.left input.new) result }
    /// It ends with a failed read only if the input's count of faults rose.
    ensures read { IsReadCause (I.faults input.old) (I.faults input.new) (is_read_answer result) }
{
    let mut lists = TickLists::new(alloc);
    match drive(marks, input, &mut lists) {
        End::Whole => Ok(lists),
        end => Err(end),
    }
}
