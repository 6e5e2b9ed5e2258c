//! An input for whose lists there is no memory.
ghost use Rattle.std.specs.Prelude.{List};
ghost use Rattle.yasir_ticks.specs.declared.tick.Tick.{Tick};
ghost use Rattle.tick_drive.specs.Input.{IsReadCause, is_read_fault};
ghost use Rattle.session_audit.specs.AuditedInput.{FindsNoVerdict};
ghost use Rattle.session_audit.specs.Unlisted.{unlisting};
ghost use Rattle.session_audit.specs.declared.verdict.Verdict.{Verdict};

use tick_drive::{Consumer, End, Stop, drive_with_room};
use yasir_io::Source;
use yasir_ticks::TickRun;

/// A consumer that has no memory: it stops at the first tick or mark.
#[derive(Drop)]
struct Unlisted;

impl Consumer for Unlisted {
    ghost meaning = { unlisting };

    fn take_some(&mut self, _run: TickRun<'_>) -> Result<usize, Stop> {
        Err(Stop::NoMemory)
    }

    fn take_mark(&mut self) -> Result<(), Stop> {
        Err(Stop::NoMemory)
    }

    ghost went_none = { λ consumer able. tt };

    ghost went_then = { λ a b c result first second. tt };
}

/// Takes an input up to the first line with a tick or a mark, for which there is no memory, and
/// returns how it ended.
pub(crate) fn end_without_memory<I: Source>(input: &mut I) -> End
    ensures ends { (verdict_on_three : List Tick → List Tick → List Tick → Verdict)
        → FindsNoVerdict verdict_on_three (I.left input.old) (I.left input.new) result }
    ensures read { IsReadCause (I.faults input.old) (I.faults input.new) (is_read_fault result) }
{
    match drive_with_room(2, input, &mut Unlisted) {
        End::Whole => End::Stopped(Stop::NoMemory),
        end => end,
    }
}
