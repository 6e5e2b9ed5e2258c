//! The audit over three recordings in one input, of which no tick is kept.
ghost use Rattle.std.specs.Prelude.{◌≤◌, List, All, length};
ghost use Rattle.yasir_ticks.specs.declared.tick.Tick.{Tick};
ghost use Rattle.tick_drive.specs.Input.{IsReadCause, is_read_answer};
ghost use Rattle.link_format.specs.NumberedFrame.{AreNumberedFrom};
ghost use Rattle.link_format.specs.Setup.{Setup};
ghost use Rattle.session_audit.specs.AuditedInput.{AuditsInput};
ghost use Rattle.session_audit.specs.Sessions.{IsSession, verdict_of_session};
ghost use Rattle.session_audit.specs.Through.{verdict_through};

use crate::judged_lists::{judge_lists, lists_for};
use crate::link_boxes::audit_through;
use crate::unlisted::end_without_memory;
use crate::{Session, Verdict};
use command_ends::with_link;
use device_model::Device;
use session_lists::{FrameBox, Guard, list_session};
use std::alloc::Global;
use tick_drive::End;
use yasir_io::Source;

// Returns the verdict by a transmitter `S`, a receiver `C`, a device `V` and a guard `G`.
fn audit_input_by<S: FrameBox, C: FrameBox, V: Device + Drop, G: Guard, I: Source>(
    alloc: Global,
    session: &Session<'_>,
    input: &mut I,
) -> Result<Verdict, End>
    requires sealer { S.widths_fit }
    requires checker { C.widths_fit }
    requires guard { G.gap_fits }
    requires session { IsSession session.now }
    requires in_turn { (setup : Setup) (line : List Tick)
        → AreNumberedFrom setup.floor ((S.numbering setup).frames line) }
    requires in_time { (setup : Setup) (line : List Tick)
        → All (λ f. f.start ≤ length line) ((C.numbering setup).frames line) }
    ensures audits { AuditsInput
        (verdict_through S.FrameBox C.FrameBox V.Device G.Guard session.now)
        (I.left input.old) (I.left input.new) result }
    ensures read { IsReadCause (I.faults input.old) (I.faults input.new)
        (is_read_answer result) }
{
    let Ok(mut lists) = lists_for::<S, C, V, G>(alloc, session) else {
        return Err(end_without_memory(input));
    };
    match list_session(&mut lists, input) {
        End::Whole => {}
        end => return Err(end),
    }
    Ok(judge_lists(session, &lists))
}

// Calls `audit_input_by` with the boxes and the device of a row of `with_link`.
macro_rules! audit_recorded {
    ($row:tt, $alloc:expr, $session:expr, $input:expr) => {
        audit_through!($row, audit_input_by, [I], $alloc, $session, $input)
    };
}

/// Judges a session that has ended, as `audit` does, by three recordings of it in one input, which
/// two marks separate. No tick is kept. The frames that were sealed and those that passed are kept,
/// and if there is no memory for them, `End::Stopped` is returned. Any other `End` says why the
/// input didn't end whole.
pub fn audit_input<I: Source>(
    alloc: Global,
    session: &Session<'_>,
    input: &mut I,
) -> Result<Verdict, End>
    /// The protocol and the profile are among those that there are, and each floor is 0 or the
    /// number of a frame.
    requires { IsSession session.now }
    /// If the input ends whole, with two marks, the verdict is that of the definition on its three
    /// recordings. Otherwise it is said how the input ended and what was taken of it; it is stopped
    /// only for want of memory.
    ensures audits { AuditsInput (verdict_of_session session.now) (I.left input.old)
        (I.left input.new) result }
    /// It ends with a failed read only if the input's count of faults rose.
    ensures read { IsReadCause (I.faults input.old) (I.faults input.new)
        (is_read_answer result) }
{
    with_link!(
        session.proto,
        session.profile,
        audit_recorded(alloc, session, input)
    )
}
