//! The lists that an audit makes of the recordings of a session, and the verdict on them.
ghost use Rattle.std.specs.Prelude.{◌≡◌, ◌≤◌, List, [], All, IfOk, length};
ghost use Rattle.yasir_ticks.specs.declared.tick.Tick.{Tick};
ghost use Rattle.link_format.specs.NumberedFrame.{AreNumberedFrom};
ghost use Rattle.link_format.specs.Setup.{Setup};
ghost use Rattle.session_lists.specs.SessionListed.{MayListSession};
ghost use Rattle.session_lists.specs.SessionLists.{HasSession, all_rests};
ghost use Rattle.session_audit.specs.Sessions.{IsSession, rest_behind};
ghost use Rattle.session_audit.specs.Through.{timing_through, setups_of, AuditHasTaken, HasTakenSome};
ghost use Rattle.session_audit.specs.Through.{verdict_through};

use crate::judging::judge;
use crate::link_boxes::{DEVICE_REST, SPACED_REST};
use crate::{Session, Verdict};
use device_model::Device;
use session_lists::{Floors, FrameBox, Guard, LINK_REST, Lateness, NoMemory, SessionLists, Timing};
use std::alloc::Global;
use yasir_ticks::T3_5_TICKS;

// How many silent ticks follow the link.
fn rest_behind(spaced: bool) -> u32
    ensures { result ≡ rest_behind spaced }
{
    if spaced {
        return SPACED_REST;
    }
    LINK_REST
}

// When the frames that should be read must be, and how much silence follows each recording.
fn timing_of(session: &Session<'_>) -> Timing
    ensures timing { result ≡ timing_through session.now }
    ensures short { all_rests result ≤ 100000 }
{
    let late = session.profile.delay();
    Timing {
        late: Lateness {
            late: u64::from(late),
            least: session.tolerance.least,
            most: session.tolerance.most,
        },
        spaced: session.tolerance.spaced,
        sent_rest: u32::from(late) + DEVICE_REST,
        link_rest: rest_behind(session.tolerance.spaced),
        received_rest: u32::from(T3_5_TICKS),
    }
}

/// Lists of no frames for a session, by a transmitter `S`, a receiver `C`, a device `V` and, if the
/// session has a spacer, a guard `G`.
pub(crate) fn lists_for<S: FrameBox, C: FrameBox, V: Device + Drop, G: Guard>(
    alloc: Global,
    session: &Session<'_>,
) -> Result<SessionLists<S, C, V, G>, NoMemory>
    requires sealer { S.widths_fit }
    requires checker { C.widths_fit }
    requires guard { G.gap_fits }
    requires session { IsSession session.now }
    ensures has { IfOk result (λ lists. HasSession S.FrameBox C.FrameBox V.Device G.Guard lists
        (setups_of session.now) [] [] []) }
    ensures may_list { IfOk result (MayListSession S.FrameBox C.FrameBox V.Device G.Guard) }
{
    let floors = Floors {
        sent: session.sent_floor,
        got: session.got_floor,
    };
    SessionLists::new(alloc, session.key, session.dir, floors, timing_of(session))
}

/// Returns the verdict on what was listed of the session's recordings.
pub(crate) fn judge_lists<S: FrameBox, C: FrameBox, V: Device + Drop, G: Guard>(
    session: &Session<'_>,
    lists: &SessionLists<S, C, V, G>,
) -> Verdict
    requires taken { HasTakenSome S.FrameBox C.FrameBox V.Device G.Guard session.now lists.now }
    requires in_turn { (setup : Setup) (line : List Tick)
        → AreNumberedFrom setup.floor ((S.numbering setup).frames line) }
    requires in_time { (setup : Setup) (line : List Tick)
        → All (λ f. f.start ≤ length line) ((C.numbering setup).frames line) }
    ensures { (device link received : List Tick)
        → AuditHasTaken S.FrameBox C.FrameBox V.Device G.Guard session.now lists.now device link
        received → result
        ≡ verdict_through S.FrameBox C.FrameBox V.Device G.Guard session.now device link
        received }
{
    judge(
        session.sent_floor,
        lists.sealed(),
        lists.passed(),
        lists.read_count(),
        lists.difference(),
    )
}
