//! Laws of the audit's definitions: what a clean verdict means, and what it never says wrongly.
ghost use Rattle.std.specs.Prelude.{◌≡◌, ◌≢◌, List};
ghost use Rattle.yasir_ticks.specs.Ticks.{AreTicks};
ghost use Rattle.yasir_ticks.specs.declared.tick.Tick.{Tick};
ghost use Rattle.session_audit.specs.Clean.{IsClean};
ghost use Rattle.session_audit.specs.Sessions.{expected_in, kind_of, own_line, read_in};
ghost use Rattle.session_audit.specs.Sessions.{verdict_of_session};
ghost use Rattle.session_audit.specs.declared.session.Session.{Session};
ghost use Rattle.session_audit.specs.declared.verdict.Counts.{Counts};
ghost use Rattle.session_audit.specs.declared.verdict.Finding.TheVariants.{Clean, Differs};
ghost use Rattle.session_lists.specs.Lateness.{AreReadWithin};
ghost use Rattle.session_lists.specs.declared.comparison.Difference.{Difference};

/// A law of the audit's definitions, for each session and any three lists of ticks, whoever made
/// them: if the verdict is clean, the frames read from the third list are, in order, a subsequence
/// of the frames sealed from the first, and each number is used at most once. They are exactly the
/// frames that passed from the second list, behind a spacer too (where the link's bytes must be below
/// 256, as in every recording), each in a tick in which it may be read. At least one frame was
/// sealed.
pub fn clean_recordings_have_only_sealed_frames()
    ensures { (session : Session) (device link received : List Tick) (counts : Counts)
        → verdict_of_session session device link received
        ≡ record { counts = counts; finding = Clean }
        → IsClean (kind_of session) session device link received counts }
{}

/// A law of the audit's definitions, for each session and any three lists of ticks: if the frames
/// read from the third list are those that should be, in order, and each starts in a tick in which it
/// may be read, the verdict is never `Differs`.
pub fn frames_in_time_never_differ()
    ensures { (session : Session) (device link received : List Tick)
        → AreReadWithin session.tolerance.least session.tolerance.most
        (expected_in (kind_of session) session link) (read_in (kind_of session) session received)
        → (difference : Difference)
        → (verdict_of_session session device link received).finding ≢ Differs difference }
{}

/// A law of the audit's definitions, for each session in which a frame need not be late, each line of
/// a device and link: if the third recording is what the session's receiver sends for that link or,
/// with a spacer, the spaced line of this, recorded until all has left, the verdict is never
/// `Differs`. So if a verdict is `Differs`, the third recording isn't this line for this link, or it
/// ends too early.
pub fn own_line_of_a_receiver_never_differs()
    ensures { (session : Session) (device link : List Tick) → AreTicks link
        → session.tolerance.least ≡ 0 → (difference : Difference)
        → (verdict_of_session session device link
        (own_line (kind_of session) session link)).finding ≢ Differs difference }
{}
