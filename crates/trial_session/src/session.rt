//! A session: drawn frames go through the transmitter, the link, the receiver and the device.
ghost use Rattle.std.specs.Prelude.{◌≡◌, ◌+◌, ◌%◌, ◌<◌, ◌≤◌};
ghost use Rattle.trial_session.specs.Alterations.{alteration_of};
ghost use Rattle.trial_session.specs.Draws.{draw_state, draw_state_after, nth_drawn};
ghost use Rattle.trial_session.specs.Summaries.{session_summary};

use crate::alteration::{Alteration, alteration_of};
use crate::link::{Link, PERIOD};
use crate::receiving::Receiving;
use crate::side::Side;
use crate::{CountingBox, DrawnFrames, Draws, Summary};
use device_model::Device;
use yasir_ticks::{MAX_TICKS, TickRun};

/// How many silent ticks follow the link of a session, so that all frames that have passed are
/// read.
const REST: u32 = 320;

/// A session in progress: frames go through the transmitter `S`, over the link, through the
/// receiver `C` and to the device `V`.
#[derive(Drop)]
pub struct Session<S, C, V> {
    draws: Draws,
    sealing: Side<S>,
    // the link of a period, whose room serves all periods
    link: Link,
    receiving: Receiving<C, V>,
}

// Draws the alteration of the link for a period whose packet has `packet_len` ticks.
fn draw_alteration(draws: &mut Draws, packet_len: usize) -> Alteration
    requires { 0 < packet_len }
    ensures state { draw_state draws.new ≡ draw_state_after 3 (draw_state draws.old) }
    ensures alteration { result ≡ alteration_of (nth_drawn 1 (draw_state draws.old) % 8)
        (nth_drawn 2 (draw_state draws.old) % packet_len)
        (1 + nth_drawn 3 (draw_state draws.old) % 255) }
{
    let kind = draws.draw() % 8;
    let place = draws.draw() as usize % packet_len;
    let value = (draws.draw() % 255 + 1) as u8;
    alteration_of(kind, place, value)
}

impl<S: CountingBox, C: CountingBox, V: Device + Drop> Session<S, C, V> {
    ghost use Rattle.std.specs.Prelude.{ℕ, suc};
    ghost use Rattle.trial_session.specs.DrawnFrames.{Drawing};
    ghost use Rattle.trial_session.specs.Runs.{HasRun, TrialMayGoOn};

    // The session of a seed, before its first period.
    fn new(seed: u32) -> Session<S, C, V>
        requires sealing { S.widths_fit }
        requires checking { C.widths_fit }
        ensures able { TrialMayGoOn S.LinkBox C.LinkBox V.Device result 0 }
        ensures run { (drawing : Drawing) (behind : ℕ)
            → HasRun S.LinkBox S.counting C.LinkBox C.counting V.Device drawing behind result
            seed 0 }
    {
        Session {
            draws: Draws::new(seed),
            sealing: Side::new(),
            link: Link::new(),
            receiving: Receiving::new(),
        }
    }

    // Runs one more period. In a packet `behind` ticks follow the frame.
    fn run_period<R: DrawnFrames>(&mut self, behind: usize)
        requires some { 0 < behind }
        requires few { behind ≤ 64 }
        requires able { TrialMayGoOn S.LinkBox C.LinkBox V.Device self.old
            (S.taken self.old.sealing.line_box) }
        requires room { S.taken self.old.sealing.line_box + 640 ≤ MAX_TICKS }
        ensures able { TrialMayGoOn S.LinkBox C.LinkBox V.Device self.new
            (S.taken self.old.sealing.line_box + 640) }
        ensures run { (seed count : ℕ)
            → HasRun S.LinkBox S.counting C.LinkBox C.counting V.Device R.drawing behind self.old
            seed count
            → HasRun S.LinkBox S.counting C.LinkBox C.counting V.Device R.drawing behind self.new
            seed (suc count) }
    {
        let frame = R::draw_frame(&mut self.draws);
        let alteration = draw_alteration(&mut self.draws, frame.len() + behind);
        self.link.clear();
        self.sealing
            .forward(TickRun::Bytes(frame.as_slice()), &mut self.link);
        let rest = TickRun::Silence((PERIOD - frame.len()) as u32);
        self.sealing.forward(rest, &mut self.link);
        self.link.alter(alteration);
        self.receiving.take(&self.link);
    }

    // Ends the session with the silence after the link, and returns what was counted.
    fn close(&mut self) -> Summary
        requires able { TrialMayGoOn S.LinkBox C.LinkBox V.Device self.old
            (S.taken self.old.sealing.line_box) }
        requires room { S.taken self.old.sealing.line_box + 320 ≤ MAX_TICKS }
        ensures { (drawing : Drawing) (behind seed count : ℕ)
            → HasRun S.LinkBox S.counting C.LinkBox C.counting V.Device drawing behind self.old
            seed count
            → result ≡ session_summary drawing behind S.counting C.counting V.reads seed count }
    {
        self.receiving.take_silence(REST);
        Summary {
            sealed: self.sealing.through(),
            passed: self.receiving.passed(),
            refused: self.receiving.refused(),
            dropped: self.receiving.dropped(),
            read: self.receiving.read(),
        }
    }
}

/// Runs the session of `count` frames from a seed: drawn by the protocol `R`, sealed by `S`,
/// checked by `C` and read by `V`. In a packet `behind` ticks follow the frame.
pub fn try_session<R: DrawnFrames, S: CountingBox, C: CountingBox, V: Device + Drop>(
    seed: u32,
    count: u32,
    behind: usize,
) -> Summary
    /// At least one tick follows a frame in its packet.
    requires some { 0 < behind }
    /// At most 64 ticks follow it.
    requires few { behind ≤ 64 }
    /// The widths of the transmitter are ones that it can be made with.
    requires sealing { S.widths_fit }
    /// The widths of the receiver are ones that it can be made with.
    requires checking { C.widths_fit }
    /// What is counted is what the definitions of the session, the boxes and the device give for
    /// this seed and number of frames.
    ensures { result
        ≡ session_summary R.drawing behind S.counting C.counting V.reads seed count }
{
    let mut session: Session<S, C, V> = Session::new(seed);
    for _ in 0..count {
        session.run_period::<R>(behind);
    }
    session.close()
}
