//! How the frames of each protocol are drawn.
ghost use Rattle.std.specs.Prelude.{◌≡◌, ℕ, true};
ghost use Rattle.trial_session.specs.Draws.{draw_state, draw_state_after};
ghost use Rattle.trial_session.specs.DrawnFrames.{Drawing};

use crate::{Draws, FrameBytes};
use dnp_link_frame::{Dnp, Header, build};
use line_rules::LineRules;
use rtu_frame::{Rtu, RtuBytes, close};

/// A protocol whose frames can be drawn.
pub trait DrawnFrames: LineRules {
    /// The frame that is drawn, and how many draws it takes.
    ghost drawing: { Drawing };

    /// Draws a frame.
    fn draw_frame(draws: &mut Draws) -> FrameBytes
        /// The frame is the one that the definition draws from this state.
        ensures frame { result.items ≡ drawing.frame (draw_state draws.old) }
        /// The state is the one that the definition's draws leave.
        ensures state { draw_state draws.new
            ≡ draw_state_after (drawing.draws (draw_state draws.old)) (draw_state draws.old) };

    /// Each drawn frame is a frame by the protocol's rules.
    ghost are_frames: { (x : ℕ) → Self.rules.is_frame (drawing.frame x) ≡ true };
}

impl DrawnFrames for Rtu {
    ghost use Rattle.trial_session.specs.RtuDrawn.{rtu_drawing};
    ghost use Rattle.trial_session.specs.DrawLaws.{rtu_are_frames};

    ghost drawing = { rtu_drawing };

    ghost are_frames = { rtu_are_frames };

    fn draw_frame(draws: &mut Draws) -> FrameBytes {
        let body_len = (draws.draw() % 253 + 2) as usize;
        let mut room = [0; 254];
        draws.draw_bytes(&mut room[..body_len]);
        let mut frame = RtuBytes::new();
        frame.try_extend_from_slice(&room[..body_len]).unwrap();
        close(&mut frame).unwrap();
        let mut bytes = FrameBytes::new();
        bytes.try_extend_from_slice(frame.as_slice()).unwrap();
        bytes
    }
}

impl DrawnFrames for Dnp {
    ghost use Rattle.trial_session.specs.DnpDrawn.{dnp_drawing};
    ghost use Rattle.trial_session.specs.DrawLaws.{dnp_are_frames};

    ghost drawing = { dnp_drawing };

    ghost are_frames = { dnp_are_frames };

    fn draw_frame(draws: &mut Draws) -> FrameBytes {
        let user_len = (draws.draw() % 251) as usize;
        let destination = (draws.draw() % 65536) as u16;
        let source = (draws.draw() % 65536) as u16;
        let header = Header {
            control: 0xC4,
            destination,
            source,
        };
        let mut room = [0; 250];
        draws.draw_bytes(&mut room[..user_len]);
        build(&header, &room[..user_len]).unwrap()
    }
}
