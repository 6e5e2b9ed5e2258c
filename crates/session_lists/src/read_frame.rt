//! A frame that a device reads, with its bytes.
ghost use Rattle.std.specs.Prelude.{◌≡◌, ◌≤◌, length};
ghost use Rattle.session_lists.specs.FrameList.{longest_frame};

use std::marker::Model;

/// How many bytes the longest frame has.
const LONGEST: usize = 292;

/// A frame that a device reads: the tick of its first byte, and its bytes.
#[derive(Drop)]
pub struct ReadFrame {
    start: u64,
    bytes: [u8; LONGEST],
    len: usize,
}

impl Model for ReadFrame {
    ghost use Rattle.std.specs.Prelude.{◌≤◌, take};
    ghost use Rattle.device_model.specs.Frames.{FrameRead};

    ghost Value = { FrameRead };

    ghost view = { λ v. record { start = v.start; frame = take v.len v.bytes } };

    ghost invariant = { λ v. v.len ≤ 292 };
}

impl ReadFrame {
    /// The frame that begins in this tick and has these bytes.
    pub fn new(start: u64, bytes: &[u8]) -> ReadFrame
        /// The frame has at most as many bytes as the longest frame.
        requires { length bytes.now ≤ longest_frame }
        ensures { result ≡ record { start = start; frame = bytes.now } }
    {
        let len = bytes.len();
        let mut room = [0; LONGEST];
        room[..len].copy_from_slice(bytes);
        ReadFrame {
            start,
            bytes: room,
            len,
        }
    }

    /// The same frame, as a value of its own.
    pub fn copied(&self) -> ReadFrame
        ensures { result ≡ self.now }
    {
        ReadFrame::new(self.start(), self.bytes())
    }

    /// The tick of its first byte, counted from 0.
    pub fn start(&self) -> u64
        ensures { result ≡ self.now.start }
    {
        self.start
    }

    /// Its bytes.
    pub fn bytes(&self) -> &[u8]
        /// They are the bytes of the frame.
        ensures bytes { result.now ≡ self.now.frame }
        /// There are at most as many as the longest frame has.
        ensures short { length result.now ≤ longest_frame }
    {
        &self.bytes[..self.len]
    }
}
