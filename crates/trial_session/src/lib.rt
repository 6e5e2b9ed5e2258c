//! A session that is made from a number, its seed: drawn frames go through the transmitter, over a
//! link that is altered period by period, through the receiver and to a device, and what happens to
//! them is counted. No memory is taken.
//!
//! A session of 100 frames from the seed 7, over both boxes of Modbus RTU and the device:
//!
//!     type Transmitter = Sealer<Rtu, HmacSha1, 2>;
//!     type Receiver = Checker<Rtu, HmacSha1, 2, 18>;
//!     let counted = try_session::<Rtu, Transmitter, Receiver, RtuDevice>(7, 100, 17);
//!     assert_eq!(rt; (counted.sealed, counted.passed, counted.read), (100, 64, 64));
#![tactic(auto)]

mod alteration;
mod check_counting;
mod counting_box;
mod drawn_frames;
mod draws;
mod fate;
mod laws;
mod link;
mod listening;
mod marks;
mod printing;
mod receiving;
mod seal_counting;
mod session;
mod side;
mod summary;
mod waiting;

pub use alteration::Alteration;
pub use counting_box::CountingBox;
pub use drawn_frames::DrawnFrames;
pub use draws::{Draws, FrameBytes};
pub use fate::Fate;
pub use laws::sessions_tell;
pub use printing::{push_worded, session_line};
pub use session::try_session;
pub use summary::Summary;
