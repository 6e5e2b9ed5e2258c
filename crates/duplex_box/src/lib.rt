//! Two boxes, one for each direction of a line, stepped together. The outgoing one takes the ticks
//! of a device, and the incoming one those of the link. Neither knows of the other.
//!
//! One step of both directions, each of which has a journal and a disk of its own:
//!
//!     let step = pair.step(
//!         from_device, from_link, &mut sent, &mut sent_disk, &mut got, &mut got_disk,
//!     )?;
//!     send_to_link(step.link);
//!     send_to_device(step.device);
//!
//! A box for both directions of a line: the transmitter of the outgoing direction and the receiver
//! of the incoming one, under one key.
#![tactic(auto)]

#[cfg(test)]
mod duplex_tests;
mod laws;
mod pair;

use check_receiver::Checker;
pub use check_receiver::{CheckNote, DroppedWhy, RefusedWhy};
pub use frame_ending::{BoxStep, RunBytes};
pub use laws::{directions_are_apart, lines_go_on};
pub use link_format::Dir;
pub use pair::{BoxPair, DuplexFault, PairStep};
use seal_transmitter::Sealer;
pub use seal_transmitter::{SealNote, UnsealedWhy};

/// A box for both directions of a line, with the rules `R` of a protocol, words of `B` bytes and
/// tags by the MAC `M`. The receiver's delay is `D` ticks.
pub type Duplex<R, M, const B: usize, const D: usize> = BoxPair<
    Sealer<R, M, B>,
    Checker<R, M, B, D>,
>;

/// What a step of a duplex box returns.
pub type DuplexStep = PairStep<SealNote, CheckNote>;
