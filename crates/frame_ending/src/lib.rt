//! Where the bursts of a line end, and walks over bursts.
//!
//! Where the frame of a burst ends: what each tick of a line is, by the rules of a protocol.
//!
//! A byte, three silent ticks, and the fourth, which closes the burst:
//!
//!     let mut cut = BurstCut::<FourBytes>::new();
//!     assert!(rt; matches!(cut.step(Tick::Byte(7)), Cut::Start(_)));
//!     for _ in 0..3 {
//!         assert!(rt; matches!(cut.step(Tick::Silent), Cut::Pause(_)));
//!     }
//!     assert!(rt; matches!(cut.step(Tick::Silent), Cut::Closed));
//!
//! The walk over the bursts of a line, which the transmitter and the receiver share: its
//! definitions and laws, and the record of what a step returns.
//!
//! A box judges each burst of a line in turn. It keeps a state from burst to burst, writes one note
//! of each burst, and emits at most one burst for it on the other line. `specs/` defines such a
//! walk over whole lists of ticks, and says when it needs no tick before its time. `proofs/` has
//! the law that the notes and the other line of a longer list of ticks begin with those of the
//! list, and says what one more tick adds.
//!
//! A box returns a step for each tick that it takes:
//!
//!     let step: BoxStep<SealNote> = sealer.step(tick, &mut journal, &mut disk)?;
//!     send(step.tick);
//!     if let Some(note) = step.note {
//!         log(note);
//!     }
#![tactic(auto)]

mod box_step;
mod burst_cut;
mod cut;

pub use box_step::{BoxStep, RunBytes};
pub use burst_cut::BurstCut;
pub use cut::Cut;
