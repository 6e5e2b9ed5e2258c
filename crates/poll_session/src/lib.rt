//! A session of polls over two two-wire boxes.
#![tactic(auto)]

mod attack;
mod devices;
mod laws;
mod master;
mod poll_end;
mod printing;
mod session;
mod summary;
mod turned_end;
mod unsealed;
mod watch;

pub use laws::polls_tell;
pub use printing::polls_line;
