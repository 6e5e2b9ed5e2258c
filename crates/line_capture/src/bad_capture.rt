//! Why a capture is refused.

use capture_pcap::BadPcap;
use capture_text::{BadRow, BadText};

/// A refusal of a capture, with its place.
#[derive(Clone, Copy, Debug, PartialEq, Eq)]
pub enum BadCapture {
    /// The input isn't a text capture.
    Text(BadText),
    /// The input isn't a pcap or pcapng file of a serial line.
    Pcap(BadPcap),
    /// The input isn't an export of a logic analyser in rows of this form.
    Rows(BadRow),
    /// A byte of the line came with a framing or a parity error. `offset` bytes of the capture come
    /// before the last one of the RTAC header, or of the row, that says so.
    ByteError { offset: u64 },
}
