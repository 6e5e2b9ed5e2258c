//! The fields of a DNP3 header.

/// What the header of a frame says besides the length.
#[derive(Clone, Copy, Debug, PartialEq, Eq)]
pub struct Header {
    /// The CONTROL byte: direction, primary, frame count bits and the function code.
    pub control: u8,
    /// The address of the station that must read the frame.
    pub destination: u16,
    /// The address of the station that sends it.
    pub source: u16,
}
