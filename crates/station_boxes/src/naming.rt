//! Which bytes of a frame name its station.
ghost use Rattle.std.specs.Prelude.{◌≡◌, ◌+◌, ◌*◌, ◌<◌, ◌≤◌};
ghost use Rattle.station_boxes.specs.Names.{byte_of, name_len, name_in};

/// Which bytes of a frame name the station that it is for, or from.
#[derive(Clone, Copy, Debug, PartialEq, Eq)]
pub enum Naming {
    /// The first byte: the address of a frame of Modbus RTU, in either direction.
    FirstByte,
    /// The destination in the header of a DNP3 frame: for frames to the stations.
    Destination,
    /// The source in the header of a DNP3 frame: for frames from the stations.
    Source,
}

// Returns byte `i` of a frame, or 0 if the frame is shorter.
fn byte_of(frame: &[u8], i: usize) -> u16
    ensures value { result ≡ byte_of frame.now i }
    ensures byte { result < 256 }
{
    match frame.get(i) {
        Some(byte) => u16::from(*byte),
        None => 0,
    }
}

// Returns the number of two bytes, low byte first, from place `i` on.
fn word_of(frame: &[u8], low: usize, high: usize) -> u16
    ensures { result ≡ byte_of frame.now low + 256 * byte_of frame.now high }
{
    let first = byte_of(frame, low);
    let second = byte_of(frame, high);
    first + 256 * second
}

impl Naming {
    /// Returns how many bytes of a frame come before its station is known: 1 to 8.
    #[inline]
    pub fn name_len(self) -> usize
        /// It is where the name ends.
        ensures value { result ≡ name_len self }
        /// There is at least one.
        ensures some { 1 ≤ result }
        /// There are at most 8.
        ensures few { result ≤ 8 }
    {
        match self {
            Naming::FirstByte => 1,
            Naming::Destination => 6,
            Naming::Source => 8,
        }
    }

    /// Returns the station that a frame with these first bytes names. Bytes that haven't come count
    /// as 0.
    pub fn name_in(self, frame: &[u8]) -> u16
        ensures { result ≡ name_in self frame.now }
    {
        match self {
            Naming::FirstByte => byte_of(frame, 0),
            Naming::Destination => word_of(frame, 4, 5),
            Naming::Source => word_of(frame, 6, 7),
        }
    }
}
