//! How the loop over an input ended.
use crate::Stop;
use yasir_ticks::BadTicks;

/// Which part of an input is too much: its ticks, or its bytes.
#[derive(Clone, Copy, Debug, PartialEq, Eq)]
pub enum TooMuch {
    Ticks,
    Bytes,
}

/// How driving an input into a consumer ended.
#[derive(Clone, Copy, Debug, PartialEq, Eq)]
pub enum End {
    /// The whole input was read, is right, and all its ticks were taken.
    Whole,
    /// The input is no tick text.
    Refused(BadTicks),
    /// There are more ticks than may be taken, with those of the last line, or there is a byte more
    /// than may be read. `count` is the sum.
    TooLong { what: TooMuch, count: u64 },
    /// A read failed.
    ReadFault,
    /// The consumer stopped.
    Stopped(Stop),
}
