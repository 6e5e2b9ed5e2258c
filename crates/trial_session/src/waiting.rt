//! Bytes that a device is still to hear.
ghost use Rattle.std.specs.Prelude.{◌≡◌, ◌==◌, [], ◌++◌, length, true, false};

use crate::marks::overwrite;
use std::marker::Model;

/// How many bytes wait at most.
const MOST: usize = 292;

/// Bytes that a device is still to hear. The room after the last of them is never cleared, so that
/// all of them are let go at once.
#[derive(Drop)]
pub struct Waiting {
    bytes: [u8; MOST],
    len: usize,
}

impl Model for Waiting {
    ghost use Rattle.std.specs.Prelude.{◌≤◌, take};
    ghost use Rattle.trial_session.specs.WaitingBytes.{KeptWaiting};

    ghost Value = { KeptWaiting };

    ghost view = { λ v. record { items = take v.len v.bytes } };

    ghost invariant = { λ v. v.len ≤ 292 };
}

impl Waiting {
    /// A room in which no byte waits.
    pub fn new() -> Waiting
        ensures { result.items ≡ [] }
    {
        Waiting {
            bytes: [0; MOST],
            len: 0,
        }
    }

    /// The bytes that wait.
    #[inline]
    pub fn as_slice(&self) -> &[u8]
        ensures value { result.now ≡ self.now.items }
    {
        &self.bytes[..self.len]
    }

    /// Whether no byte waits.
    #[inline]
    pub fn is_empty(&self) -> bool
        ensures { result ≡ (length self.now.items == 0) }
    {
        self.len == 0
    }

    /// Lets all bytes go.
    #[inline]
    pub fn clear(&mut self)
        ensures { self.new.items ≡ [] }
    {
        self.len = 0;
    }

    /// Adds these bytes, if there is room for them, and returns whether there is.
    #[inline]
    pub fn add(&mut self, bytes: &[u8]) -> bool
        ensures added { result ≡ true → self.new.items ≡ self.old.items ++ bytes.now }
        ensures full { result ≡ false → self.new.items ≡ self.old.items }
    {
        if MOST - self.len < bytes.len() {
            return false;
        }
        overwrite(&mut self.bytes, self.len, bytes);
        self.len += bytes.len();
        true
    }
}
