//! The names of an export's channels, in the order in which they come.
ghost use Rattle.std.specs.Prelude.{◌≡◌, ◌≤◌, length};
ghost use Rattle.capture_text.specs.Names.{Finds, names_of, no_names};

use crate::MAX_NAME;
use arrayvec::ArrayVec;
use line_stamps::Way;

/// The names of the channels so far. The name of a channel that hasn't come yet is empty.
#[derive(Drop)]
pub struct Names {
    first: ArrayVec<u8, MAX_NAME>,
    second: ArrayVec<u8, MAX_NAME>,
}

/// Returns a name as it is kept.
fn kept(name: &[u8]) -> ArrayVec<u8, MAX_NAME>
    requires { length name.now ≤ 64 }
    ensures { result.items ≡ name.now }
{
    let mut kept = ArrayVec::new();
    kept.try_extend_from_slice(name).unwrap();
    kept
}

impl Names {
    /// Returns the names before any channel has come.
    pub fn new() -> Names
        ensures { names_of result ≡ no_names }
    {
        Names {
            first: ArrayVec::new(),
            second: ArrayVec::new(),
        }
    }

    /// Returns the way of the channel with this name, and keeps a new name. The first channel that
    /// comes is way A, and the second one way B. A third channel has no way, nor has one whose name
    /// is empty or too long.
    pub fn way_of(&mut self, name: &[u8]) -> Option<Way>
        ensures { Finds self.old name.now result self.new }
    {
        if name.is_empty() {
            return None;
        }
        if name.len() > MAX_NAME {
            return None;
        }
        if self.first.is_empty() {
            self.first = kept(name);
            return Some(Way::A);
        }
        if self.first.as_slice() == name {
            return Some(Way::A);
        }
        if self.second.is_empty() {
            self.second = kept(name);
            return Some(Way::B);
        }
        if self.second.as_slice() == name {
            return Some(Way::B);
        }
        None
    }
}
