//! Room for the bytes of the longest frame.
ghost use Rattle.std.specs.Prelude.{◌≡◌, ◌+◌, ◌≤◌, [], ◌++◌, length};
ghost use Rattle.session_lists.specs.FrameList.{longest_frame};

use std::marker::Model;

/// How many bytes the longest frame has.
pub(crate) const LONGEST: usize = 292;

/// Up to `LONGEST` bytes. Bytes that are let go aren't overwritten, so emptying the room costs
/// nothing.
#[derive(Drop)]
pub(crate) struct FrameRoom {
    bytes: [u8; LONGEST],
    len: usize,
}

impl Model for FrameRoom {
    ghost use Rattle.std.specs.Prelude.{◌≤◌, take};
    ghost use Rattle.yasir_io.specs.TextRoom.{Held};

    ghost Value = { Held };

    ghost view = { λ v. record { items = take v.len v.bytes } };

    ghost invariant = { λ v. v.len ≤ 292 };
}

impl FrameRoom {
    /// A room without bytes.
    pub(crate) fn new() -> FrameRoom
        ensures { result.items ≡ [] }
    {
        FrameRoom {
            bytes: [0; LONGEST],
            len: 0,
        }
    }

    /// The bytes.
    #[inline]
    pub(crate) fn as_slice(&self) -> &[u8]
        ensures value { result.now ≡ self.now.items }
        ensures fits { length result.now ≤ longest_frame }
    {
        &self.bytes[..self.len]
    }

    /// How many bytes there are.
    #[inline]
    pub(crate) fn len(&self) -> usize
        ensures value { result ≡ length self.now.items }
        ensures fits { result ≤ longest_frame }
    {
        self.as_slice().len()
    }

    /// Appends a piece, for which there must be room.
    #[inline]
    pub(crate) fn append(&mut self, piece: &[u8])
        requires { length self.old.items + length piece.now ≤ longest_frame }
        ensures { self.new.items ≡ self.old.items ++ piece.now }
    {
        let len = self.len;
        let after = len + piece.len();
        self.bytes[..after][len..].copy_from_slice(piece);
        self.len = after;
    }

    /// Lets all bytes go.
    #[inline]
    pub(crate) fn empty(&mut self)
        ensures { self.new.items ≡ [] }
    {
        self.len = 0;
    }
}
