//! A MAC for a transmitter whose tags aren't needed.
ghost use Rattle.std.specs.Prelude.{◌≡◌, ◌≤◌, ⊤};
ghost use Rattle.arrayvec.specs.ArrayVec.{array_vec_len};
ghost use Rattle.session_audit.specs.NoTags.{no_tag, length-no_tag, All-no_tag};

use link_format::{Mac, TagBytes};
use std::marker::PhantomData;

/// How many bytes the longest tag has.
const LONGEST: usize = 16;

// A tag of this many zeros.
fn zeros(size: usize) -> TagBytes
    requires { size ≤ 16 }
    ensures items { result.items ≡ no_tag size }
    ensures len { array_vec_len result ≡ size }
{
    let longest = [0; LONGEST];
    let mut tag = TagBytes::new();
    let _ = tag.try_extend_from_slice(&longest[..size]);
    tag
}

/// A MAC whose tags are zeros, as many as a tag by `M` has bytes. No text is hashed, and such a tag
/// protects nothing. It serves to list the frames that a transmitter seals, since these don't
/// depend on the tags.
#[derive(Drop)]
pub struct Untagged<M> {
    mac: PhantomData<M>,
}

impl<M: Mac> Mac for Untagged<M> {
    ghost tag_of = { λ key text. no_tag M.TAG };

    ghost stands = { λ value key text. ⊤ };

    ghost TAG = { M.TAG };

    const TAG: usize = M::TAG;

    ghost tag_size = { M.tag_size };

    ghost tag_len = { λ key text. length-no_tag M.TAG M.tag_size };

    ghost tag_bytes = { λ key text. All-no_tag M.TAG };

    fn with_key(_key: &[u8]) -> Self {
        Untagged { mac: PhantomData }
    }

    #[inline(always)]
    fn begin(&mut self) {}

    #[inline(always)]
    fn update(&mut self, _part: &[u8]) {}

    #[inline]
    fn finish(&mut self) -> TagBytes {
        zeros(M::TAG)
    }
}
