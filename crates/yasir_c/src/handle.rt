//! The handle that C holds.
ghost use Rattle.std.specs.Prelude.{◌≡◌, Some, None, option_map, is_some};
ghost use Rattle.yasir_c.specs.Owning.{number_in_handle};

use crate::held::Held;
use crate::loose::Loose;
use crate::owner::Owner;
use std::alloc::Global;
use std::mem;

/// What C holds: a box, a spacer or nothing. C neither reads nor writes the fields, beyond setting
/// all bytes to 0 at the start.
#[repr(C)]
#[derive(Drop)]
pub struct Handle {
    /// The box or the spacer, or nothing.
    pub(crate) held: Owner,
    // 1 if something is held, and 0 if nothing is
    holds: u8,
    ghost holds_is: { holds ≡ number_in_handle held.value },
}

impl Handle {
    /// Returns a handle that holds nothing, as C makes it: the pointer is null, and the number 0.
    pub(crate) fn empty() -> Handle
        ensures { result.held.value ≡ None }
    {
        Handle {
            held: Owner::empty(),
            holds: 0,
        }
    }

    /// Returns whether the handle holds something.
    pub(crate) fn holds_one(&self) -> bool
        ensures { result ≡ is_some self.now.held.value }
    {
        self.holds != 0
    }
}

/// Takes out what a handle holds, if it holds something. The handle then holds nothing.
pub(crate) fn taken_out(alloc: Global, handle: &mut Handle) -> Option<Box<Held, Global>>
    ensures out { handle.old.held.value ≡ option_map (λ held. held.value) result }
    ensures none { handle.new.held.value ≡ None }
{
    let Handle { held, holds } = mem::replace(handle, Handle::empty());
    if holds == 0 {
        return None;
    }
    Some(held.into_loose(alloc).into_box())
}

/// Puts a box or a spacer into a handle that holds nothing.
pub(crate) fn put_in(handle: &mut Handle, held: Box<Held, Global>)
    requires { handle.old.held.value ≡ None }
    ensures { handle.new.held.value ≡ Some held.value }
{
    let held = Owner::of(Loose::of(held));
    *handle = Handle { held, holds: 1 };
}
