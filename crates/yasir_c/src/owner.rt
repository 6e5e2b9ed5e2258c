//! A pointer that owns what C holds.
ghost use Rattle.std.specs.Prelude.{◌≡◌, Option, Some, None};
ghost use Rattle.yasir_c.specs.declared.held.Held.{Held};
ghost use Rattle.yasir_c.specs.Owning.{owner_owns};

use crate::held::Held;
use crate::loose::Loose;
use std::alloc::Global;
use std::marker::Model;
use std::ptr;

/// A pointer to a box or a spacer, which owns it, or to nothing.
#[repr(C)]
#[derive(Drop)]
pub struct Owner {
    at: *mut u8,
    /// What it owns, if it owns anything.
    pub ghost value: { Option Held },
}

impl Model for Owner {
    ghost also_owns = { λ h. owner_owns h.at h.value };
}

impl Owner {
    /// Returns an owner of nothing. Its pointer is null.
    pub(crate) fn empty() -> Owner
        ensures { result.value ≡ None }
    {
        Owner {
            at: ptr::null_mut(),
        }
    }

    /// Returns an owner of this value.
    pub(crate) fn of(loose: Loose<Held, Global>) -> Owner
        ensures { result.value ≡ Some loose.value }
    {
        let Loose { at, alloc: _ } = loose;
        Owner { at: at as *mut u8 }
    }

    /// Returns what it owns.
    pub(crate) fn into_loose(self, alloc: Global) -> Loose<Held, Global>
        requires { (held : Held) × (self.value ≡ Some held) }
        ensures { self.value ≡ Some result.value }
    {
        let Owner { at } = self;
        Loose {
            at: at as *mut Held,
            alloc,
        }
    }
}
