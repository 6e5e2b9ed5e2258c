//! The count of failed calls on an object, and why the last of them failed.
ghost use Rattle.std.specs.Prelude.{◌≡◌, ◌≤◌, Some, None};
ghost use Rattle.std.specs.IoError.{error_kind, raw_os_error};
ghost use Rattle.yasir_io.specs.Causes.{Rose};
ghost use Rattle.yasir_io.specs.Reasons.{reason_in};

use crate::{Failed, Reason};
use std::io;

/// How often calls on an object have failed, and why the last of them did, if that is known. The
/// count stops at its greatest value.
#[derive(Drop)]
pub(crate) struct Faults {
    pub(crate) count: u64,
    pub(crate) reason: Option<Reason>,
}

impl Faults {
    pub(crate) fn none() -> Faults
        ensures count { result.count ≡ 0 }
        ensures reason { result.reason ≡ None }
    {
        Faults {
            count: 0,
            reason: None,
        }
    }

    /// Counts a fault for which no reason is known.
    pub(crate) fn add(&mut self) -> Failed
        ensures rose { Rose self.old.count self.new.count }
        ensures never_falls { self.old.count ≤ self.new.count }
        ensures reason { self.new.reason ≡ None }
    {
        self.count = self.count.saturating_add(1);
        self.reason = None;
        Failed
    }

    /// Counts a fault, and keeps the reason that the error tells.
    pub(crate) fn add_for(&mut self, error: &io::Error) -> Failed
        ensures rose { Rose self.old.count self.new.count }
        ensures never_falls { self.old.count ≤ self.new.count }
        ensures reason { self.new.reason ≡ Some (reason_in (error_kind error.now) (raw_os_error error.now)) }
    {
        self.count = self.count.saturating_add(1);
        self.reason = Some(Reason::of(error));
        Failed
    }
}
