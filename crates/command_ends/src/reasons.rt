//! Why the system refused a call on a file or a stream of a run, and how a fault line says it.
ghost use Rattle.std.specs.Prelude.{◌≡◌, ◌≤◌, ◌++◌, length, codes, decimal};
ghost use Rattle.command_ends.specs.Reasons.{told_by, named_reason, refused_line};

use crate::text::{Line, push_decimal};
use yasir_io::{Reason, TellsReason};

/// Why the last call that failed on the key, the input and the journal of a run was refused, where
/// they tell it.
#[derive(Clone, Copy, Debug, PartialEq, Eq)]
pub struct Reasons {
    /// Why the key could not be read.
    pub key: Option<Reason>,
    /// Why the input could not be read.
    pub input: Option<Reason>,
    /// Why a call on the journal failed.
    pub journal: Option<Reason>,
}

impl Reasons {
    /// Returns the reasons that a key, an input and the disk of a journal tell now.
    pub fn of<K: TellsReason, S: TellsReason, D: TellsReason>(
        key: &K,
        input: &S,
        disk: &D,
    ) -> Reasons
        /// They are the reasons that the three objects tell.
        ensures { result ≡ told_by K.told_reason S.told_reason D.told_reason key.now input.now
            disk.now }
    {
        Reasons {
            key: key.reason(),
            input: input.reason(),
            journal: disk.reason(),
        }
    }
}

// Returns what is said of a reason that has no number. `busy` is said of a call that would have to
// wait.
fn named_reason<'a>(busy: &'a [u8], reason: Reason) -> &'a [u8]
    requires { length busy.now ≤ 21 }
    ensures text { result.now ≡ named_reason busy.now reason }
    ensures short { length result.now ≤ 21 }
{
    match reason {
        Reason::NotFound => b"no such file",
        Reason::PermissionDenied => b"permission denied",
        Reason::IsADirectory => b"is a folder",
        Reason::WouldBlock => busy,
        Reason::AlreadyExists => b"not empty",
        Reason::StorageFull => b"no space left",
        Reason::ReadOnlyFilesystem => b"read-only file system",
        Reason::WriteZero => b"write cut short",
        Reason::Numbered(_) | Reason::Other => b"other error",
    }
}

// Returns the fault line of a call that was refused, by what is said of the reason.
fn named_line(what: &[u8], text: &[u8]) -> Line
    requires what { length what.now ≤ 20 }
    requires text { length text.now ≤ 21 }
    ensures { result.items ≡ what.now ++ codes ": " ++ text.now ++ codes "\n" }
{
    let mut line = Line::new();
    line.try_extend_from_slice(what).unwrap();
    line.try_extend_from_slice(b": ").unwrap();
    line.try_extend_from_slice(text).unwrap();
    line.push(b'\n');
    line
}

// Returns the fault line of a call that was refused, by the number of the system's error.
fn numbered_line(what: &[u8], number: u32) -> Line
    requires { length what.now ≤ 20 }
    ensures { result.items
        ≡ what.now ++ codes ": error " ++ decimal number ++ codes " of the system\n" }
{
    let mut line = Line::new();
    line.try_extend_from_slice(what).unwrap();
    line.try_extend_from_slice(b": error ").unwrap();
    push_decimal(&mut line, u64::from(number));
    line.try_extend_from_slice(b" of the system\n").unwrap();
    line
}

// Returns the fault line of a call that was refused: what failed, and the reason.
pub(crate) fn refused_line(what: &[u8], busy: &[u8], reason: Reason) -> Line
    requires what { length what.now ≤ 20 }
    requires busy { length busy.now ≤ 21 }
    ensures { result.items ≡ refused_line what.now busy.now reason }
{
    match reason {
        Reason::Numbered(number) => numbered_line(what, number.unsigned_abs()),
        _ => named_line(what, named_reason(busy, reason)),
    }
}
