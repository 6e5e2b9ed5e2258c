//! Why the system refused a call on a file or a stream.
ghost use Rattle.std.specs.Prelude.{◌≡◌, Option};
ghost use Rattle.yasir_io.specs.Reasons.{reason_in};
ghost use Rattle.yasir_io.specs.declared.reason.Reason.{Reason};
ghost use Rattle.std.specs.IoError.{error_kind, raw_os_error};

use std::io::{self, ErrorKind};

/// Why a call was refused.
#[derive(Clone, Copy, Debug, PartialEq, Eq)]
pub enum Reason {
    /// There is no such file.
    NotFound,
    /// The permissions don't allow the call.
    PermissionDenied,
    /// The path is that of a folder.
    IsADirectory,
    /// The call would have to wait: another run holds the file, or the stream isn't ready.
    WouldBlock,
    /// The file isn't empty, but was to be new.
    AlreadyExists,
    /// The disk is full.
    StorageFull,
    /// The file system may only be read.
    ReadOnlyFilesystem,
    /// A write was cut short.
    WriteZero,
    /// The system gave this error number, and none of the reasons above.
    Numbered(i32),
    /// Another reason.
    Other,
}

impl Reason {
    /// Returns the reason that an error tells.
    pub(crate) fn of(error: &io::Error) -> Reason
        ensures { result ≡ reason_in (error_kind error.now) (raw_os_error error.now) }
    {
        match error.kind() {
            ErrorKind::NotFound => Reason::NotFound,
            ErrorKind::PermissionDenied => Reason::PermissionDenied,
            ErrorKind::IsADirectory => Reason::IsADirectory,
            ErrorKind::WouldBlock => Reason::WouldBlock,
            ErrorKind::AlreadyExists => Reason::AlreadyExists,
            ErrorKind::StorageFull => Reason::StorageFull,
            ErrorKind::ReadOnlyFilesystem => Reason::ReadOnlyFilesystem,
            ErrorKind::WriteZero => Reason::WriteZero,
            _ => match error.raw_os_error() {
                Some(number) => Reason::Numbered(number),
                None => Reason::Other,
            },
        }
    }
}

/// An object that says why a call on it was refused.
pub trait TellsReason {
    /// Why the last call that failed was refused, if the object knows.
    ghost told_reason: { Self → Option Reason };

    /// Returns why the last call that failed was refused, or `None` if none has failed or the object
    /// doesn't know.
    fn reason(&self) -> Option<Reason>
        ensures { result ≡ told_reason self.now };
}
