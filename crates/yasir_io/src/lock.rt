//! The lock that a run takes on its journal's file, and the syncs of this file.
ghost use Rattle.std.specs.Prelude.{◌≡◌, ⊤, Bool, OnOk, OnErr};

use std::fs::File;
use std::io;

/// A file that a run can take for itself.
pub trait Lock {
    /// What is known of a file before and after its lock was taken. By default nothing is.
    ghost taken: { Self → Self → Type 0 } = { λ _ _. ⊤ };

    /// Takes the file for this run only. A handle that holds the file may take it again. It is an
    /// error if another run holds it, or if the file system gives no lock. The system releases the
    /// lock with the last handle of the file, even if the process is killed.
    fn try_lock(&mut self) -> io::Result<()>
        /// If it succeeds, the file is taken, as far as the file system tells that.
        ensures taken { OnOk result (taken self.old self.new) }
        /// If it fails, the file is as it was.
        ensures untaken { OnErr result (self.new ≡ self.old) };
}

impl Lock for File {
    fn try_lock(&mut self) -> io::Result<()> {
        Ok(File::try_lock(self)?)
    }
}

/// A file whose bytes can be made to outlast a crash of the machine.
pub trait Durable {
    /// What is known of a file after a sync: of all of it if the flag is set, and otherwise of what
    /// is needed to read its bytes. By default nothing is.
    ghost synced: { Self → Bool → Type 0 } = { λ _ _. ⊤ };

    /// Syncs the file: all of it, or only what is needed to read its bytes. A sync of those may
    /// leave the times of the file off the disk.
    fn sync(&self, whole: bool) -> io::Result<()>
        ensures { OnOk result (synced self.now whole) };
}

impl Durable for File {
    fn sync(&self, whole: bool) -> io::Result<()> {
        if whole {
            return Ok(File::sync_all(self)?);
        }
        Ok(File::sync_data(self)?)
    }
}
