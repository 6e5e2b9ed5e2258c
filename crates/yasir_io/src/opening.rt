//! How a file is opened, and what is known of it then.
ghost use Rattle.std.specs.Prelude.{⊤, ℕ, List, IfOk, OnErr};
ghost use Rattle.std.specs.declared.fs.OpenOptions.{OpenOptions};

use std::fs::OpenOptions;
use std::io;
use std::rt::Files;

/// A file system that says which file it has opened, or that it refused to open one.
pub trait OpensFiles: Files {
    /// What is known of a file that was just opened with these options at the path of these bytes,
    /// and on which no call was made since. By default nothing is.
    ghost opened: { OpenOptions → List ℕ → Self.File → Type 0 } = { λ _ _ _. ⊤ };

    /// What is known if a file wasn't opened with these options at the path of these bytes. By
    /// default nothing is.
    ghost refused: { OpenOptions → List ℕ → Type 0 } = { λ _ _. ⊤ };

    /// Opens the file at a path.
    fn open_at(&self, options: &OpenOptions, path: &str) -> io::Result<Self::File>
        /// A file that is returned was opened at this path with these options, as far as the file
        /// system tells that.
        ensures opened { IfOk result (λ file. opened options.now path.now file) }
        /// If none is returned, opening this path with these options was refused, as far as the
        /// file system tells that.
        ensures refused { OnErr result (refused options.now path.now) };
}

impl OpensFiles for HostRuntime {
    fn open_at(&self, options: &OpenOptions, path: &str) -> io::Result<Self::File> {
        options.open(self, path)
    }
}
