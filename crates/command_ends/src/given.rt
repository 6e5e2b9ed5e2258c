//! What a run of the program takes from its system before it begins: its words, and the places of
//! standard streams that are closed.
ghost use Rattle.std.specs.Prelude.{◌≡◌, IfOk, drop};
ghost use Rattle.std.specs.Vec.Iter.{into_iter_items};

use std::alloc::{AllocError, Global};
use std::env::Args;
use std::fs::File;
use std::io;
use std::rt::Files;

/// The exit status if the runtime refuses something that a run needs: to open the folder `/`, which
/// takes the places of standard streams that are closed, the words, or memory for the words. No
/// `Status` has this exit status.
pub const NOT_GIVEN: u8 = 13;

/// Returns the words after the program's name, or an error if there is no memory for them.
pub fn words_after_name(alloc: Global, args: Args) -> Result<Vec<String>, AllocError>
    ensures { IfOk result (λ words. words.items ≡ drop 1 (into_iter_items args)) }
{
    args.skip(1).collect(alloc)
}

/// Takes the places of standard streams that are closed. The system opens each file at the lowest
/// free place (file descriptor), and these three files keep theirs until the caller drops them.
/// Otherwise the key's file could be read as the input, or a note be written into the journal. Each
/// of the three is the folder `/`, which can be neither read nor written. The system's error is
/// returned if it can't be opened.
///
/// No clause says which files these are, which places they take, or when there is an error.
pub fn take_places<R: Files>(files: &R) -> io::Result<(R::File, R::File, R::File)> {
    let first = File::open(files, "/")?;
    let second = File::open(files, "/")?;
    Ok((first, second, File::open(files, "/")?))
}
