//! The program over a file system: the key and the journals are files whose paths are among its
//! words.
ghost use Rattle.std.specs.Prelude.{◌≡◌, Option, IfOk, OnErr, IsErr, map, option_map};
ghost use Rattle.std.specs.String.{string_bytes};
ghost use Rattle.command_ends.specs.Given.{words_after, IsKeyFile, IsJournalFile};
ghost use Rattle.link_replay.specs.declared.words.Command.{Command};
ghost use Rattle.link_replay.specs.Words.{Asks, word_in, key_place, journal_place};
ghost use Rattle.link_replay.specs.Words.{second_place};
ghost use Rattle.link_replay.specs.OverFiles.{path_in, journal_kind, RunsOverFiles};
ghost use Rattle.link_replay.specs.OverFiles.{AreJournalFiles};
ghost use Rattle.yasir_io.specs.declared.files.SlotFile.TheVariants.{Standing};
ghost use Rattle.link_replay.specs.OverFiles.{EndsOverFiles};

use crate::{BothDisks, Ended, journal_word, key_word, makes_journal, run, second_word};
use command_ends::{NOT_GIVEN, Status, take_places, words_after_name};
use line_commands::Streams;
use std::alloc::AllocError;
use std::env::Args;
use std::io;
use yasir_io::{
    Durable, FileSlots, FileSource, Lock, OpensFiles, Sink, SlotDisk, SlotFile, Source, TellsReason,
};

// Returns a copy of the word at this place, or `None` if there is no such word.
fn path_at(words: &[String], place: Option<usize>) -> Result<Option<String>, AllocError>
    ensures { IfOk result (λ path.
        option_map string_bytes path ≡ word_in (map string_bytes words.now) place) }
{
    match place {
        Some(place) => match words.get(place) {
            Some(word) => Ok(Some(word.clone()?)),
            None => Ok(None),
        },
        None => Ok(None),
    }
}

// Returns the file of the key.
fn key_file<'a, R: OpensFiles>(
    files: &'a R,
    words: &[String],
) -> Result<FileSource<'a, R>, AllocError>
    ensures { IfOk result (λ key. (asked : Option Command) → Asks (map string_bytes words.now) asked
        → IsKeyFile (path_in key_place (map string_bytes words.now) asked) key) }
{
    Ok(FileSource::new(files, path_at(words, key_word(words))?))
}

// Returns what is expected of the journal's file: that the run makes a journal, or that there is
// one.
fn kind_of(words: &[String]) -> SlotFile
    ensures { (asked : Option Command) → Asks (map string_bytes words.now) asked
        → result ≡ journal_kind asked }
{
    if makes_journal(words) {
        SlotFile::New
    } else {
        SlotFile::Standing
    }
}

// Returns the file of the journal.
fn journal_file<'a, R: OpensFiles>(
    files: &'a R,
    words: &[String],
) -> Result<FileSlots<'a, R>, AllocError>
where
    R::File: Lock + Durable,
    ensures { IfOk result (λ disk. (asked : Option Command)
        → Asks (map string_bytes words.now) asked
        → IsJournalFile (path_in journal_place (map string_bytes words.now) asked)
        (journal_kind asked) disk) }
{
    let path = path_at(words, journal_word(words))?;
    Ok(FileSlots::new(files, path, kind_of(words)))
}

// Returns the file of the second journal, which must be there.
fn second_file<'a, R: OpensFiles>(
    files: &'a R,
    words: &[String],
) -> Result<FileSlots<'a, R>, AllocError>
where
    R::File: Lock + Durable,
    ensures { IfOk result (λ disk. (asked : Option Command)
        → Asks (map string_bytes words.now) asked
        → IsJournalFile (path_in second_place (map string_bytes words.now) asked) Standing disk) }
{
    let path = path_at(words, second_word(words))?;
    Ok(FileSlots::new(files, path, SlotFile::Standing))
}

// Returns the files of both journals.
fn journal_files<'a, R: OpensFiles>(
    files: &'a R,
    words: &[String],
) -> Result<BothDisks<FileSlots<'a, R>>, AllocError>
where
    R::File: Lock + Durable,
    ensures { IfOk result (λ disks. (asked : Option Command)
        → Asks (map string_bytes words.now) asked
        → AreJournalFiles (map string_bytes words.now) asked disks) }
{
    Ok(BothDisks {
        first: journal_file(files, words)?,
        second: second_file(files, words)?,
    })
}

// Runs the program with these words.
fn run_words<'a, R: OpensFiles + AllocGlobal, S: Source + TellsReason, O: Sink, L: Sink>(
    system: &'a R,
    words: &[String],
    streams: &mut Streams<S, O, L>,
) -> Result<Ended, AllocError>
where
    R::File: Lock + Durable,
    ensures runs { IfOk result (λ ended. (asked : Option Command)
        → Asks (map string_bytes words.now) asked
        → RunsOverFiles ⟦<FileSource<'a, R> as Source>⟧ S.Source O.Sink L.Sink
        ⟦<FileSlots<'a, R> as SlotDisk>⟧ S.told_reason (map string_bytes words.now) asked
        streams.old streams.new ended) }
    ensures no_memory { OnErr result
        (streams.new ≡ streams.old) }
{
    let mut key = key_file(system, words)?;
    let mut disks = journal_files(system, words)?;
    Ok(run(system.alloc(), words, &mut key, streams, &mut disks))
}

/// Runs the program with the words after the first argument, which is its name. The key and the
/// journals are files of this system. Returns the exit status.
pub fn run_over_files<'a, R: OpensFiles + AllocGlobal, S: Source + TellsReason, O: Sink, L: Sink>(
    system: &'a R,
    args: io::Result<Args>,
    streams: &mut Streams<S, O, L>,
) -> u8
where
    R::File: Lock + Durable,
    /// If the system gives no words, the exit status is 13.
    ensures no_words { IsErr args → result ≡ 13 }
    /// If the system gives no words, the input, the output and the log are as they were.
    ensures untouched { IsErr args
        → streams.new ≡ streams.old }

    /// For the command that the words ask for, the exit status is that of a run which does what the
    /// clauses of `run` say over files of a key and of journals at the paths of the words; or it is
    /// that of no memory, or 13, and the streams are as they were.
    ensures ends { IfOk args (λ given. (asked : Option Command) → Asks (words_after given) asked
        → EndsOverFiles ⟦<FileSource<'a, R> as Source>⟧ S.Source O.Sink L.Sink
        ⟦<FileSlots<'a, R> as SlotDisk>⟧ S.told_reason (words_after given) asked
        streams.old streams.new result) }
{
    // The files stay open as long as the run lasts.
    let Ok(_places) = take_places(system) else {
        return NOT_GIVEN;
    };
    let Ok(args) = args else {
        return NOT_GIVEN;
    };
    let Ok(words) = words_after_name(system.alloc(), args) else {
        return NOT_GIVEN;
    };
    match run_words(system, words.as_slice(), streams) {
        Ok(ended) => ended.status.exit_status(),
        Err(AllocError) => Status::NoMemory.exit_status(),
    }
}
