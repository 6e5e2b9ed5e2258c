//! Real files as a source and as a disk, opened at the first call. Their contents aren't told, and
//! their faults are counted.
ghost use Rattle.std.specs.Prelude.{◌≡◌, ◌≤◌, length, max, Some, None, OnOk, OnErr, IfOk, nat_lt};
ghost use Rattle.std.specs.Io.KnownBytes.{ReadConsumes};
ghost use Rattle.yasir_io.specs.Causes.{HasCause};
ghost use Rattle.yasir_io.specs.Reasons.{Explains};
ghost use Rattle.yasir_io.specs.Edge.{file_of, file_path, file_options, file_faults, file_reason};
ghost use Rattle.yasir_io.specs.Edge.{slots_file, slots_path, slots_kind, slots_options};
ghost use Rattle.yasir_io.specs.Edge.{slots_faults, slots_reason, slots_written, slots_synced};
ghost use Rattle.yasir_io.specs.SlotFiles.{for_reading, for_slots, is_made, slot_end};
ghost use Rattle.yasir_io.specs.SlotFiles.{ReadsOld, ReadsSlot, WritesIn};
ghost use Rattle.yasir_io.specs.Opening.{OnOpen, OnOwn};

use crate::faults::Faults;
use crate::lazy_file::{LazyFile, OwnFile, SlotsInFile, end_of, old_place_of, place_of};
use crate::{
    Durable, Failed, Lock, OldSlotBytes, OpensFiles, Reason, Slot, SlotBytes, SlotDisk, Source,
    TellsReason,
};
use std::fs::OpenOptions;

/// What is expected of the file of a disk.
#[derive(Clone, Copy, Debug, PartialEq, Eq)]
pub enum SlotFile {
    /// It exists. A missing file is a fault.
    Standing,
    /// Its slots haven't been written yet. A missing file is made. The first write is a fault if
    /// any slot, old or new, has a byte other than 0, so that no other file is overwritten.
    New,
}

impl SlotFile {
    fn is_made(self) -> bool
        ensures { result ≡ is_made self }
    {
        match self {
            SlotFile::Standing => false,
            SlotFile::New => true,
        }
    }
}

/// How far the writes of a disk reach into its file, and how far those reached that came before the
/// last sync of the whole file. A write that reaches no farther than those is in place: the file
/// already had bytes there, and its length is on the disk.
#[derive(Clone, Copy)]
struct Reach {
    written: u64,
    synced: u64,
}

impl Reach {
    fn none() -> Reach
        ensures written { result.written ≡ 0 }
        ensures synced { result.synced ≡ 0 }
    {
        Reach {
            written: 0,
            synced: 0,
        }
    }

    // Begins a write to a slot.
    fn write(&mut self, slot: Slot)
        ensures reaches { self.new.written ≡ max self.old.written (slot_end slot) }
        ensures same { self.new.synced ≡ self.old.synced }
    {
        self.written = self.written.max(end_of(slot));
    }

    // Whether a write may have made the file longer since it was synced.
    fn is_longer(&self) -> bool
        ensures { result ≡ nat_lt self.now.synced self.now.written }
    {
        self.synced < self.written
    }

    // The whole file was synced.
    fn sync(&mut self)
        ensures synced { self.new.synced ≡ self.old.written }
        ensures same { self.new.written ≡ self.old.written }
    {
        self.synced = self.written;
    }
}

/// A file as a source. It is a fault if there is no path, or if the file can't be opened.
#[derive(Drop)]
pub struct FileSource<'a, R: OpensFiles> {
    file: LazyFile<'a, R>,
    faults: Faults,
}

impl<'a, R: OpensFiles> FileSource<'a, R> {
    /// Returns a source of the file at a path. The file isn't opened yet.
    pub fn new(rt: &'a R, path: Option<String>) -> FileSource<'a, R>
        /// No read of it has failed.
        ensures faults { file_faults result ≡ 0 }
        /// So it has no reason to tell.
        ensures reason { file_reason result ≡ None }
        /// No file is open.
        ensures closed { file_of result ≡ None }
        /// It has this path.
        ensures path { file_path result ≡ path }
        /// It will open the file for reading only.
        ensures options { file_options result ≡ for_reading }
    {
        let mut options = OpenOptions::new();
        options.read(true);
        FileSource {
            file: LazyFile::new(rt, path, options),
            faults: Faults::none(),
        }
    }
}

impl<'a, R: OpensFiles> TellsReason for FileSource<'a, R> {
    ghost told_reason = { λ source. file_reason source };

    fn reason(&self) -> Option<Reason> {
        self.faults.reason
    }
}

impl<'a, R: OpensFiles> Source for FileSource<'a, R> {
    ghost left = { λ _. None };

    ghost faults = { λ source. file_faults source };

    fn read(&mut self, buf: &mut [u8]) -> Result<usize, Failed>
        ensures within { IfOk result (λ n. n ≤ length buf.new) }
        ensures reads { OnOpen R.opened R.refused (file_options self.old) (file_path self.old)
            (file_of self.old) (file_of self.new) result
            (λ f g. ReadConsumes (R.File.remaining f) (R.File.remaining g) result buf.new) }
        ensures options { file_options self.new ≡ file_options self.old }
        ensures path { file_path self.new ≡ file_path self.old }
        ensures cause { HasCause (file_faults self.old) (file_faults self.new) result }
        ensures reason { Explains (file_reason self.old) (file_reason self.new) result }
    {
        match self.file.read(buf) {
            Ok(n) => Ok(n),
            Err(error) => Err(self.faults.add_for(&error)),
        }
    }
}

/// A file as a disk: old slot A is in bytes 0 to 15, old slot B in bytes 16 to 31, slot A in bytes
/// 32 to 55, and slot B in bytes 56 to 79. Bytes past the end of the file read as 0. It is a fault
/// if there is no path, if the file can't be opened or another run has locked it, or if a write is
/// cut short.
///
/// The file is locked from the first call that opens it until the disk is dropped.
#[derive(Drop)]
pub struct FileSlots<'a, R: OpensFiles> {
    file: SlotsInFile<'a, R>,
    kind: SlotFile,
    reach: Reach,
    faults: Faults,
}

impl<'a, R: OpensFiles> FileSlots<'a, R>
where
    R::File: Lock + Durable,
{
    /// Returns a disk in the file at a path. The file isn't opened yet.
    pub fn new(rt: &'a R, path: Option<String>, kind: SlotFile) -> FileSlots<'a, R>
        /// No call of it has failed.
        ensures faults { slots_faults result ≡ 0 }
        /// So it has no reason to tell.
        ensures reason { slots_reason result ≡ None }
        /// No file is open.
        ensures closed { slots_file result ≡ OwnFile.Closed }
        /// It has this path.
        ensures path { slots_path result ≡ path }
        /// It will open the file for reading and writing, without truncating it, and make it only
        /// for a new journal.
        ensures options { slots_options result ≡ for_slots kind }
        /// It is of this kind.
        ensures kind { slots_kind result ≡ kind }
        /// No write was begun.
        ensures written { slots_written result ≡ 0 }
        /// Nothing was synced.
        ensures synced { slots_synced result ≡ 0 }
    {
        let mut options = OpenOptions::new();
        options.read(true).write(true).create(kind.is_made());
        FileSlots {
            file: SlotsInFile::new(rt, path, options),
            kind,
            reach: Reach::none(),
            faults: Faults::none(),
        }
    }
}

impl<'a, R: OpensFiles> TellsReason for FileSlots<'a, R> {
    ghost told_reason = { λ disk. slots_reason disk };

    fn reason(&self) -> Option<Reason> {
        self.faults.reason
    }
}

impl<'a, R: OpensFiles> SlotDisk for FileSlots<'a, R>
where
    R::File: Lock + Durable,
{
    ghost told = { λ _. None };

    ghost may_leave = { λ _ _. ⊥ };

    ghost moment = { λ _. 0 };

    ghost left_since = { λ _ _ _. ⊥ };

    ghost faults = { λ disk. slots_faults disk };

    ghost reads_an_image = { λ disk s c told image. absurd image };

    ghost counts_now = { λ disk t c le image. image };

    ghost only_now = { λ disk c image. image };

    fn read_old(&mut self, slot: Slot) -> Result<OldSlotBytes, Failed>
        ensures reads { OnOwn R.opened R.refused R.File.taken R.File.synced
            (slots_options self.old) (slots_path self.old) (slots_file self.old)
            (slots_file self.new) result
            (λ f g. IfOk result (ReadsOld R.File.Seek R.File.Read slot f g)) }
        ensures options { slots_options self.new ≡ slots_options self.old }
        ensures path { slots_path self.new ≡ slots_path self.old }
        ensures kind { slots_kind self.new ≡ slots_kind self.old }
        ensures written { slots_written self.new ≡ slots_written self.old }
        ensures synced { slots_synced self.new ≡ slots_synced self.old }
        ensures cause { HasCause (slots_faults self.old) (slots_faults self.new) result }
        ensures reason { Explains (slots_reason self.old) (slots_reason self.new) result }
    {
        match self.file.read_at(old_place_of(slot)) {
            Ok(bytes) => Ok(bytes),
            Err(error) => Err(self.faults.add_for(&error)),
        }
    }

    fn read_slot(&mut self, slot: Slot) -> Result<SlotBytes, Failed>
        ensures reads { OnOwn R.opened R.refused R.File.taken R.File.synced
            (slots_options self.old) (slots_path self.old) (slots_file self.old)
            (slots_file self.new) result
            (λ f g. IfOk result (ReadsSlot R.File.Seek R.File.Read slot f g)) }
        ensures options { slots_options self.new ≡ slots_options self.old }
        ensures path { slots_path self.new ≡ slots_path self.old }
        ensures kind { slots_kind self.new ≡ slots_kind self.old }
        ensures written { slots_written self.new ≡ slots_written self.old }
        ensures synced { slots_synced self.new ≡ slots_synced self.old }
        ensures cause { HasCause (slots_faults self.old) (slots_faults self.new) result }
        ensures reason { Explains (slots_reason self.old) (slots_reason self.new) result }
    {
        match self.file.read_at(place_of(slot)) {
            Ok(bytes) => Ok(bytes),
            Err(error) => Err(self.faults.add_for(&error)),
        }
    }

    /// From its first write on, a new file counts as one that exists.
    fn write_slot(&mut self, slot: Slot, bytes: &SlotBytes) -> Result<(), Failed>
        ensures writes { OnOwn R.opened R.refused R.File.taken R.File.synced
            (slots_options self.old) (slots_path self.old) (slots_file self.old)
            (slots_file self.new) result
            (λ f g. OnOk result (WritesIn R.File.Seek R.File.Read R.File.Write
            (slots_kind self.old) slot f g bytes.now)) }
        ensures options { slots_options self.new ≡ slots_options self.old }
        ensures path { slots_path self.new ≡ slots_path self.old }
        ensures stands { OnOk result (slots_kind self.new ≡ SlotFile.Standing) }
        ensures kind { OnErr result (slots_kind self.new ≡ slots_kind self.old) }
        ensures written { slots_written self.new ≡ max (slots_written self.old) (slot_end slot) }
        ensures synced { slots_synced self.new ≡ slots_synced self.old }
        ensures cause { HasCause (slots_faults self.old) (slots_faults self.new) result }
        ensures reason { Explains (slots_reason self.old) (slots_reason self.new) result }
    {
        self.reach.write(slot);
        match self.file.write_slot(self.kind, slot, bytes) {
            Ok(()) => {
                self.kind = SlotFile::Standing;
                Ok(())
            }
            Err(error) => Err(self.faults.add_for(&error)),
        }
    }

    /// Syncs the whole file if a write may have made it longer, and otherwise only what is needed
    /// to read its bytes.
    fn sync(&mut self) -> Result<(), Failed>
        ensures file { OnOwn R.opened R.refused R.File.taken R.File.synced
            (slots_options self.old) (slots_path self.old) (slots_file self.old)
            (slots_file self.new) result
            (λ f g. (g ≡ f) × OnOk result (R.File.synced g
            (nat_lt (slots_synced self.old) (slots_written self.old)))) }
        ensures options { slots_options self.new ≡ slots_options self.old }
        ensures path { slots_path self.new ≡ slots_path self.old }
        ensures kind { slots_kind self.new ≡ slots_kind self.old }
        ensures written { slots_written self.new ≡ slots_written self.old }
        ensures synced { OnOk result (slots_synced self.new ≡ slots_written self.old) }
        ensures not_synced { OnErr result (slots_synced self.new ≡ slots_synced self.old) }
        ensures cause { HasCause (slots_faults self.old) (slots_faults self.new) result }
        ensures reason { Explains (slots_reason self.old) (slots_reason self.new) result }
    {
        let whole = self.reach.is_longer();
        match self.file.sync(whole) {
            Ok(()) => {
                self.reach.sync();
                Ok(())
            }
            Err(error) => Err(self.faults.add_for(&error)),
        }
    }
}
