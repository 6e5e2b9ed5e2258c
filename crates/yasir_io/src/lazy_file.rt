//! A file opened at the first call that needs it, and slots that are read and written in it.
ghost use Rattle.std.specs.Prelude.{◌≡◌, ◌<◌, ◌≤◌, length, take, None, IsSome, IsOk, OnOk, OnErr};
ghost use Rattle.std.specs.Prelude.{IfOk, IfSome, replicate};
ghost use Rattle.std.specs.Io.{ReadsAtMost};
ghost use Rattle.std.specs.Io.KnownBytes.{Appends, Consumes, IsAtEnd, ReadConsumes};
ghost use Rattle.yasir_io.specs.Opening.{IsOpened, IsRefused, OnOpen, OpensOnce, OnOwn};
ghost use Rattle.yasir_io.specs.SlotFiles.{old_place, slot_place, slot_end, slots_end};
ghost use Rattle.yasir_io.specs.SlotFiles.{MovesTo, ReadsNext, ReadsAt};
ghost use Rattle.yasir_io.specs.SlotFiles.{WritesSlot, WritesFirst, WritesIn};

use crate::files::SlotFile;
use crate::{Durable, Lock, OpensFiles, SLOT_LEN, Slot, SlotBytes};
use std::fs::OpenOptions;
use std::io::{self, Read, Seek, SeekFrom, Write};
use std::mem;

/// How many bytes of a file the slots take, old ones and new.
const SLOTS_END: usize = 80;

/// Where a file is, and how it is opened.
#[derive(Drop)]
pub(crate) struct NamedFile<'a, R: OpensFiles> {
    rt: &'a R,
    path: Option<String>,
    options: OpenOptions,
}

impl<'a, R: OpensFiles> NamedFile<'a, R> {
    // Opens the file.
    fn open(&self) -> io::Result<R::File>
        ensures opened { IfOk result (IsOpened R.opened self.now.options self.now.path) }
        ensures refused { OnErr result (IsRefused R.refused self.now.options self.now.path) }
    {
        match &self.path {
            Some(path) => self.rt.open_at(&self.options, path.as_str()),
            None => Err(io::ErrorKind::NotFound.into()),
        }
    }
}

/// A file that is opened at the first call that needs it.
#[derive(Drop)]
pub(crate) struct LazyFile<'a, R: OpensFiles> {
    name: NamedFile<'a, R>,
    file: Option<R::File>,
}

impl<'a, R: OpensFiles> LazyFile<'a, R> {
    pub(crate) fn new(rt: &'a R, path: Option<String>, options: OpenOptions) -> LazyFile<'a, R>
        ensures path { result.name.path ≡ path }
        ensures options { result.name.options ≡ options }
        ensures closed { result.file ≡ None }
    {
        LazyFile {
            name: NamedFile { rt, path, options },
            file: None,
        }
    }

    // Opens the file, unless it is open.
    #[inline(always)]
    fn open(&mut self) -> io::Result<()>
        ensures ready { OnOk result (IsSome self.new.file) }
        ensures opens { self.old.file ≡ None → OnOk result (IfSome self.new.file
            (IsOpened R.opened self.old.name.options self.old.name.path)) }
        ensures refused { OnErr result ((self.new.file ≡ None)
            × IsRefused R.refused self.old.name.options self.old.name.path) }
        ensures same { IsSome self.old.file → self.new.file ≡ self.old.file }
        ensures name { self.new.name ≡ self.old.name }
    {
        if self.file.is_none() {
            self.file = Some(self.name.open()?);
        }
        Ok(())
    }

    pub(crate) fn read(&mut self, buf: &mut [u8]) -> io::Result<usize>
        ensures within { ReadsAtMost result buf.new }
        ensures reads { OnOpen R.opened R.refused self.old.name.options self.old.name.path
            self.old.file self.new.file result
            (λ f g. ReadConsumes (R.File.remaining f) (R.File.remaining g) result buf.new) }
        ensures name { self.new.name ≡ self.old.name }
    {
        self.open()?;
        match &mut self.file {
            Some(file) => file.read(buf),
            None => Err(io::ErrorKind::NotFound.into()),
        }
    }
}

/// A file that a run takes for itself before it reads or writes it.
#[derive(Drop)]
pub(crate) enum OwnFile<F> {
    /// It hasn't been opened.
    Closed,
    /// It was opened. It wasn't locked, or not synced after that, and nothing else was done to it.
    Waiting(F),
    /// It was locked and then synced.
    Own(F),
}

/// A file of slots that is opened, locked and synced at the first call that needs it.
#[derive(Drop)]
pub(crate) struct SlotsInFile<'a, R: OpensFiles> {
    name: NamedFile<'a, R>,
    file: OwnFile<R::File>,
}

impl<'a, R: OpensFiles> SlotsInFile<'a, R>
where
    R::File: Lock + Durable,
{
    pub(crate) fn new(rt: &'a R, path: Option<String>, options: OpenOptions) -> SlotsInFile<'a, R>
        ensures path { result.name.path ≡ path }
        ensures options { result.name.options ≡ options }
        ensures closed { result.file ≡ OwnFile.Closed }
    {
        SlotsInFile {
            name: NamedFile { rt, path, options },
            file: OwnFile::Closed,
        }
    }

    // Opens the file, unless it was opened.
    fn open(&mut self) -> io::Result<()>
        ensures opens { OpensOnce R.opened R.refused self.old.name.options self.old.name.path
            self.old.file self.new.file result }
        ensures name { self.new.name ≡ self.old.name }
    {
        if let OwnFile::Closed = &self.file {
            self.file = OwnFile::Waiting(self.name.open()?);
        }
        Ok(())
    }

    // Takes the file for this run only, unless the run has it. A run that was killed may have left
    // writes that no sync has confirmed. They are synced before anything is read, since this run
    // goes on from what it reads.
    fn own(&mut self) -> io::Result<()>
        ensures owns { OnOwn R.opened R.refused R.File.taken R.File.synced
            self.old.name.options self.old.name.path self.old.file self.new.file result
            (λ f g. (g ≡ f) × IsOk result) }
        ensures name { self.new.name ≡ self.old.name }
    {
        self.open()?;
        if let OwnFile::Waiting(file) = &mut self.file {
            file.try_lock()?;
            file.sync(true)?;
        }
        self.file = match mem::replace(&mut self.file, OwnFile::Closed) {
            OwnFile::Waiting(file) => OwnFile::Own(file),
            file => file,
        };
        Ok(())
    }

    pub(crate) fn read_at<const N: usize>(&mut self, place: u64) -> io::Result<[u8; N]>
        ensures reads { OnOwn R.opened R.refused R.File.taken R.File.synced
            self.old.name.options self.old.name.path self.old.file self.new.file result
            (λ f g. IfOk result (ReadsAt R.File.Seek R.File.Read N place f g)) }
        ensures name { self.new.name ≡ self.old.name }
    {
        self.own()?;
        match &mut self.file {
            OwnFile::Own(file) => read_at(file, place),
            _ => Err(io::ErrorKind::NotFound.into()),
        }
    }

    pub(crate) fn write_slot(
        &mut self,
        kind: SlotFile,
        slot: Slot,
        bytes: &SlotBytes,
    ) -> io::Result<()>
        ensures writes { OnOwn R.opened R.refused R.File.taken R.File.synced
            self.old.name.options self.old.name.path self.old.file self.new.file result
            (λ f g. OnOk result (WritesIn R.File.Seek R.File.Read R.File.Write kind slot f g
            bytes.now)) }
        ensures name { self.new.name ≡ self.old.name }
    {
        self.own()?;
        match &mut self.file {
            OwnFile::Own(file) => write_in(file, kind, slot, bytes),
            _ => Err(io::ErrorKind::NotFound.into()),
        }
    }

    pub(crate) fn sync(&mut self, whole: bool) -> io::Result<()>
        ensures file { OnOwn R.opened R.refused R.File.taken R.File.synced
            self.old.name.options self.old.name.path self.old.file self.new.file result
            (λ f g. (g ≡ f) × OnOk result (R.File.synced g whole)) }
        ensures name { self.new.name ≡ self.old.name }
    {
        self.own()?;
        match &self.file {
            OwnFile::Own(file) => file.sync(whole),
            _ => Err(io::ErrorKind::NotFound.into()),
        }
    }
}

pub(crate) fn old_place_of(slot: Slot) -> u64
    ensures { result ≡ old_place slot }
{
    match slot {
        Slot::A => 0,
        Slot::B => 16,
    }
}

pub(crate) fn place_of(slot: Slot) -> u64
    ensures { result ≡ slot_place slot }
{
    match slot {
        Slot::A => 32,
        Slot::B => 56,
    }
}

// Returns the place after a slot's last byte.
pub(crate) fn end_of(slot: Slot) -> u64
    ensures { result ≡ slot_end slot }
{
    match slot {
        Slot::A => 56,
        Slot::B => 80,
    }
}

fn move_to<F: Seek>(file: &mut F, place: u64) -> io::Result<()>
    ensures { OnOk result (MovesTo F.Seek place file.old file.new) }
{
    file.seek(SeekFrom::Start(place))?;
    Ok(())
}

// Reads until the buffer is full or the end is reached, and returns how many bytes were read.
fn read_up_to<F: Read>(file: &mut F, buf: &mut [u8]) -> io::Result<usize>
    ensures within { IfOk result (λ n. n ≤ length buf.new) }
    ensures taken { IfOk result (λ n.
        Consumes (F.remaining file.old) (F.remaining file.new) (take n buf.new)) }
    ensures end { IfOk result (λ n. n < length buf.new → IsAtEnd (F.remaining file.new)) }
{
    let mut len = 0;
    while len < buf.len() {
        let n = file.read(&mut buf[len..])?;
        if n == 0 {
            return Ok(len);
        }
        len += n;
    }
    Ok(len)
}

// Reads the next bytes of a file. Past its end they are 0.
fn read_next<F: Read, const N: usize>(file: &mut F) -> io::Result<[u8; N]>
    ensures { IfOk result (ReadsNext F.Read N file.old file.new) }
{
    let mut read = [0; N];
    let n = read_up_to(file, &mut read)?;
    let mut bytes = [0; N];
    bytes[..n].copy_from_slice(&read[..n]);
    Ok(bytes)
}

fn read_at<F: Read + Seek, const N: usize>(file: &mut F, place: u64) -> io::Result<[u8; N]>
    ensures { IfOk result (ReadsAt F.Seek F.Read N place file.old file.new) }
{
    move_to(file, place)?;
    read_next(file)
}

// Writes all bytes of a slot. A write cut short is a fault.
fn write_next<F: Write>(file: &mut F, bytes: &SlotBytes) -> io::Result<()>
    ensures { OnOk result (Appends (F.contents file.old) (F.contents file.new) bytes.now) }
{
    if file.write(bytes)? < SLOT_LEN {
        return Err(io::ErrorKind::WriteZero.into());
    }
    Ok(())
}

fn write_at<F: Write + Seek>(file: &mut F, slot: Slot, bytes: &SlotBytes) -> io::Result<()>
    ensures { OnOk result (WritesSlot F.Seek F.Write slot file.old file.new bytes.now) }
{
    move_to(file, place_of(slot))?;
    write_next(file, bytes)
}

// Returns an error unless all slots are zeros, as those of a new file are.
fn expect_zeros<F: Read + Seek>(file: &mut F) -> io::Result<()>
    ensures { OnOk result (ReadsAt F.Seek F.Read slots_end 0 file.old file.new
        (replicate slots_end 0)) }
{
    let bytes: [u8; SLOTS_END] = read_at(file, 0)?;
    if bytes == [0; SLOTS_END] {
        return Ok(());
    }
    Err(io::ErrorKind::AlreadyExists.into())
}

fn write_first<F: Read + Write + Seek>(
    file: &mut F,
    slot: Slot,
    bytes: &SlotBytes,
) -> io::Result<()>
    ensures { OnOk result (WritesFirst F.Seek F.Read F.Write slot file.old file.new bytes.now) }
{
    expect_zeros(file)?;
    write_at(file, slot, bytes)
}

fn write_in<F: Read + Write + Seek>(
    file: &mut F,
    kind: SlotFile,
    slot: Slot,
    bytes: &SlotBytes,
) -> io::Result<()>
    ensures { OnOk result
        (WritesIn F.Seek F.Read F.Write kind slot file.old file.new bytes.now) }
{
    match kind {
        SlotFile::Standing => write_at(file, slot, bytes),
        SlotFile::New => write_first(file, slot, bytes),
    }
}
