//! A file system with one file, of which a chosen call fails.
ghost use Rattle.std.specs.Io.{ReadsAtMost, WritesAtMost};

use std::alloc::Allocator;
use std::cell::Cell;
use std::fs::{Metadata, OpenFile, OpenOptions};
use std::io::{self, ErrorKind, Read, Seek, SeekFrom, Write};
use std::rt::Files;
use yasir_io::{Durable, Lock, OpensFiles};

/// How many bytes the file has room for.
pub const ROOM: usize = 88;

/// The only path of the file system. Its blanks belong to it, and it is longer than 64 bytes.
pub const PATH: &str =
    " a folder whose name is rather long/another one that is in it/the file of slots ";

/// A file system with one file. A call moves at most `piece` bytes, and call `fail`, counted from 1,
/// fails.
#[derive(Drop)]
pub struct OneFile {
    /// Its bytes, of which `len` count.
    pub bytes: Cell<[u8; ROOM]>,
    /// How many bytes it has.
    pub len: Cell<usize>,
    /// Whether it exists.
    pub exists: Cell<bool>,
    locked: Cell<bool>,
    piece: usize,
    fail: u32,
    /// How often it was called.
    pub calls: Cell<u32>,
    /// How often it was opened.
    pub openings: Cell<u32>,
    /// How often it was synced whole.
    pub syncs: Cell<u32>,
    /// How often only its data was synced.
    pub data_syncs: Cell<u32>,
    /// Whether a sync is missing.
    pub unsynced: Cell<bool>,
    // Whether the file has become longer since it was last synced whole. If so, a sync of only its
    // data leaves it unsynced.
    longer: Cell<bool>,
}

impl OneFile {
    fn begin(&self) -> io::Result<()> {
        let call = self.calls.get().saturating_add(1);
        self.calls.set(call);
        if call == self.fail {
            return Err(ErrorKind::Other.into());
        }
        Ok(())
    }
}

/// A file of `len` bytes: 0, 1, 2 and so on. An earlier run has left it unsynced.
pub fn file_of(len: usize, piece: usize, fail: u32) -> OneFile {
    let mut bytes = [0; ROOM];
    let mut next = 0u8;
    for byte in bytes.iter_mut() {
        *byte = next;
        next = next.wrapping_add(1);
    }
    OneFile {
        bytes: Cell::new(bytes),
        len: Cell::new(len),
        exists: Cell::new(true),
        locked: Cell::new(false),
        piece,
        fail,
        calls: Cell::new(0),
        openings: Cell::new(0),
        syncs: Cell::new(0),
        data_syncs: Cell::new(0),
        unsynced: Cell::new(true),
        longer: Cell::new(true),
    }
}

/// The folder of the file.
#[derive(Drop)]
pub struct Folder<'a>(pub &'a OneFile);

/// The file after it was opened.
pub struct Opened<'a> {
    file: &'a OneFile,
    place: usize,
    writes: bool,
    has_lock: Cell<bool>,
}

impl Drop for Opened<'_> {
    fn drop(self) {
        if self.has_lock.get() {
            self.file.locked.set(false);
        }
        let Opened {
            file: _,
            place: _,
            writes: _,
            has_lock: _,
        } = self;
    }
}

impl Lock for Opened<'_> {
    fn try_lock(&mut self) -> io::Result<()> {
        self.file.begin()?;
        if self.file.locked.get() && !self.has_lock.get() {
            return Err(ErrorKind::WouldBlock.into());
        }
        self.file.locked.set(true);
        self.has_lock.set(true);
        Ok(())
    }
}

impl Durable for Opened<'_> {
    fn sync(&self, whole: bool) -> io::Result<()> {
        if whole {
            return self.sync_all();
        }
        self.sync_data()
    }
}

impl Opened<'_> {
    fn give(&mut self, buf: &mut [u8]) -> io::Result<usize>
        ensures { ReadsAtMost result buf.new }
    {
        self.file.begin()?;
        let bytes = self.file.bytes.get();
        let left = bytes.get(self.place..self.file.len.get()).unwrap_or(&[]);
        let n = left.len().min(buf.len()).min(self.file.piece);
        buf[..n].copy_from_slice(&left[..n]);
        self.place = self.place.saturating_add(n);
        Ok(n)
    }

    fn take(&mut self, buf: &[u8]) -> io::Result<usize>
        ensures { WritesAtMost result buf.now }
    {
        self.file.begin()?;
        if !self.writes || self.place > ROOM {
            return Err(ErrorKind::PermissionDenied.into());
        }
        let n = buf.len().min(ROOM - self.place).min(self.file.piece);
        let mut bytes = self.file.bytes.get();
        bytes[self.place..self.place + n].copy_from_slice(&buf[..n]);
        self.file.bytes.set(bytes);
        self.place += n;
        if self.file.len.get() < self.place {
            self.file.len.set(self.place);
            self.file.longer.set(true);
        }
        self.file.unsynced.set(true);
        Ok(n)
    }
}

impl Read for Opened<'_> {
    fn read(&mut self, buf: &mut [u8]) -> io::Result<usize> {
        self.give(buf)
    }
}

impl Write for Opened<'_> {
    fn write(&mut self, buf: &[u8]) -> io::Result<usize> {
        self.take(buf)
    }

    fn flush(&mut self) -> io::Result<()> {
        Ok(())
    }
}

impl Seek for Opened<'_> {
    fn seek(&mut self, to: SeekFrom) -> io::Result<u64> {
        self.file.begin()?;
        let SeekFrom::Start(place) = to else {
            return Err(ErrorKind::Unsupported.into());
        };
        self.place = usize::try_from(place).unwrap_or(ROOM);
        Ok(place)
    }
}

impl OpenFile for Opened<'_> {
    fn metadata(&self) -> io::Result<Metadata> {
        Err(ErrorKind::Unsupported.into())
    }

    fn set_len(&self, _size: u64) -> io::Result<()> {
        Err(ErrorKind::Unsupported.into())
    }

    fn sync_all(&self) -> io::Result<()> {
        self.file.begin()?;
        self.file.syncs.set(self.file.syncs.get().saturating_add(1));
        self.file.unsynced.set(false);
        self.file.longer.set(false);
        Ok(())
    }

    fn sync_data(&self) -> io::Result<()> {
        self.file.begin()?;
        let count = self.file.data_syncs.get().saturating_add(1);
        self.file.data_syncs.set(count);
        self.file.unsynced.set(self.file.longer.get());
        Ok(())
    }
}

impl<'a> OpensFiles for Folder<'a> {
    fn open_at(&self, how: &OpenOptions, path: &str) -> io::Result<Opened<'a>> {
        how.open(self, path)
    }
}

impl<'a> Files for Folder<'a> {
    type File = Opened<'a>;

    type Dir = Opened<'a>;

    fn open_file(&self, how: &OpenOptions, path: &str) -> io::Result<Opened<'a>> {
        how.check()?;
        self.0.begin()?;
        if path != PATH || !self.0.exists.get() && !how.asks_create() {
            return Err(ErrorKind::NotFound.into());
        }
        self.0.exists.set(true);
        if how.asks_truncate() || how.asks_append() || how.asks_create_new() {
            self.0.len.set(0);
        }
        self.0.openings.set(self.0.openings.get().saturating_add(1));
        Ok(Opened {
            file: self.0,
            place: 0,
            writes: how.asks_write(),
            has_lock: Cell::new(false),
        })
    }

    fn open_dir(&self, _path: &str) -> io::Result<Opened<'a>> {
        Err(ErrorKind::Unsupported.into())
    }

    fn metadata(&self, _path: &str) -> io::Result<Metadata> {
        Err(ErrorKind::Unsupported.into())
    }

    fn symlink_metadata(&self, _path: &str) -> io::Result<Metadata> {
        Err(ErrorKind::Unsupported.into())
    }

    fn copy(&self, _from: &str, _to: &str) -> io::Result<u64> {
        Err(ErrorKind::Unsupported.into())
    }

    fn rename(&self, _from: &str, _to: &str) -> io::Result<()> {
        Err(ErrorKind::Unsupported.into())
    }

    fn remove_file(&self, _path: &str) -> io::Result<()> {
        Err(ErrorKind::Unsupported.into())
    }

    fn create_dir(&self, _path: &str) -> io::Result<()> {
        Err(ErrorKind::Unsupported.into())
    }

    fn remove_dir(&self, _path: &str) -> io::Result<()> {
        Err(ErrorKind::Unsupported.into())
    }

    fn remove_dir_all<B: Allocator>(&self, _alloc: B, _path: &str) -> io::Result<()> {
        Err(ErrorKind::Unsupported.into())
    }
}
