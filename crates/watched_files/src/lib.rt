//! Real files whose calls are watched, for tests: whoever watches is told of each call before it is made, and may have it fail, or
//! move few bytes. Nothing is promised here.
#![tactic(auto)]

use log::kv::Source;
use log::span::Spans;
use log::{Log, Record};
use std::alloc::Allocator;
use std::fmt::Display;
use std::fs::{Metadata, OpenFile, OpenOptions};
use std::io;
use std::io::{Read, Seek, SeekFrom, Write};
use std::os::fd::{AsRawFd, RawFd};
use std::os::unix::fs::FileExt;
use std::rt::Files;

/// What is asked of the system.
#[derive(Clone, Copy, Debug, PartialEq, Eq)]
pub enum Call {
    Open,
    Read,
    Write,
    Length,
    SetLength,
    SyncFile,
    SyncFolder,
}

/// Who watches the calls.
pub trait Watch {
    /// A call is about to be made. An error is what it answers instead.
    fn meet(&self, call: Call) -> io::Result<()>;

    /// The most bytes that one read or write moves.
    fn piece(&self) -> usize;
}

/// The runtime's files, as they are watched.
#[derive(Drop)]
pub struct Watched<'a, R, W> {
    pub rt: &'a R,
    pub watch: &'a W,
}

/// A file of the runtime, as it is watched.
#[derive(Drop)]
pub struct WatchedFile<'a, F, W> {
    file: F,
    watch: &'a W,
}

// It logs where the runtime does.
impl<'a, R: Log, W> Log for Watched<'a, R, W> {
    fn enabled(&self, metadata: &log::Metadata<'_>) -> bool {
        self.rt.enabled(metadata)
    }

    fn log<D: Display, K: Source, S: Spans>(&self, record: &Record<'_, D, K, S>) {
        self.rt.log(record);
    }

    fn flush(&self) {
        self.rt.flush();
    }

    fn target(&self) -> &str {
        self.rt.target()
    }
}

impl<'a, R: Files, W: Watch> Files for Watched<'a, R, W> {
    type File = WatchedFile<'a, R::File, W>;

    type Dir = R::Dir;

    fn open_file(&self, how: &OpenOptions, path: &str) -> io::Result<WatchedFile<'a, R::File, W>> {
        self.watch.meet(Call::Open)?;
        Ok(WatchedFile {
            file: self.rt.open_file(how, path)?,
            watch: self.watch,
        })
    }

    fn open_dir(&self, path: &str) -> io::Result<R::Dir> {
        self.rt.open_dir(path)
    }

    fn metadata(&self, path: &str) -> io::Result<Metadata> {
        self.rt.metadata(path)
    }

    fn symlink_metadata(&self, path: &str) -> io::Result<Metadata> {
        self.rt.symlink_metadata(path)
    }

    fn copy(&self, from: &str, to: &str) -> io::Result<u64> {
        self.rt.copy(from, to)
    }

    fn rename(&self, from: &str, to: &str) -> io::Result<()> {
        self.rt.rename(from, to)
    }

    fn remove_file(&self, path: &str) -> io::Result<()> {
        self.rt.remove_file(path)
    }

    fn create_dir(&self, path: &str) -> io::Result<()> {
        self.rt.create_dir(path)
    }

    fn remove_dir(&self, path: &str) -> io::Result<()> {
        self.rt.remove_dir(path)
    }

    fn remove_dir_all<B: Allocator>(&self, alloc: B, path: &str) -> io::Result<()> {
        self.rt.remove_dir_all(alloc, path)
    }
}

impl<'a, F: OpenFile, W: Watch> OpenFile for WatchedFile<'a, F, W> {
    fn metadata(&self) -> io::Result<Metadata> {
        self.watch.meet(Call::Length)?;
        self.file.metadata()
    }

    fn set_len(&self, size: u64) -> io::Result<()> {
        self.watch.meet(Call::SetLength)?;
        self.file.set_len(size)
    }

    fn sync_all(&self) -> io::Result<()> {
        self.watch.meet(Call::SyncFolder)?;
        self.file.sync_all()
    }

    fn sync_data(&self) -> io::Result<()> {
        self.watch.meet(Call::SyncFile)?;
        self.file.sync_data()
    }
}

impl<'a, F: FileExt, W: Watch> FileExt for WatchedFile<'a, F, W> {
    fn read_at(&self, buf: &mut [u8], offset: u64) -> io::Result<usize> {
        self.watch.meet(Call::Read)?;
        let count = buf.len().min(self.watch.piece());
        self.file.read_at(&mut buf[..count], offset)
    }

    fn write_at(&self, buf: &[u8], offset: u64) -> io::Result<usize> {
        self.watch.meet(Call::Write)?;
        let count = buf.len().min(self.watch.piece());
        self.file.write_at(&buf[..count], offset)
    }
}

// What a shelf has advised of a file isn't counted, and doesn't fail.
impl<'a, F: AsRawFd, W: Watch> AsRawFd for WatchedFile<'a, F, W> {
    fn as_raw_fd(&self) -> RawFd {
        self.file.as_raw_fd()
    }
}

impl<'a, F: Read, W: Watch> Read for WatchedFile<'a, F, W> {
    fn read(&mut self, buf: &mut [u8]) -> io::Result<usize> {
        self.file.read(buf)
    }
}

impl<'a, F: Write, W: Watch> Write for WatchedFile<'a, F, W> {
    fn write(&mut self, buf: &[u8]) -> io::Result<usize> {
        self.file.write(buf)
    }

    fn flush(&mut self) -> io::Result<()> {
        self.file.flush()
    }
}

impl<'a, F: Seek, W: Watch> Seek for WatchedFile<'a, F, W> {
    fn seek(&mut self, to: SeekFrom) -> io::Result<u64> {
        self.file.seek(to)
    }
}
