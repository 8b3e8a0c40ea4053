// Real files, of which some can't be opened.
use log::kv::Source;
use log::span::Spans;
use log::{Log, Record};
use std::alloc::{Allocator, Global};
use std::fmt::Display;
use std::fs::{File, Metadata, OpenOptions};
use std::io;
use std::io::ErrorKind;
use std::rt::Files;

/// The runtime's files, of which those whose path ends so can't be opened.
#[derive(Clone, Copy)]
pub(crate) struct Refusing<'a, R> {
    pub(crate) rt: &'a R,
    pub(crate) end: &'a str,
    pub(crate) kind: ErrorKind,
}

impl<'a, R: AllocGlobal> Alloc for Refusing<'a, R> {
    type A = Global;

    fn alloc(&self) -> Global {
        self.rt.alloc()
    }
}

// It logs where the runtime does.
impl<'a, R: Log> Log for Refusing<'a, R> {
    fn enabled(&self, metadata: &log::Metadata<'_>) -> bool {
        self.rt.enabled(metadata)
    }

    fn log<D: Display, K: Source, S: Spans>(&self, record: &Record<'_, D, K, S>) {
        self.rt.log(record);
    }

    fn flush(&self) {
        self.rt.flush();
    }

    fn target(&self) -> &str {
        self.rt.target()
    }
}

impl<'a, R: Files<File = File>> Files for Refusing<'a, R> {
    type File = File;

    type Dir = R::Dir;

    fn open_file(&self, how: &OpenOptions, path: &str) -> io::Result<File> {
        if path.ends_with(self.end) {
            return Err(io::Error::from(self.kind));
        }
        self.rt.open_file(how, path)
    }

    fn open_dir(&self, path: &str) -> io::Result<R::Dir> {
        self.rt.open_dir(path)
    }

    fn metadata(&self, path: &str) -> io::Result<Metadata> {
        self.rt.metadata(path)
    }

    fn symlink_metadata(&self, path: &str) -> io::Result<Metadata> {
        self.rt.symlink_metadata(path)
    }

    fn copy(&self, from: &str, to: &str) -> io::Result<u64> {
        self.rt.copy(from, to)
    }

    fn rename(&self, from: &str, to: &str) -> io::Result<()> {
        self.rt.rename(from, to)
    }

    fn remove_file(&self, path: &str) -> io::Result<()> {
        self.rt.remove_file(path)
    }

    fn create_dir(&self, path: &str) -> io::Result<()> {
        self.rt.create_dir(path)
    }

    fn remove_dir(&self, path: &str) -> io::Result<()> {
        self.rt.remove_dir(path)
    }

    fn remove_dir_all<B: Allocator>(&self, alloc: B, path: &str) -> io::Result<()> {
        self.rt.remove_dir_all(alloc, path)
    }
}
