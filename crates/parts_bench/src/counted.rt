// A device that counts what is asked of it.

ghost use Rattle.std.specs.Prelude.{◌≡◌};

use disk::{DeviceError, FileId, Shelf};

/// How often each kind of call was made, and how many bytes the calls moved.
#[derive(Clone, Copy, Debug, PartialEq, Eq)]
pub struct Counts {
    /// Writes, cuts and syncs.
    pub calls: u64,
    pub syncs: u64,
    pub written: u64,
    pub reads: u64,
    pub read: u64,
}

/// A device behind counters.
#[derive(Drop)]
pub struct CountedShelf<S: Shelf> {
    shelf: S,
    counts: Counts,
}

impl<S: Shelf> CountedShelf<S> {
    pub fn new(shelf: S) -> CountedShelf<S> {
        CountedShelf {
            shelf,
            counts: NONE,
        }
    }

    /// What was asked of it since the last time, or since it was made.
    pub fn take_counts(&mut self) -> Counts {
        let counts = self.counts;
        self.counts = NONE;
        counts
    }

    fn count_call(&mut self, bytes: usize)
        ensures { self.new.shelf ≡ self.old.shelf }
    {
        self.counts.calls = self.counts.calls.saturating_add(1);
        self.counts.written = self.counts.written.saturating_add(bytes as u64);
    }

    fn count_sync(&mut self)
        ensures { self.new.shelf ≡ self.old.shelf }
    {
        self.counts.calls = self.counts.calls.saturating_add(1);
        self.counts.syncs = self.counts.syncs.saturating_add(1);
    }

    fn count_read(&mut self, bytes: usize)
        ensures { self.new.shelf ≡ self.old.shelf }
    {
        self.counts.reads = self.counts.reads.saturating_add(1);
        self.counts.read = self.counts.read.saturating_add(bytes as u64);
    }
}

const NONE: Counts = Counts {
    calls: 0,
    syncs: 0,
    written: 0,
    reads: 0,
    read: 0,
};

impl<S: Shelf> Shelf for CountedShelf<S> {
    ghost disk = { λ counted. S.disk counted.shelf };

    ghost lawful = { λ counted honest. S.lawful counted.shelf honest };

    fn read(&mut self, file: FileId, offset: u64, buffer: &mut [u8]) -> Result<usize, DeviceError> {
        self.count_read(buffer.len());
        self.shelf.read(file, offset, buffer)
    }

    fn write_at(&mut self, file: FileId, offset: u64, bytes: &[u8]) -> Result<(), DeviceError> {
        self.count_call(bytes.len());
        self.shelf.write_at(file, offset, bytes)
    }

    fn cut(&mut self, file: FileId, len: u64) -> Result<(), DeviceError> {
        self.count_call(0);
        self.shelf.cut(file, len)
    }

    fn sync(&mut self, file: FileId) -> Result<(), DeviceError> {
        self.count_sync();
        self.shelf.sync(file)
    }

    fn length(&mut self, file: FileId) -> Result<u64, DeviceError> {
        self.shelf.length(file)
    }
}
