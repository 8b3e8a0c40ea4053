// The shelf.
ghost use Rattle.std.specs.Prelude.{◌≡◌, ◌+◌, ◌<◌, ◌≤◌, ◌^◌, true, false, length, Ok, IfOk, OnOk, IsErr};
ghost use Rattle.disk_fs.specs.Device.{Counted, GivesUp};

use crate::folder::Folder;
use crate::names::Access;
use crate::syncs::is_of_check;
use crate::troubles::{Call, Failure, Troubles};
use disk::{DeviceError, FileId, History, Shelf};
use log::{Log, warn};
use std::alloc::Global;
use std::io;
use std::io::ErrorKind;
use std::os::fd::AsRawFd;
use std::os::unix::fs::FileExt;
use std::rt::Files;

/// The most bytes of a file, as of any `Shelf`.
const MAX_LENGTH: u64 = 1 << 62;

/// The files of a folder, by their names as `FileId` prints them. A file that isn't there is an empty one, and a write makes
/// it.
///
/// A failure of the system is a `DeviceError`, and so are a write past 2^62 bytes and want of memory. Where a sync has failed
/// (a caller's, that of a folder that got a new file, or that before a file is closed) each later call fails, reads too:
/// what the system then holds of the files need not be what the disk has. A sync begins anew, as an opening does, and so does a
/// cut to nothing, as the making of a file does: all files are closed and opened again, and the first sync of each drops what
/// the system holds of it.
///
/// The log tells each failure by its file, its call and what the system said; the same one again only once that call went well. A
/// call that fails for a sync before it is told no more: nothing is asked of the system then.
///
/// At most eight files stay open, and the folder itself.
#[derive(Drop)]
pub struct FsShelf<R: Files> {
    folder: Folder<R>,
    troubles: Troubles,
    // The failures so far.
    failures: History<()>,
}

impl<R: Files + Log + Drop> FsShelf<R>
where
    R::File: FileExt + AsRawFd,
{
    /// The files of the folder of this path. Nothing is asked of the system yet; in a folder that isn't there reads find
    /// nothing, and writes fail. An empty path names no folder, and each call fails.
    pub fn new(rt: R, alloc: Global, path: String) -> FsShelf<R>
        ensures failures { length result.failures.items ≡ 0 }
        ensures syncs { result.folder.syncs.have_failed ≡ false }
    {
        FsShelf::opened_for(rt, alloc, path, Access::Writing)
    }

    /// The same to be read alone, so that it takes no leave to write: a write fails, and so does a cut that shortens a file.
    pub fn reading(rt: R, alloc: Global, path: String) -> FsShelf<R>
        ensures failures { length result.failures.items ≡ 0 }
        ensures syncs { result.folder.syncs.have_failed ≡ false }
    {
        FsShelf::opened_for(rt, alloc, path, Access::Reading)
    }

    // The files of the folder, opened for this.
    fn opened_for(rt: R, alloc: Global, path: String, access: Access) -> FsShelf<R>
        ensures failures { length result.failures.items ≡ 0 }
        ensures syncs { result.folder.syncs.have_failed ≡ false }
    {
        FsShelf {
            folder: Folder::new(rt, alloc, path, access),
            troubles: Troubles::new(alloc),
            failures: History::new(),
        }
    }

    // Answers as the folder did to this call, and counts a failure, which the log tells where that is news.
    fn answer<T>(
        &mut self,
        file: FileId,
        call: Call,
        answered: io::Result<T>,
    ) -> Result<T, DeviceError>
        ensures value { IfOk result (λ value. answered ≡ Ok value) }
        ensures failed { IsErr answered → IsErr result }
        ensures counted { Counted result (length self.old.failures.items) (length self.new.failures.items) }
        ensures folder { self.new.folder ≡ self.old.folder }
    {
        match answered {
            Ok(value) => {
                self.troubles.end(file, call);
                Ok(value)
            }
            Err(error) => {
                self.failures = self.failures.and(&());
                self.tell(file, call, &error);
                Err(DeviceError)
            }
        }
    }

    // Has the log tell why a call failed, where that is news.
    fn tell(&mut self, file: FileId, call: Call, error: &io::Error)
        ensures failures { self.new.failures ≡ self.old.failures }
        ensures folder { self.new.folder ≡ self.old.folder }
    {
        if is_of_check(error) {
            return;
        }
        let code = error.raw_os_error();
        if self.troubles.meet(Failure { file, call, code }) {
            warn!(self.folder.names.rt; "{file}: {call} failed: {error}");
        }
    }
}

// Whether so many bytes from the offset on don't pass the most bytes of a file.
fn fits(offset: u64, count: usize) -> bool
    ensures { result ≡ true → offset + count ≤ 2 ^ 62 }
{
    offset <= MAX_LENGTH && count as u64 <= MAX_LENGTH - offset
}

impl<R: Files + Log + Drop> Shelf for FsShelf<R>
where
    R::File: FileExt + AsRawFd,
{
    ghost use Rattle.disk_fs.specs.Device.{disk_counting, lawful_counting};

    ghost disk = { λ shelf. disk_counting (length shelf.failures.items) };

    ghost lawful = { λ shelf honest. lawful_counting (length shelf.failures.items) honest };

    fn read(&mut self, file: FileId, offset: u64, buffer: &mut [u8]) -> Result<usize, DeviceError>
        ensures count { IfOk result (λ n. n ≤ length buffer.old) }
        ensures counted { Counted result (length self.old.failures.items) (length self.new.failures.items) }
        ensures given_up { GivesUp result self.old.folder.syncs.have_failed self.new.folder.syncs.have_failed }
    {
        let answered = self.folder.read(file, offset, buffer);
        self.answer(file, Call::Read { offset }, answered)
    }

    fn write_at(&mut self, file: FileId, offset: u64, bytes: &[u8]) -> Result<(), DeviceError>
        ensures fits { OnOk result (offset + length bytes.now ≤ 2 ^ 62) }
        ensures counted { Counted result (length self.old.failures.items) (length self.new.failures.items) }
        ensures given_up { GivesUp result self.old.folder.syncs.have_failed self.new.folder.syncs.have_failed }
    {
        let answered = if fits(offset, bytes.len()) {
            self.folder.write_at(file, offset, bytes)
        } else {
            Err(io::Error::from(ErrorKind::FileTooLarge))
        };
        self.answer(file, Call::Write, answered)
    }

    fn cut(&mut self, file: FileId, len: u64) -> Result<(), DeviceError>
        ensures counted { Counted result (length self.old.failures.items) (length self.new.failures.items) }
        ensures given_up { 0 < len → GivesUp result self.old.folder.syncs.have_failed self.new.folder.syncs.have_failed }
    {
        let answered = self.folder.cut(file, len);
        self.answer(file, Call::Cut, answered)
    }

    fn sync(&mut self, file: FileId) -> Result<(), DeviceError>
        ensures counted { Counted result (length self.old.failures.items) (length self.new.failures.items) }
        ensures believed { OnOk result (self.new.folder.syncs.have_failed ≡ false) }
    {
        let call = if self.folder.is_written(file) {
            Call::Sync
        } else {
            Call::Settle
        };
        let answered = self.folder.sync(file);
        self.answer(file, call, answered)
    }

    fn length(&mut self, file: FileId) -> Result<u64, DeviceError>
        ensures bounded { IfOk result (λ n. n ≤ 2 ^ 62) }
        ensures counted { Counted result (length self.old.failures.items) (length self.new.failures.items) }
        ensures given_up { GivesUp result self.old.folder.syncs.have_failed self.new.folder.syncs.have_failed }
    {
        let answered = match self.folder.length(file) {
            Ok(len) if len > MAX_LENGTH => Err(io::Error::from(ErrorKind::FileTooLarge)),
            answered => answered,
        };
        self.answer(file, Call::Length, answered)
    }
}
