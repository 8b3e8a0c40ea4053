// The files of a folder.
ghost use Rattle.std.specs.Prelude.{◌≡◌, ◌<◌, ◌≤◌, false, length, vec_len, IfOk, OnOk, IsTrue};
ghost use Rattle.disk_fs.specs.Device.{GivesUp};

use crate::names::{Access, Names};
use crate::opened::OpenedFiles;
use crate::reads::read_whole;
use crate::syncs::Syncs;
use disk::FileId;
use std::alloc::Global;
use std::fs::OpenFile;
use std::io;
use std::io::ErrorKind;
use std::os::fd::AsRawFd;
use std::os::unix::fs::FileExt;
use std::rt::Files;

/// A folder. A file stays open once it was used; where eight are open, the one that was used least lately is closed.
/// Once a sync has failed each call fails, but for one that begins anew: a sync, or a cut to nothing.
#[derive(Drop)]
pub(crate) struct Folder<R: Files> {
    pub(crate) names: Names<R>,
    opened: OpenedFiles<R::File>,
    pub(crate) syncs: Syncs,
}

impl<R: Files + Drop> Folder<R>
where
    R::File: FileExt + AsRawFd,
{
    pub(crate) fn new(rt: R, alloc: Global, path: String, access: Access) -> Folder<R>
        ensures { result.syncs.have_failed ≡ false }
    {
        Folder {
            names: Names {
                rt,
                alloc,
                path,
                access,
                folder: None,
                are_synced: false,
            },
            opened: OpenedFiles::new(alloc),
            syncs: Syncs { have_failed: false },
        }
    }

    // Where a sync has failed, closes all files, and the folder: each is then opened anew, and its first sync drops what the system
    // holds of it.
    fn begin_anew(&mut self)
        ensures { self.new.syncs.have_failed ≡ false }
    {
        if self.syncs.have_failed {
            self.opened.close_all();
            self.names.forget();
            self.syncs.begin_anew();
        }
    }

    // Closes a file, where too many are open. What was written to it is synced before: an error that its descriptor would
    // have told is told to no later one.
    fn make_place(&mut self) -> io::Result<()>
        ensures room { OnOk result (vec_len self.new.opened.files < 8) }
        ensures fine { OnOk result (self.new.syncs ≡ self.old.syncs) }
    {
        let Some(last) = self.opened.make_place() else {
            return Ok(());
        };
        if last.is_dirty {
            self.syncs.sync_file(&last.file)?;
        }
        Ok(())
    }

    // Opens the file, which then stands first. False where it isn't there and isn't to be made.
    fn open(&mut self, id: FileId, makes: bool) -> io::Result<bool>
        ensures first { IfOk result (λ there. IsTrue there → 0 < vec_len self.new.opened.files) }
        ensures fine { OnOk result (self.new.syncs ≡ self.old.syncs) }
    {
        self.opened.reserve()?;
        self.make_place()?;
        let Some(file) = self.names.open(id, makes, &mut self.syncs)? else {
            return Ok(false);
        };
        self.opened.put_first(id, file)?;
        Ok(true)
    }

    // Has the file stand first among those that are open. False where it isn't there and isn't to be made.
    fn use_file(&mut self, id: FileId, makes: bool) -> io::Result<bool>
        ensures first { IfOk result (λ there. IsTrue there → 0 < vec_len self.new.opened.files) }
        ensures believed { OnOk result (self.new.syncs.have_failed ≡ false) }
        ensures given_up { GivesUp result self.old.syncs.have_failed self.new.syncs.have_failed }
    {
        self.syncs.check()?;
        if self.opened.bring_first(id) {
            return Ok(true);
        }
        self.open(id, makes)
    }

    /// Reads from an offset on, up to the end of the buffer or of the file, and answers how many bytes it found.
    pub(crate) fn read(&mut self, id: FileId, offset: u64, buffer: &mut [u8]) -> io::Result<usize>
        ensures count { IfOk result (λ n. n ≤ length buffer.old) }
        ensures given_up { GivesUp result self.old.syncs.have_failed self.new.syncs.have_failed }
    {
        if !self.use_file(id, false)? {
            return Ok(0);
        }
        read_whole(&self.opened.files[0].file, offset, buffer)
    }

    /// Writes all of the bytes. A file that isn't there is made.
    pub(crate) fn write_at(&mut self, id: FileId, offset: u64, bytes: &[u8]) -> io::Result<()>
        ensures given_up { GivesUp result self.old.syncs.have_failed self.new.syncs.have_failed }
    {
        if !self.use_file(id, true)? {
            return Err(io::Error::from(ErrorKind::NotFound));
        }
        let it = &mut self.opened.files[0];
        it.is_dirty = true;
        it.file.write_all_at(bytes, offset)
    }

    /// Cuts the file to a length in bytes, where it is longer. A cut to nothing begins anew: nothing that was in the file counts.
    pub(crate) fn cut(&mut self, id: FileId, len: u64) -> io::Result<()>
        ensures given_up { 0 < len → GivesUp result self.old.syncs.have_failed self.new.syncs.have_failed }
    {
        if len == 0 {
            self.begin_anew();
        }
        if !self.use_file(id, false)? {
            return Ok(());
        }
        let it = &mut self.opened.files[0];
        if it.file.metadata()?.len() <= len {
            return Ok(());
        }
        it.is_dirty = true;
        it.file.set_len(len)
    }

    /// Whether a sync of the file has to write what was written to it, or cut from it, here.
    pub(crate) fn is_written(&self, id: FileId) -> bool {
        !self.syncs.have_failed && self.opened.is_written(id)
    }

    /// Syncs the file, also where nothing was written to it here, since an earlier process may have written. What is read then is
    /// what the disk has, also where a sync had failed: it begins anew.
    pub(crate) fn sync(&mut self, id: FileId) -> io::Result<()>
        ensures { OnOk result (self.new.syncs.have_failed ≡ false) }
    {
        self.begin_anew();
        if !self.use_file(id, false)? {
            return Ok(());
        }
        let it = &mut self.opened.files[0];
        if it.is_dirty {
            self.syncs.sync_file(&it.file)?;
        } else {
            self.syncs.settle_file(&it.file)?;
        }
        it.is_dirty = false;
        Ok(())
    }

    /// The length of the file, in bytes.
    pub(crate) fn length(&mut self, id: FileId) -> io::Result<u64>
        ensures given_up { GivesUp result self.old.syncs.have_failed self.new.syncs.have_failed }
    {
        if !self.use_file(id, false)? {
            return Ok(0);
        }
        Ok(self.opened.files[0].file.metadata()?.len())
    }
}
