// The names of a folder's files.
ghost use Rattle.std.specs.Prelude.{◌≡◌, None, false, OnOk};

use crate::syncs::Syncs;
use disk::FileId;
use std::alloc::Global;
use std::fs::OpenOptions;
use std::io;
use std::io::ErrorKind;
use std::rt::Files;

/// What the files of a folder are opened for.
#[derive(Clone, Copy, Debug, PartialEq, Eq)]
pub(crate) enum Access {
    /// To be read and written.
    Writing,
    /// To be read alone: no write and no shortening of a file succeeds, and no file is made.
    Reading,
}

/// A folder as a place of names.
#[derive(Drop)]
pub(crate) struct Names<R: Files> {
    pub(crate) rt: R,
    pub(crate) alloc: Global,
    pub(crate) path: String,
    pub(crate) access: Access,
    /// The folder itself, which stays open from its first sync on: what goes wrong with it from then on is told to its next
    /// sync here, whoever else syncs it.
    pub(crate) folder: Option<R::File>,
    /// Whether the folder was synced since this value was made and since it last got a file.
    pub(crate) are_synced: bool,
}

impl<R: Files + Drop> Names<R> {
    /// Closes the folder: its next sync here is over a new descriptor.
    pub(crate) fn forget(&mut self)
        ensures { (self.new.folder ≡ None) × (self.new.are_synced ≡ false) }
    {
        self.folder = None;
        self.are_synced = false;
    }

    // An empty path names no folder, though a name behind it would be one of the root.
    fn path_of(&self, id: FileId) -> io::Result<String> {
        if self.path.is_empty() {
            return Err(io::Error::from(ErrorKind::NotFound));
        }
        Ok(format!(in self.alloc; "{}/{id}", self.path)?)
    }

    /// Opens the file, whose name the folder then keeps. None where it isn't there and isn't to be made.
    pub(crate) fn open(
        &mut self,
        id: FileId,
        makes: bool,
        syncs: &mut Syncs,
    ) -> io::Result<Option<R::File>>
        ensures { OnOk result (syncs.new ≡ syncs.old) }
    {
        let path = self.path_of(id)?;
        let Some(file) = self.find(path.as_str(), makes)? else {
            return Ok(None);
        };
        self.sync(syncs)?;
        Ok(Some(file))
    }

    // Opens the file of this path, or makes it.
    fn find(&mut self, path: &str, makes: bool) -> io::Result<Option<R::File>> {
        let found = OpenOptions::new()
            .read(true)
            .write(self.access == Access::Writing)
            .open(&self.rt, path);
        match found {
            Ok(file) => Ok(Some(file)),
            Err(error) if error.kind() != ErrorKind::NotFound => Err(error),
            Err(_) if makes => Ok(Some(self.make(path)?)),
            Err(_) => Ok(None),
        }
    }

    // Makes the file, whose name isn't synced yet.
    fn make(&mut self, path: &str) -> io::Result<R::File> {
        if self.access == Access::Reading {
            return Err(io::Error::from(ErrorKind::PermissionDenied));
        }
        self.are_synced = false;
        OpenOptions::new()
            .read(true)
            .write(true)
            .create_new(true)
            .open(&self.rt, path)
    }

    // Has the folder keep its names: also that of a file which an earlier process made, since it may have ended before it
    // synced the folder.
    fn sync(&mut self, syncs: &mut Syncs) -> io::Result<()>
        ensures { OnOk result (syncs.new ≡ syncs.old) }
    {
        if self.are_synced {
            return Ok(());
        }
        if self.folder.is_none() {
            let folder = OpenOptions::new()
                .read(true)
                .open(&self.rt, self.path.as_str())?;
            self.folder = Some(folder);
        }
        if let Some(folder) = &self.folder {
            syncs.sync_folder(folder)?;
        }
        self.are_synced = true;
        Ok(())
    }
}
