// A folder that one process holds.
ghost use Rattle.std.specs.Prelude.{◌≡◌, ◌≢◌, ◌⊎◌, IfOk, IfErr, IsErr, IsErrOf, IsTrue, length};
ghost use Rattle.std.specs.IoError.{error_kind};
ghost use Rattle.gated_log.specs.declared.refusal.Refusal.TheVariants.{NotInitialised};
ghost use Rattle.folder.specs.Faults.{IsFaultOf, IsFaultOfHolding};

use crate::fault::{FolderFault, fault_at, fault_of_lock};
use crate::holder::tell_holder;
use disk::{FileId, Folder as Version, Shelf};
use disk_fs::FsShelf;
use gated_log::Refusal;
use log::Log;
use std::alloc::{AllocError, Global};
use std::fs::{File, OpenFile, OpenOptions, TryLockError};
use std::io::ErrorKind;
use std::rt::Files;
use std::{fs, io};

/// The file whose lock is the folder's. No file of a node has its name, since those end in `.dat`.
const LOCK: &str = "lock";

/// A node's folder, which this process holds until the value is dropped: by the lock of a file in it, `lock`, which has no
/// bytes and stays. That the lock keeps others out isn't claimed.
#[derive(Drop)]
pub struct Folder {
    path: String,
    lock: Option<File>,
}

impl Folder {
    /// Takes the folder of this path, to be served. It is `NotInitialised` where the folder isn't there, or neither its lock file
    /// nor a list of topics is, and `InUse` where another process holds it. A lock file that is lacking beside a list of topics, as
    /// in a copy that left it out, is made; nothing else is.
    pub fn open<R: AllocGlobal + Log + Files<File = File>>(
        rt: &R,
        path: &str,
    ) -> Result<Folder, FolderFault>
        ensures faults { IfErr result (λ fault. (fault ≡ FolderFault.Refused NotInitialised) ⊎ IsFaultOfHolding fault) }
        ensures unnamed { length path.now ≡ 0 → IsErrOf result (FolderFault.Refused NotInitialised) }
    {
        match open_lock(rt, path) {
            Ok(lock) => Folder::locked(rt, path, lock),
            Err(error) => Err(fault_of_opening(rt, path, error)),
        }
    }

    /// Takes the folder of this path, to be looked at alone: as `open` does or, where it may not be written, as it is.
    pub fn look<R: AllocGlobal + Log + Files<File = File>>(
        rt: &R,
        path: &str,
    ) -> Result<Folder, FolderFault>
        ensures faults { IfErr result (λ fault. (fault ≡ FolderFault.Refused NotInitialised) ⊎ IsFaultOfHolding fault) }
        ensures unnamed { length path.now ≡ 0 → IsErrOf result (FolderFault.Refused NotInitialised) }
    {
        match open_lock(rt, path) {
            Ok(lock) => Folder::locked(rt, path, lock),
            Err(error) if is_of_leave(error.kind()) => Folder::as_it_is(rt, path),
            Err(error) => Err(fault_of_opening(rt, path, error)),
        }
    }

    /// Takes the folder of this path and makes nothing: by its lock file, which is only read, or, where it has none, by no lock.
    pub fn as_it_is<R: AllocGlobal + Log + Files<File = File>>(
        rt: &R,
        path: &str,
    ) -> Result<Folder, FolderFault>
        ensures faults { IfErr result IsFaultOfHolding }
    {
        let lock = lock_path(rt.alloc(), path)?;
        match OpenOptions::new().read(true).open(rt, lock.as_str()) {
            Ok(lock) => Folder::locked(rt, path, lock),
            Err(error) if error.kind() == ErrorKind::NotFound => Ok(Folder {
                path: String::from_str(rt.alloc(), path)?,
                lock: None,
            }),
            Err(error) => Err(fault_at(rt, &lock, error)),
        }
    }

    /// Takes the folder of this path, which is made where it isn't there, as is its lock file; of a folder that stands nothing
    /// else changes. The folder that it is in is synced, so that it keeps the name: also where the folder was there, since an
    /// earlier process may have ended before its sync.
    pub fn make<R: AllocGlobal + Log + Files<File = File>>(
        rt: &R,
        path: &str,
    ) -> Result<Folder, FolderFault>
        ensures faults { IfErr result IsFaultOfHolding }
    {
        if let Err(error) = make_folder(rt, path) {
            return Err(fault_at(rt, &path, error));
        }
        if let Err(error) = sync_above(rt, rt.alloc(), path) {
            return Err(fault_at(rt, &format_args!("{path}/.."), error));
        }
        let lock = lock_path(rt.alloc(), path)?;
        match lock_options().create(true).open(rt, lock.as_str()) {
            Ok(lock) => Folder::locked(rt, path, lock),
            Err(error) => Err(fault_at(rt, &lock, error)),
        }
    }

    // The folder, where the lock of this file is to be had.
    fn locked<R: AllocGlobal + Log + Files>(
        rt: &R,
        path: &str,
        lock: File,
    ) -> Result<Folder, FolderFault>
        ensures { IfErr result IsFaultOfHolding }
    {
        if let Err(error) = lock.try_lock() {
            if matches!(error, TryLockError::WouldBlock) {
                tell_holder(rt, &lock);
            }
            let place = format_args!("{path}/{LOCK}");
            return Err(fault_of_lock(rt, &place, error));
        }
        Ok(Folder {
            path: String::from_str(rt.alloc(), path)?,
            lock: Some(lock),
        })
    }

    /// Whether its lock was taken: it isn't where the folder has no lock file and was taken as it is.
    pub fn is_locked(&self) -> bool {
        self.lock.is_some()
    }

    /// The files of the folder, as a device that never failed. Nothing is asked of the system yet.
    pub fn shelf<R: AllocGlobal + Log + Files<File = File> + Drop>(
        &self,
        rt: R,
    ) -> Result<FsShelf<R>, AllocError>
        ensures { IfOk result (λ shelf. (⟦<FsShelf<R> as Shelf>⟧.disk shelf).faults ≡ 0) }
    {
        let alloc = rt.alloc();
        let path = String::from_str(alloc, self.path.as_str())?;
        Ok(FsShelf::new(rt, alloc, path))
    }

    /// The same to be read alone.
    pub fn reading_shelf<R: AllocGlobal + Log + Files<File = File> + Drop>(
        &self,
        rt: R,
    ) -> Result<FsShelf<R>, AllocError>
        ensures { IfOk result (λ shelf. (⟦<FsShelf<R> as Shelf>⟧.disk shelf).faults ≡ 0) }
    {
        let alloc = rt.alloc();
        let path = String::from_str(alloc, self.path.as_str())?;
        Ok(FsShelf::reading(rt, alloc, path))
    }
}

fn lock_path(alloc: Global, path: &str) -> Result<String, AllocError> {
    format!(in alloc; "{path}/{LOCK}")
}

// Opens the lock file of a folder, which is made where it is lacking beside a list of topics. An empty path names no folder.
fn open_lock<R: AllocGlobal + Files<File = File>>(rt: &R, path: &str) -> io::Result<File>
    ensures unnamed { length path.now ≡ 0 → IsErr result × IfErr result (λ error. error_kind error ≡ ErrorKind.NotFound) }
{
    if path.is_empty() {
        return Err(io::Error::from(ErrorKind::NotFound));
    }
    let lock = lock_path(rt.alloc(), path)?;
    match lock_options().open(rt, lock.as_str()) {
        Err(error) if error.kind() == ErrorKind::NotFound && has_list(rt, path)? => {
            lock_options().create(true).open(rt, lock.as_str())
        }
        opened => opened,
    }
}

// Whether the file of a list of topics stands in a folder, of either version.
fn has_list<R: AllocGlobal + Files>(rt: &R, path: &str) -> io::Result<bool> {
    for folder in [Version::Two, Version::One] {
        let list = format!(in rt.alloc(); "{path}/{}", FileId::Catalog(folder))?;
        if fs::exists(rt, list.as_str())? {
            return Ok(true);
        }
    }
    Ok(false)
}

// A lock is taken through a file that may be written, which some file systems want.
fn lock_options() -> OpenOptions {
    let mut options = OpenOptions::new();
    options.read(true).write(true);
    options
}

// Whether a file wasn't opened for want of leave to write it, or the folder that it is in.
fn is_of_leave(kind: ErrorKind) -> bool
    ensures { IsTrue result → kind ≢ ErrorKind.NotFound }
{
    kind == ErrorKind::PermissionDenied || kind == ErrorKind::ReadOnlyFilesystem
}

// Nothing is there exactly where the system found no such name.
fn fault_of_opening<R: Log>(rt: &R, path: &str, error: io::Error) -> FolderFault
    ensures missing { error_kind error ≡ ErrorKind.NotFound → result ≡ FolderFault.Refused NotInitialised }
    ensures failed { error_kind error ≢ ErrorKind.NotFound → IsFaultOf error result }
{
    if error.kind() == ErrorKind::NotFound {
        return FolderFault::Refused(Refusal::NotInitialised);
    }
    fault_at(rt, &format_args!("{path}/{LOCK}"), error)
}

// Makes the folder, where nothing has its name.
fn make_folder<R: Files>(rt: &R, path: &str) -> io::Result<()>
    ensures { IfErr result (λ error. error_kind error ≢ ErrorKind.AlreadyExists) }
{
    match fs::create_dir(rt, path) {
        Err(error) if error.kind() != ErrorKind::AlreadyExists => Err(error),
        Ok(()) | Err(_) => Ok(()),
    }
}

// Syncs the folder that the folder of this path is in.
fn sync_above<R: Files>(rt: &R, alloc: Global, path: &str) -> io::Result<()> {
    let above = format!(in alloc; "{path}/..")?;
    File::open(rt, above.as_str())?.sync_all()
}
