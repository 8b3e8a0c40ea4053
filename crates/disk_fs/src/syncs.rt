// Whether a sync has failed.
ghost use Rattle.std.specs.Prelude.{◌≡◌, ◌↔◌, true, false, IsOk, IsErr, IfErr, IsTrue, OnOk};
ghost use Rattle.disk_fs.specs.Troubles.{IsOfCheck};

use std::fs::OpenFile;
use std::io;
use std::io::ErrorKind;
use std::os::fd::AsRawFd;

/// Whether all syncs so far went well. A system that couldn't write a file's bytes says so to one sync, counts them as
/// written, and may answer the next sync as if nothing had happened. So after a sync that failed no other one is believed, until
/// what the system holds of the files is let go.
#[derive(Drop)]
pub(crate) struct Syncs {
    pub(crate) have_failed: bool,
}

impl Syncs {
    /// An error where a sync has failed.
    pub(crate) fn check(&self) -> io::Result<()>
        ensures well { IsOk result ↔ (self.now.have_failed ≡ false) }
        ensures told { IfErr result IsOfCheck }
    {
        if self.have_failed {
            return Err(io::Error::other("a sync has failed"));
        }
        Ok(())
    }

    /// Believes syncs again.
    pub(crate) fn begin_anew(&mut self)
        ensures { self.new.have_failed ≡ false }
    {
        self.have_failed = false;
    }

    /// Has the system write what it holds of the file: its bytes and its length, but not its times.
    pub(crate) fn sync_file<F: OpenFile>(&mut self, file: &F) -> io::Result<()>
        ensures failed { IsErr result → self.new.have_failed ≡ true }
        ensures fine { OnOk result (self.new ≡ self.old) }
    {
        self.note(file.sync_data())
    }

    /// The same, of a file that nothing was written to here: the system's copies of it, which a sync that failed in an earlier
    /// process may have left other than the disk has them, are dropped, so that what is read is what the disk has.
    pub(crate) fn settle_file<F: OpenFile + AsRawFd>(&mut self, file: &F) -> io::Result<()>
        ensures failed { IsErr result → self.new.have_failed ≡ true }
        ensures fine { OnOk result (self.new ≡ self.old) }
    {
        self.sync_file(file)?;
        let advised = libc::posix_fadvise(file.as_raw_fd(), 0, 0, libc::POSIX_FADV_DONTNEED);
        if advised != 0 {
            return self.note(Err(io::Error::from_raw_os_error(advised)));
        }
        Ok(())
    }

    /// Has the system write what it holds of the folder: the names of its files.
    pub(crate) fn sync_folder<F: OpenFile>(&mut self, folder: &F) -> io::Result<()>
        ensures failed { IsErr result → self.new.have_failed ≡ true }
        ensures fine { OnOk result (self.new ≡ self.old) }
    {
        self.note(folder.sync_all())
    }

    // Hands on how a sync went, and keeps it in mind where it failed.
    fn note(&mut self, synced: io::Result<()>) -> io::Result<()>
        ensures same { result ≡ synced }
        ensures failed { IsErr synced → self.new.have_failed ≡ true }
        ensures fine { OnOk synced (self.new ≡ self.old) }
    {
        if synced.is_err() {
            self.have_failed = true;
        }
        synced
    }
}

/// Whether this is the error of `Syncs::check`, and not what the system said.
pub(crate) fn is_of_check(error: &io::Error) -> bool
    ensures { IsTrue result ↔ IsOfCheck error.now }
{
    error.kind() == ErrorKind::Other && error.raw_os_error().is_none()
}
