// What each call does, said exactly.
ghost use Rattle.std.specs.Prelude.{◌≡◌, ◌≤◌, ◌+◌, ◌^◌, ◌++◌, ◌∷◌, [], ◌↔◌, IsTrue, true, length, OnOk, OnErr, IsErr, IfOk};
ghost use Rattle.disk.specs.Disk.{Filled};
ghost use Rattle.disk_mem.specs.FileState.{after_write, after_cut, settled};
ghost use Rattle.disk_mem.specs.Device.{Counted, Unwritten, laid, states};
ghost use Rattle.disk_mem.specs.Laid.{fires, fires_at_read, after_call, after_read};

use crate::{MemShelf, files};
use disk::{DeviceError, FileId};

const MAX_LENGTH: u64 = 1 << 62;

impl MemShelf {
    pub(crate) fn write_step(
        &mut self,
        file: FileId,
        offset: u64,
        bytes: &[u8],
    ) -> Result<(), DeviceError>
        ensures counted { Counted file (after_write offset bytes.now) result self.old self.new }
        ensures fits { OnOk result (offset + length bytes.now ≤ 2 ^ 62) }
        ensures noted { self.new.past.items ≡ self.old.past.items ++ self.old.files ∷ [] }
        ensures no_fault { OnOk result (length self.new.failures.items ≡ length self.old.failures.items) }
        ensures fault { OnErr result (length self.new.failures.items ≡ length self.old.failures.items + 1) }
    {
        if self.begin() {
            return Err(self.fail());
        }
        if !fits(offset, bytes.len()) {
            return Err(self.fail());
        }
        if files::write(&mut self.files, self.alloc, file, offset, bytes).is_err() {
            return Err(self.fail());
        }
        Ok(())
    }

    pub(crate) fn cut_step(&mut self, file: FileId, len: u64) -> Result<(), DeviceError>
        ensures counted { Counted file (after_cut len) result self.old self.new }
        ensures unfused { IsErr result → fires (laid self.old) ≡ true }
        ensures noted { self.new.past.items ≡ self.old.past.items ++ self.old.files ∷ [] }
        ensures no_fault { OnOk result (length self.new.failures.items ≡ length self.old.failures.items) }
        ensures fault { OnErr result (length self.new.failures.items ≡ length self.old.failures.items + 1) }
    {
        if self.begin() {
            return Err(self.fail());
        }
        files::cut(&mut self.files, file, len);
        Ok(())
    }

    pub(crate) fn sync_step(&mut self, file: FileId) -> Result<(), DeviceError>
        ensures counted { Counted file (λ was. settled was.bytes) result self.old self.new }
        ensures unfused { IsErr result → fires (laid self.old) ≡ true }
        ensures noted { self.new.past.items ≡ self.old.past.items ++ self.old.files ∷ [] }
        ensures no_fault { OnOk result (length self.new.failures.items ≡ length self.old.failures.items) }
        ensures fault { OnErr result (length self.new.failures.items ≡ length self.old.failures.items + 1) }
    {
        if self.begin() {
            return Err(self.fail());
        }
        files::sync(&mut self.files, file);
        Ok(())
    }

    pub(crate) fn read_step(
        &mut self,
        file: FileId,
        offset: u64,
        buffer: &mut [u8],
    ) -> Result<usize, DeviceError>
        ensures reads { Unwritten self.old self.new }
        ensures bytes { IfOk result (λ n. Filled (states self.old file).bytes offset buffer.old n buffer.new) }
        ensures fused { IsErr result ↔ (fires_at_read (laid self.old) ≡ true) }
        ensures burnt { laid self.new ≡ after_read (laid self.old) }
        ensures fault { OnErr result (length self.new.failures.items ≡ length self.old.failures.items + 1) }
    {
        if self.fuses.burn_read() {
            return Err(self.fail());
        }
        Ok(files::read(&self.files, file, offset, buffer))
    }

    // Notes the moment, and says whether a fuse has come.
    fn begin(&mut self) -> bool
        ensures past { self.new.past.items ≡ self.old.past.items ++ self.old.files ∷ [] }
        ensures fires { result ≡ fires (laid self.old) }
        ensures burnt { laid self.new ≡ after_call (laid self.old) }
        ensures files { self.new.files ≡ self.old.files }
        ensures failures { self.new.failures.items ≡ self.old.failures.items }
    {
        self.past = self.past.and(&self.files);
        self.fuses.burn()
    }

    // A failure of the device.
    fn fail(&mut self) -> DeviceError
        ensures past { self.new.past.items ≡ self.old.past.items }
        ensures files { self.new.files ≡ self.old.files }
        ensures laid { laid self.new ≡ laid self.old }
        ensures failures { length self.new.failures.items ≡ length self.old.failures.items + 1 }
    {
        self.failures = self.failures.and(&());
        DeviceError
    }
}

// No file gets longer than it may.
fn fits(offset: u64, len: usize) -> bool
    ensures { IsTrue result ↔ (offset + len ≤ 2 ^ 62) }
{
    offset <= MAX_LENGTH && len as u64 <= MAX_LENGTH - offset
}
