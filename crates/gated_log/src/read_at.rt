// Bytes of a log are read.
ghost use Rattle.std.specs.Prelude.{◌≡◌, ◌⊎◌, ◌+◌, ◌≤◌, true, false, length, take, drop, IfOk, IfErr, IsErrOf};
ghost use Rattle.disk.specs.Disk.{Same, Leaves, Kept, Failed};
ghost use Rattle.disk.specs.Areas.{folder_of};
ghost use Rattle.gated_log.specs.Batches.{Bodies, opened};
ghost use Rattle.gated_log.specs.Logs.{LogHolds, log_id, log_failed};

use crate::read::read_bytes;
use crate::{GatedLog, ReadError};
use disk::Shelf;

impl GatedLog {
    /// Reads so many bytes of its batches, from an offset of the file on, with one device call: the log
    /// keeps no places, so its caller remembers where in a file what it reads stands. A failed log
    /// answers `Device`. `Damaged` is answered where the file ends before them.
    pub fn read_at<S: Shelf>(
        &self,
        shelf: &mut S,
        offset: u64,
        size: u32,
    ) -> Result<Vec<u8>, ReadError>
        ensures bytes { (bodies : Bodies) → (S.disk shelf.old).honest → LogHolds self.now (S.disk shelf.old).seen bodies → offset + size ≤ length (opened (folder_of (log_id self.now).file) (log_id self.now).label bodies) →
            IfOk result (λ bytes. bytes.items ≡ take size (drop offset (opened (folder_of (log_id self.now).file) (log_id self.now).label bodies))) }
        ensures refused { (bodies : Bodies) → (S.disk shelf.old).honest → LogHolds self.now (S.disk shelf.old).seen bodies → offset + size ≤ length (opened (folder_of (log_id self.now).file) (log_id self.now).label bodies) →
            IfErr result (λ e. (e ≡ ReadError.NoMemory) ⊎ ((e ≡ ReadError.Device) × Failed (S.disk shelf.old) (S.disk shelf.new))) }
        ensures stays_failed { log_failed self.now ≡ true → IsErrOf result ReadError.Device × (shelf.new ≡ shelf.old) }
        ensures cause { log_failed self.now ≡ false → IsErrOf result ReadError.Device → Failed (S.disk shelf.old) (S.disk shelf.new) }
        ensures no_memory { IsErrOf result ReadError.NoMemory → shelf.new ≡ shelf.old }
        ensures seen { (S.disk shelf.old).honest → Same (S.disk shelf.old).seen (S.disk shelf.new).seen }
        ensures any_moment { (S.disk shelf.old).honest → Leaves (S.disk shelf.old).may_leave (S.disk shelf.old) (S.disk shelf.new) }
        ensures kept { Kept (S.disk shelf.old) (S.disk shelf.new) }
    {
        if self.gated.failed {
            return Err(ReadError::Device);
        }
        read_bytes(self.alloc, shelf, self.gated.id.file, offset, offset, size)
    }
}
