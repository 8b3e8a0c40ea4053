// A write that is on the device before the next one.
ghost use Rattle.std.specs.Prelude.{◌≡◌, ◌≢◌, ◌+◌, ◌≤◌, ◌^◌, length, OnOk, IsErr};
ghost use Rattle.disk.specs.Disk.{Changes, Overwritten, Torn, Synced, Kept, Failed, Leaves, After, Undisturbed};

use crate::{DeviceError, FileId, Shelf};

/// Writes, and syncs. At `Ok` a crash leaves what was written. At each moment of the call a crash,
/// and after a failure a read, gives what a crash may make of the file while it is written.
pub fn persist<S: Shelf>(
    shelf: &mut S,
    file: FileId,
    offset: u64,
    bytes: &[u8],
) -> Result<(), DeviceError>
    ensures written { OnOk result ((S.disk shelf.old).honest → offset ≤ length ((S.disk shelf.old).seen file) → Changes file (Overwritten offset bytes.now) (S.disk shelf.old).seen (S.disk shelf.new).seen) }
    ensures fits { OnOk result (offset + length bytes.now ≤ 2 ^ 62) }
    ensures synced { OnOk result ((S.disk shelf.old).honest → Synced file (S.disk shelf.new)) }
    ensures torn { (S.disk shelf.old).honest → After (S.disk shelf.old) (Changes file (Torn offset (length bytes.now))) (S.disk shelf.new).seen }
    ensures any_moment { (S.disk shelf.old).honest → Leaves (After (S.disk shelf.old) (Changes file (Torn offset (length bytes.now)))) (S.disk shelf.old) (S.disk shelf.new) }
    ensures others { (S.disk shelf.old).honest → Undisturbed (λ f. f ≢ file) (S.disk shelf.old) (S.disk shelf.new) }
    ensures kept { Kept (S.disk shelf.old) (S.disk shelf.new) }
    ensures cause { IsErr result → Failed (S.disk shelf.old) (S.disk shelf.new) }
{
    shelf.write_at(file, offset, bytes)?;
    shelf.sync(file)
}
