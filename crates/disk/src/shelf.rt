// The device of a node, as the layers above see it.
ghost use Rattle.std.specs.Prelude.{◌≡◌, ◌+◌, ◌≤◌, ◌^◌, length, take, IfOk, OnOk, IsErr};
ghost use Rattle.disk.specs.Disk.{Disk, Same, Changes, Overwritten, Torn, TornCut, LeftOf, Advances, Synced, Kept, Failed, Lawful, Filled};

use crate::FileId;
use thiserror::Error;

/// The device failed. Which of the call's effects it had is said by the call.
#[derive(Clone, Copy, Debug, PartialEq, Eq, Error)]
#[error("the device failed")]
pub struct DeviceError;

/// The files of a node, by one clock of moments. A missing file is an empty one, and no file is
/// longer than 2^62 bytes. What is said of bytes holds where the device is honest: it does what is
/// said here of reads and crashes. An honest device stays one, and so does one that isn't.
pub trait Shelf {
    /// What reads give, what a crash may leave, the clock and the count of failures.
    ghost disk: { Self → Disk };

    /// Reads from an offset on, up to the end of the buffer or of the file, and answers how many
    /// bytes it found. The rest of the buffer stays. At an error the buffer may hold anything.
    fn read(&mut self, file: FileId, offset: u64, buffer: &mut [u8]) -> Result<usize, DeviceError>
        ensures bytes { IfOk result (λ n. (disk self.old).honest → Filled ((disk self.old).seen file) offset buffer.old n buffer.new) }
        ensures count { IfOk result (λ n. n ≤ length buffer.old) }
        ensures seen { (disk self.old).honest → Same (disk self.old).seen (disk self.new).seen }
        ensures time { (disk self.old).honest → Advances Same (disk self.old) (disk self.new) }
        ensures kept { Kept (disk self.old) (disk self.new) }
        ensures cause { IsErr result → Failed (disk self.old) (disk self.new) };

    /// Writes over what is there, and past the end. Until a good sync a crash may leave any bytes in
    /// the range and past the old end; so may a write that fails, for reads too. A write past 2^62
    /// bytes fails.
    fn write_at(&mut self, file: FileId, offset: u64, bytes: &[u8]) -> Result<(), DeviceError>
        ensures written { OnOk result ((disk self.old).honest → offset ≤ length ((disk self.old).seen file) → Changes file (Overwritten offset bytes.now) (disk self.old).seen (disk self.new).seen) }
        ensures fits { OnOk result (offset + length bytes.now ≤ 2 ^ 62) }
        ensures torn { (disk self.old).honest → Changes file (Torn offset (length bytes.now)) (disk self.old).seen (disk self.new).seen }
        ensures time { (disk self.old).honest → Advances (Changes file (Torn offset (length bytes.now))) (disk self.old) (disk self.new) }
        ensures kept { Kept (disk self.old) (disk self.new) }
        ensures cause { IsErr result → Failed (disk self.old) (disk self.new) };

    /// Cuts the file to a length, where it is longer. Until a good sync a crash may leave any bytes
    /// from there on and any end up to the old one; so may a cut that fails, for reads too.
    fn cut(&mut self, file: FileId, len: u64) -> Result<(), DeviceError>
        ensures cut { OnOk result ((disk self.old).honest → Changes file (λ was is. is ≡ take len was) (disk self.old).seen (disk self.new).seen) }
        ensures torn { (disk self.old).honest → Changes file (TornCut len) (disk self.old).seen (disk self.new).seen }
        ensures time { (disk self.old).honest → Advances (Changes file (TornCut len)) (disk self.old) (disk self.new) }
        ensures kept { Kept (disk self.old) (disk self.new) }
        ensures cause { IsErr result → Failed (disk self.old) (disk self.new) };

    /// After a good one a crash leaves what reads give of the file. One that fails promises nothing:
    /// reads of the file then give what a crash may have left of it.
    fn sync(&mut self, file: FileId) -> Result<(), DeviceError>
        ensures synced { OnOk result ((disk self.old).honest → Synced file (disk self.new)) }
        ensures seen { OnOk result ((disk self.old).honest → Same (disk self.old).seen (disk self.new).seen) }
        ensures torn { (disk self.old).honest → Changes file (λ was is. LeftOf file (disk self.old) is) (disk self.old).seen (disk self.new).seen }
        ensures time { (disk self.old).honest → Advances Same (disk self.old) (disk self.new) }
        ensures kept { Kept (disk self.old) (disk self.new) }
        ensures cause { IsErr result → Failed (disk self.old) (disk self.new) };

    /// The length of the file, in bytes.
    fn length(&mut self, file: FileId) -> Result<u64, DeviceError>
        ensures length { IfOk result (λ n. (disk self.old).honest → n ≡ length ((disk self.old).seen file)) }
        ensures bounded { IfOk result (λ n. n ≤ 2 ^ 62) }
        ensures seen { (disk self.old).honest → Same (disk self.old).seen (disk self.new).seen }
        ensures time { (disk self.old).honest → Advances Same (disk self.old) (disk self.new) }
        ensures kept { Kept (disk self.old) (disk self.new) }
        ensures cause { IsErr result → Failed (disk self.old) (disk self.new) };

    ghost lawful: { (shelf : Self) → (disk shelf).honest → Lawful (disk shelf) };
}
