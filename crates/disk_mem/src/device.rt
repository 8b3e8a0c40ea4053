// The calls of a device. Beside what a device promises, each says exactly what became of the files and the fuses.
ghost use Rattle.std.specs.Prelude.{◌≡◌, ◌↔◌, ◌+◌, ◌≤◌, ◌^◌, true, length, take, IfOk, OnOk, IsOk, IsErr};
ghost use Rattle.disk.specs.Disk.{Same, Changes, Overwritten, Torn, TornCut, LeftOf, Advances, Synced, Kept, Failed, Filled};
ghost use Rattle.disk_mem.specs.FileState.{after_write, after_cut, settled};
ghost use Rattle.disk_mem.specs.Device.{disk_of, Counted, Unwritten, laid};
ghost use Rattle.disk_mem.specs.Laid.{fires, fires_at_read, after_read};
ghost use Rattle.disk_mem.specs.Laws.{lawful_disk};

use crate::{MemShelf, files};
use disk::{DeviceError, FileId, Shelf};

impl Shelf for MemShelf {
    ghost disk = { disk_of };

    ghost lawful = { λ shelf honest. lawful_disk shelf };

    fn read(&mut self, file: FileId, offset: u64, buffer: &mut [u8]) -> Result<usize, DeviceError>
        ensures bytes { IfOk result (λ n. (disk_of self.old).honest → Filled ((disk_of self.old).seen file) offset buffer.old n buffer.new) }
        ensures count { IfOk result (λ n. n ≤ length buffer.old) }
        ensures seen { (disk_of self.old).honest → Same (disk_of self.old).seen (disk_of self.new).seen }
        ensures time { (disk_of self.old).honest → Advances Same (disk_of self.old) (disk_of self.new) }
        ensures kept { Kept (disk_of self.old) (disk_of self.new) }
        ensures cause { IsErr result → Failed (disk_of self.old) (disk_of self.new) }

        // It fails where a fuse has come, and nowhere else.
        ensures exact { Unwritten self.old self.new }
        ensures fused { IsErr result ↔ (fires_at_read (laid self.old) ≡ true) }
        ensures burnt { laid self.new ≡ after_read (laid self.old) }
    {
        self.read_step(file, offset, buffer)
    }

    fn write_at(&mut self, file: FileId, offset: u64, bytes: &[u8]) -> Result<(), DeviceError>
        ensures written { OnOk result ((disk_of self.old).honest → offset ≤ length ((disk_of self.old).seen file) → Changes file (Overwritten offset bytes.now) (disk_of self.old).seen (disk_of self.new).seen) }
        ensures fits { OnOk result (offset + length bytes.now ≤ 2 ^ 62) }
        ensures torn { (disk_of self.old).honest → Changes file (Torn offset (length bytes.now)) (disk_of self.old).seen (disk_of self.new).seen }
        ensures time { (disk_of self.old).honest → Advances (Changes file (Torn offset (length bytes.now))) (disk_of self.old) (disk_of self.new) }
        ensures kept { Kept (disk_of self.old) (disk_of self.new) }
        ensures cause { IsErr result → Failed (disk_of self.old) (disk_of self.new) }

        // A write that fails has none of its effect.
        ensures exact { Counted file (after_write offset bytes.now) result self.old self.new }
    {
        self.write_step(file, offset, bytes)
    }

    fn cut(&mut self, file: FileId, len: u64) -> Result<(), DeviceError>
        ensures cut { OnOk result ((disk_of self.old).honest → Changes file (λ was is. is ≡ take len was) (disk_of self.old).seen (disk_of self.new).seen) }
        ensures torn { (disk_of self.old).honest → Changes file (TornCut len) (disk_of self.old).seen (disk_of self.new).seen }
        ensures time { (disk_of self.old).honest → Advances (Changes file (TornCut len)) (disk_of self.old) (disk_of self.new) }
        ensures kept { Kept (disk_of self.old) (disk_of self.new) }
        ensures cause { IsErr result → Failed (disk_of self.old) (disk_of self.new) }

        // It fails where a fuse has come, and nowhere else.
        ensures exact { Counted file (after_cut len) result self.old self.new }
        ensures unfused { IsErr result → fires (laid self.old) ≡ true }
    {
        self.cut_step(file, len)
    }

    fn sync(&mut self, file: FileId) -> Result<(), DeviceError>
        ensures synced { OnOk result ((disk_of self.old).honest → Synced file (disk_of self.new)) }
        ensures seen { OnOk result ((disk_of self.old).honest → Same (disk_of self.old).seen (disk_of self.new).seen) }
        ensures torn { (disk_of self.old).honest → Changes file (λ was is. LeftOf file (disk_of self.old) is) (disk_of self.old).seen (disk_of self.new).seen }
        ensures time { (disk_of self.old).honest → Advances Same (disk_of self.old) (disk_of self.new) }
        ensures kept { Kept (disk_of self.old) (disk_of self.new) }
        ensures cause { IsErr result → Failed (disk_of self.old) (disk_of self.new) }

        // It fails where a fuse has come, and nowhere else.
        ensures exact { Counted file (λ was. settled was.bytes) result self.old self.new }
        ensures unfused { IsErr result → fires (laid self.old) ≡ true }
    {
        self.sync_step(file)
    }

    fn length(&mut self, file: FileId) -> Result<u64, DeviceError>
        ensures length { IfOk result (λ n. (disk_of self.old).honest → n ≡ length ((disk_of self.old).seen file)) }
        ensures bounded { IfOk result (λ n. n ≤ 2 ^ 62) }
        ensures seen { (disk_of self.old).honest → Same (disk_of self.old).seen (disk_of self.new).seen }
        ensures time { (disk_of self.old).honest → Advances Same (disk_of self.old) (disk_of self.new) }
        ensures kept { Kept (disk_of self.old) (disk_of self.new) }
        ensures cause { IsErr result → Failed (disk_of self.old) (disk_of self.new) }

        // It never fails.
        ensures succeeds { IsOk result }
        ensures exact { self.new ≡ self.old }
    {
        Ok(files::len(&self.files, file) as u64)
    }
}
