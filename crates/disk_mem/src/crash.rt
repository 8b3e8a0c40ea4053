// The power is cut, and fuses are laid.
ghost use Rattle.std.specs.Prelude.{◌≡◌, OnOk, OnErr};
ghost use Rattle.disk.specs.declared.crash_shelf.CrashForm.{CrashForm};
ghost use Rattle.disk_mem.specs.declared.shelf.MemShelf.{MemShelf};
ghost use Rattle.disk.specs.Disk.{Same, Advances, Kept, Stays};
ghost use Rattle.disk.specs.Laid.{after_crash, after_arm};
ghost use Rattle.disk_mem.specs.Device.{disk_of, laid, LeftAs};

use crate::{MemShelf, files};
use disk::{CrashShelf, Fuse};
use std::alloc::AllocError;

impl CrashShelf for MemShelf {
    ghost laid = { laid };

    ghost left_as = { LeftAs };

    fn crash(&mut self)
        ensures left { (disk_of self.old).honest → (disk_of self.old).may_leave (disk_of self.new).seen }
        ensures time { (disk_of self.old).honest → Advances Same (disk_of self.old) (disk_of self.new) }
        ensures kept { Kept (disk_of self.old) (disk_of self.new) }
        ensures form { LeftAs (laid self.old).form self.old self.new }
        ensures burnt { laid self.new ≡ after_crash (laid self.old) }
    {
        self.past = self.past.and(&self.files);
        files::crash(&mut self.files, self.fuses.form);
        self.fuses.crash();
    }

    fn arm(&mut self, fuse: Fuse) -> Result<(), AllocError>
        ensures stays { Stays (disk_of self.old) (disk_of self.new) }
        ensures same { (form : CrashForm) (after : MemShelf) → LeftAs form self.new after → LeftAs form self.old after }
        ensures armed { OnOk result (laid self.new ≡ after_arm fuse (laid self.old)) }
        ensures refused { OnErr result (laid self.new ≡ laid self.old) }
    {
        self.fuses.arm(fuse)
    }
}
