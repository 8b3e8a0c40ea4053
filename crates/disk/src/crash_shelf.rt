// A device whose power can be cut.
ghost use Rattle.std.specs.Prelude.{◌≡◌, OnOk, OnErr};
ghost use Rattle.disk.specs.declared.crash_shelf.CrashForm.{CrashForm};
ghost use Rattle.disk.specs.Disk.{Disk, Same, Advances, Kept, Stays};
ghost use Rattle.disk.specs.Laid.{Laid, after_crash, after_arm};

use crate::Shelf;
use std::alloc::AllocError;

/// What a crash makes of the bytes that may be anything.
#[derive(Clone, Copy, Debug, PartialEq, Eq)]
pub enum CrashForm {
    /// Each file is as its last good sync left it.
    Old,
    /// Each file is as reads give.
    New,
    /// Each byte that may be anything is this one, and each file ends as late as it may.
    Fill(u8),
}

/// An order for a failure to come. Number 0 never comes.
#[derive(Clone, Copy, Debug, PartialEq, Eq)]
pub enum Fuse {
    /// This `write_at`, `cut` or `sync` from now fails, once. It waits through a crash.
    Fail(u64),
    /// This `write_at`, `cut` or `sync` from now and each later one fails, until the next crash.
    Stop(u64),
    /// This `read` from now fails, once. It waits through a crash.
    FailRead(u64),
    /// The form of later crashes.
    CrashAs(CrashForm),
}

/// A device whose power can be cut, and which can be told to fail.
pub trait CrashShelf: Shelf {
    /// The fuses that are laid.
    ghost laid: { Self → Laid };

    /// What a crash of this form makes of a device.
    ghost left_as: { CrashForm → Self → Self → Type 0 };

    /// Cuts the power, in the form that was ordered last, and starts again: reads give what a crash may leave.
    fn crash(&mut self)
        ensures left { (Self.disk self.old).honest → (Self.disk self.old).may_leave (Self.disk self.new).seen }
        ensures time { (Self.disk self.old).honest → Advances Same (Self.disk self.old) (Self.disk self.new) }
        ensures kept { Kept (Self.disk self.old) (Self.disk self.new) }
        ensures form { left_as (laid self.old).form self.old self.new }
        ensures burnt { laid self.new ≡ after_crash (laid self.old) };

    /// Lays a fuse beside those laid before. Nothing of the files, of what a crash makes of them or of the failures
    /// changes. Where there is no memory for it, no fuse is laid.
    fn arm(&mut self, fuse: Fuse) -> Result<(), AllocError>
        ensures stays { Stays (Self.disk self.old) (Self.disk self.new) }
        ensures same { (form : CrashForm) (after : Self) → left_as form self.new after → left_as form self.old after }
        ensures armed { OnOk result (laid self.new ≡ after_arm fuse (laid self.old)) }
        ensures refused { OnErr result (laid self.new ≡ laid self.old) };
}
