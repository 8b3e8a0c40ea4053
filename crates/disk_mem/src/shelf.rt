// The device in memory.
use crate::files::Files;
use crate::fuses::Fuses;
use disk::History;
use std::alloc::Global;
use std::collections::HashMap;

/// A device in memory, which is honest. It fails where a fuse has come, where a write would pass
/// 2^62 bytes, and where it gets no memory; a call that fails changes no file.
#[derive(Drop)]
pub struct MemShelf {
    pub(crate) alloc: Global,
    pub(crate) files: Files,
    pub(crate) fuses: Fuses,
    // What the files were at each moment before.
    pub(crate) past: History<Files>,
    // The failures so far.
    pub(crate) failures: History<()>,
}

impl MemShelf {
    ghost use Rattle.std.specs.Prelude.{◌≡◌};
    ghost use Rattle.disk.specs.declared.file_id.FileId.{FileId};
    ghost use Rattle.disk_mem.specs.FileState.{empty};
    ghost use Rattle.disk_mem.specs.Device.{disk_of, states, laid};
    ghost use Rattle.disk_mem.specs.Laid.{nothing_laid};

    /// A device without files, fuses and failures. Until it is told otherwise a crash leaves each
    /// file as its last good sync left it.
    pub fn new(alloc: Global) -> MemShelf
        ensures files { (f : FileId) → states result f ≡ empty }
        ensures laid { laid result ≡ nothing_laid }
        ensures faults { (disk_of result).faults ≡ 0 }
    {
        MemShelf {
            alloc,
            files: HashMap::new(alloc),
            fuses: Fuses::new(alloc),
            past: History::new(),
            failures: History::new(),
        }
    }
}
