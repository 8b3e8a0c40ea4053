// A trim that is prepared.
ghost use Rattle.std.specs.Prelude.{◌≡◌};
ghost use Rattle.disk.specs.declared.file_id.Folder.{Folder};
ghost use Rattle.gated_log.specs.Wholes.{folder_in};

use gated_log::{PreparedLog, Start};

/// A snapshot of what is kept then, for a folder of version 2, and where the ledger begins after it.
#[derive(Drop)]
pub struct PreparedTrim {
    pub(crate) snapshot: PreparedLog,
    pub(crate) start: Start,
    ghost two: { folder_in snapshot ≡ Folder.Two },
}
