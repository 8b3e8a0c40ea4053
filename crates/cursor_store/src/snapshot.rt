// What is told is told anew from nothing.
ghost use Rattle.std.specs.Prelude.{◌≡◌, true, ℕ, IfOk, IfSome, IsErrOf};
ghost use Rattle.std.specs.FinMap as map;
ghost use Rattle.records.specs.Maps.{Kept};
ghost use Rattle.records.specs.Names.{is_subscription_name};
ghost use Rattle.records.specs.Records.{IsNew};
ghost use Rattle.records.specs.Within.{AreBelow};
ghost use Rattle.disk.specs.declared.file_id.Folder.{Folder};
ghost use Rattle.gated_log.specs.Wholes.{folder_in};
ghost use Rattle.gated_log.specs.declared.start.Start.{Start as Begins};
ghost use Rattle.records.specs.Floors.{HasBelow};
ghost use Rattle.cursor_store.specs.Items.{FitsLedger, told_of};
ghost use Rattle.cursor_store.specs.Snapshots.{HasWritten, IsSnapshot, IsSnapshotIf};

use crate::CursorStore;
use crate::snapshot_writer::SnapshotWriter;
use cursor::Cursor;
use gated_log::{PrepareError, PreparedLog};
use records::KeptSubscriptions;
use std::alloc::Global;

// Adds the records of a subscription: that it was made with all below its mark-delete position, and each range behind that.
fn add_cursor(
    begun: SnapshotWriter,
    name: &str,
    cursor: &Cursor,
) -> Result<SnapshotWriter, PrepareError>
    requires { is_subscription_name name.now ≡ true }
    ensures written { (entries : ℕ) (start : Begins) (sofar : Kept) → HasWritten entries begun (told_of start sofar) → IsNew sofar name.now → AreBelow entries cursor.now → HasBelow start.base cursor.now →
        IfOk result (λ writer. HasWritten entries writer (told_of start (map.insert sofar name.now cursor.now))) }
    ensures fits { ¬ IsErrOf result PrepareError.TooLarge }
{
    let mut next = cursor.mark_delete();
    let mut writer = begun.with_made(name, next)?;
    while let Some((first, last)) = cursor.next_run(next) {
        let more = writer.with_range(name, first, last)?;
        writer = more;
        next = last + 1;
    }
    Ok(writer)
}

// The bodies of items that tell this from nothing, each as long as it may be: one that the next record would make longer than a
// body may be ends before it. They are for a folder of version 2, behind a header that says where the ledger begins.
pub(crate) fn snapshot_of(
    alloc: Global,
    kept: &KeptSubscriptions,
) -> Result<PreparedLog, PrepareError>
    ensures made { (entries : ℕ) (start : Begins) → FitsLedger entries (told_of start kept.now) → IfOk result (λ log. IsSnapshot entries log (told_of start kept.now)) }
    ensures two { IfOk result (λ log. folder_in log ≡ Folder.Two) }
    ensures fits { ¬ IsErrOf result PrepareError.TooLarge }
{
    let mut writer = SnapshotWriter::new(alloc)?;
    for (name, shared) in kept.iter() {
        let more = add_cursor(writer, name.as_str(), shared.as_cursor())?;
        writer = more;
    }
    writer.finish()
}

// The snapshot for a folder of version 2, where one is due.
pub(crate) fn snapshot_if(
    due: bool,
    alloc: Global,
    kept: &KeptSubscriptions,
) -> Result<Option<PreparedLog>, PrepareError>
    ensures made { (start : Begins) → IfOk result (λ snapshot. IsSnapshotIf due (told_of start kept.now) snapshot) }
    ensures two { IfOk result (λ snapshot. IfSome snapshot (λ log. folder_in log ≡ Folder.Two)) }
    ensures fits { ¬ IsErrOf result PrepareError.TooLarge }
{
    if !due {
        return Ok(None);
    }
    let snapshot = snapshot_of(alloc, kept)?;
    Ok(Some(snapshot))
}

impl CursorStore {
    /// What a replace writes in a folder of version 2: bodies of items that tell from nothing what is told, of at most 33,554,432 bytes each.
    pub fn snapshot(&self) -> Result<PreparedLog, PrepareError>
        ensures made { (entries : ℕ) → FitsLedger entries self.now.told → IfOk result (λ log. IsSnapshot entries log self.now.told) }
        ensures fits { ¬ IsErrOf result PrepareError.TooLarge }
    {
        snapshot_of(self.alloc, &self.told.kept)
    }
}
