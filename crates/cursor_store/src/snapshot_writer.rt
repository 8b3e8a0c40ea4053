// A snapshot is written into memory.
ghost use Rattle.std.specs.Prelude.{◌≡◌, ◌≤◌, vec_len};
ghost use Rattle.disk.specs.declared.file_id.Folder.{Folder as Version};

use disk::Folder;
use gated_log::{LogBuilder, MAX_BODY, PrepareError, PreparedLog};
use records::{RECORDS, add_made, add_range};
use std::alloc::{AllocError, Global};

/// A snapshot in the making, for a folder of version 2: its whole bodies, and the one that grows.
#[derive(Drop)]
pub(crate) struct SnapshotWriter {
    pub(crate) log: LogBuilder,
    pub(crate) body: Vec<u8>,
    ghost two: { log.folder ≡ Version.Two },
    ghost fits: { vec_len body ≤ 33554432 },
}

impl SnapshotWriter {
    ghost use Rattle.std.specs.Prelude.{◌+◌, true, ℕ, IfOk, IsErrOf};
    ghost use Rattle.records.specs.declared.record.Record.{Record};
    ghost use Rattle.records.specs.Names.{is_subscription_name};
    ghost use Rattle.cursor_store.specs.declared.told.Told.{Told};
    ghost use Rattle.cursor_store.specs.declared.item.Item.{Item};
    ghost use Rattle.gated_log.specs.declared.start.Start.{Start as Begins};
    ghost use Rattle.gated_log.specs.Wholes.{folder_in};
    ghost use Rattle.cursor_store.specs.Items.{IsItem, told_after, untold};
    ghost use Rattle.cursor_store.specs.Snapshots.{HasWritten, IsSnapshot, HasRoom};

    // Nothing is written yet.
    pub(crate) fn new(alloc: Global) -> Result<SnapshotWriter, AllocError>
        ensures { (entries : ℕ) (start : Begins) → IfOk result (λ writer. HasWritten entries writer (untold start)) }
    {
        let log = LogBuilder::new(alloc, Folder::Two)?;
        let mut body = Vec::new(alloc);
        body.push(RECORDS)?;
        Ok(SnapshotWriter { log, body })
    }

    // The body that grew is whole, and another one begins.
    fn next_body(self) -> Result<SnapshotWriter, PrepareError>
        ensures written { (entries : ℕ) (told : Told) → HasWritten entries self told → IfOk result (λ writer. HasWritten entries writer told) }
        ensures begun { IfOk result (λ writer. vec_len writer.body ≡ 1) }
        ensures fits { ¬ IsErrOf result PrepareError.TooLarge }
    {
        let SnapshotWriter { log, mut body } = self;
        let log = log.with_body(body.as_slice())?;
        body.clear();
        body.push(RECORDS)?;
        Ok(SnapshotWriter { log, body })
    }

    // With room for a record of so many bytes: one with which the body would be too long begins another body.
    fn with_room(self, size: usize) -> Result<SnapshotWriter, PrepareError>
        requires { size ≤ 273 }
        ensures written { (entries : ℕ) (told : Told) → HasWritten entries self told → IfOk result (λ writer. HasWritten entries writer told) }
        ensures room { IfOk result (λ writer. HasRoom writer size) }
        ensures fits { ¬ IsErrOf result PrepareError.TooLarge }
    {
        if self.body.len() + size <= MAX_BODY {
            return Ok(self);
        }
        self.next_body()
    }

    // With the record of a subscription that is made.
    pub(crate) fn with_made(self, name: &str, start: u64) -> Result<SnapshotWriter, PrepareError>
        requires { is_subscription_name name.now ≡ true }
        ensures written { (entries : ℕ) (told : Told) → HasWritten entries self told → IsItem Version.Two entries told (Item.Change (Record.Made name.now start)) →
            IfOk result (λ writer. HasWritten entries writer (told_after (Item.Change (Record.Made name.now start)) told)) }
        ensures fits { ¬ IsErrOf result PrepareError.TooLarge }
    {
        let roomy = self.with_room(name.len() + 10)?;
        let SnapshotWriter { log, mut body } = roomy;
        add_made(&mut body, name, start)?;
        Ok(SnapshotWriter { log, body })
    }

    // With the record of an acknowledged range.
    pub(crate) fn with_range(
        self,
        name: &str,
        first: u64,
        last: u64,
    ) -> Result<SnapshotWriter, PrepareError>
        requires { is_subscription_name name.now ≡ true }
        ensures written { (entries : ℕ) (told : Told) → HasWritten entries self told → IsItem Version.Two entries told (Item.Change (Record.AcknowledgedRange name.now first last)) →
            IfOk result (λ writer. HasWritten entries writer (told_after (Item.Change (Record.AcknowledgedRange name.now first last)) told)) }
        ensures fits { ¬ IsErrOf result PrepareError.TooLarge }
    {
        let roomy = self.with_room(name.len() + 18)?;
        let SnapshotWriter { log, mut body } = roomy;
        add_range(&mut body, name, first, last)?;
        Ok(SnapshotWriter { log, body })
    }

    // The whole snapshot. A body without items is left out.
    pub(crate) fn finish(self) -> Result<PreparedLog, PrepareError>
        ensures written { (entries : ℕ) (told : Told) → HasWritten entries self told → IfOk result (λ log. IsSnapshot entries log told) }
        ensures two { IfOk result (λ log. folder_in log ≡ Version.Two) }
        ensures fits { ¬ IsErrOf result PrepareError.TooLarge }
    {
        let SnapshotWriter { log, body } = self;
        if body.len() <= 1 {
            return Ok(log.finish()?);
        }
        let whole = log.with_body(body.as_slice())?;
        Ok(whole.finish()?)
    }
}
