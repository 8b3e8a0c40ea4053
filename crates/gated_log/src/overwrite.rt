// A whole log is written over a file.
ghost use Rattle.std.specs.Prelude.{◌≡◌, ◌⊎◌, false, IfOk, IsErr};
ghost use Rattle.disk.specs.declared.file_id.Folder.{Folder};
ghost use Rattle.disk.specs.Disk.{Synced, Kept, Failed};
ghost use Rattle.disk.specs.Areas.{Within, folder_of};
ghost use Rattle.disk.specs.Contents.{Settled};
ghost use Rattle.gated_log.specs.Batches.{Bodies, IsLog};
ghost use Rattle.gated_log.specs.Headers.{HasOpenHeader, IsShut};
ghost use Rattle.gated_log.specs.Labels.{plain};
ghost use Rattle.gated_log.specs.Logs.{LogHolds, log_id, log_failed};
ghost use Rattle.gated_log.specs.Wholes.{IsLogOf, folder_in};

use crate::gate::open_gate;
use crate::header::put_header;
use crate::{GatedFile, GatedLog, Label, LogId, PreparedLog};
use disk::{DeviceError, FileId, Shelf, persist};

impl GatedLog {
    /// Writes a whole log over a file whose header gate is closed, with four device calls: all behind the gate and a sync,
    /// then the gate and a sync. Takes no memory.
    pub fn overwrite<S: Shelf>(
        shelf: &mut S,
        file: FileId,
        label: Label,
        prepared: PreparedLog,
    ) -> Result<GatedLog, DeviceError>
        requires folder { folder_in prepared ≡ folder_of file }
        requires label { folder_of file ≡ Folder.One → label ≡ plain label.number }
        ensures written { (bodies : Bodies) → IsLogOf prepared bodies → (S.disk shelf.old).honest → IsShut ((S.disk shelf.old).seen file) →
            IfOk result (λ log. Settled (LogHolds log) (S.disk shelf.new) bodies) }

        // A crash at any moment of the call leaves no open header, or the log.
        ensures within { (bodies : Bodies) → IsLogOf prepared bodies → (S.disk shelf.old).honest → Synced file (S.disk shelf.old) → IsShut ((S.disk shelf.old).seen file) →
            Within (λ f. f ≡ file) (λ c. (¬ HasOpenHeader (folder_of file) (c file)) ⊎ IsLog (folder_of file) label bodies (c file)) (S.disk shelf.old) (S.disk shelf.new) }
        ensures others { (S.disk shelf.old).honest → Within (λ f. f ≡ file) (λ c. Unit {0}) (S.disk shelf.old) (S.disk shelf.new) }
        ensures id { IfOk result (λ log. log_id log ≡ record { file = file; label = label }) }
        ensures works { IfOk result (λ log. log_failed log ≡ false) }
        ensures cause { IsErr result → Failed (S.disk shelf.old) (S.disk shelf.new) }
        ensures kept { Kept (S.disk shelf.old) (S.disk shelf.new) }
    {
        let PreparedLog {
            alloc,
            folder,
            count,
            mut bytes,
        } = prepared;
        put_header(&mut bytes, folder, label);
        persist(shelf, file, 1, bytes.as_slice())?;
        open_gate(shelf, file, 0)?;
        Ok(GatedLog {
            alloc,
            gated: GatedFile {
                id: LogId { file, label },
                end: bytes.len() as u64,
                count,
                failed: false,
            },
        })
    }
}
