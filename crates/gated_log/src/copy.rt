// The batches of a log are copied to another file.
ghost use Rattle.std.specs.Prelude.{◌≡◌, ◌≢◌, ◌+◌, ◌≤◌, ◌^◌, length, OnOk, IsErr};
ghost use Rattle.disk.specs.declared.file_id.Folder.{Folder};
ghost use Rattle.disk.specs.Disk.{Synced, Kept, Failed};
ghost use Rattle.disk.specs.Areas.{Within, folder_of};
ghost use Rattle.gated_log.specs.Batches.{Bodies, IsLog};
ghost use Rattle.gated_log.specs.Copies.{IsCopied};
ghost use Rattle.gated_log.specs.Labels.{header, plain};
ghost use Rattle.gated_log.specs.Logs.{LogHolds, log_id};

use crate::header::put_header;
use crate::prepared::{CLOSED, OPEN};
use crate::{GatedLog, Label, header_size};
use disk::{DeviceError, FileId, Shelf, folder_of};

// How many bytes are copied at once.
const PART: usize = 65_536;

// Copies one part behind the bytes of another file, with a read and a write.
fn copy_part<S: Shelf>(
    shelf: &mut S,
    from: FileId,
    at: u64,
    part: usize,
    to: FileId,
) -> Result<(), DeviceError>
    requires other { from ≢ to }
    requires few { part ≤ 65536 }
    ensures copied { OnOk result ((S.disk shelf.old).honest → at + part ≤ length ((S.disk shelf.old).seen from) →
        IsCopied from at part to (S.disk shelf.old).seen (S.disk shelf.new).seen) }
    ensures others { (S.disk shelf.old).honest → Within (λ f. f ≡ to) (λ c. Unit {0}) (S.disk shelf.old) (S.disk shelf.new) }
    ensures cause { IsErr result → Failed (S.disk shelf.old) (S.disk shelf.new) }
    ensures kept { Kept (S.disk shelf.old) (S.disk shelf.new) }
{
    let mut buffer = [0; PART];
    let bytes = &mut buffer[..part];
    let _ = shelf.read(from, at, bytes)?;
    let end = shelf.length(to)?;
    shelf.write_at(to, end, bytes)
}

// Copies so many bytes of a file, from an offset on, behind those of another one.
fn copy_bytes<S: Shelf>(
    shelf: &mut S,
    from: FileId,
    at: u64,
    count: u64,
    to: FileId,
) -> Result<(), DeviceError>
    requires other { from ≢ to }
    requires few { at + count ≤ 2 ^ 62 }
    ensures copied { OnOk result ((S.disk shelf.old).honest → at + count ≤ length ((S.disk shelf.old).seen from) →
        IsCopied from at count to (S.disk shelf.old).seen (S.disk shelf.new).seen) }
    ensures others { (S.disk shelf.old).honest → Within (λ f. f ≡ to) (λ c. Unit {0}) (S.disk shelf.old) (S.disk shelf.new) }
    ensures cause { IsErr result → Failed (S.disk shelf.old) (S.disk shelf.new) }
    ensures kept { Kept (S.disk shelf.old) (S.disk shelf.new) }
{
    let mut done = 0;
    'parts: while done < count {
        let part = (count - done).min(PART as u64);
        copy_part(shelf, from, at + done, part as usize, to)?;
        done += part;
    }
    Ok(())
}

// Writes an open header with this label, and nothing behind it, over whatever was in a file.
fn begin_open<S: Shelf>(shelf: &mut S, file: FileId, label: Label) -> Result<(), DeviceError>
    requires { folder_of file ≡ Folder.One → label ≡ plain label.number }
    ensures begun { OnOk result ((S.disk shelf.old).honest → (S.disk shelf.new).seen file ≡ header (folder_of file) 1 label) }
    ensures others { (S.disk shelf.old).honest → Within (λ f. f ≡ file) (λ c. Unit {0}) (S.disk shelf.old) (S.disk shelf.new) }
    ensures cause { IsErr result → Failed (S.disk shelf.old) (S.disk shelf.new) }
    ensures kept { Kept (S.disk shelf.old) (S.disk shelf.new) }
{
    let folder = folder_of(file);
    let mut bytes = [OPEN; 32];
    put_header(&mut bytes[1..], folder, label);
    shelf.cut(file, 0)?;
    shelf.write_at(file, 0, &bytes[..header_size(folder)])
}

impl GatedLog {
    /// Copies the batches of this log to another file, whatever was in it: behind an open header with this label, in parts, and
    /// before a closed gate. The file is synced last, so until the `Ok` a crash may leave anything of it, also an open header before
    /// a part of the batches: whoever has it copied mustn't believe it before. Takes no memory.
    pub fn copy_to<S: Shelf>(
        &self,
        shelf: &mut S,
        to: FileId,
        label: Label,
    ) -> Result<(), DeviceError>
        requires other { (log_id self.now).file ≢ to }
        requires label { folder_of to ≡ Folder.One → label ≡ plain label.number }
        ensures copied { (bodies : Bodies) → (S.disk shelf.old).honest → LogHolds self.now (S.disk shelf.old).seen bodies →
            OnOk result (IsLog (folder_of to) label bodies ((S.disk shelf.new).seen to)) }
        ensures synced { OnOk result ((S.disk shelf.old).honest → Synced to (S.disk shelf.new)) }
        ensures others { (S.disk shelf.old).honest → Within (λ f. f ≡ to) (λ c. Unit {0}) (S.disk shelf.old) (S.disk shelf.new) }
        ensures cause { IsErr result → Failed (S.disk shelf.old) (S.disk shelf.new) }
        ensures kept { Kept (S.disk shelf.old) (S.disk shelf.new) }
    {
        let from = self.gated.id.file;
        let first = header_size(folder_of(from)) as u64;
        begin_open(shelf, to, label)?;
        copy_bytes(shelf, from, first, self.gated.end.saturating_sub(first), to)?;
        let end = shelf.length(to)?;
        shelf.write_at(to, end, &[CLOSED])?;
        shelf.sync(to)
    }
}
