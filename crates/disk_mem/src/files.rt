// The files of the device by their ids. A file that isn't there is an empty one.
ghost use Rattle.std.specs.Prelude.{◌≡◌, ◌≤◌, ◌+◌, ◌^◌, length, OnOk, OnErr};
ghost use Rattle.disk.specs.declared.file_id.FileId.{FileId};
ghost use Rattle.disk.specs.Disk.{Filled};
ghost use Rattle.disk_mem.specs.FileState.{after_write, after_cut, settled, CrashesTo};
ghost use Rattle.disk_mem.specs.Files.{state_at, FileChanges, NoneChanges};

use crate::file::File;
use disk::{CrashForm, FileId};
use std::alloc::{AllocError, Global};
use std::collections::HashMap;

pub(crate) type Files = HashMap<FileId, File>;

// Reads of a file.
pub(crate) fn read(files: &Files, file: FileId, offset: u64, buffer: &mut [u8]) -> usize
    ensures { Filled (state_at files.now file).bytes offset buffer.old result buffer.new }
{
    match files.get(&file) {
        Some(kept) => kept.read(offset, buffer),
        None => 0,
    }
}

// The length of a file.
pub(crate) fn len(files: &Files, file: FileId) -> usize
    ensures len { result ≡ length (state_at files.now file).bytes }
    ensures bounded { result ≤ 2 ^ 62 }
{
    match files.get(&file) {
        Some(kept) => kept.len(),
        None => 0,
    }
}

// Writes to a file. Without memory none changes.
pub(crate) fn write(
    files: &mut Files,
    alloc: Global,
    file: FileId,
    offset: u64,
    bytes: &[u8],
) -> Result<(), AllocError>
    requires { offset + length bytes.now ≤ 2 ^ 62 }
    ensures ok { OnOk result (FileChanges file (after_write offset bytes.now) (state_at files.old) (state_at files.new)) }
    ensures err { OnErr result (NoneChanges (state_at files.old) (state_at files.new)) }
{
    if let Some(kept) = files.get_mut(&file) {
        return kept.write(offset, bytes);
    }
    let mut made = File::new(alloc);
    made.write(offset, bytes)?;
    files.insert(file, made)?;
    Ok(())
}

// Cuts a file.
pub(crate) fn cut(files: &mut Files, file: FileId, len: u64)
    ensures { FileChanges file (after_cut len) (state_at files.old) (state_at files.new) }
{
    if let Some(kept) = files.get_mut(&file) {
        kept.cut(len);
    }
}

// Syncs a file.
pub(crate) fn sync(files: &mut Files, file: FileId)
    ensures { FileChanges file (λ was. settled was.bytes) (state_at files.old) (state_at files.new) }
{
    if let Some(kept) = files.get_mut(&file) {
        kept.sync();
    }
}

// Cuts the power.
pub(crate) fn crash(files: &mut Files, form: CrashForm)
    ensures { (f : FileId) → CrashesTo form (state_at files.old f) (state_at files.new f) }
{
    files.retain(|_, kept| {
        kept.crash(form);
        true
    });
}
