// The head of a file that is being opened.
ghost use Rattle.std.specs.Prelude.{◌≡◌, ◌≤◌, ◌^◌};

use crate::header::{AtHeader, at_header, header_size, number_in};
use disk::{DeviceError, FileId, Shelf, folder_of};

/// The head of a file that is being opened: its size in bytes, what its header says, and the number
/// in its header whatever that says, which is nothing of a file with fewer bytes than a header has.
#[derive(Drop)]
pub struct LogHead {
    pub(crate) file: FileId,
    pub(crate) size: u64,
    pub(crate) header: AtHeader,
    pub(crate) number: u64,
    ghost bounded: { size ≤ 2 ^ 62 },
}

impl LogHead {
    ghost use Rattle.std.specs.Prelude.{IfOk, OnOk, IsErr};
    ghost use Rattle.disk.specs.Disk.{Same, Leaves, Kept, Failed};
    ghost use Rattle.disk.specs.Areas.{Agree};
    ghost use Rattle.gated_log.specs.Head.{HasHead, head_file, head_size, head_header, head_number};

    /// Syncs a file, so what is read stays, and reads its header.
    pub fn read<S: Shelf>(shelf: &mut S, file: FileId) -> Result<LogHead, DeviceError>
        ensures head { (S.disk shelf.old).honest → IfOk result (λ head. HasHead head (S.disk shelf.new)) }
        ensures file { IfOk result (λ head. head_file head ≡ file) }
        ensures seen { (S.disk shelf.old).honest → OnOk result (Same (S.disk shelf.old).seen (S.disk shelf.new).seen) }
        ensures others { (S.disk shelf.old).honest → Agree (λ f. ¬ (f ≡ file)) (S.disk shelf.old).seen (S.disk shelf.new).seen }
        ensures any_moment { (S.disk shelf.old).honest → Leaves (S.disk shelf.old).may_leave (S.disk shelf.old) (S.disk shelf.new) }
        ensures cause { IsErr result → Failed (S.disk shelf.old) (S.disk shelf.new) }
        ensures kept { Kept (S.disk shelf.old) (S.disk shelf.new) }
    {
        shelf.sync(file)?;
        let size = shelf.length(file)?;
        let folder = folder_of(file);
        let mut head = [0; 33];
        let count = shelf.read(file, 0, &mut head[..header_size(folder) + 1])?;
        let head = &head[..count];
        Ok(LogHead {
            file,
            size,
            header: at_header(folder, head),
            number: number_in(folder, head),
        })
    }

    /// The file.
    pub fn file(&self) -> FileId
        ensures { result ≡ head_file self.now }
    {
        self.file
    }

    /// Its size, in bytes.
    pub fn size(&self) -> u64
        ensures { result ≡ head_size self.now }
    {
        self.size
    }

    /// What its header says.
    pub fn header(&self) -> AtHeader
        ensures { result ≡ head_header self.now }
    {
        self.header
    }

    /// The number in its header.
    pub fn number(&self) -> u64
        ensures { result ≡ head_number self.now }
    {
        self.number
    }
}
