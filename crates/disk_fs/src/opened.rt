// The files that are open.
ghost use Rattle.std.specs.Prelude.{◌≡◌, ◌<◌, ◌≤◌, length, vec_len, IfSome, IsTrue, OnOk};

use disk::FileId;
use std::alloc::{AllocError, Global};

/// The most files of a folder that are open at a time.
const MOST_OPEN: usize = 8;

/// An open file of the folder.
#[derive(Drop)]
pub(crate) struct OpenedFile<F> {
    pub(crate) id: FileId,
    pub(crate) file: F,
    /// Whether something was, or may have been, written to it or cut from it since its last sync.
    pub(crate) is_dirty: bool,
}

/// At most eight files, the one used last first.
#[derive(Drop)]
pub(crate) struct OpenedFiles<F> {
    pub(crate) files: Vec<OpenedFile<F>>,
    ghost few: { vec_len files ≤ 8 },
}

impl<F: Drop> OpenedFiles<F> {
    pub(crate) fn new(alloc: Global) -> OpenedFiles<F> {
        OpenedFiles {
            files: Vec::new(alloc),
        }
    }

    /// Whether the file is open, and something was written to it, or cut from it, since its last sync.
    pub(crate) fn is_written(&self, id: FileId) -> bool {
        self.files.iter().any(|it| it.id == id && it.is_dirty)
    }

    /// Takes the memory for one more.
    pub(crate) fn reserve(&mut self) -> Result<(), AllocError>
        ensures { vec_len self.new.files ≡ vec_len self.old.files }
    {
        self.files.reserve(1)
    }

    /// Has the file stand first. False where it isn't open.
    pub(crate) fn bring_first(&mut self, id: FileId) -> bool
        ensures { IsTrue result → 0 < vec_len self.new.files }
    {
        let Some(place) = place_of(self.files.as_slice(), id) else {
            return false;
        };
        move_first(self.files.as_mut_slice(), place);
        true
    }

    /// Closes them all.
    pub(crate) fn close_all(&mut self)
        ensures { vec_len self.new.files ≡ 0 }
    {
        self.files.clear();
    }

    /// Gives up the file that was used least lately, where eight are open.
    pub(crate) fn make_place(&mut self) -> Option<OpenedFile<F>>
        ensures { vec_len self.new.files < 8 }
    {
        if self.files.len() < MOST_OPEN {
            return None;
        }
        self.files.pop()
    }

    /// One more file, which stands first. Without memory for it it is closed.
    pub(crate) fn put_first(&mut self, id: FileId, file: F) -> Result<(), AllocError>
        requires { vec_len self.old.files < 8 }
        ensures { OnOk result (0 < vec_len self.new.files) }
    {
        let opened = OpenedFile {
            id,
            file,
            is_dirty: false,
        };
        self.files.insert(0, opened)?;
        Ok(())
    }
}

// Where the file stands among those that are open.
fn place_of<F>(files: &[OpenedFile<F>], id: FileId) -> Option<usize>
    ensures { IfSome result (λ place. place < length files.now) }
{
    files.iter().position(|it| it.id == id)
}

// Has the file of this place stand first, and those before it one place further.
fn move_first<F>(files: &mut [OpenedFile<F>], place: usize)
    requires { place < length files.old }
    ensures { length files.new ≡ length files.old }
{
    files[..=place].rotate_right(1);
}
