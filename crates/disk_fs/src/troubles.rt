// What the log tells of calls that fail.
ghost use Rattle.std.specs.Prelude.{◌≡◌, ◌≤◌, ◌↔◌, false, IsTrue, vec_len, All, Contains};
ghost use Rattle.disk_fs.specs.Troubles.{IsOf};

use disk::FileId;
use std::alloc::Global;
use std::fmt;

/// The log's last failures are kept in mind, so many. Our own rule.
const MOST_TOLD: usize = 16;

/// A call for a file. Reads are the same call where they begin at the same offset.
#[derive(Clone, Copy, Debug, PartialEq, Eq)]
pub(crate) enum Call {
    Read { offset: u64 },
    Write,
    Cut,
    /// A sync of what was written here.
    Sync,
    /// A sync where nothing was written here since the last one.
    Settle,
    Length,
}

impl fmt::Display for Call {
    fn fmt<W: fmt::Write>(&self, f: &mut fmt::Formatter<W>) -> fmt::Result {
        match self {
            Call::Read { offset } => write!(f, "a read at {offset}"),
            Call::Write => write!(f, "a write"),
            Call::Cut => write!(f, "a cut"),
            Call::Sync | Call::Settle => write!(f, "a sync"),
            Call::Length => write!(f, "a look at the length"),
        }
    }
}

/// A call that failed, with the system's number of the error, where it has one.
#[derive(Clone, Copy, Debug, PartialEq, Eq)]
pub(crate) struct Failure {
    pub(crate) file: FileId,
    pub(crate) call: Call,
    pub(crate) code: Option<i32>,
}

impl Failure {
    /// Whether it was this call for this file.
    fn is_of(&self, file: FileId, call: Call) -> bool
        ensures { IsTrue result ↔ IsOf file call self.now }
    {
        self.file == file && self.call == call
    }
}

/// The failures that the log has told and that may last: no such call has gone well since. Of more than sixteen the last ones.
#[derive(Drop)]
pub(crate) struct Troubles {
    told: Vec<Failure>,
    ghost few: { vec_len told ≤ 16 },
}

impl Troubles {
    /// The log has told none.
    pub(crate) fn new(alloc: Global) -> Troubles {
        Troubles {
            told: Vec::new(alloc),
        }
    }

    /// A call failed. Answers whether the log is to tell that.
    pub(crate) fn meet(&mut self, failure: Failure) -> bool
        ensures { Contains self.old.told.items failure → result ≡ false }
    {
        if self.told.iter().any(|it| *it == failure) {
            return false;
        }
        if self.told.len() >= MOST_TOLD {
            self.told.remove(0);
        }
        // Where memory is refused the next one is told, too.
        let _ = self.told.push(failure);
        true
    }

    /// A call went well: its next failure is news.
    pub(crate) fn end(&mut self, file: FileId, call: Call)
        ensures { All (λ it. ¬ IsOf file call it) self.new.told.items }
    {
        self.told.retain(|it| !it.is_of(file, call));
    }
}
