// Which records are of their form.
ghost use Rattle.std.specs.Prelude.{◌≡◌, ◌↔◌, IsTrue};
ghost use Rattle.records.specs.Records.{IsFormed};
ghost use Rattle.cursor_store.specs.Cursors.{content};

use crate::CursorStore;
use records::Record;

impl CursorStore {
    /// Whether a record is of its form behind what is kept, beside a ledger of so many entries.
    pub fn is_formed(&self, change: &Record, entries: u64) -> bool
        ensures { IsTrue result ↔ IsFormed entries (content self.now) change.now }
    {
        self.told.kept.is_formed(change, entries)
    }
}
