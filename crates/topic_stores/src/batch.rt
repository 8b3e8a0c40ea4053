// What a flush writes.
ghost use Rattle.std.specs.Prelude.{◌≤◌, length, sum_by};
ghost use Rattle.managed_ledger.specs.Entries.{AreEntries};

use bytes::Bytes;
use records::Record;

/// What a flush writes: entries, each with metadata that can be read and says how many messages it has, and changes of
/// subscriptions; and below which position the ledger may be trimmed then. It has no more than may wait for a flush.
#[derive(Drop)]
pub struct Batch {
    pub entries: Vec<Bytes>,
    pub changes: Vec<Record>,
    pub trim: u64,
    ghost readable: { ∥ AreEntries entries.items ∥₁ },
    ghost few: { length entries.items ≤ 1024 },
    ghost small: { sum_by length entries.items ≤ 16777216 },
    ghost few_changes: { length changes.items ≤ 65536 },
}
