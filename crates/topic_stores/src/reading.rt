// The read of an entry.
ghost use Rattle.std.specs.Prelude.{◌≡◌, ◌⊎◌, ◌<◌, ◌≤◌, Some, true, false, length, IfOk, IfErr, IsErrOf};
ghost use Rattle.disk.specs.Disk.{Same, Leaves, Kept as Counted, Failed};
ghost use Rattle.managed_ledger.specs.Entries.{Ledger, end_of, entry_at};
ghost use Rattle.gated_log.specs.declared.read_error.ReadError.TheVariants.{Device, NoMemory};

use disk::{FileId, Shelf};
use gated_log::ReadError;
use managed_ledger::EntryStore;

/// The most bytes of an entry, as CONNECTED tells it ("PulsarApi.proto, CommandConnected, max_message_size").
const LONGEST_ENTRY: usize = 1_048_576;

/// Reads the entry of a position, with one read of the device. One that isn't there, or is longer than any that is accepted,
/// is damage of the first segment that is there.
pub(crate) fn read_entry<E: EntryStore, S: Shelf>(
    store: &E,
    shelf: &mut S,
    position: u64,
) -> Result<Vec<u8>, ReadError>
    ensures entry { (ledger : Ledger) → (S.disk shelf.old).honest → E.holds store.now (S.disk shelf.old).seen ledger →
        IfOk result (λ entry. entry_at ledger position ≡ Some entry.items) }
    ensures refused { (ledger : Ledger) → (S.disk shelf.old).honest → E.holds store.now (S.disk shelf.old).seen ledger → ledger.base ≤ position → position < end_of ledger →
        IfErr result (λ e. (e ≡ NoMemory) ⊎ (e ≡ Device)) }
    ensures short { IfOk result (λ entry. length entry.items ≤ 1048576) }
    ensures stays_failed { E.failed store.now ≡ true → IsErrOf result Device × (shelf.new ≡ shelf.old) }
    ensures cause { E.failed store.now ≡ false → IsErrOf result Device → Failed (S.disk shelf.old) (S.disk shelf.new) }
    ensures seen { (S.disk shelf.old).honest → Same (S.disk shelf.old).seen (S.disk shelf.new).seen }
    ensures any_moment { (S.disk shelf.old).honest → Leaves (S.disk shelf.old).may_leave (S.disk shelf.old) (S.disk shelf.new) }
    ensures kept { Counted (S.disk shelf.old) (S.disk shelf.new) }
{
    let damaged = ReadError::Damaged {
        file: FileId::Segment {
            topic: store.topic(),
            number: store.start().first,
        },
        offset: 0,
    };
    let found = store.read(shelf, position)?;
    let Some(entry) = found else {
        return Err(damaged);
    };
    if entry.len() > LONGEST_ENTRY {
        return Err(damaged);
    }
    Ok(entry)
}
