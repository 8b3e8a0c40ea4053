// What is read of a topic's stores.
ghost use Rattle.std.specs.Prelude.{◌≡◌, ◌⊎◌, ◌<◌, ◌≤◌, false, true, Some, length, IfOk, IfErr, IfSome, IsErrOf};
ghost use Rattle.disk.specs.Disk.{Same, Leaves, Kept, Failed};
ghost use Rattle.gated_log.specs.declared.read_error.ReadError.TheVariants.{Device, NoMemory};
ghost use Rattle.managed_ledger.specs.Entries.{entry_at};
ghost use Rattle.topic_core.specs.Recent.{is_short};
ghost use Rattle.topic_core.specs.State.{Topic, floor};
ghost use Rattle.topic_core.specs.Standing.{Phase, Standing};

use bytes::Bytes;
use disk::Shelf;
use topic_stores::{ReadError, TopicStore};

/// What a read of a topic's stores at a position gave.
#[derive(Drop)]
pub struct ReadAt {
    pub(crate) position: u64,
    entry: Result<Bytes, ReadError>,
    ghost short: { is_short entry ≡ true },
}

impl ReadAt {
    ghost use Rattle.std.specs.Prelude.{Ok, Err};
    ghost use Rattle.topic_core.specs.Dispatch.{IsReadOf};

    /// Reads the entry of a position that is committed and that no trim may take, also while a flush is under way.
    pub fn read<T: TopicStore, S: Shelf>(stores: &T, shelf: &mut S, position: u64) -> ReadAt
        ensures position { result.position ≡ position }
        ensures read { (phase : Phase) (core : Topic) → Standing T.stands phase core (T.view stores.now) (S.disk shelf.old) → floor core ≤ position → position < core.committed → IsReadOf core.ledger result }
        ensures cause { (T.view stores.now).failed ≡ false → IsErrOf result.entry Device → Failed (S.disk shelf.old) (S.disk shelf.new) }
        ensures seen { (S.disk shelf.old).honest → Same (S.disk shelf.old).seen (S.disk shelf.new).seen }
        ensures any_moment { (S.disk shelf.old).honest → Leaves (S.disk shelf.old).may_leave (S.disk shelf.old) (S.disk shelf.new) }
        ensures kept { Kept (S.disk shelf.old) (S.disk shelf.new) }
    {
        let entry = read_committed(stores, shelf, position);
        ReadAt { position, entry }
    }

    /// The entry, or why it can't be read.
    pub(crate) fn into_entry(self) -> Result<Option<Bytes>, ReadError>
        ensures entry { IfOk self.entry (λ entry. result ≡ Ok (Some entry)) }
        ensures refused { IfErr self.entry (λ e. result ≡ Err e) }
        ensures short { IfOk result (λ found. IfSome found (λ entry. length entry ≤ 1048576)) }
    {
        let ReadAt { entry, .. } = self;
        Ok(Some(entry?))
    }
}

/// Reads the entry of a committed position that no trim may take, also while a flush is under way.
pub(crate) fn read_committed<T: TopicStore, S: Shelf>(
    stores: &T,
    shelf: &mut S,
    position: u64,
) -> Result<Bytes, ReadError>
    ensures entry { (phase : Phase) (core : Topic) → Standing T.stands phase core (T.view stores.now) (S.disk shelf.old) → floor core ≤ position → position < core.committed →
        IfOk result (λ entry. entry_at core.ledger position ≡ Some entry) }
    ensures refused { (phase : Phase) (core : Topic) → Standing T.stands phase core (T.view stores.now) (S.disk shelf.old) → floor core ≤ position → position < core.committed →
        IfErr result (λ e. (e ≡ NoMemory) ⊎ (e ≡ Device)) }
    ensures short { IfOk result (λ entry. length entry ≤ 1048576) }
    ensures cause { (T.view stores.now).failed ≡ false → IsErrOf result Device → Failed (S.disk shelf.old) (S.disk shelf.new) }
    ensures seen { (S.disk shelf.old).honest → Same (S.disk shelf.old).seen (S.disk shelf.new).seen }
    ensures any_moment { (S.disk shelf.old).honest → Leaves (S.disk shelf.old).may_leave (S.disk shelf.old) (S.disk shelf.new) }
    ensures kept { Kept (S.disk shelf.old) (S.disk shelf.new) }
{
    let bytes = stores.read(shelf, position)?;
    let entry = Bytes::from_vec(bytes)?;
    Ok(entry)
}
