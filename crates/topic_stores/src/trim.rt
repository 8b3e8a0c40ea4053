// The two parts of a trim of both stores of a topic.
ghost use Rattle.std.specs.Prelude.{◌≡◌, ◌≤◌, ◌^◌, ◌&&◌, Some, is_some, option_copied, IfOk, IfSome};
ghost use Rattle.managed_ledger.specs.Points.{Begins, counts_with};
ghost use Rattle.records.specs.Maps.{Kept};
ghost use Rattle.cursor_store.specs.Behind.{is_due_at};
ghost use Rattle.cursor_store.specs.Trimming.{HasGeneration, IsKeptBehind};

use cursor_store::SubStore;
use gated_log::{PrepareError, Start};
use managed_ledger::EntryStore;
use std::alloc::AllocError;

// No ledger has more entries, and none begins in a later segment.
const MOST: u64 = 1 << 62;

/// Where the ledger begins after a trim, and what says so in the slots.
#[derive(Drop)]
pub(crate) struct PreparedTrim<P> {
    pub(crate) start: Start,
    pub(crate) slots: P,
}

/// Builds what says that the ledger begins without the rolled segments below a limit, once so many entries more are appended and
/// these changes are; none where none is, or where a subscription lacks a position there. Reaches no device.
pub(crate) fn prepare_trim<E: EntryStore, C: SubStore>(
    entries: &E,
    subscriptions: &C,
    more: usize,
    changes: Option<&C::Prepared>,
    limit: u64,
) -> Result<Option<PreparedTrim<C::PreparedTrim>>, AllocError>
    ensures begins { IfOk result (λ trim. IfSome trim (λ t. Begins (E.start_of entries.now) (counts_with (E.per_ledger entries.now) more (E.counts entries.now)) t.start)) }
    ensures below { IfOk result (λ trim. IfSome trim (λ t. t.start.base ≤ limit)) }
    ensures in_range { IfOk result (λ trim. IfSome trim (λ t. t.start.first ≤ 2 ^ 62)) }
    ensures slots { (kept : Kept) → IsKeptBehind (C.is_for subscriptions.now) (C.content subscriptions.now) (option_copied changes.entry) kept →
        IfOk result (λ trim. IfSome trim (λ t. C.trims t.slots (C.start_of subscriptions.now) kept t.start)) }
    // There is a generation for it, behind a replace that is due.
    ensures generation { (kept : Kept) → IsKeptBehind (C.is_for subscriptions.now) (C.content subscriptions.now) (option_copied changes.entry) kept →
        IfOk result (λ trim. IfSome trim (λ t. HasGeneration (is_some changes.entry && is_due_at (C.counted subscriptions.now) (C.can_replace subscriptions.now)) (C.replaces_left subscriptions.now))) }
{
    let Some(start) = entries.trim_point(more, limit) else {
        return Ok(None);
    };
    if start.first > MOST {
        return Ok(None);
    }
    match subscriptions.prepare_trim(changes, start) {
        Ok(Some(slots)) => Ok(Some(PreparedTrim { start, slots })),
        Ok(None) => Ok(None),
        Err(PrepareError::NoMemory) => Err(AllocError),
        // It isn't too many bytes for a batch.
        Err(PrepareError::TooLarge) => unreachable!(),
    }
}
