// A managed ledger is opened, whatever a crash left of its segments.
ghost use Rattle.std.specs.Prelude.{◌≡◌, ◌⊎◌, ◌≤◌, ◌^◌, [], false, length, IfOk, IfErr, IsErrOf};
ghost use Rattle.disk.specs.Disk.{Same, Leaves, Kept, Failed};
ghost use Rattle.disk.specs.Areas.{Agree};
ghost use Rattle.journal.specs.Chains.{SegmentsOf};
ghost use Rattle.managed_ledger.specs.Entries.{Entries, begun_at};
ghost use Rattle.managed_ledger.specs.Folded.{IsFault};
ghost use Rattle.managed_ledger.specs.Ledgers.{Holds, start_of, counts_of, ledger_topic, failed};
ghost use Rattle.managed_ledger.specs.Shape.{total};
ghost use Rattle.disk.specs.Contents.{Settled};

use crate::EntryFold;
use crate::ledger_fold::LedgerFold;
use crate::ledger_index::LedgerIndex;
use crate::managed_ledger::ManagedLedger;
use disk::{FileId, Shelf, TopicId};
use gated_log::{Refusal, Start};
use journal::Journal;
use std::alloc::Global;
use std::collections::VecDeque;

impl ManagedLedger {
    /// Opens the ledger of a topic from where it begins, whatever a crash left of its segments, and hands its entries to a
    /// fold. They are synced first, so what is read stays, and read once. The first fault is told, with its segment and the
    /// offset of the gate behind which it stands.
    pub fn open_with<S: Shelf, E: EntryFold + Drop>(
        alloc: Global,
        shelf: &mut S,
        topic: TopicId,
        entries_per_ledger: u32,
        start: Start,
        fold: E,
    ) -> Result<(ManagedLedger, E), Refusal>
        requires in_range { (start.base ≤ 2 ^ 62) × (start.first ≤ 2 ^ 62) }
        // The ledger has the entries that the fold has taken; where the device isn't honest it has taken as many.
        ensures opened { E.holds fold [] →
            IfOk result (λ opened. (entries : Entries) × ((S.disk shelf.old).honest → Settled (Holds opened.0) (S.disk shelf.new) (begun_at start.base entries)) × (length entries ≡ total (counts_of opened.0)) × E.holds opened.1 entries) }
        // Or the first fault that stands in the segments is told.
        ensures refused { (S.disk shelf.old).honest → E.holds fold [] → IfErr result (λ e. (e ≡ Refusal.NoMemory) ⊎ ((e ≡ Refusal.Device) ⊎ IsFault topic start (S.disk shelf.old).seen e)) }
        ensures topic { IfOk result (λ opened. ledger_topic opened.0 ≡ topic) }
        ensures start { IfOk result (λ opened. start_of opened.0 ≡ start) }
        ensures per_ledger { IfOk result (λ opened. opened.0.entries_per_ledger ≡ entries_per_ledger) }
        ensures works { IfOk result (λ opened. failed opened.0 ≡ false) }
        ensures cause { IsErrOf result Refusal.Device → Failed (S.disk shelf.old) (S.disk shelf.new) }

        // What reads give stays, but of a segment whose sync failed.
        ensures seen { (S.disk shelf.old).honest → ¬ IsErrOf result Refusal.Device → Same (S.disk shelf.old).seen (S.disk shelf.new).seen }
        ensures others { (S.disk shelf.old).honest → Agree (λ f. ¬ SegmentsOf topic f) (S.disk shelf.old).seen (S.disk shelf.new).seen }
        // A crash at any moment leaves what it might have left before.
        ensures any_moment { (S.disk shelf.old).honest → Leaves (S.disk shelf.old).may_leave (S.disk shelf.old) (S.disk shelf.new) }
        ensures kept { Kept (S.disk shelf.old) (S.disk shelf.new) }
    {
        let fold = LedgerFold {
            alloc,
            base: start.base,
            folder: topic.folder,
            index: None,
            entries: fold,
        };
        let (journal, LedgerFold { index, entries, .. }) = Journal::open_with(
            alloc,
            shelf,
            topic,
            start.first,
            fold,
        )?;
        let Some(LedgerIndex { closed, last, .. }) = index else {
            // A device that isn't honest showed no segment.
            let file = FileId::Segment {
                topic,
                number: start.first,
            };
            return Err(Refusal::Damaged { file, offset: 0 });
        };
        let ledger = ManagedLedger {
            alloc,
            entries_per_ledger,
            journal,
            closed: VecDeque::from_vec(closed),
            last,
        };
        Ok((ledger, entries))
    }
}
