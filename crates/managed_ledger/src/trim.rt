// The first segments are given back.
ghost use Rattle.std.specs.Prelude.{◌≡◌, ◌+◌, ◌-◌, ◌≤◌, ◌^◌, true, false, drop, OnOk, IsErr};
ghost use Rattle.disk.specs.Contents.{Settled};
ghost use Rattle.disk.specs.Disk.{Kept, Failed};
ghost use Rattle.disk.specs.Areas.{Within};
ghost use Rattle.journal.specs.Chains.{SegmentsOf};
ghost use Rattle.journal.specs.Drops.{AreEmpty};
ghost use Rattle.managed_ledger.specs.Entries.{Ledger, Stands, trimmed};
ghost use Rattle.managed_ledger.specs.Ledgers.{Holds, counts_of, failed, ledger_topic, start_of};
ghost use Rattle.managed_ledger.specs.Points.{Begins};
ghost use Rattle.managed_ledger.specs.Shape.{total};

use crate::ManagedLedger;
use crate::segment_index::SegmentIndex;
use disk::{DeviceError, Shelf};
use gated_log::Start;
use std::collections::VecDeque;

// Forgets the first tables.
fn forget_first(tables: &mut VecDeque<SegmentIndex>, count: u64)
    ensures { tables.new.items ≡ drop count tables.old.items }
{
    let mut left = count;
    'tables: while left > 0 {
        let Some(_) = tables.pop_front() else {
            return;
        };
        left -= 1;
    }
}

impl ManagedLedger {
    // Gives the segments before the one that begins there back, with two device calls for each.
    pub(crate) fn drop_before<S: Shelf>(
        &mut self,
        shelf: &mut S,
        start: Start,
    ) -> Result<(), DeviceError>
        requires begins { Begins (start_of self.old) (counts_of self.old) start }
        requires in_range { start.first ≤ 2 ^ 62 }
        ensures trimmed { (l : Ledger) → Settled (Holds self.old) (S.disk shelf.old) l → OnOk result (Settled (Holds self.new) (S.disk shelf.new) (trimmed start.base l)) }
        ensures start { (l : Ledger) → Settled (Holds self.old) (S.disk shelf.old) l → OnOk result (start_of self.new ≡ start) }
        // The disk has their bytes back, whatever crash comes.
        ensures empty { (l : Ledger) → Settled (Holds self.old) (S.disk shelf.old) l → OnOk result (AreEmpty (ledger_topic self.old) (start_of self.old).first start.first (S.disk shelf.new)) }
        // A crash at any moment of the call leaves the ledger from there on, and other files as they were.
        ensures within { (l : Ledger) → Settled (Holds self.old) (S.disk shelf.old) l →
            Within (SegmentsOf (ledger_topic self.old)) (λ c. Stands (ledger_topic self.old) start c (trimmed start.base l)) (S.disk shelf.old) (S.disk shelf.new) }

        ensures base { OnOk result ((start_of self.new).base ≡ start.base) }
        ensures counts { OnOk result (counts_of self.new ≡ drop (start.first - (start_of self.old).first) (counts_of self.old)) }
        ensures start_stays { IsErr result → start_of self.new ≡ start_of self.old }
        ensures counts_stay { IsErr result → counts_of self.new ≡ counts_of self.old }
        ensures end_stays { (start_of self.new).base + total (counts_of self.new) ≡ (start_of self.old).base + total (counts_of self.old) }
        ensures topic { ledger_topic self.new ≡ ledger_topic self.old }
        ensures per_ledger { self.new.entries_per_ledger ≡ self.old.entries_per_ledger }
        ensures works { OnOk result (failed self.new ≡ false) }
        ensures failed { IsErr result → failed self.new ≡ true }
        ensures stays_failed { failed self.old ≡ true → IsErr result × (shelf.new ≡ shelf.old) }
        ensures cause { failed self.old ≡ false → IsErr result → Failed (S.disk shelf.old) (S.disk shelf.new) }
        ensures kept { Kept (S.disk shelf.old) (S.disk shelf.new) }
    {
        let dropped = start.first - self.journal.first();
        // A device that isn't honest may have shown fewer segments.
        let first = start.first.min(self.journal.last());
        self.journal.drop_before(shelf, first)?;
        forget_first(&mut self.closed, dropped);
        Ok(())
    }
}
