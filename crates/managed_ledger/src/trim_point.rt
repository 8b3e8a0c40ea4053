// Where the ledger would begin without its first segments.
ghost use Rattle.std.specs.Prelude.{◌≡◌, ◌++◌, ◌∷◌, ◌≤◌, ◌^◌, [], true, false, ℕ, IfSome};
ghost use Rattle.managed_ledger.specs.Ledgers.{base_of, start_of, counts_of};
ghost use Rattle.managed_ledger.specs.Points.{IsTrimPoint, IsLastBelow, counts_with};
ghost use Rattle.managed_ledger.specs.Shape.{sizes_of};

use crate::ManagedLedger;
use crate::find::segment_of;
use gated_log::Start;

impl ManagedLedger {
    // Whether an append of so many entries rolls the last segment first.
    fn rolls(&self, more: usize) -> bool
        ensures rolled { result ≡ true → counts_with self.now.entries_per_ledger more (counts_of self.now) ≡ counts_of self.now ++ more ∷ [] }
        ensures stays { result ≡ false → (last : ℕ) × (counts_with self.now.entries_per_ledger more (counts_of self.now) ≡ sizes_of self.now.closed.items ++ last ∷ []) }
    {
        if more == 0 {
            return false;
        }
        if (self.last.places.len() as u64) < u64::from(self.entries_per_ledger) {
            return false;
        }
        true
    }

    // The last segment that begins at or below a limit: its number, counted from the first one, and where it begins.
    fn last_below(&self, limit: u64) -> Option<(u64, u64)>
        ensures below { (last : ℕ) → IsLastBelow (base_of self.now) (sizes_of self.now.closed.items ++ last ∷ []) limit result }
        ensures in_range { IfSome result (λ at. at.0 ≤ 2 ^ 63) }
    {
        if limit >= self.last.first {
            return Some((self.closed.len() as u64, self.last.first));
        }
        if limit < self.base() {
            return None;
        }
        let segment = segment_of(&self.closed, self.last.first, limit);
        Some((segment as u64, self.closed[segment].first))
    }

    // The same once so many entries more are appended.
    fn last_below_with(&self, more: usize, limit: u64) -> Option<(u64, u64)>
        ensures below { IsLastBelow (base_of self.now) (counts_with self.now.entries_per_ledger more (counts_of self.now)) limit result }
        ensures in_range { IfSome result (λ at. at.0 ≤ 2 ^ 63) }
    {
        if !self.rolls(more) {
            return self.last_below(limit);
        }
        let end = self.entry_count();
        if limit >= end {
            return Some((self.closed.len() as u64 + 1, end));
        }
        self.last_below(limit)
    }

    // Where the ledger would begin without the rolled segments below a limit, once so many entries more are appended; none where
    // none is.
    pub(crate) fn point_below(&self, more: usize, limit: u64) -> Option<Start>
        ensures { IsTrimPoint (start_of self.now) (counts_with self.now.entries_per_ledger more (counts_of self.now)) limit result }
    {
        let (number, base) = self.last_below_with(more, limit)?;
        if number == 0 {
            return None;
        }
        Some(Start {
            base,
            first: self.journal.first() + number,
        })
    }
}
