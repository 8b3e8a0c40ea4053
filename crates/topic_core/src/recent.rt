// What is durable of a topic, with the entries that were committed last.
ghost use Rattle.std.specs.Prelude.{◌≡◌, ◌≤◌, ℕ, Some, length, All, IfOk, IfSome};
ghost use Rattle.managed_ledger.specs.Entries.{end_of, entry_at, lengthened, trimmed};
ghost use Rattle.records.specs.Records.{after_all};
ghost use Rattle.topic_core.specs.Recent.{IsRest};

use crate::durable::Durable;
use bytes::Bytes;
use records::Record;
use std::alloc::{AllocError, Global};
use std::collections::VecDeque;
use std::marker::Model;

/// The most bytes of entries that stay in memory. Our own rule.
const MOST_RECENT_BYTES: u64 = 4_194_304;

/// What an entry in memory is counted to take beside its bytes, in bytes. Our own rule.
const BYTES_BESIDE: u64 = 128;

/// What is durable. The entries that were committed last stand in memory, as many as may take so many bytes, so that they needn't be
/// read.
#[derive(Drop)]
pub(crate) struct Recent {
    durable: Durable,
    entries: VecDeque<Bytes>,
    bytes: u64,
}

impl Model for Recent {
    ghost use Rattle.std.specs.Coded.{codes};
    ghost use Rattle.managed_ledger.specs.Entries.{ledger_code};
    ghost use Rattle.records.specs.Maps.{kept_code};
    ghost use Rattle.topic_core.specs.declared.durable.Durable.{Durable as Known};
    ghost use Rattle.topic_core.specs.Recent.{AreLast};

    ghost Value = { Known };

    ghost coded = { Prim.hlevel (codes, ledger_code, kept_code) };

    ghost view = { λ r. r.durable };

    ghost invariant = { λ r. AreLast r.durable.ledger r.entries.items };
}

impl Recent {
    /// What is durable, no entry of which stands in memory.
    pub(crate) fn over(alloc: Global, durable: Durable) -> Recent
        ensures { result ≡ durable }
    {
        Recent {
            durable,
            entries: VecDeque::new(alloc),
            bytes: 0,
        }
    }

    /// What is durable with these entries more and trimmed up to a position, and behind these changes.
    pub(crate) fn after(&self, entries: &[Bytes], changes: &[Record], trim: u64) -> Durable
        ensures { (result.ledger ≡ trimmed trim (lengthened self.now.ledger entries.now)) × (result.kept ≡ after_all changes.now self.now.kept) }
    {
        self.durable.after(entries, changes, &trim)
    }

    /// What is durable now, by these entries more, which have so many bytes, and a trim that left so many in all. Where memory is
    /// refused for their places, none stands in memory from then on.
    pub(crate) fn commit(&mut self, durable: Durable, entries: Vec<Bytes>, bytes: u64, left: u64)
        requires more { (trim : ℕ) × (durable.ledger ≡ trimmed trim (lengthened self.old.ledger entries.items)) }
        requires left { length durable.ledger.entries ≡ left }
        requires each_small { All (λ entry. length entry ≤ 1048576) entries.items }
        ensures { self.new ≡ durable }
    {
        self.durable = durable;
        let beside = BYTES_BESIDE.saturating_mul(entries.len() as u64);
        let mut more = VecDeque::from_vec(entries);
        let appended = self.entries.append(&mut more);
        drop(more);
        if appended.is_err() {
            self.entries.clear();
            self.bytes = 0;
            return;
        }
        let all = self.bytes.saturating_add(bytes).saturating_add(beside);
        let fewer = forget_trimmed(&mut self.entries, all, left);
        self.bytes = forget_first(&mut self.entries, fewer);
    }

    /// The entry at a position, where it stands in memory and so many are committed.
    pub(crate) fn entry(&self, position: u64, committed: u64) -> Result<Option<Bytes>, AllocError>
        ensures found { end_of self.now.ledger ≡ committed → IfOk result (λ found. IfSome found (λ entry. entry_at self.now.ledger position ≡ Some entry)) }
        ensures short { IfOk result (λ found. IfSome found (λ entry. length entry ≤ 1048576)) }
    {
        if committed <= position {
            return Ok(None);
        }
        let back = committed - position;
        let last = self.entries.len() as u64;
        if back > last {
            return Ok(None);
        }
        let Some(found) = self.entries.get((last - back) as usize) else {
            return Ok(None);
        };
        let entry = found.clone()?;
        Ok(Some(entry))
    }
}

// Forgets the first entries, which have so many bytes with all others, until no more of them are left, and gives how many bytes are.
fn forget_trimmed(entries: &mut VecDeque<Bytes>, bytes: u64, most: u64) -> u64
    ensures rest { IsRest entries.old.items entries.new.items }
    ensures few { length entries.new.items ≤ most }
{
    let mut left = bytes;
    while entries.len() as u64 > most {
        let Some(first) = entries.pop_front() else {
            return 0;
        };
        left = left.saturating_sub(first.len() as u64 + BYTES_BESIDE);
    }
    left
}

// Forgets the first entries, which have so many bytes with all others, until no more bytes are left than may stay, and gives how many
// are.
fn forget_first(entries: &mut VecDeque<Bytes>, bytes: u64) -> u64
    ensures { IsRest entries.old.items entries.new.items }
{
    let mut left = bytes;
    while left > MOST_RECENT_BYTES {
        let Some(first) = entries.pop_front() else {
            return 0;
        };
        left = left.saturating_sub(first.len() as u64 + BYTES_BESIDE);
    }
    left
}
