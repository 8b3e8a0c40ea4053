ghost use Rattle.std.specs.Prelude.{◌≡◌, ℕ, ◌≤◌, [], length, Some, None, IfSome, IfNone, IsSomeAnd};
ghost use Rattle.holds.specs.Backlog.{IsLeast, attached};
ghost use Rattle.holds.specs.declared.consumer.ConsumerKey.{ConsumerKey as Key};
ghost use Rattle.key_shared.specs.Ranges.{are_refused, sticky_refusal, AdmitsSticky, AreApart, IsOpenFrom, place_of};

use crate::ranges::{are_refused, in_ranges};
use holds::{Consumer, ConsumerKey, Dispatcher, Pending, Refusal, SlotRange, attached};
use std::alloc::Global;

/// The consumers of a Key_Shared subscription, in order of attachment. No slot lies in the ranges
/// of two of them.
#[derive(Drop)]
pub struct KeySharedDispatcher {
    consumers: Vec<Consumer>,
    ghost apart: { AreApart consumers.items },
}

impl KeySharedDispatcher {
    /// No consumer is attached.
    pub fn new(alloc: Global) -> Self
        ensures { result.consumers.items ≡ [] }
    {
        Self {
            consumers: Vec::new(alloc),
        }
    }

    /// Whether such ranges are refused: they are none, or one of them is backward, or meets another of them or one of an
    /// attached consumer.
    pub fn refuses_ranges(&self, ranges: &[SlotRange]) -> bool
        ensures { result ≡ are_refused self.now.consumers.items ranges.now }
    {
        are_refused(&self.consumers, ranges)
    }

    /// The least open position from `from` on whose slot lies in the ranges of the consumer at this place, where the one that was
    /// attached first has the place 0. It searches for nobody. A place at which nobody stands has none.
    pub fn pick_at<P: Pending>(&self, pending: &P, place: usize, from: u64) -> Option<u64>
        ensures some { (key : Key) → place_of key self.now.consumers.items ≡ Some place → IfSome result (λ i. IsSomeAnd (attached key self.now.consumers.items) (λ c. IsLeast (IsOpenFrom (P.backlog pending.now) c.ranges from) i)) }
        ensures none { (key : Key) → place_of key self.now.consumers.items ≡ Some place → IfNone result ((i : ℕ) → IsSomeAnd (attached key self.now.consumers.items) (λ c. IsOpenFrom (P.backlog pending.now) c.ranges from i) → ⊥) }
        ensures nobody { length self.now.consumers.items ≤ place → result ≡ None }
    {
        let Some(consumer) = self.consumers.get(place) else {
            return None;
        };
        first_in(pending, consumer.ranges.as_slice(), from)
    }

    /// The least open position from `from` on whose slot lies in the consumer's ranges. An unknown consumer has none.
    fn pick_from<P: Pending>(&self, pending: &P, consumer: ConsumerKey, from: u64) -> Option<u64>
        ensures some { IfSome result (λ i. IsSomeAnd (attached consumer self.now.consumers.items) (λ c. IsLeast (IsOpenFrom (P.backlog pending.now) c.ranges from) i)) }
        ensures none { IfNone result ((i : ℕ) → IsSomeAnd (attached consumer self.now.consumers.items) (λ c. IsOpenFrom (P.backlog pending.now) c.ranges from i) → ⊥) }
    {
        let attached = attached::find(&self.consumers, consumer)?;
        first_in(pending, attached.ranges.as_slice(), from)
    }
}

impl Dispatcher for KeySharedDispatcher {
    ghost consumers = { λ s. s.consumers.items };

    ghost refuses = { sticky_refusal };

    ghost Admits = { AdmitsSticky };

    fn refusal(&self, consumer: &Consumer) -> Option<Refusal> {
        if let Some(refusal) = attached::full(&self.consumers) {
            return Some(refusal);
        }
        if are_refused(&self.consumers, consumer.ranges.as_slice()) {
            return Some(Refusal::ConsumerAssignError);
        }
        None
    }

    fn attach(&mut self, consumer: Consumer) -> Result<(), Refusal> {
        if let Some(refusal) = self.refusal(&consumer) {
            return Err(refusal);
        }
        attached::push(&mut self.consumers, consumer)
    }

    fn detach(&mut self, consumer: ConsumerKey) {
        attached::remove(&mut self.consumers, consumer);
    }

    fn pick<P: Pending>(&self, pending: &P, consumer: ConsumerKey) -> Option<u64> {
        self.pick_from(pending, consumer, 0)
    }
}

/// The least open position from `start` on whose slot lies in the ranges.
fn first_in<P: Pending>(pending: &P, ranges: &[SlotRange], start: u64) -> Option<u64>
    ensures some { IfSome result (IsLeast (IsOpenFrom (P.backlog pending.now) ranges.now start)) }
    ensures none { IfNone result ((i : ℕ) → IsOpenFrom (P.backlog pending.now) ranges.now start i → ⊥) }
{
    let mut from = start;
    while let Some(position) = pending.first_open(from) {
        if in_ranges(ranges, pending.slot(position)) {
            return Some(position);
        }
        from = position + 1;
    }
    None
}
