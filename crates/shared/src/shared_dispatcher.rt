ghost use Rattle.std.specs.Prelude.{◌≡◌, ℕ, [], IsSome, IfSome, IfNone};
ghost use Rattle.holds.specs.Backlog.{IsOpen, attached, room_refusal};

use holds::{Consumer, ConsumerKey, Dispatcher, Pending, Refusal, attached};
use std::alloc::Global;

/// The consumers of a Shared subscription, in order of attachment.
#[derive(Drop)]
pub struct SharedDispatcher {
    consumers: Vec<Consumer>,
}

impl SharedDispatcher {
    /// No consumer is attached.
    pub fn new(alloc: Global) -> Self
        ensures { result.consumers.items ≡ [] }
    {
        Self {
            consumers: Vec::new(alloc),
        }
    }

    /// The position that any attached consumer may get: an open one, and none only where there is none. It searches for nobody.
    pub fn pick_attached<P: Pending>(&self, pending: &P) -> Option<u64>
        ensures some { IfSome result (IsOpen (P.backlog pending.now)) }
        ensures none { IfNone result ((i : ℕ) → IsOpen (P.backlog pending.now) i → ⊥) }
    {
        pending.first_open(0)
    }
}

impl Dispatcher for SharedDispatcher {
    ghost consumers = { λ s. s.consumers.items };

    ghost refuses = { λ cs c. room_refusal cs };

    ghost Admits = { λ cs b key i. IsSome (attached key cs) × IsOpen b i };

    fn refusal(&self, _consumer: &Consumer) -> Option<Refusal> {
        attached::full(&self.consumers)
    }

    fn attach(&mut self, consumer: Consumer) -> Result<(), Refusal> {
        if let Some(refusal) = attached::full(&self.consumers) {
            return Err(refusal);
        }
        attached::push(&mut self.consumers, consumer)
    }

    fn detach(&mut self, consumer: ConsumerKey) {
        attached::remove(&mut self.consumers, consumer);
    }

    fn pick<P: Pending>(&self, pending: &P, consumer: ConsumerKey) -> Option<u64> {
        let _attached = attached::find(&self.consumers, consumer)?;
        self.pick_attached(pending)
    }
}
