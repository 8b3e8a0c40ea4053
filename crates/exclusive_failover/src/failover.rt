ghost use Rattle.std.specs.Prelude.{◌≡◌, []};
ghost use Rattle.holds.specs.Backlog.{IsOpen, IsLeast, IsFirst, room_refusal};

use holds::{Consumer, ConsumerKey, Dispatcher, Pending, Refusal, attached};
use std::alloc::Global;

/// The consumers of a Failover subscription, in order of attachment.
#[derive(Drop)]
pub struct FailoverDispatcher {
    consumers: Vec<Consumer>,
}

impl FailoverDispatcher {
    /// No consumer is attached.
    pub fn new(alloc: Global) -> Self
        ensures { result.consumers.items ≡ [] }
    {
        Self {
            consumers: Vec::new(alloc),
        }
    }
}

impl Dispatcher for FailoverDispatcher {
    ghost consumers = { λ s. s.consumers.items };

    ghost refuses = { λ cs c. room_refusal cs };

    ghost Admits = { λ cs b key i. IsFirst cs key × IsLeast (IsOpen b) i };

    fn refusal(&self, _consumer: &Consumer) -> Option<Refusal> {
        attached::full(&self.consumers)
    }

    fn attach(&mut self, consumer: Consumer) -> Result<(), Refusal> {
        if let Some(refusal) = attached::full(&self.consumers) {
            return Err(refusal);
        }
        attached::push(&mut self.consumers, consumer)
    }

    fn detach(&mut self, consumer: ConsumerKey) {
        attached::remove(&mut self.consumers, consumer);
    }

    fn pick<P: Pending>(&self, pending: &P, consumer: ConsumerKey) -> Option<u64> {
        match self.consumers.first() {
            Some(first) if first.key == consumer => pending.first_open(0),
            _ => None,
        }
    }
}
