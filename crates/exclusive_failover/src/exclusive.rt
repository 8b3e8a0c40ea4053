ghost use Rattle.std.specs.Prelude.{◌≡◌, []};
ghost use Rattle.holds.specs.Backlog.{IsOpen, IsLeast};
ghost use Rattle.exclusive_failover.specs.Modes.{lone_list, lone_refusal, IsAttached};

use holds::{Consumer, ConsumerKey, Dispatcher, Pending, Refusal};

/// The one consumer of an Exclusive subscription. Its calls take no memory.
#[derive(Drop)]
pub struct ExclusiveDispatcher {
    consumer: Option<Consumer>,
}

impl ExclusiveDispatcher {
    /// No consumer is attached.
    pub fn new() -> Self
        ensures { lone_list result.consumer ≡ [] }
    {
        Self { consumer: None }
    }
}

impl Dispatcher for ExclusiveDispatcher {
    ghost consumers = { λ s. lone_list s.consumer };

    ghost refuses = { λ cs c. lone_refusal cs };

    ghost Admits = { λ cs b key i. IsAttached cs key × IsLeast (IsOpen b) i };

    fn refusal(&self, _consumer: &Consumer) -> Option<Refusal> {
        match &self.consumer {
            Some(_) => Some(Refusal::ConsumerBusy),
            None => None,
        }
    }

    fn attach(&mut self, consumer: Consumer) -> Result<(), Refusal> {
        if self.consumer.is_some() {
            return Err(Refusal::ConsumerBusy);
        }
        self.consumer = Some(consumer);
        Ok(())
    }

    fn detach(&mut self, consumer: ConsumerKey) {
        if let Some(attached) = &self.consumer
            && attached.key == consumer
        {
            self.consumer = None;
        }
    }

    fn pick<P: Pending>(&self, pending: &P, consumer: ConsumerKey) -> Option<u64> {
        match &self.consumer {
            Some(attached) if attached.key == consumer => pending.first_open(0),
            _ => None,
        }
    }
}
