ghost use Rattle.std.specs.Prelude.{◌≡◌, ℕ, ◌<◌, ◌≤◌, ◌^◌, ◌++◌, ◌∷◌, [], ◌⊎◌, List, Some, None, Option, slice_index, IfSome, IfNone, OnOk, OnErr, IfErr};
ghost use Rattle.holds.specs.Backlog.{Backlog, IsOpen, IsLeast, without};
ghost use Rattle.holds.specs.declared.consumer.Consumer.{Consumer as TheConsumer};
ghost use Rattle.holds.specs.declared.consumer.ConsumerKey.{ConsumerKey as TheKey};
ghost use Rattle.holds.specs.declared.consumer.Refusal.{Refusal as TheRefusal};
ghost use Rattle.holds.specs.declared.consumer.Refusal.TheVariants.{NoMemory};

use crate::consumer::{Consumer, ConsumerKey, Refusal};

/// What a dispatcher may ask of its subscription. None of it takes memory.
pub trait Pending {
    /// What the answers tell of.
    ghost backlog: { Self → Backlog };

    /// The least open position from `from` on.
    fn first_open(&self, from: u64) -> Option<u64>
        ensures some { IfSome result (IsLeast (λ i. (from ≤ i) × IsOpen (backlog self.now) i)) }
        ensures none { IfNone result ((i : ℕ) → from ≤ i → IsOpen (backlog self.now) i → ⊥) }
        ensures fits { IfSome result (λ i. i < 2 ^ 62) };

    /// The hash slot of an open position.
    fn slot(&self, position: u64) -> u16
        requires { IsOpen (backlog self.now) position }
        ensures { result ≡ slice_index (backlog self.now).slots position };
}

/// A mode of dispatch with its attached consumers.
pub trait Dispatcher {
    /// The attached consumers, in order of attachment.
    ghost consumers: { Self → List TheConsumer };

    /// Why the mode refuses a further consumer, if it does.
    ghost refuses: { List TheConsumer → TheConsumer → Option TheRefusal };

    /// Which positions a consumer may get, its permits aside.
    ghost Admits: { List TheConsumer → Backlog → TheKey → ℕ → Type 0 };

    /// Why the mode would refuse a further consumer. Takes no memory.
    fn refusal(&self, consumer: &Consumer) -> Option<Refusal>
        ensures { result ≡ refuses (consumers self.now) consumer.now };

    /// Attaches a consumer behind the others. A refusal changes nothing.
    fn attach(&mut self, consumer: Consumer) -> Result<(), Refusal>
        ensures attached { OnOk result (consumers self.new ≡ consumers self.old ++ consumer ∷ []) }
        ensures allowed { OnOk result (refuses (consumers self.old) consumer ≡ None) }
        ensures unchanged { OnErr result (consumers self.new ≡ consumers self.old) }
        ensures refused { IfErr result (λ e. ((refuses (consumers self.old) consumer ≡ None) × (e ≡ NoMemory)) ⊎ (refuses (consumers self.old) consumer ≡ Some e)) };

    /// Takes a consumer out. Takes no memory.
    fn detach(&mut self, consumer: ConsumerKey)
        ensures { consumers self.new ≡ without consumer (consumers self.old) };

    /// A position that the consumer may get, and none only where there is none. Takes no memory.
    fn pick<P: Pending>(&self, pending: &P, consumer: ConsumerKey) -> Option<u64>
        ensures some { IfSome result (Admits (consumers self.now) (P.backlog pending.now) consumer) }
        ensures none { IfNone result ((i : ℕ) → Admits (consumers self.now) (P.backlog pending.now) consumer i → ⊥) };
}
