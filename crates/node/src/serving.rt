// What sessions ask of one topic of a node.
ghost use Rattle.std.specs.Prelude.{◌≡◌, ℕ, true, false, IfOk, IfErr, IfSome, IsErr};
ghost use Rattle.disk.specs.Disk.{Same, Leaves, Kept};
ghost use Rattle.topic_core.specs.Standing.{GoesOn};
ghost use Rattle.topic_core.specs.Steps.{TopicStep, GrantStep, Collects, Fits, key_of, left};
ghost use Rattle.topic_core.specs.Dispatch.{Admits, DispatchStep};
ghost use Rattle.session.specs.Broker.{SendsTo};
ghost use Rattle.node.specs.Flights.{stage_of};
ghost use Rattle.node.specs.State.{MayRefuseOf};
ghost use Rattle.node.specs.Standing.{HeldStands};

use crate::held::Held;
use commands::Reply;
use disk::Shelf;
use topic_core::{Answer, Outgoing, ReadError, TooManyPermits, TopicCommand, TopicStore};

impl<T: TopicStore> Held<T> {
    /// Works a session's command.
    pub(crate) fn command(&mut self, who: u64, command: TopicCommand) -> Answer
        ensures step { TopicStep self.old.core who command result self.new.core }
        ensures fits { Fits command result }
        ensures goes_on { GoesOn self.old.core self.new.core }
        ensures rest { (self.new.stores ≡ self.old.stores) × (self.new.flight ≡ self.old.flight) }
    {
        // No granter comes out: both ends of a consumer's permits stay in the topic.
        self.core.command(who, command, &mut None)
    }

    /// Grants permits to a consumer of a session.
    pub(crate) fn grant(
        &mut self,
        who: u64,
        consumer_id: u64,
        permits: u32,
    ) -> Result<(), TooManyPermits>
        ensures step { GrantStep self.old.core who consumer_id permits result self.new.core }
        ensures goes_on { GoesOn self.old.core self.new.core }
        ensures rest { (self.new.stores ≡ self.old.stores) × (self.new.flight ≡ self.old.flight) }
    {
        self.core.grant(who, consumer_id, permits)
    }

    /// A message for a consumer of a session, with one read of the device.
    pub(crate) fn dispatch<S: Shelf>(
        &mut self,
        shelf: &mut S,
        who: u64,
        consumer_id: u64,
    ) -> Result<Option<Outgoing>, ReadError>
        ensures step { HeldStands self.old (S.disk shelf.old) → DispatchStep self.old.core who consumer_id result self.new.core }
        ensures sends { SendsTo consumer_id result }
        ensures refused { IfErr result (λ why. HeldStands self.old (S.disk shelf.old) → MayRefuseOf (stage_of self.old.flight) (S.disk shelf.old).faults (S.disk shelf.new).faults why) }
        ensures goes_on { GoesOn self.old.core self.new.core }
        ensures rest { (self.new.stores ≡ self.old.stores) × (self.new.flight ≡ self.old.flight) }
        ensures seen { (S.disk shelf.old).honest → Same (S.disk shelf.old).seen (S.disk shelf.new).seen }
        ensures any_moment { (S.disk shelf.old).honest → Leaves (S.disk shelf.old).may_leave (S.disk shelf.old) (S.disk shelf.new) }
        ensures kept { Kept (S.disk shelf.old) (S.disk shelf.new) }
    {
        self.core.dispatch(&self.stores, shelf, who, consumer_id)
    }

    /// Whether there is no message for any consumer of a session. Changes nothing.
    pub(crate) fn is_quiet(&mut self, who: u64) -> bool
        ensures same { self.new.core ≡ self.old.core }
        ensures none { result ≡ true → (id i : ℕ) → Admits self.old.core (key_of who id) i → ⊥ }
        ensures goes_on { GoesOn self.old.core self.new.core }
        ensures rest { (self.new.stores ≡ self.old.stores) × (self.new.flight ≡ self.old.flight) }
    {
        self.core.is_quiet(who)
    }

    /// Takes the first reply that is due to a session.
    pub(crate) fn collect(&mut self, who: u64) -> Option<Reply>
        ensures step { Collects self.old.core who result self.new.core }
        ensures goes_on { GoesOn self.old.core self.new.core }
        ensures rest { (self.new.stores ≡ self.old.stores) × (self.new.flight ≡ self.old.flight) }
    {
        self.core.collect(who)
    }

    /// A session leaves.
    pub(crate) fn leave(&mut self, who: u64)
        ensures step { self.new.core ≡ left self.old.core who }
        ensures goes_on { GoesOn self.old.core self.new.core }
        ensures rest { (self.new.stores ≡ self.old.stores) × (self.new.flight ≡ self.old.flight) }
    {
        self.core.leave(who)
    }
}
