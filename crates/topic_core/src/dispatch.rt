ghost use Rattle.std.specs.Prelude.{◌≡◌, ◌≢◌, ◌⊎◌, ◌<◌, ◌≤◌, ℕ, IfNone, Some, None, false, true, length, Ok, Err, IfOk, IfErr, IfSome, OnOk, OnErr, IsErr, IsErrOf};
ghost use Rattle.disk.specs.Disk.{Same, Leaves, Kept, Failed};
ghost use Rattle.gated_log.specs.declared.read_error.ReadError.TheVariants.{Device, NoMemory};
ghost use Rattle.commands.specs.declared.reply.Reply.TheVariants.{Message};
ghost use Rattle.ids.specs.Ids.{message_id_at};
ghost use Rattle.subscriptions.specs.Steps.{IsLearnt, IsLooked, sent_before};
ghost use Rattle.managed_ledger.specs.Entries.{end_of, entry_at};
ghost use Rattle.topic_core.specs.State.{Topic, CountsStay};
ghost use Rattle.topic_core.specs.Steps.{key_of, learnt, HasLearnt};
ghost use Rattle.topic_core.specs.declared.dispatch.AtHand.TheVariants.{Nothing, Unread};
ghost use Rattle.topic_core.specs.Dispatch.{Admits, sent, DispatchStep, AtHandStep, IsMessageTo, IsAtHandFor, IsReadOf, IsRefusedAt, IsRefusedFor};
ghost use Rattle.topic_core.specs.Standing.{GoesOn, Phase, Standing};

use crate::read_at::{ReadAt, read_committed};
use crate::topic::{TopicCore, key_of};
use bytes::Bytes;
use commands::Reply;
use disk::Shelf;
use holds::ConsumerKey;
use ids::to_id;
use permits::Gauge;
use std::alloc::AllocError;
use topic_stores::{ReadError, TopicStore};

/// A MESSAGE on its way to a consumer.
#[derive(Drop)]
pub struct Outgoing {
    pub reply: Reply,
    /// The entry behind it.
    pub entry: Bytes,
}

/// What a topic has for a consumer without a read of its device.
#[derive(Drop)]
pub enum AtHand {
    /// There is no message for it.
    Nothing,
    /// There is one, whose entry stands at this position and has to be read.
    Unread(u64),
    Message(Outgoing),
}

impl<G: Gauge> TopicCore<G> {
    /// Whether there is no message for any consumer of a session, as far as is known of their permits. Changes nothing but that.
    pub fn is_quiet(&mut self, who: u64) -> bool
        ensures learnt { HasLearnt who self.old self.new }
        ensures exact { G.exact → self.new ≡ self.old }
        ensures none { result ≡ true → (id i : ℕ) → Admits self.new (key_of who id) i → ⊥ }
        ensures goes_on { GoesOn self.old self.new }
        ensures counts { CountsStay self.old self.new }
    {
        if self.failed || self.subs.was_quiet(who, self.committed) {
            return true;
        }
        self.subs.is_quiet(who, self.committed)
    }

    /// The position whose entry is a consumer's next message: one exactly where it may get one, which a dispatch then gives it.
    /// Changes nothing but what is known of the consumer's permits.
    fn pick(&mut self, who: u64, consumer_id: u64) -> Option<u64>
        ensures learnt { IsLearnt (learnt self.old who consumer_id) self.new }
        ensures looked { self.old.failed ≡ false → IsLooked G.exact (learnt self.old who consumer_id) self.new }
        ensures exact { G.exact → self.new ≡ self.old }
        ensures some { IfSome result (Admits self.new (key_of who consumer_id)) }
        ensures none { IfNone result ((i : ℕ) → Admits self.new (key_of who consumer_id) i → ⊥) }
        ensures goes_on { GoesOn self.old self.new }
        ensures counts { CountsStay self.old self.new }
    {
        if self.is_failed() {
            return None;
        }
        self.subs.pick(key_of(who, consumer_id), self.committed)
    }

    /// A message for a consumer, which holds it from then on: one exactly where it may get one, with one read of the device.
    /// A refusal changes nothing but what is known of the consumer's permits. While a flush is under way what is committed is read.
    pub fn dispatch<T: TopicStore, S: Shelf>(
        &mut self,
        stores: &T,
        shelf: &mut S,
        who: u64,
        consumer_id: u64,
    ) -> Result<Option<Outgoing>, ReadError>
        ensures step { (phase : Phase) → Standing T.stands phase self.old (T.view stores.now) (S.disk shelf.old) →
            (t : Topic) × IsLearnt (learnt self.old who consumer_id) t × (G.exact → t ≡ self.old) × DispatchStep t who consumer_id result self.new }

        // Whatever the device does.
        ensures message { IfOk result (λ sent. IfSome sent (λ outgoing. IsMessageTo consumer_id outgoing)) }
        // That there is none is said of a topic that works where it was looked for the consumer's permits.
        ensures looked { result ≡ Ok None → self.old.failed ≡ false → IsLooked G.exact (learnt self.old who consumer_id) self.new }
        ensures goes_on { GoesOn self.old self.new }
        ensures counts { CountsStay self.old self.new }

        ensures refused { IsErr result → IsLearnt (learnt self.old who consumer_id) self.new }
        ensures exact { G.exact → IsErr result → self.new ≡ self.old }
        // A topic that has failed has no message, and refuses none.
        ensures works { IsErr result → self.old.failed ≡ false }
        ensures cause { (T.view stores.now).failed ≡ false → IsErrOf result Device → Failed (S.disk shelf.old) (S.disk shelf.new) }
        ensures seen { (S.disk shelf.old).honest → Same (S.disk shelf.old).seen (S.disk shelf.new).seen }
        ensures any_moment { (S.disk shelf.old).honest → Leaves (S.disk shelf.old).may_leave (S.disk shelf.old) (S.disk shelf.new) }
        ensures kept { Kept (S.disk shelf.old) (S.disk shelf.new) }
    {
        let Some(position) = self.pick(who, consumer_id) else {
            return Ok(None);
        };
        // The proof reads here what holds of a topic at any time.
        let _ = &self.alloc;
        let entry = read_committed(stores, shelf, position)?;
        let outgoing = self.give(key_of(who, consumer_id), position, entry)?;
        Ok(Some(outgoing))
    }

    /// A message for a consumer, which holds it from then on, where its entry stands in memory or is the one that was read. A read that
    /// failed is told where its position is the message's. A refusal changes nothing but what is known of the consumer's permits.
    pub fn dispatch_at_hand(
        &mut self,
        who: u64,
        consumer_id: u64,
        read: Option<ReadAt>,
    ) -> Result<AtHand, ReadError>
        ensures step { end_of self.old.ledger ≡ self.old.committed → IfSome read (IsReadOf self.old.ledger) →
            (t : Topic) × IsLearnt (learnt self.old who consumer_id) t × (G.exact → t ≡ self.old) × AtHandStep t (key_of who consumer_id) result self.new }

        // Whatever the ledger is, and whatever was read.
        ensures message { IfOk result (λ at_hand. IsAtHandFor consumer_id at_hand) }
        ensures nothing { result ≡ Ok Nothing → (i : ℕ) → Admits self.new (key_of who consumer_id) i → ⊥ }
        ensures looked { result ≡ Ok Nothing → self.old.failed ≡ false → IsLooked G.exact (learnt self.old who consumer_id) self.new }
        ensures unread { (position : ℕ) → result ≡ Ok (Unread position) → IfSome read (λ at. at.position ≢ position) }
        ensures goes_on { GoesOn self.old self.new }
        ensures counts { CountsStay self.old self.new }
        ensures refused { IsErr result → IsLearnt (learnt self.old who consumer_id) self.new }
        ensures exact { G.exact → IsErr result → self.new ≡ self.old }
        ensures works { IsErr result → self.old.failed ≡ false }
        ensures cause { IfErr result (λ e. IsRefusedFor self.new (key_of who consumer_id) e read) }
    {
        let Some(position) = self.pick(who, consumer_id) else {
            return Ok(AtHand::Nothing);
        };
        let Some(entry) = self.entry_at(position, read)? else {
            return Ok(AtHand::Unread(position));
        };
        let outgoing = self.give(key_of(who, consumer_id), position, entry)?;
        Ok(AtHand::Message(outgoing))
    }

    /// The entry of a position, where it is the one that was read or stands in memory.
    fn entry_at(&self, position: u64, read: Option<ReadAt>) -> Result<Option<Bytes>, ReadError>
        ensures entry { end_of self.now.ledger ≡ self.now.committed → IfSome read (IsReadOf self.now.ledger) → IfOk result (λ found. IfSome found (λ entry. entry_at self.now.ledger position ≡ Some entry)) }
        ensures refused { IfSome read (IsReadOf self.now.ledger) → IfErr result (λ e. (e ≡ NoMemory) ⊎ (e ≡ Device)) }
        ensures cause { IfErr result (λ e. (e ≡ NoMemory) ⊎ IsRefusedAt position e read) }
        ensures short { IfOk result (λ found. IfSome found (λ entry. length entry ≤ 1048576)) }
        ensures unread { result ≡ Ok None → IfSome read (λ at. at.position ≢ position) }
    {
        match read {
            Some(read) if read.position == position => read.into_entry(),
            _ => Ok(self.durable.entry(position, self.committed)?),
        }
    }

    /// Gives a consumer the entry of a position that it may get.
    fn give(
        &mut self,
        key: ConsumerKey,
        position: u64,
        entry: Bytes,
    ) -> Result<Outgoing, AllocError>
        requires admitted { Admits self.old key position }
        ensures reply { IfOk result (λ outgoing. outgoing.reply ≡ Message key.id (message_id_at self.old.per_ledger position) (sent_before self.old.subs key position)) }
        ensures entry { IfOk result (λ outgoing. outgoing.entry ≡ entry) }
        ensures ok { OnOk result ((t : Topic) × IsLearnt (learnt self.old key.session key.id) t × (G.exact → t ≡ self.old) × (self.new ≡ sent t key position)) }
        ensures err { OnErr result (self.new ≡ self.old) }
        ensures goes_on { GoesOn self.old self.new }
    {
        let redelivery_count = self.subs.send(key, position, self.committed)?;
        let reply = Reply::Message {
            consumer_id: key.id,
            message_id: to_id(position, self.per_ledger),
            redelivery_count,
        };
        Ok(Outgoing { reply, entry })
    }
}
