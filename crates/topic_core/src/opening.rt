// The opening of a topic, and of one that failed.
ghost use Rattle.std.specs.Prelude.{◌≡◌, ◌⊎◌, ◌<◌, ◌≤◌, ◌^◌, true, false, IfOk, IfErr, OnOk, IsErr, IsErrOf};
ghost use Rattle.disk.specs.Disk.{Same, Leaves, Kept as Counted, Failed};
ghost use Rattle.disk.specs.Areas.{Agree, OfTopic, Within};
ghost use Rattle.gated_log.specs.declared.refusal.Refusal.TheVariants.{Device, NoMemory};
ghost use Rattle.managed_ledger.specs.Entries.{end_of};
ghost use Rattle.subscriptions.specs.Steps.{marked, opened as opened_subscriptions};
ghost use Rattle.subscriptions.specs.Laws.{AreDurable};
ghost use Rattle.topic_stores.specs.Views.{Settled};
ghost use Rattle.topic_stores.specs.Writing.{StandsFor};
ghost use Rattle.topic_core.specs.Messages.{marks_of, messages_of};
ghost use Rattle.topic_core.specs.Slots.{slots_of};
ghost use Rattle.topic_core.specs.State.{CountsStay, opened};
ghost use Rattle.topic_core.specs.Crashes.{IsLeft, IsShorter, ReopenStep, reopened};
ghost use Rattle.topic_core.specs.Standing.{Phase, resting, Match, Standing, phase_then};

use crate::durable::{Durable, Found};
use crate::found_entries::FoundEntries;
use crate::producers::Producers;
use crate::recent::Recent;
use crate::topic::TopicCore;
use disk::{FileId, Shelf, served};
use gated_log::Refusal;
use permits::Gauge;
use reply_queues::ReplyQueues;
use std::alloc::Global;
use subscriptions::{EntryMarks, Subscriptions};
use topic_stores::TopicStore;

impl<G: Gauge> TopicCore<G> {
    /// Opens the store of a topic, where a ledger id has so many entry ids, and the topic over it. Each file is synced once and
    /// read once: the slots of the entries, and how many messages they have, are known from that pass. The first fault is told, and nothing is written.
    pub fn open<T: TopicStore, S: Shelf>(
        alloc: Global,
        shelf: &mut S,
        topic: u16,
        per_ledger: u32,
    ) -> Result<(TopicCore<G>, T), Refusal>
        requires numbered { 0 < per_ledger }
        ensures opened { IfOk result (λ o. (end_of o.0.ledger ≡ (T.view o.1).count) × (o.0 ≡ opened per_ledger o.0.ledger (marks_of o.0.ledger) (T.view o.1).kept)) }
        ensures settled { (S.disk shelf.old).honest → IfOk result (λ o. Settled (T.view o.1) (S.disk shelf.new) o.0.ledger (T.view o.1).kept) }
        ensures matched { IfOk result (λ o. Match (resting false) o.0 (T.view o.1)) }
        ensures few { IfOk result (λ o. (T.view o.1).count ≤ 2 ^ 62) }
        // Or the first fault that stands in the files is told.
        ensures refused { (S.disk shelf.old).honest → IfErr result (λ e. (e ≡ NoMemory) ⊎ ((e ≡ Device) ⊎ T.faulty topic (S.disk shelf.old).seen e)) }
        ensures topic { IfOk result (λ o. (T.view o.1).topic ≡ topic) }
        ensures cause { IsErrOf result Device → Failed (S.disk shelf.old) (S.disk shelf.new) }
        ensures seen { (S.disk shelf.old).honest → ¬ IsErrOf result Device → Same (S.disk shelf.old).seen (S.disk shelf.new).seen }
        ensures others { (S.disk shelf.old).honest → Agree (λ f. ¬ OfTopic topic f) (S.disk shelf.old).seen (S.disk shelf.new).seen }
        ensures any_moment { (S.disk shelf.old).honest → Leaves (S.disk shelf.old).may_leave (S.disk shelf.old) (S.disk shelf.new) }
        ensures kept { Counted (S.disk shelf.old) (S.disk shelf.new) }
    {
        let opened: Opened<G, T> = open_stores(alloc, shelf, topic, per_ledger)?;
        let Opened {
            stores,
            subs,
            durable,
        } = opened;
        let base = stores.base();
        let committed = stores.len();
        let core = TopicCore {
            alloc,
            per_ledger,
            base,
            committed,
            durable: Recent::over(alloc, durable),
            waiting: Vec::new(alloc),
            waiting_bytes: 0,
            accepted: 0,
            handed: 0,
            producers: Producers::new(alloc),
            subs,
            queues: ReplyQueues::new(alloc),
            doubt: None,
            failed: false,
        };
        Ok((core, stores))
    }

    /// Opens a failed topic again. Where that is refused it stays as it was; another topic stays as it is. Fewer entries
    /// than were committed, which no honest device leaves of a topic's own files, are damage of the first segment.
    pub fn reopen<T: TopicStore, S: Shelf>(
        &mut self,
        stores: &mut T,
        shelf: &mut S,
    ) -> Result<(), Refusal>
        ensures matched { (phase : Phase) → Match phase self.old (T.view stores.old) → Match (phase_then self.old.failed self.new.failed phase) self.new (T.view stores.new) }
        ensures step { (phase : Phase) → Standing T.stands phase self.old (T.view stores.old) (S.disk shelf.old) → ReopenStep self.old result self.new }
        ensures standing { (phase : Phase) → Standing T.stands phase self.old (T.view stores.old) (S.disk shelf.old) →
            Standing T.stands (phase_then self.old.failed self.new.failed phase) self.new (T.view stores.new) (S.disk shelf.new) }

        // Whatever the files hold: what a failed topic finds is what they stand for, or the first fault in them is told.
        ensures found { (S.disk shelf.old).honest → self.old.failed ≡ true →
            OnOk result (T.stands (T.view stores.old).topic (S.disk shelf.old).seen self.new.ledger self.new.kept × (self.new ≡ reopened self.old self.new.ledger (marks_of self.new.ledger) self.new.kept)) }
        ensures told { (S.disk shelf.old).honest →
            IfErr result (λ e. (e ≡ NoMemory) ⊎ ((e ≡ Device) ⊎ (T.faulty (T.view stores.old).topic (S.disk shelf.old).seen e ⊎ IsShorter T.stands (T.view stores.old).topic self.old (S.disk shelf.old).seen e))) }

        // A crash at any moment leaves what it might have left before, and files of other topics are as they were.
        ensures any_moment { (S.disk shelf.old).honest → Leaves (S.disk shelf.old).may_leave (S.disk shelf.old) (S.disk shelf.new) }
        ensures within { (phase : Phase) → Standing T.stands phase self.old (T.view stores.old) (S.disk shelf.old) →
            Within (OfTopic (T.view stores.old).topic) (StandsFor (T.stands (T.view stores.old).topic) (IsLeft self.old)) (S.disk shelf.old) (S.disk shelf.new) }

        ensures topic { (T.view stores.new).topic ≡ (T.view stores.old).topic }
        ensures per_ledger { self.new.per_ledger ≡ self.old.per_ledger }
        ensures counts { CountsStay self.old self.new }
        ensures works { self.old.failed ≡ false → self.new ≡ self.old }
        ensures stores { self.old.failed ≡ false → stores.new ≡ stores.old }
        // Whatever the device does, the entries of a topic that was opened again are as many as the store remembers.
        ensures again { self.old.failed ≡ true → OnOk result (self.new ≡ reopened self.old self.new.ledger (marks_of self.new.ledger) self.new.kept) }
        ensures as_many { self.old.failed ≡ true → OnOk result (self.new.committed ≡ (T.view stores.new).count) }
        ensures refused { IsErr result → (self.new ≡ self.old) × (stores.new ≡ stores.old) }
        ensures cause { IsErrOf result Device → Failed (S.disk shelf.old) (S.disk shelf.new) }
        ensures kept { Counted (S.disk shelf.old) (S.disk shelf.new) }
    {
        if !self.failed {
            return Ok(());
        }
        let topic = stores.topic();
        let again: Opened<G, T> = open_stores(self.alloc, shelf, topic, self.per_ledger)?;
        if again.stores.len() < self.committed {
            drop(again);
            return Err(Refusal::Damaged {
                file: FileId::Segment {
                    topic: served(topic),
                    number: 0,
                },
                offset: 0,
            });
        }
        *stores = self.restart(again);
        Ok(())
    }

    /// Goes on over a store that was just opened. What it owes and what it counted stay.
    fn restart<T: TopicStore>(&mut self, again: Opened<G, T>) -> T
        requires failed { self.old.failed ≡ true }
        requires more { self.old.committed ≤ (T.view again.stores).count }
        requires few { (T.view again.stores).count ≤ 2 ^ 62 }
        requires works { (T.view again.stores).failed ≡ false }
        requires numbered { (T.view again.stores).per_ledger ≡ self.old.per_ledger }
        requires added { (end_of again.durable.ledger ≡ (T.view again.stores).count) × (again.subs ≡ marked (opened_subscriptions (T.view again.stores).kept) (slots_of again.durable.ledger) (messages_of again.durable.ledger)) × (again.durable.kept ≡ (T.view again.stores).kept) × (again.durable.ledger.base ≡ (T.view again.stores).base) }
        requires durable { AreDurable (T.view again.stores).kept }
        ensures again { self.new ≡ reopened self.old again.durable.ledger (marks_of again.durable.ledger) (T.view again.stores).kept }
        ensures matched { Match (resting false) self.new (T.view again.stores) }
        ensures stores { result ≡ again.stores }
    {
        let Opened {
            stores,
            subs,
            durable,
        } = again;
        self.base = stores.base();
        self.committed = stores.len();
        self.durable = Recent::over(self.alloc, durable);
        self.waiting = Vec::new(self.alloc);
        self.waiting_bytes = 0;
        self.producers = Producers::new(self.alloc);
        self.subs = subs;
        self.doubt = None;
        self.failed = false;
        stores
    }
}

/// A store that was opened: the subscriptions with the marks of all entries, and what is durable.
#[derive(Drop)]
struct Opened<G: Gauge, T> {
    stores: T,
    subs: Subscriptions<G>,
    durable: Durable,
}

/// Opens the store of a topic, whose entries are known by their marks from the same pass.
fn open_stores<G: Gauge, T: TopicStore, S: Shelf>(
    alloc: Global,
    shelf: &mut S,
    topic: u16,
    per_ledger: u32,
) -> Result<Opened<G, T>, Refusal>
    ensures added { IfOk result (λ t. (end_of t.durable.ledger ≡ (T.view t.stores).count) × (t.subs ≡ marked (opened_subscriptions (T.view t.stores).kept) (slots_of t.durable.ledger) (messages_of t.durable.ledger)) × (t.durable.kept ≡ (T.view t.stores).kept) × (t.durable.ledger.base ≡ (T.view t.stores).base)) }
    ensures durable { IfOk result (λ t. AreDurable (T.view t.stores).kept) }
    ensures settled { (S.disk shelf.old).honest → IfOk result (λ t. Settled (T.view t.stores) (S.disk shelf.new) t.durable.ledger (T.view t.stores).kept) }
    ensures refused { (S.disk shelf.old).honest → IfErr result (λ e. (e ≡ NoMemory) ⊎ ((e ≡ Device) ⊎ T.faulty topic (S.disk shelf.old).seen e)) }
    ensures works { IfOk result (λ t. (T.view t.stores).failed ≡ false) }
    ensures topic { IfOk result (λ t. (T.view t.stores).topic ≡ topic) }
    ensures per_ledger { IfOk result (λ t. (T.view t.stores).per_ledger ≡ per_ledger) }
    ensures cause { IsErrOf result Device → Failed (S.disk shelf.old) (S.disk shelf.new) }
    ensures seen { (S.disk shelf.old).honest → ¬ IsErrOf result Device → Same (S.disk shelf.old).seen (S.disk shelf.new).seen }
    ensures others { (S.disk shelf.old).honest → Agree (λ f. ¬ OfTopic topic f) (S.disk shelf.old).seen (S.disk shelf.new).seen }
    ensures any_moment { (S.disk shelf.old).honest → Leaves (S.disk shelf.old).may_leave (S.disk shelf.old) (S.disk shelf.new) }
    ensures kept { Counted (S.disk shelf.old) (S.disk shelf.new) }
{
    let entries = FoundEntries {
        marks: EntryMarks::new(alloc),
        durable: Durable::none(),
    };
    let (stores, entries) = T::open(alloc, shelf, topic, per_ledger, entries)?;
    let FoundEntries { mut marks, durable } = entries;
    let base = stores.base();
    // The proof reads here that there are numbers for them.
    let _ = stores.len();
    marks.put_before(base);
    let cursors = stores.kept()?;
    let found = Found {
        durable,
        base,
        cursors,
    };
    let durable = Durable::of(&found);
    let subs = Subscriptions::opened(alloc, found.cursors, marks)?;
    Ok(Opened {
        stores,
        subs,
        durable,
    })
}
