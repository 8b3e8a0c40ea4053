// The opening of a failed topic, under its own lock and that of its stores.
ghost use Rattle.std.specs.Prelude.{◌≡◌, ◌≢◌, ◌⊎◌, ◌+◌, ◌<◌, ◌≤◌, true, false, OnOk, IfErr, IsErr, IsErrOf, is_ok};
ghost use Rattle.bells.specs.Marking.{no_marks};
ghost use Rattle.disk.specs.Disk.{Leaves, Kept, Failed};
ghost use Rattle.gated_log.specs.declared.refusal.Refusal.TheVariants.{Device, NoMemory};
ghost use Rattle.topic_core.specs.Crashes.{reopened, IsShorter};
ghost use Rattle.topic_core.specs.Standing.{Phase, Standing, phase_then};
ghost use Rattle.topic_core.specs.Messages.{marks_of};
ghost use Rattle.topic_core.specs.State.{CountsStay};

use crate::counted::CountedTopic;
use crate::durable::{DurableByStores, DurableByTopics, DurableTally};
use crate::stores::CountedStores;
use crate::tally::Tallies;
use bells::{Bells, Members};
use disk::{FileId, Shelf, served};
use gated_log::Refusal;
use std::sync::Wait;
use std::sync::ledger::Share;
use topic_core::TopicStore;

/// How the opening of a failed topic ended, and the connections whose sessions had asked it for a producer or a consumer: they have
/// none there now. Nobody may let it go: `end_all` spends it.
pub struct Reopened {
    topic: u64,
    said: Result<(), Refusal>,
    gone: Members,
}

impl Reopened {
    /// The topic stays as it was, and so does whoever asked it for something.
    fn as_it_was(topic: u64, said: Result<(), Refusal>) -> Reopened
        ensures { (result.topic ≡ topic) × (result.said ≡ said) × (result.gone.places ≡ no_marks) }
    {
        Reopened {
            topic,
            said,
            gone: Members::new(),
        }
    }

    /// Has these connections end, as a restart of the broker would, and tells how the opening ended: their clients come back. A
    /// connection that has taken the place of one that ended meanwhile ends, too.
    pub fn end_all(self, bells: &Bells) -> Result<(), Refusal>
        ensures { result ≡ self.said }
    {
        let Reopened {
            topic: _,
            said,
            gone,
        } = self;
        bells.end_all(&gone);
        said
    }
}

impl<K: Tallies> CountedTopic<K> {
    /// Opens a failed topic again over its stores, and counts what these are found to hold. Where that is refused both stay as they
    /// were, and a topic that works stays as it is. Stores that don't hold as much as the topic knows of are told as damage of
    /// the first segment. It is handed on whose sessions had asked the topic for a producer or a consumer, and then nobody has.
    pub fn reopen<T: TopicStore, S: Shelf + Drop, R: Wait>(
        &mut self,
        rt: &R,
        tally: &DurableTally<K>,
        stores: &mut CountedStores<T, S, K>,
    ) -> Reopened
        ensures about { result.topic ≡ self.old.number }
        ensures again { self.old.core.failed ≡ true → OnOk result.said (self.new.core ≡ reopened self.old.core self.new.core.ledger (marks_of self.new.core.ledger) self.new.core.kept) }
        ensures as_many { self.old.core.failed ≡ true → OnOk result.said (self.new.core.committed ≡ (T.view stores.new.stores).count) }
        // What a failed topic finds is what the files stand for, or the first fault in them is told, or that it counts otherwise.
        ensures found { (S.disk stores.old.shelf).honest → self.old.core.failed ≡ true →
            OnOk result.said (T.stands (T.view stores.old.stores).topic (S.disk stores.old.shelf).seen self.new.core.ledger self.new.core.kept) }
        ensures told { (S.disk stores.old.shelf).honest → IfErr result.said (λ e. (e ≡ NoMemory) ⊎ ((e ≡ Device) ⊎ ((T.faulty (T.view stores.old.stores).topic (S.disk stores.old.shelf).seen e
            ⊎ IsShorter T.stands (T.view stores.old.stores).topic self.old.core (S.disk stores.old.shelf).seen e) ⊎ (self.old.core.committed + self.old.left ≢ (T.view stores.old.stores).count)))) }
        ensures standing { (phase : Phase) → Standing T.stands phase self.old.core (T.view stores.old.stores) (S.disk stores.old.shelf) → OnOk result.said
            (Standing T.stands (phase_then self.old.core.failed self.new.core.failed phase) self.new.core (T.view stores.new.stores) (S.disk stores.new.shelf)) }
        ensures topic { (T.view stores.new.stores).topic ≡ (T.view stores.old.stores).topic }
        ensures number { self.new.number ≡ self.old.number }
        ensures works { self.old.core.failed ≡ false → self.new.core ≡ self.old.core }
        ensures refused { IsErr result.said → (self.new.core ≡ self.old.core) × (stores.new.stores ≡ stores.old.stores) }
        ensures counts { CountsStay self.old.core self.new.core }
        ensures activity { self.new.activity ≡ self.old.activity }
        ensures cause { IsErrOf result.said Device → Failed (S.disk stores.old.shelf) (S.disk stores.new.shelf) }
        ensures any_moment { (S.disk stores.old.shelf).honest → Leaves (S.disk stores.old.shelf).may_leave (S.disk stores.old.shelf) (S.disk stores.new.shelf) }
        ensures kept { Kept (S.disk stores.old.shelf) (S.disk stores.new.shelf) }
        ensures gone { self.old.core.failed ≡ true → OnOk result.said ((result.gone ≡ self.old.waiting.members) × (self.new.waiting.members.places ≡ no_marks)) }
        ensures nobody { self.old.core.failed ≡ false → (is_ok result.said ≡ true) × (result.gone.places ≡ no_marks) × (self.new.waiting ≡ self.old.waiting) }
        ensures denied { IsErr result.said → (result.gone.places ≡ no_marks) × (self.new.waiting ≡ self.old.waiting) }
        ensures waiting { self.new.waiting ≡ record self.old.waiting { members = self.new.waiting.members } }
    {
        self.core.show_sound();
        let CountedTopic {
            core,
            number,
            committed,
            behind,
            left,
            waiting,
            ..
        } = self;
        if !core.is_failed() {
            return Reopened::as_it_was(*number, Ok(()));
        }
        let CountedStores {
            stores: files,
            shelf,
            durable,
        } = stores;
        let before = files.len();
        if core.committed() + *left != before {
            let file = FileId::Segment {
                topic: served(files.topic()),
                number: 0,
            };
            return Reopened::as_it_was(*number, Err(Refusal::Damaged { file, offset: 0 }));
        }
        if let Err(why) = core.reopen(files, shelf) {
            return Reopened::as_it_was(*number, Err(why));
        }
        behind.transfer(committed, *left);
        *left = 0;
        level(rt, tally, durable, committed, before, files.len());
        Reopened {
            topic: *number,
            said: Ok(()),
            gone: waiting.members.take(),
        }
    }
}

/// Has both shares count so much after, which counted so much before.
fn level<K: Tallies, R: Wait>(
    rt: &R,
    tally: &DurableTally<K>,
    stores: &mut Share<DurableByStores<K>>,
    topic: &mut Share<DurableByTopics<K>>,
    before: u64,
    after: u64,
)
    requires parts { (0 < stores.old.parts) × (0 < topic.old.parts) }
    requires before { (stores.old.amount ≡ before) × (topic.old.amount ≡ before) }
    ensures stores { (stores.new.amount ≡ after) × (stores.new.parts ≡ stores.old.parts) }
    ensures topic { (topic.new.amount ≡ after) × (topic.new.parts ≡ topic.old.parts) }
{
    if before <= after {
        tally.lock(rt).raise(stores, topic, after - before);
    } else {
        tally.lock(rt).lower(stores, topic, before - after);
    }
}
