// A topic is made.
ghost use Rattle.std.specs.Prelude.{◌≡◌, ◌<◌, [], false, IfOk, IsErr};
ghost use Rattle.std.specs.FinMap as map;
ghost use Rattle.disk.specs.Disk.{Kept as Counted, Failed};
ghost use Rattle.disk.specs.Areas.{OfTopic, Within};
ghost use Rattle.managed_ledger.specs.Entries.{whole};
ghost use Rattle.subscriptions.specs.Marks.{no_marks};
ghost use Rattle.topic_stores.specs.Views.{Settled};
ghost use Rattle.topic_core.specs.State.{opened};
ghost use Rattle.topic_core.specs.Standing.{Match, resting};

use crate::durable::Durable;
use crate::producers::Producers;
use crate::recent::Recent;
use crate::topic::TopicCore;
use disk::{DeviceError, Shelf};
use permits::Gauge;
use reply_queues::ReplyQueues;
use std::alloc::Global;
use subscriptions::Subscriptions;
use topic_stores::TopicStore;

impl<G: Gauge> TopicCore<G> {
    /// Makes the store of a topic, whatever was in its first segment and its slots, and a topic over it that nothing happened to,
    /// where a ledger id has so many entry ids. Takes no memory. Until the `Ok` a crash may leave anything of these files.
    pub fn create<T: TopicStore, S: Shelf>(
        alloc: Global,
        shelf: &mut S,
        topic: u16,
        per_ledger: u32,
    ) -> Result<(TopicCore<G>, T), DeviceError>
        requires numbered { 0 < per_ledger }
        ensures fresh { IfOk result (λ o. o.0 ≡ opened per_ledger (whole []) no_marks map.empty) }
        ensures settled { (S.disk shelf.old).honest → IfOk result (λ o. Settled (T.view o.1) (S.disk shelf.new) (whole []) map.empty) }
        ensures matched { IfOk result (λ o. Match (resting false) o.0 (T.view o.1)) }
        ensures topic { IfOk result (λ o. (T.view o.1).topic ≡ topic) }
        ensures others { (S.disk shelf.old).honest → Within (OfTopic topic) (λ c. Unit {0}) (S.disk shelf.old) (S.disk shelf.new) }
        ensures cause { IsErr result → Failed (S.disk shelf.old) (S.disk shelf.new) }
        ensures kept { Counted (S.disk shelf.old) (S.disk shelf.new) }
    {
        let stores = T::create(alloc, shelf, topic, per_ledger)?;
        let core = TopicCore {
            alloc,
            per_ledger,
            base: 0,
            committed: 0,
            durable: Recent::over(alloc, Durable::none()),
            waiting: Vec::new(alloc),
            waiting_bytes: 0,
            accepted: 0,
            handed: 0,
            producers: Producers::new(alloc),
            subs: Subscriptions::new(alloc),
            queues: ReplyQueues::new(alloc),
            doubt: None,
            failed: false,
        };
        Ok((core, stores))
    }
}
