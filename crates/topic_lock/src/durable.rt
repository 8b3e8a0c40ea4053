// What all stores hold durably, and what topics and flushers know of it.
ghost use Rattle.std.specs.Prelude.{◌≡◌, ◌+◌, ◌<◌, ◌≤◌};

use crate::tally::Tallies;
use std::marker::PhantomData;
use std::sync::Mutex;
use std::sync::ledger::{Book, Ledger, Share};

/// The entries that the stores hold durably.
pub struct DurableByStores<K> {
    of: PhantomData<K>,
}

impl<K: Tallies> Ledger for DurableByStores<K> {
    ghost name = { K.durable.one.name };

    ghost parts = { K.durable.one.parts };
}

/// The entries that topics count as committed, and those that flushers wrote for them.
pub struct DurableByTopics<K> {
    of: PhantomData<K>,
}

impl<K: Tallies> Ledger for DurableByTopics<K> {
    ghost name = { K.durable.other.name };

    ghost parts = { K.durable.other.parts };
}

/// Two books of one total: the entries that the stores hold, and those that topics and flushers know to be held.
#[derive(Drop)]
pub struct Durable<K: Tallies> {
    stores: Book<DurableByStores<K>>,
    topics: Book<DurableByTopics<K>>,
    ghost balanced: { stores.total ≡ topics.total },
}

/// What is durable, behind a lock that is taken last.
pub type DurableTally<K> = Mutex<Durable<K>>;

impl<K: Tallies> Durable<K> {
    pub fn new(stores: Book<DurableByStores<K>>, topics: Book<DurableByTopics<K>>) -> Durable<K>
        requires { stores.total ≡ topics.total }
    {
        Durable { stores, topics }
    }

    /// So many more entries are held, and known to be.
    pub fn raise(
        &mut self,
        stores: &mut Share<DurableByStores<K>>,
        topics: &mut Share<DurableByTopics<K>>,
        count: u64,
    )
        requires { (0 < stores.old.parts) × (0 < topics.old.parts) }
        ensures stores { (stores.new.amount ≡ stores.old.amount + count) × (stores.new.parts ≡ stores.old.parts) }
        ensures topics { (topics.new.amount ≡ topics.old.amount + count) × (topics.new.parts ≡ topics.old.parts) }
    {
        let Durable {
            stores: held,
            topics: known,
        } = self;
        held.add(stores, count);
        known.add(topics, count);
    }

    /// So many fewer entries are held.
    pub fn lower(
        &mut self,
        stores: &mut Share<DurableByStores<K>>,
        topics: &mut Share<DurableByTopics<K>>,
        count: u64,
    )
        requires { (count ≤ stores.old.amount) × (count ≤ topics.old.amount) }
        ensures stores { (stores.new.amount + count ≡ stores.old.amount) × (stores.new.parts ≡ stores.old.parts) }
        ensures topics { (topics.new.amount + count ≡ topics.old.amount) × (topics.new.parts ≡ topics.old.parts) }
    {
        let Durable {
            stores: held,
            topics: known,
        } = self;
        held.sub(stores, count);
        known.sub(topics, count);
    }

    /// All stores together hold what these shares of topics count, or more; just that where no share of a topic or a flusher is
    /// missing.
    pub fn compare(
        &mut self,
        stores: &mut Share<DurableByStores<K>>,
        topics: &mut Share<DurableByTopics<K>>,
    )
        requires { stores.old.parts ≡ K.durable.one.parts }
        ensures same { (stores.new.amount ≡ stores.old.amount) × (topics.new.amount ≡ topics.old.amount) }
        ensures held { topics.old.amount ≤ stores.old.amount }
        ensures equal { topics.old.parts ≡ K.durable.other.parts → topics.old.amount ≡ stores.old.amount }
    {
        self.stores.audit(stores);
        self.topics.audit(topics);
    }
}
