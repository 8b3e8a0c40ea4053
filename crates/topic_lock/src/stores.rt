// A topic's stores on their device, with their share of what is durable.
ghost use Rattle.std.specs.Prelude.{◌≡◌};

use crate::durable::DurableByStores;
use crate::tally::Tallies;
use disk::Shelf;
use std::sync::ledger::Share;
use topic_core::TopicStore;

/// A topic's stores on their device, with their share of what is durable: as many entries as they remember.
#[derive(Drop)]
pub struct CountedStores<T: TopicStore, S: Shelf + Drop, K: Tallies> {
    pub(crate) stores: T,
    pub(crate) shelf: S,
    pub(crate) durable: Share<DurableByStores<K>>,
    ghost counted: { (durable.amount ≡ (T.view stores).count) × (durable.parts ≡ 1) },
}

impl<T: TopicStore, S: Shelf + Drop, K: Tallies> CountedStores<T, S, K> {
    /// Stores whose share counts what they remember.
    pub fn new(stores: T, shelf: S, durable: Share<DurableByStores<K>>) -> CountedStores<T, S, K>
        requires { (durable.amount ≡ (T.view stores).count) × (durable.parts ≡ 1) }
        ensures { (result.stores ≡ stores) × (result.shelf ≡ shelf) }
    {
        CountedStores {
            stores,
            shelf,
            durable,
        }
    }
}
