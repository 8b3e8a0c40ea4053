ghost use Rattle.std.specs.Prelude.{◌≡◌, length, is_some};
ghost use Rattle.catalog.specs.Catalogs.{remembered, per_ledger, failed};
ghost use Rattle.node.specs.Numbers.{AreNumbered, AreNumbered-prop};

use crate::held::Held;
use catalog::Catalog;
use commands::ReplyText;
use names::TopicName;
use std::alloc::Global;
use topic_core::TopicStore;

/// The topics of a node, by their numbers, which count from 0, their names, and the device.
#[derive(Drop)]
pub(crate) struct Topics<T: TopicStore, S> {
    pub(crate) alloc: Global,
    /// By which clients find the broker.
    pub(crate) url: ReplyText,
    pub(crate) catalog: Catalog,
    /// A name that is in the catalog's file or isn't: the device failed in adding it.
    pub(crate) doubtful: Option<TopicName>,
    pub(crate) held: Vec<Held<T>>,
    pub(crate) shelf: S,
    pub ghost numbered: { AreNumbered (per_ledger catalog) held.items } by { AreNumbered-prop (per_ledger catalog) held.items },
    pub ghost named: { length (remembered catalog) ≡ length held.items },
    pub ghost doubted: { is_some doubtful ≡ failed catalog },
}

impl<T: TopicStore, S> Topics<T, S> {
    /// How many topics there are.
    pub(crate) fn count(&self) -> u64
        ensures { result ≡ length self.now.held.items }
    {
        self.held.len() as u64
    }
}
