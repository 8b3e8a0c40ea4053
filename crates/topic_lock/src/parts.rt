// Shares as they are cut: those of a topic count nothing yet.
ghost use Rattle.std.specs.Prelude.{◌≡◌};

use crate::counted::TopicShares;
use crate::durable::DurableByStores;
use crate::tally::{AcceptedByPorts, HandedByPorts, Tallies};
use std::sync::ledger::Share;

/// The shares of a topic and of its stores, which count nothing yet.
#[derive(Drop)]
pub struct TopicParts<K: Tallies> {
    pub stores: Share<DurableByStores<K>>,
    pub topic: TopicShares<K>,
    ghost held: { (stores.amount ≡ 0) × (stores.parts ≡ 1) },
    ghost counted: { (topic.accepted.amount ≡ 0) × (topic.handed.amount ≡ 0) },
    ghost durable: { (topic.committed.amount ≡ 0) × (topic.behind.amount ≡ 0) },
}

/// The shares of a port, with what ports that had them were told.
#[derive(Drop)]
pub struct PortShares<K: Tallies> {
    pub accepted: Share<AcceptedByPorts<K>>,
    pub handed: Share<HandedByPorts<K>>,
    ghost one_each: { (accepted.parts ≡ 1) × (handed.parts ≡ 1) },
}
