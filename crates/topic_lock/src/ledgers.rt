// The tallies of a server and their shares, cut before any thread starts.
ghost use Rattle.std.specs.Prelude.{◌≡◌, ◌+◌, ◌*◌, ◌<◌, ◌≤◌, ◌^◌, IfOk, length};
ghost use Rattle.topic_lock.specs.Ledgers.{IsOf};

use crate::counted::flushing::Flusher;
use crate::counted::{AcceptedTally, HandedTally, TopicShares};
use crate::durable::{Durable, DurableByStores, DurableByTopics, DurableTally};
use crate::parts::{PortShares, TopicParts};
use crate::tally::{
    AcceptedByPorts, AcceptedByTopics, HandedByPorts, HandedByTopics, Tallies, Tally,
};
use std::alloc::{AllocError, Global};
use std::sync::Mutex;
use std::sync::ledger::{Blank, Share};

/// How many topics there are at most, each with stores and a flusher.
const TOPICS: u64 = 64;

/// The ledgers of a server, before a type stands for them.
#[derive(Drop)]
pub struct Blanks {
    accepted_topics: Blank,
    accepted_ports: Blank,
    handed_topics: Blank,
    handed_ports: Blank,
    durable_stores: Blank,
    durable_topics: Blank,
}

impl Blanks {
    /// Ledgers with a part for each topic and each of so many ports.
    pub fn new(ports: u32) -> Blanks
        ensures accepted { (result.accepted_topics.parts ≡ 64) × (result.accepted_ports.parts ≡ ports) }
        ensures handed { (result.handed_topics.parts ≡ 64) × (result.handed_ports.parts ≡ ports) }
        ensures durable { (result.durable_stores.parts ≡ 64) × (result.durable_topics.parts ≡ 192) }
    {
        Blanks {
            accepted_topics: Blank::new(TOPICS),
            accepted_ports: Blank::new(u64::from(ports)),
            handed_topics: Blank::new(TOPICS),
            handed_ports: Blank::new(u64::from(ports)),
            durable_stores: Blank::new(TOPICS),
            durable_topics: Blank::new(3 * TOPICS),
        }
    }
}

/// The tallies of a server behind their locks.
#[derive(Drop)]
pub struct Totals<K: Tallies> {
    pub accepted: AcceptedTally<K>,
    pub handed: HandedTally<K>,
    pub durable: DurableTally<K>,
}

/// The tallies of a server, and the shares of its topics, flushers and ports, which count nothing yet.
#[derive(Drop)]
pub struct Ledgers<K: Tallies> {
    pub totals: Totals<K>,
    pub topics: Vec<TopicParts<K>>,
    pub flushers: Vec<Flusher<K>>,
    pub ports: Vec<PortShares<K>>,
}

impl<K: Tallies> Ledgers<K> {
    /// Opens the ledgers, with shares for so many ports.
    pub fn open(alloc: Global, blanks: Blanks, ports: u32) -> Result<Ledgers<K>, AllocError>
        requires accepted { IsOf blanks.accepted_topics K.accepted.one 64 × IsOf blanks.accepted_ports K.accepted.other ports }
        requires handed { IsOf blanks.handed_topics K.handed.one 64 × IsOf blanks.handed_ports K.handed.other ports }
        requires durable { IsOf blanks.durable_stores K.durable.one 64 × IsOf blanks.durable_topics K.durable.other 192 }
        ensures { IfOk result (λ ledgers. (length ledgers.topics.items ≡ 64) × (length ledgers.flushers.items ≡ 64) × (length ledgers.ports.items ≡ ports)) }
    {
        let Blanks {
            accepted_topics,
            accepted_ports,
            handed_topics,
            handed_ports,
            durable_stores,
            durable_topics,
        } = blanks;
        let (by_topics, accepted) = accepted_topics.open::<AcceptedByTopics<K>>();
        let (by_ports, port_accepted) = accepted_ports.open::<AcceptedByPorts<K>>();
        let accepted_tally = Mutex::new(Tally::new(by_topics, by_ports));
        let (by_topics, handed) = handed_topics.open::<HandedByTopics<K>>();
        let (by_ports, port_handed) = handed_ports.open::<HandedByPorts<K>>();
        let handed_tally = Mutex::new(Tally::new(by_topics, by_ports));
        let (by_stores, held) = durable_stores.open::<DurableByStores<K>>();
        let (by_topics, mut known) = durable_topics.open::<DurableByTopics<K>>();
        let flushers = cut_flushers(alloc, &mut known)?;
        Ok(Ledgers {
            totals: Totals {
                accepted: accepted_tally,
                handed: handed_tally,
                durable: Mutex::new(Durable::new(by_stores, by_topics)),
            },
            topics: cut_topics(alloc, accepted, handed, held, known)?,
            flushers,
            ports: cut_ports(alloc, port_accepted, port_handed, ports)?,
        })
    }
}

/// A flusher's share for each topic.
fn cut_flushers<K: Tallies>(
    alloc: Global,
    known: &mut Share<DurableByTopics<K>>,
) -> Result<Vec<Flusher<K>>, AllocError>
    requires { (known.old.parts ≡ 192) × (known.old.amount ≡ 0) }
    ensures count { IfOk result (λ flushers. length flushers.items ≡ 64) }
    ensures left { IfOk result (λ _. (known.new.parts ≡ 128) × (known.new.amount ≡ 0)) }
{
    let mut flushers = Vec::new(alloc);
    for _ in 0..TOPICS {
        flushers.push(Flusher::new(known.split_off(1, 0)))?;
    }
    Ok(flushers)
}

/// The shares of each topic.
fn cut_topics<K: Tallies>(
    alloc: Global,
    accepted: Share<AcceptedByTopics<K>>,
    handed: Share<HandedByTopics<K>>,
    held: Share<DurableByStores<K>>,
    known: Share<DurableByTopics<K>>,
) -> Result<Vec<TopicParts<K>>, AllocError>
    requires counting { (accepted.parts ≡ 64) × (accepted.amount ≡ 0) × (handed.parts ≡ 64) × (handed.amount ≡ 0) }
    requires durable { (held.parts ≡ 64) × (held.amount ≡ 0) × (known.parts ≡ 128) × (known.amount ≡ 0) }
    ensures { IfOk result (λ topics. length topics.items ≡ 64) }
{
    let (mut accepted, mut handed, mut held, mut known) = (accepted, handed, held, known);
    let mut topics = Vec::new(alloc);
    for _ in 0..TOPICS {
        topics.push(topic_parts(&mut accepted, &mut handed, &mut held, &mut known))?;
    }
    Ok(topics)
}

/// The shares of one topic.
fn topic_parts<K: Tallies>(
    accepted: &mut Share<AcceptedByTopics<K>>,
    handed: &mut Share<HandedByTopics<K>>,
    held: &mut Share<DurableByStores<K>>,
    known: &mut Share<DurableByTopics<K>>,
) -> TopicParts<K>
    requires counting { (0 < accepted.old.parts) × (accepted.old.amount ≡ 0) × (0 < handed.old.parts) × (handed.old.amount ≡ 0) }
    requires durable { (0 < held.old.parts) × (held.old.amount ≡ 0) × (1 < known.old.parts) × (known.old.amount ≡ 0) }
    ensures counting { (accepted.new.parts + 1 ≡ accepted.old.parts) × (accepted.new.amount ≡ 0) × (handed.new.parts + 1 ≡ handed.old.parts) × (handed.new.amount ≡ 0) }
    ensures durable { (held.new.parts + 1 ≡ held.old.parts) × (held.new.amount ≡ 0) × (known.new.parts + 2 ≡ known.old.parts) × (known.new.amount ≡ 0) }
{
    TopicParts {
        stores: held.split_off(1, 0),
        topic: TopicShares {
            accepted: accepted.split_off(1, 0),
            handed: handed.split_off(1, 0),
            committed: known.split_off(1, 0),
            behind: known.split_off(1, 0),
        },
    }
}

/// The shares of each port.
fn cut_ports<K: Tallies>(
    alloc: Global,
    accepted: Share<AcceptedByPorts<K>>,
    handed: Share<HandedByPorts<K>>,
    count: u32,
) -> Result<Vec<PortShares<K>>, AllocError>
    requires { (accepted.parts ≡ count) × (accepted.amount ≡ 0) × (handed.parts ≡ count) × (handed.amount ≡ 0) }
    ensures { IfOk result (λ ports. length ports.items ≡ count) }
{
    let (mut accepted, mut handed) = (accepted, handed);
    let mut ports = Vec::new(alloc);
    for _ in 0..count {
        ports.push(port_shares(&mut accepted, &mut handed))?;
    }
    Ok(ports)
}

/// The shares of one port.
fn port_shares<K: Tallies>(
    accepted: &mut Share<AcceptedByPorts<K>>,
    handed: &mut Share<HandedByPorts<K>>,
) -> PortShares<K>
    requires { (0 < accepted.old.parts) × (accepted.old.amount ≡ 0) × (0 < handed.old.parts) × (handed.old.amount ≡ 0) }
    ensures { (accepted.new.parts + 1 ≡ accepted.old.parts) × (accepted.new.amount ≡ 0) × (handed.new.parts + 1 ≡ handed.old.parts) × (handed.new.amount ≡ 0) }
{
    PortShares {
        accepted: accepted.split_off(1, 0),
        handed: handed.split_off(1, 0),
    }
}
