// Counts that topics and ports keep together.
ghost use Rattle.std.specs.Prelude.{◌≡◌, ◌+◌, ◌-◌, ◌^◌, ◌<◌, ◌≤◌, ℕ, min};
ghost use Rattle.topic_lock.specs.Tallies.{Sides, no_sides};

use std::marker::{Brand, PhantomData};
use std::sync::ledger::{Book, Ledger, Share};

/// The ledgers of a run: the SENDs that were accepted, the receipts that were handed out, and the entries that are durable.
pub trait Tallies {
    ghost accepted: { Sides };

    ghost handed: { Sides };

    ghost durable: { Sides };
}

impl Tallies for Brand {
    ghost accepted = { no_sides };

    ghost handed = { no_sides };

    ghost durable = { no_sides };
}

/// The SENDs that were accepted, as the topics count them.
pub struct AcceptedByTopics<K> {
    of: PhantomData<K>,
}

impl<K: Tallies> Ledger for AcceptedByTopics<K> {
    ghost name = { K.accepted.one.name };

    ghost parts = { K.accepted.one.parts };
}

/// The SENDs that were accepted, as the ports count them.
pub struct AcceptedByPorts<K> {
    of: PhantomData<K>,
}

impl<K: Tallies> Ledger for AcceptedByPorts<K> {
    ghost name = { K.accepted.other.name };

    ghost parts = { K.accepted.other.parts };
}

/// The receipts that were collected, as the topics count them.
pub struct HandedByTopics<K> {
    of: PhantomData<K>,
}

impl<K: Tallies> Ledger for HandedByTopics<K> {
    ghost name = { K.handed.one.name };

    ghost parts = { K.handed.one.parts };
}

/// The receipts that were collected, as the ports count them.
pub struct HandedByPorts<K> {
    of: PhantomData<K>,
}

impl<K: Tallies> Ledger for HandedByPorts<K> {
    ghost name = { K.handed.other.name };

    ghost parts = { K.handed.other.parts };
}

/// Two books of one total. A share of one rises only as a share of the other does.
#[derive(Drop)]
pub struct Tally<T: Ledger, P: Ledger> {
    topics: Book<T>,
    ports: Book<P>,
    total: u64,
    ghost balanced: { topics.total ≡ ports.total },
    ghost counted: { total ≡ min ports.total (2 ^ 64 - 1) },
}

impl<T: Ledger, P: Ledger> Tally<T, P> {
    pub fn new(topics: Book<T>, ports: Book<P>) -> Tally<T, P>
        requires { (topics.total ≡ 0) × (ports.total ≡ 0) }
    {
        Tally {
            topics,
            ports,
            total: 0,
        }
    }

    /// Counts one in a topic's share and in a port's.
    pub fn count(&mut self, topic: &mut Share<T>, port: &mut Share<P>)
        requires { (0 < topic.old.parts) × (0 < port.old.parts) }
        ensures topic { (topic.new.amount ≡ topic.old.amount + 1) × (topic.new.parts ≡ topic.old.parts) }
        ensures port { (port.new.amount ≡ port.old.amount + 1) × (port.new.parts ≡ port.old.parts) }
    {
        let Tally {
            topics,
            ports,
            total,
        } = self;
        topics.add(topic, 1);
        ports.add(port, 1);
        *total = total.saturating_add(1);
    }

    /// How much all ports counted, or 2^64 - 1 where it is more. A port's share is at most that, and the whole share just that.
    pub fn total(&mut self, port: &mut Share<P>) -> u64
        ensures same { (port.new.amount ≡ port.old.amount) × (port.new.parts ≡ port.old.parts) }
        ensures bound { min port.old.amount (2 ^ 64 - 1) ≤ result }
        ensures whole { port.old.parts ≡ P.parts → result ≡ min port.old.amount (2 ^ 64 - 1) }
    {
        self.ports.audit(port);
        self.total
    }

    /// What all topics counted is what all ports counted.
    pub fn compare(&mut self, topics: &mut Share<T>, ports: &mut Share<P>)
        requires { (topics.old.parts ≡ T.parts) × (ports.old.parts ≡ P.parts) }
        ensures same { (topics.new.amount ≡ topics.old.amount) × (ports.new.amount ≡ ports.old.amount) }
        ensures equal { topics.old.amount ≡ ports.old.amount }
    {
        self.topics.audit(topics);
        self.ports.audit(ports);
    }
}
