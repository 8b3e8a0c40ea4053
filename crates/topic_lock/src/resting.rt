// A port that no thread uses.
ghost use Rattle.std.specs.Prelude.{◌≡◌};

use crate::broker::{Seat, SharedBroker};
use crate::locked::LockedPort;
use crate::parts::PortShares;
use crate::tally::Tallies;
use disk::Shelf;
use std::alloc::Global;
use std::sync::Wait;
use topic_core::TopicStore;

/// A port at rest, with its shares. It keeps no lock, so it may pass from thread to thread.
#[derive(Drop)]
pub struct RestingPort<'p, 'a, T: TopicStore, S: Shelf + Drop, K: Tallies, R: Wait> {
    pub(crate) rt: &'p R,
    pub(crate) alloc: Global,
    pub(crate) broker: &'p SharedBroker<'a, T, S, K>,
    pub(crate) seat: &'p Seat,
    pub(crate) shares: PortShares<K>,
}

impl<'p, 'a, T: TopicStore, S: Shelf + Drop, K: Tallies, R: Wait> RestingPort<'p, 'a, T, S, K, R> {
    /// A port of the connection that sits here, with the shares of one. A connection's two ports share its seat.
    pub fn new(
        rt: &'p R,
        alloc: Global,
        broker: &'p SharedBroker<'a, T, S, K>,
        seat: &'p Seat,
        shares: PortShares<K>,
    ) -> RestingPort<'p, 'a, T, S, K, R>
        ensures { result.shares ≡ shares }
    {
        RestingPort {
            rt,
            alloc,
            broker,
            seat,
            shares,
        }
    }

    /// A thread begins to use the port. `LockedPort::rest` gives it back.
    pub fn begin(self) -> LockedPort<'p, 'a, T, S, K, R>
        ensures { (result.accepted.amount ≡ self.entry.shares.accepted.amount) × (result.handed.amount ≡ self.entry.shares.handed.amount) }
    {
        let RestingPort {
            rt,
            alloc,
            broker,
            seat,
            shares,
        } = self;
        LockedPort::new(rt, alloc, broker, seat, shares)
    }

    /// Its shares, for another port.
    pub fn into_shares(self) -> PortShares<K>
        ensures { result ≡ self.entry.shares }
    {
        self.shares
    }
}
